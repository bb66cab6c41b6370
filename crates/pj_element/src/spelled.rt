// Values that cells spell.
ghost use Rattle.std.specs.Prelude.{◌≡◌, ◌<◌, ◌≤◌, ◌^◌, ◌-◌, ℕ, length, IfOk, option_and_then, IfSome};
ghost use Rattle.pj_element.specs.Spelled.{number_from, number_of, at_most, int_of, hex_value as value_of_hex, escaped as byte_of_escape, text_from, value_of, step_of, IsSmall, LeadsToSmall};

use memchr::memchr2;
use pj_value::{Bytes, List, NoMemory, SharedText, Value};
use std::alloc::Global;

/// The value that the cell spells, or `None` exactly where it spells none: an int is an optional `-` and
/// one or more digits, from -2^63 to 2^63 - 1; a text is parts between quotes, a part being a byte other
/// than quote and backslash, or one of the escapes `\"`, `\\`, `\n`, `\r`, `\t` and `\x` with two
/// hexadecimal digits of either case. `NoMemory` comes only where memory could not be had.
pub fn read_value(alloc: Global, cell: &[u8]) -> Result<Option<Value>, NoMemory>
    ensures { IfOk result (λ value. value ≡ value_of cell.now) }
{
    match cell {
        [b'"', parts @ ..] => match read_text(alloc, parts)? {
            Some(text) => Ok(Some(Value::Text(SharedText::of(alloc, text)?))),
            None => Ok(None),
        },
        _ => match read_int(cell) {
            Some(n) => Ok(Some(Value::Int(n))),
            None => Ok(None),
        },
    }
}

/// The number that at most 19 digits spell, below 10^19, or `None` exactly where a byte is no digit. No digits spell 0.
pub fn read_digits(digits: &[u8]) -> Option<u64>
    requires { length digits.now ≤ 19 }
    ensures { result ≡ number_from 0 digits.now }
{
    let mut number = 0u64;
    for digit in digits {
        if !digit.is_ascii_digit() {
            return None;
        }
        number = number * 10 + u64::from(*digit - b'0');
    }
    Some(number)
}

// The integer that the cell spells.
fn read_int(cell: &[u8]) -> Option<i64>
    ensures { result ≡ int_of cell.now }
{
    match cell {
        [b'-', digits @ ..] => {
            let size = read_number(digits, 1 << 63)?;
            Some((0 - i128::from(size)) as i64)
        }
        _ => {
            let size = read_number(cell, (1 << 63) - 1)?;
            Some(size as i64)
        }
    }
}

// The number that one or more digits spell, if it is not above the limit.
fn read_number(digits: &[u8], limit: u64) -> Option<u64>
    requires { limit ≤ 2 ^ 63 }
    ensures { result ≡ option_and_then (at_most limit) (number_of digits.now) }
{
    if digits.is_empty() {
        return None;
    }
    if digits.len() > 19 {
        return read_many(digits, limit);
    }
    let number = read_digits(digits)?;
    if number > limit {
        return None;
    }
    Some(number)
}

// The number that one or more digits spell, if it is not above the limit, which is asked at each digit.
#[tactic(auto, using(crate::proofs::Numbers::too_large))]
fn read_many(digits: &[u8], limit: u64) -> Option<u64>
    requires limit { limit ≤ 2 ^ 63 }
    requires some { 0 < length digits.now }
    ensures { result ≡ option_and_then (at_most limit) (number_of digits.now) }
{
    let mut number = 0u64;
    for digit in digits {
        if !digit.is_ascii_digit() {
            return None;
        }
        let more = u128::from(number) * 10 + u128::from(*digit - b'0');
        if more > u128::from(limit) {
            return None;
        }
        number = more as u64;
    }
    Some(number)
}

/// Where a byte stands in the parts of a text.
#[derive(Clone, Copy)]
pub enum Part {
    Plain,
    Slash,
    Hex,
    HexAfter(u8),
}

/// What a byte does there.
#[derive(Clone, Copy)]
pub enum Step {
    Go(Part),
    Put(u8),
    Close,
    Bad,
}

// The text whose parts and closing quote these are.
fn read_text(alloc: Global, parts: &[u8]) -> Result<Option<Bytes>, NoMemory>
    ensures { IfOk result (λ text. text ≡ text_from Part.Plain parts.now) }
{
    match memchr2(b'"', b'\\', parts) {
        None => Ok(None),
        Some(stop) => {
            if parts[stop] == b'\\' {
                return Ok(read_parts(alloc, parts)?);
            }
            if stop + 1 == parts.len() {
                let (plain, _) = parts.split_at(stop);
                return Ok(Some(List::copy_of(alloc, plain)?));
            }
            Ok(None)
        }
    }
}

// The same, part by part.
#[tactic(auto, using(crate::proofs::Parts::text_goes, crate::proofs::Parts::text_grows))]
fn read_parts(alloc: Global, parts: &[u8]) -> Result<Option<Bytes>, NoMemory>
    ensures { IfOk result (λ text. text ≡ text_from Part.Plain parts.now) }
{
    let mut text = List::with_room(alloc, parts.len())?;
    let mut part = Part::Plain;
    for (at, byte) in parts.iter().enumerate() {
        match part_step(part, *byte) {
            Step::Go(next) => part = next,
            Step::Put(plain) => {
                text.push(plain)?;
                part = Part::Plain;
            }
            Step::Close if at + 1 == parts.len() => return Ok(Some(text)),
            _ => return Ok(None),
        }
    }
    Ok(None)
}

// What the byte does at that place.
fn part_step(part: Part, byte: u8) -> Step
    requires { IsSmall part }
    ensures step { result ≡ step_of part byte }
    ensures small { LeadsToSmall result }
{
    match part {
        Part::Plain => match byte {
            b'"' => Step::Close,
            b'\\' => Step::Go(Part::Slash),
            _ => Step::Put(byte),
        },
        Part::Slash if byte == b'x' => Step::Go(Part::Hex),
        Part::Slash => match escape(byte) {
            Some(plain) => Step::Put(plain),
            None => Step::Bad,
        },
        Part::Hex => match hex(byte) {
            Some(high) => Step::Go(Part::HexAfter(high)),
            None => Step::Bad,
        },
        Part::HexAfter(high) => match hex(byte) {
            Some(low) => Step::Put(16 * high + low),
            None => Step::Bad,
        },
    }
}

// The byte that a backslash and this one stand for.
fn escape(byte: u8) -> Option<u8>
    ensures { result ≡ byte_of_escape byte }
{
    match byte {
        b'"' | b'\\' => Some(byte),
        b'n' => Some(b'\n'),
        b'r' => Some(b'\r'),
        b't' => Some(b'\t'),
        _ => None,
    }
}

// The number that a hexadecimal digit stands for.
fn hex(byte: u8) -> Option<u8>
    ensures value { result ≡ value_of_hex byte }
    ensures small { IfSome result (λ n. n < 16) }
{
    match byte {
        b'0'..=b'9' => Some(byte - b'0'),
        b'a'..=b'f' => Some(byte - b'a' + 10),
        b'A'..=b'F' => Some(byte - b'A' + 10),
        _ => None,
    }
}
