// The canonical spelling of a value.
ghost use Rattle.std.specs.Prelude.{◌≡◌, ◌++◌, ◌∷◌, [], ◌<◌, ◌≤◌, ℕ, length, slice_index, true, false, IfOk, OnOk, OnErr};
ghost use Rattle.std.specs.List.{flat_map};
ghost use Rattle.pj_value.specs.Texts.{value_spelling, values_spelling, spelled_byte, hex_digit, plain, IsFront};

use crate::{List, NoMemory, Value};
use itoa::Buffer;
use std::alloc::Global;

/// Appends the canonical spelling of a value to `out`: an integer in decimals without leading zeros, a text in quotes
/// with its quotes, backslashes and control bytes escaped. On a refusal `out` is as it was.
pub fn value_text(_alloc: Global, value: &Value, out: &mut List<u8>) -> Result<(), NoMemory>
    ensures ok { OnOk result (out.new ≡ out.old ++ value_spelling value.now) }
    ensures err { OnErr result (out.new ≡ out.old) }
{
    let start = out.len();
    match append_value(value, out) {
        Ok(()) => Ok(()),
        Err(stop) => {
            out.truncate(start);
            Err(stop)
        }
    }
}

fn append_value(value: &Value, out: &mut List<u8>) -> Result<(), NoMemory>
    ensures ok { OnOk result (out.new ≡ out.old ++ value_spelling value.now) }
    ensures err { OnErr result (IsFront out.old out.new) }
{
    match value {
        Value::Int(n) => {
            let mut digits = Buffer::new();
            out.append(digits.format(*n).as_bytes())
        }
        Value::Text(text) => append_quoted(text.as_slice(), out),
    }
}

fn append_quoted(text: &[u8], out: &mut List<u8>) -> Result<(), NoMemory>
    ensures ok { OnOk result (out.new ≡ out.old ++ (34 ∷ flat_map spelled_byte text.now ++ 34 ∷ [])) }
    ensures err { OnErr result (IsFront out.old out.new) }
{
    out.push(b'"')?;
    append_escaped(text, out)?;
    out.push(b'"')
}

// Appends the bytes escaped, each run of plain ones as one piece.
fn append_escaped(text: &[u8], out: &mut List<u8>) -> Result<(), NoMemory>
    ensures ok { OnOk result (out.new ≡ out.old ++ flat_map spelled_byte text.now) }
    ensures err { OnErr result (IsFront out.old out.new) }
{
    let mut rest = text;
    while !rest.is_empty() {
        rest = append_front(rest, out)?;
    }
    Ok(())
}

// Appends plain bytes at the front and the byte behind them, which is escaped, and gives what is left.
#[tactic(auto, using(crate::proofs::Plain::front_all, crate::proofs::Plain::front_more))]
fn append_front<'a>(bytes: &'a [u8], out: &mut List<u8>) -> Result<&'a [u8], NoMemory>
    requires { 0 < length bytes.now }
    ensures more { IfOk result (λ more. out.new ++ flat_map spelled_byte more.now ≡ out.old ++ flat_map spelled_byte bytes.now) }
    ensures shorter { IfOk result (λ more. length more.now < length bytes.now) }
    ensures front { IsFront out.old out.new }
{
    let (run, behind) = bytes.split_at(plain_len(bytes));
    out.append(run)?;
    match behind.split_first() {
        None => Ok(behind),
        Some((byte, more)) => {
            append_byte(*byte, out)?;
            Ok(more)
        }
    }
}

/// How many bytes at the front stand for themselves inside quotes.
pub fn plain_len(bytes: &[u8]) -> usize
    ensures within { result ≤ length bytes.now }
    ensures run { (k : ℕ) → k < result → plain (slice_index bytes.now k) ≡ true }
    ensures ends { result < length bytes.now → plain (slice_index bytes.now result) ≡ false }
{
    for (at, byte) in bytes.iter().enumerate() {
        if !is_plain(*byte) {
            return at;
        }
    }
    bytes.len()
}

// 1 where the byte stands for itself inside quotes.
static PLAIN: [u8; 256] = [
    0, 0, 0, 0, 0, 0, 0, 0, 0, 0, 0, 0, 0, 0, 0, 0, 0, 0, 0, 0, 0, 0, 0, 0, 0, 0, 0, 0, 0, 0, 0, 0,
    1, 1, 0, 1, 1, 1, 1, 1, 1, 1, 1, 1, 1, 1, 1, 1, 1, 1, 1, 1, 1, 1, 1, 1, 1, 1, 1, 1, 1, 1, 1, 1,
    1, 1, 1, 1, 1, 1, 1, 1, 1, 1, 1, 1, 1, 1, 1, 1, 1, 1, 1, 1, 1, 1, 1, 1, 1, 1, 1, 1, 0, 1, 1, 1,
    1, 1, 1, 1, 1, 1, 1, 1, 1, 1, 1, 1, 1, 1, 1, 1, 1, 1, 1, 1, 1, 1, 1, 1, 1, 1, 1, 1, 1, 1, 1, 0,
    1, 1, 1, 1, 1, 1, 1, 1, 1, 1, 1, 1, 1, 1, 1, 1, 1, 1, 1, 1, 1, 1, 1, 1, 1, 1, 1, 1, 1, 1, 1, 1,
    1, 1, 1, 1, 1, 1, 1, 1, 1, 1, 1, 1, 1, 1, 1, 1, 1, 1, 1, 1, 1, 1, 1, 1, 1, 1, 1, 1, 1, 1, 1, 1,
    1, 1, 1, 1, 1, 1, 1, 1, 1, 1, 1, 1, 1, 1, 1, 1, 1, 1, 1, 1, 1, 1, 1, 1, 1, 1, 1, 1, 1, 1, 1, 1,
    1, 1, 1, 1, 1, 1, 1, 1, 1, 1, 1, 1, 1, 1, 1, 1, 1, 1, 1, 1, 1, 1, 1, 1, 1, 1, 1, 1, 1, 1, 1, 1,
];

#[tactic(auto, using(crate::proofs::Plain::plain_test))]
fn is_plain(byte: u8) -> bool
    ensures { result ≡ plain byte }
{
    PLAIN[byte as usize] == 1
}

/// Appends the canonical spelling of each value behind a space. On a refusal some of it may stand.
pub(crate) fn values_text(
    alloc: Global,
    values: &[Value],
    out: &mut List<u8>,
) -> Result<(), NoMemory>
    ensures ok { OnOk result (out.new ≡ out.old ++ values_spelling values.now) }
    ensures err { OnErr result (IsFront out.old out.new) }
{
    for value in values {
        out.push(b' ')?;
        value_text(alloc, value, out)?;
    }
    Ok(())
}

fn append_byte(byte: u8, out: &mut List<u8>) -> Result<(), NoMemory>
    ensures ok { OnOk result (out.new ≡ out.old ++ spelled_byte byte) }
    ensures err { OnErr result (out.new ≡ out.old) }
{
    match byte {
        b'"' => out.append(b"\\\""),
        b'\\' => out.append(b"\\\\"),
        b'\n' => out.append(b"\\n"),
        b'\r' => out.append(b"\\r"),
        b'\t' => out.append(b"\\t"),
        0..=31 | 127 => out.append(&[b'\\', b'x', hex(byte / 16), hex(byte % 16)]),
        _ => out.push(byte),
    }
}

fn hex(digit: u8) -> u8
    requires { digit < 16 }
    ensures { result ≡ hex_digit digit }
{
    if digit < 10 {
        b'0' + digit
    } else {
        b'a' - 10 + digit
    }
}
