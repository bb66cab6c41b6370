// The values that clap found for the words.
ghost use Rattle.std.specs.Prelude.{◌≡◌, ◌≤◌, ◌<◌, ◌^◌, IfOk, codes, is_some, length, map, true, Some};
ghost use Rattle.std.specs.String.{string_bytes};
ghost use Rattle.std.specs.Str.Parse.{digits_value};
ghost use Rattle.clap.specs.Lexer.{usize_max};
ghost use Rattle.clap.specs.Words.{subcommand_of, subcommand_rows_of, takes, rows_of, found_of};
ghost use Rattle.pj_words.specs.Clap.{pj_app};
ghost use Rattle.pj_words.specs.Found.{text_in, texts_in, number_in, is_numeral};
ghost use Rattle.pj_words.specs.Matches.{FitsNumber, IsCheckFound, IsFlag, IsFound, IsMakeFound, IsReplayFound, IsRunFound, flag_in, found_by, limit_in, rows_under};
ghost use Rattle.pj_words.specs.Request.{request_in, subcommand_in};
ghost use Rattle.pj_words.specs.declared.tables.Subcommand.TheVariants.{Run as Running, Replay as Replaying, Check as Checking, Make as Making};

use crate::commands::pj_command;
use crate::request::Request;
use crate::tables::Subcommand;
use clap::ArgMatches;
use clap::error::ErrorKind;
use pj_value::{Bytes, List, NoMemory};
use std::alloc::Global;

/// What clap finds for words that it takes. It refuses them for want of memory alone.
pub(crate) fn matches_of<'a>(alloc: Global, words: &'a [String]) -> Result<ArgMatches<'a>, NoMemory>
    requires { takes pj_app (map string_bytes words.now) ≡ true }
    ensures { IfOk result (λ m. subcommand_rows_of m ≡ subcommand_of pj_app (map string_bytes words.now)) }
{
    let command = pj_command(alloc)?;
    match command.try_get_matches_from(words) {
        Ok(matches) => Ok(matches),
        Err(error) => {
            let is_memory = error.kind() == ErrorKind::OutOfMemory;
            prove!(is_memory);
            Err(NoMemory)
        }
    }
}

/// The first value of an argument, and no bytes where it has none.
fn text_of(alloc: Global, matches: &ArgMatches<'_>, id: &str) -> Result<Bytes, NoMemory>
    ensures { IfOk result (λ b. b ≡ text_in id.now (rows_of (found_of matches.now))) }
{
    match matches.get_str(id) {
        Some(text) => List::copy_of(alloc, text.as_bytes()),
        None => Ok(List::new(alloc)),
    }
}

/// All values of an argument.
fn texts_of(alloc: Global, matches: &ArgMatches<'_>, id: &str) -> Result<List<Bytes>, NoMemory>
    ensures { IfOk result (λ l. l ≡ texts_in id.now (rows_of (found_of matches.now))) }
{
    match matches.get_strs(id) {
        Some(texts) => copies(alloc, texts),
        None => Ok(List::new(alloc)),
    }
}

fn copies(alloc: Global, texts: &[&str]) -> Result<List<Bytes>, NoMemory>
    ensures { IfOk result (λ l. l ≡ map (λ t. t.now) texts.now) }
{
    let mut list = List::new(alloc);
    for text in texts {
        list.push(List::copy_of(alloc, text.as_bytes())?)?;
    }
    Ok(list)
}

/// The number of an option, at most `most`; `other` where it was not given.
fn number_of(matches: &ArgMatches<'_>, id: &str, other: u64, most: u64) -> u64
    requires below { other ≤ most }
    requires fits { FitsNumber id.now most (rows_of (found_of matches.now)) }
    ensures within { result ≤ most }
    ensures value { result ≡ number_in id.now other (rows_of (found_of matches.now)) }
{
    match matches.get_str(id) {
        Some(text) => digits_of(text).min(most),
        None => other,
    }
}

/// Whether a flag was given.
fn has_flag(matches: &ArgMatches<'_>, id: &str) -> bool
    requires { IsFlag id.now (rows_of (found_of matches.now)) }
    ensures { result ≡ flag_in id.now (rows_of (found_of matches.now)) }
{
    matches.get_flag(id)
}

fn digits_of(text: &str) -> u64
    ensures { is_numeral text.now ≡ true → digits_value 10 text.now < 2 ^ 64 → result ≡ digits_value 10 text.now }
{
    match text.parse::<u64>() {
        Ok(number) => number,
        Err(_) => 0,
    }
}

/// The number of an operand, at most `most`, as 32 bits.
fn small_of(matches: &ArgMatches<'_>, id: &str, most: u32) -> u32
    requires fits { FitsNumber id.now most (rows_of (found_of matches.now)) }
    ensures { result ≡ number_in id.now 0 (rows_of (found_of matches.now)) }
{
    number_of(matches, id, 0, most as u64) as u32
}

/// How many workers there are, 2 where that was not given.
fn workers_of(matches: &ArgMatches<'_>) -> u32
    requires { FitsNumber (codes "workers") 16 (rows_of (found_of matches.now)) }
    ensures { result ≡ number_in (codes "workers") 2 (rows_of (found_of matches.now)) }
{
    number_of(matches, "workers", 2, 16) as u32
}

fn limit_of(matches: &ArgMatches<'_>) -> u64
    requires { FitsNumber (codes "limit") 1099511627776 (rows_of (found_of matches.now)) }
    ensures { result ≡ limit_in (rows_of (found_of matches.now)) }
{
    number_of(matches, "limit", 1_099_511_627_776, 1_099_511_627_776)
}

fn run_request(alloc: Global, matches: &ArgMatches<'_>) -> Result<Request, NoMemory>
    requires { IsRunFound (rows_of (found_of matches.now)) }
    ensures { IfOk result (λ r. r ≡ found_by Running (rows_of (found_of matches.now))) }
{
    Ok(Request::Run {
        plan: text_of(alloc, matches, "plan")?,
        files: texts_of(alloc, matches, "files")?,
        workers: workers_of(matches),
        sorted: has_flag(matches, "sorted"),
        trace: has_flag(matches, "trace"),
        check: has_flag(matches, "check"),
        limit: limit_of(matches),
    })
}

fn replay_request(alloc: Global, matches: &ArgMatches<'_>) -> Result<Request, NoMemory>
    requires { IsReplayFound (rows_of (found_of matches.now)) }
    ensures { IfOk result (λ r. r ≡ found_by Replaying (rows_of (found_of matches.now))) }
{
    Ok(Request::Replay {
        plan: text_of(alloc, matches, "plan")?,
        script: text_of(alloc, matches, "script")?,
        files: texts_of(alloc, matches, "files")?,
        trace: has_flag(matches, "trace"),
        limit: limit_of(matches),
    })
}

fn check_request(alloc: Global, matches: &ArgMatches<'_>) -> Result<Request, NoMemory>
    requires { IsCheckFound (rows_of (found_of matches.now)) }
    ensures { IfOk result (λ r. r ≡ found_by Checking (rows_of (found_of matches.now))) }
{
    Ok(Request::Check {
        plan: text_of(alloc, matches, "plan")?,
        print: has_flag(matches, "print"),
    })
}

fn make_request(matches: &ArgMatches<'_>) -> Request
    requires { IsMakeFound (rows_of (found_of matches.now)) }
    ensures { result ≡ found_by Making (rows_of (found_of matches.now)) }
{
    Request::Make {
        seed: small_of(matches, "seed", 2_147_483_647),
        count: small_of(matches, "count", 1_000_000),
    }
}

fn count_of(words: &[String]) -> usize
    ensures { length words.now ≤ usize_max }
{
    words.len()
}

/// What clap finds for words of the form of this command.
fn line_matches<'a>(
    alloc: Global,
    command: Subcommand,
    words: &'a [String],
) -> Result<ArgMatches<'a>, NoMemory>
    requires { subcommand_in (map string_bytes words.now) ≡ Some command }
    ensures some { IfOk result (λ m. is_some (subcommand_rows_of m) ≡ true) }
    ensures found { IfOk result (λ m. IsFound command (rows_under (subcommand_rows_of m))) }
    ensures value { IfOk result (λ m. request_in (map string_bytes words.now) ≡ Some (found_by command (rows_under (subcommand_rows_of m)))) }
{
    let _count = count_of(words);
    Ok(matches_of(alloc, words)?)
}

/// The request of what clap found for words of the form of this command.
fn request_read(
    alloc: Global,
    command: Subcommand,
    found: &ArgMatches<'_>,
) -> Result<Request, NoMemory>
    requires { IsFound command (rows_of (found_of found.now)) }
    ensures { IfOk result (λ r. r ≡ found_by command (rows_of (found_of found.now))) }
{
    match command {
        Subcommand::Run => run_request(alloc, found),
        Subcommand::Replay => replay_request(alloc, found),
        Subcommand::Check => check_request(alloc, found),
        Subcommand::Make => Ok(make_request(found)),
    }
}

/// The request of words that have the form of this command.
pub(crate) fn request_for(
    alloc: Global,
    command: Subcommand,
    words: &[String],
) -> Result<Request, NoMemory>
    requires { subcommand_in (map string_bytes words.now) ≡ Some command }
    ensures { IfOk result (λ r. request_in (map string_bytes words.now) ≡ Some r) }
{
    let matches = line_matches(alloc, command, words)?;
    match matches.subcommand() {
        Some((_, found)) => request_read(alloc, command, found),
        None => {
            prove!(false);
            Err(NoMemory)
        }
    }
}
