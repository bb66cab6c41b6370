// The commands, their operands and their options.
ghost use Rattle.std.specs.Prelude.{◌≡◌, ◌∷◌, [], slice_get};
ghost use Rattle.pj_words.specs.Form.{fits_kind, is_among};
ghost use Rattle.pj_words.specs.Reader.{may_repeat};
ghost use Rattle.pj_words.specs.Request.{form_of, subcommand_named};
ghost use Rattle.pj_words.specs.Steps.{IsName, IsRangeOf, kind_of, kinds_of, name_text};

use crate::lexer::{is_number, is_operand};

/// The commands.
#[derive(Clone, Copy)]
pub(crate) enum Subcommand {
    Run,
    Replay,
    Check,
    Make,
}

/// What an operand is: one word, a number from the first to the second, or one or more words in a row.
#[derive(Clone, Copy)]
pub(crate) enum Kind {
    One,
    Number(u64, u64),
    Several,
}

/// The options.
#[derive(Clone, Copy)]
pub(crate) enum Name {
    Workers,
    Limit,
    Sorted,
    Trace,
    Check,
    Print,
}

/// The command of this name.
pub(crate) fn subcommand_named(word: &str) -> Option<Subcommand>
    ensures { result ≡ subcommand_named word.now }
{
    if word == "run" {
        Some(Subcommand::Run)
    } else if word == "replay" {
        Some(Subcommand::Replay)
    } else if word == "check" {
        Some(Subcommand::Check)
    } else if word == "make" {
        Some(Subcommand::Make)
    } else {
        None
    }
}

/// The option of this name.
pub(crate) fn name_in(text: &str) -> Option<Name>
    ensures { IsName text.now result }
{
    if text == "workers" {
        Some(Name::Workers)
    } else if text == "limit" {
        Some(Name::Limit)
    } else if text == "sorted" {
        Some(Name::Sorted)
    } else if text == "trace" {
        Some(Name::Trace)
    } else if text == "check" {
        Some(Name::Check)
    } else if text == "print" {
        Some(Name::Print)
    } else {
        None
    }
}

/// The kind of the command's operand at this place, counted from 0.
pub(crate) fn kind_at(command: Subcommand, place: usize) -> Option<Kind>
    ensures at { result ≡ slice_get (kinds_of command) place }
{
    match command {
        Subcommand::Run => [Kind::One, Kind::Several].get(place).copied(),
        Subcommand::Replay => [Kind::One, Kind::One, Kind::Several].get(place).copied(),
        Subcommand::Check => [Kind::One].get(place).copied(),
        Subcommand::Make => [Kind::Number(0, 2_147_483_647), Kind::Number(1, 1_000_000)]
            .get(place)
            .copied(),
    }
}

/// Whether the word is an operand of this kind, or the first of its words.
pub(crate) fn fits(kind: Kind, word: &str) -> bool
    ensures { result ≡ fits_kind (kind_of kind) (word.now ∷ []) }
{
    match kind {
        Kind::One => is_operand(word),
        Kind::Number(least, most) => is_number(word, least, most),
        Kind::Several => is_operand(word),
    }
}

/// Whether more words may follow in the same operand.
pub(crate) fn may_repeat(kind: Kind) -> bool
    ensures { result ≡ may_repeat (kind_of kind) }
{
    match kind {
        Kind::One => false,
        Kind::Number(_, _) => false,
        Kind::Several => true,
    }
}

/// Whether the command has this flag.
pub(crate) fn is_flag(command: Subcommand, name: Name) -> bool
    ensures { result ≡ is_among (form_of command).flags (name_text name) }
{
    match (command, name) {
        (Subcommand::Run, Name::Sorted) => true,
        (Subcommand::Run, Name::Trace) => true,
        (Subcommand::Run, Name::Check) => true,
        (Subcommand::Replay, Name::Trace) => true,
        (Subcommand::Check, Name::Print) => true,
        _ => false,
    }
}

/// The range of the numbers of this option, where the command has it and it takes one.
pub(crate) fn range_of(command: Subcommand, name: Name) -> Option<(u64, u64)>
    ensures { IsRangeOf command (name_text name) result }
{
    match (command, name) {
        (Subcommand::Run, Name::Workers) => Some((0, 16)),
        (Subcommand::Run, Name::Limit) => Some((1, 1_099_511_627_776)),
        (Subcommand::Replay, Name::Limit) => Some((1, 1_099_511_627_776)),
        _ => None,
    }
}
