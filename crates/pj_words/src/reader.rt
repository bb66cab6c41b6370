// Whether words have the form of a command, read one after the other. It takes no memory.
ghost use Rattle.std.specs.Prelude.{◌≡◌, false, map, option_map, Some, None};
ghost use Rattle.std.specs.List.{list_any};
ghost use Rattle.std.specs.String.{string_bytes};
ghost use Rattle.clap.specs.Lexer.{long_of};
ghost use Rattle.pj_words.specs.Form.{fits_range};
ghost use Rattle.pj_words.specs.Reader.{may_end, next_operand, operand_step, option_step, reads, start, step, new_option};
ghost use Rattle.pj_words.specs.Request.{form_of, subcommand_in};
ghost use Rattle.pj_words.specs.Steps.{LeadsTo, has_mark, name_text, seen_by, with_mark};

use crate::lexer::{begins_dash, is_number, is_operand, option_in};
use crate::tables::{
    Name, Subcommand, fits, is_flag, kind_at, may_repeat, name_in, range_of, subcommand_named,
};

/// Which options were given.
#[derive(Clone, Copy)]
pub(crate) struct Given {
    pub(crate) workers: bool,
    pub(crate) limit: bool,
    pub(crate) sorted: bool,
    pub(crate) trace: bool,
    pub(crate) check: bool,
    pub(crate) print: bool,
}

impl Given {
    fn has(&self, name: Name) -> bool
        ensures { result ≡ has_mark self.now name }
    {
        match name {
            Name::Workers => self.workers,
            Name::Limit => self.limit,
            Name::Sorted => self.sorted,
            Name::Trace => self.trace,
            Name::Check => self.check,
            Name::Print => self.print,
        }
    }

    fn with(self, name: Name) -> Given
        ensures { result ≡ with_mark self name }
    {
        match name {
            Name::Workers => Given {
                workers: true,
                ..self
            },
            Name::Limit => Given {
                limit: true,
                ..self
            },
            Name::Sorted => Given {
                sorted: true,
                ..self
            },
            Name::Trace => Given {
                trace: true,
                ..self
            },
            Name::Check => Given {
                check: true,
                ..self
            },
            Name::Print => Given {
                print: true,
                ..self
            },
        }
    }
}

/// What was read: how many operands were begun, whether one more FILE may follow, which options were given, and the option whose number
/// is the next word.
#[derive(Clone, Copy)]
pub(crate) struct Seen {
    pub(crate) place: usize,
    pub(crate) inside: bool,
    pub(crate) given: Given,
    pub(crate) wants: Option<Name>,
}

impl Seen {
    fn start(command: Subcommand) -> Seen
        ensures { seen_by command result ≡ start (form_of command) }
    {
        Seen {
            place: 0,
            inside: false,
            given: Given {
                workers: false,
                limit: false,
                sorted: false,
                trace: false,
                check: false,
                print: false,
            },
            wants: None,
        }
    }

    /// One more option was given.
    fn with_option(self, name: Name, wants: Option<Name>) -> Seen
        ensures { result ≡ record self { inside = false; given = with_mark self.given name; wants = wants } }
    {
        Seen {
            inside: false,
            given: self.given.with(name),
            wants,
            ..self
        }
    }
}

fn number_fits(command: Subcommand, name: Name, digits: &str) -> bool
    ensures { result ≡ list_any (fits_range (name_text name) digits.now) (form_of command).numbers }
{
    match range_of(command, name) {
        Some((least, most)) => is_number(digits, least, most),
        None => false,
    }
}

/// After the first word of one more operand.
fn next_operand(command: Subcommand, seen: Seen, word: &str) -> Option<Seen>
    ensures { LeadsTo command (next_operand (seen_by command seen) (seen_by command seen).left word.now) result }
{
    let kind = kind_at(command, seen.place)?;
    if fits(kind, word) {
        Some(Seen {
            place: seen.place + 1,
            inside: may_repeat(kind),
            ..seen
        })
    } else {
        None
    }
}

fn operand_step(command: Subcommand, seen: Seen, word: &str) -> Option<Seen>
    ensures { LeadsTo command (operand_step (seen_by command seen) word.now) result }
{
    if seen.inside && is_operand(word) {
        Some(seen)
    } else {
        next_operand(command, seen, word)
    }
}

/// A word `--name=digits` of an option that was not given before.
fn joined_step(command: Subcommand, seen: Seen, name: Name, digits: &str) -> Option<Seen>
    ensures { LeadsTo command (new_option (form_of command) (seen_by command seen) (name_text name) (Some digits.now)) result }
{
    if number_fits(command, name, digits) {
        Some(seen.with_option(name, None))
    } else {
        None
    }
}

/// A word `--name` of an option that was not given before.
fn bare_step(command: Subcommand, seen: Seen, name: Name) -> Option<Seen>
    ensures { LeadsTo command (new_option (form_of command) (seen_by command seen) (name_text name) None) result }
{
    if is_flag(command, name) {
        return Some(seen.with_option(name, None));
    }
    match range_of(command, name) {
        Some(_) => Some(seen.with_option(name, Some(name))),
        None => None,
    }
}

fn named_step(command: Subcommand, seen: Seen, name: Name, value: Option<&str>) -> Option<Seen>
    ensures { LeadsTo command (option_step (form_of command) (seen_by command seen) (Some (name_text name, option_map (λ s. s.now) value.entry))) result }
{
    if seen.given.has(name) {
        return None;
    }
    match value {
        Some(digits) => joined_step(command, seen, name, digits),
        None => bare_step(command, seen, name),
    }
}

fn text_step(command: Subcommand, seen: Seen, text: &str, value: Option<&str>) -> Option<Seen>
    ensures { LeadsTo command (option_step (form_of command) (seen_by command seen) (Some (text.now, option_map (λ s. s.now) value.entry))) result }
{
    match name_in(text) {
        Some(name) => named_step(command, seen, name, value),
        None => None,
    }
}

fn option_step(command: Subcommand, seen: Seen, word: &str) -> Option<Seen>
    ensures { LeadsTo command (option_step (form_of command) (seen_by command seen) (long_of word.now)) result }
{
    match option_in(word) {
        Some((text, value)) => text_step(command, seen, text, value),
        None => None,
    }
}

/// After one more word, where it may follow.
fn step(command: Subcommand, seen: Seen, word: &str) -> Option<Seen>
    ensures { LeadsTo command (step (form_of command) (seen_by command seen) word.now) result }
{
    match seen.wants {
        Some(name) => {
            if number_fits(command, name, word) {
                Some(Seen {
                    inside: false,
                    wants: None,
                    ..seen
                })
            } else {
                None
            }
        }
        None => {
            if begins_dash(word) {
                option_step(command, seen, word)
            } else {
                operand_step(command, seen, word)
            }
        }
    }
}

/// Whether the words may end here.
fn may_end(command: Subcommand, seen: Seen) -> bool
    ensures { result ≡ may_end (seen_by command seen) }
{
    let is_done = kind_at(command, seen.place).is_none();
    seen.wants.is_none() && is_done && !(seen.given.sorted && seen.given.trace)
}

/// Whether the words behind the command have its form.
fn reads_all(command: Subcommand, words: &[String]) -> bool
    ensures { result ≡ reads (form_of command) (map string_bytes words.now) (start (form_of command)) }
{
    let mut seen = Seen::start(command);
    for word in words {
        match step(command, seen, word.as_str()) {
            Some(next) => seen = next,
            None => return false,
        }
    }
    may_end(command, seen)
}

/// The command whose form the words have, the first of them being its name.
pub(crate) fn subcommand_in(words: &[String]) -> Option<Subcommand>
    ensures { result ≡ subcommand_in (map string_bytes words.now) }
{
    let (first, others) = words.split_first()?;
    let command = subcommand_named(first.as_str())?;
    if reads_all(command, others) {
        Some(command)
    } else {
        None
    }
}
