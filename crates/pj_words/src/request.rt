// What a command line asks for.
ghost use Rattle.std.specs.Prelude.{◌≡◌, IfOk, Some, None, map};
ghost use Rattle.std.specs.String.{string_bytes};
ghost use Rattle.pj_words.specs.Request.{IsRequest, request_in};
ghost use Rattle.pj_words.specs.declared.request.WordStop.TheVariants.{Usage};

use crate::matches::request_for;
use crate::reader::subcommand_in;
use pj_value::{Bytes, List, NoMemory};
use std::alloc::Global;

/// What the words of a command line ask for. Texts are the words' own bytes; a word that is an operand is not empty and does not begin
/// with `-`.
#[derive(Drop)]
pub enum Request {
    /// `run`: the inputs are fed to the plan until they end, and what comes out is written.
    Run {
        /// PLAN, the name of the plan's file.
        plan: Bytes,
        /// FILE, the names of the inputs in their order; at least one.
        files: List<Bytes>,
        /// `--workers N`, how many threads look for partners beside those that read and the one that writes, 0 to 16; 0 is one thread for all.
        /// 2 is the default.
        workers: u32,
        /// `--sorted`, the rows are written sorted and before all punctuations; by default as they come. Not together with `trace`.
        sorted: bool,
        /// `--trace`, removed rows are told among the output; by default they are not.
        trace: bool,
        /// `--check`, the report tells how many rows the plan's answer over the accepted rows has, worked out again; by default it does
        /// not.
        check: bool,
        /// `--limit N`, how many elements may arrive at a join or group, 1 to 1099511627776, which is the default.
        limit: u64,
    },
    /// `replay`: the same on one thread, step by step as a script says.
    Replay {
        /// PLAN, the name of the plan's file.
        plan: Bytes,
        /// SCRIPT, the name of the file with the steps.
        script: Bytes,
        /// FILE, the names of the inputs in their order; at least one.
        files: List<Bytes>,
        /// `--trace`, removed rows are told among the output; by default they are not.
        trace: bool,
        /// `--limit N`, how many elements may arrive at a join or group, 1 to 1099511627776, which is the default.
        limit: u64,
    },
    /// `check`: it is told whether the plan is safe.
    Check {
        /// PLAN, the name of the plan's file.
        plan: Bytes,
        /// `--print`, the plan is written in its canonical form first; by default it is not.
        print: bool,
    },
    /// `make`: inputs are made and run.
    Make {
        /// SEED, where the made inputs begin, 0 to 2147483647.
        seed: u32,
        /// N, how large the made inputs are, 1 to 1000000.
        count: u32,
    },
}

/// Why words gave no request.
#[derive(Clone, Copy, Debug, PartialEq, Eq)]
pub enum WordStop {
    /// The words do not have the form.
    Usage,
    /// Memory could not be had.
    NoMemory,
}

impl From<NoMemory> for WordStop {
    ghost use Rattle.std.specs.Prelude.{◌≡◌};
    ghost use Rattle.pj_words.specs.declared.request.WordStop.TheVariants.{NoMemory as OutOfMemory};

    ghost from_gives = { λ _ stop. stop ≡ OutOfMemory };

    fn from(_: NoMemory) -> WordStop {
        WordStop::NoMemory
    }
}

/// The request that the words ask for, these being the words of a command line behind the program's name. `Usage` comes exactly where they
/// have the form of no command, and then nothing was allocated.
pub fn request_of(alloc: Global, words: &[String]) -> Result<Request, WordStop>
    ensures ok { IfOk result (λ r. request_in (map string_bytes words.now) ≡ Some r) }
    ensures kept { IfOk result IsRequest }
    ensures usage { result ≡ Err Usage → request_in (map string_bytes words.now) ≡ None }
    ensures refused { request_in (map string_bytes words.now) ≡ None → result ≡ Err Usage }
{
    match subcommand_in(words) {
        Some(command) => Ok(request_for(alloc, command, words)?),
        None => Err(WordStop::Usage),
    }
}
