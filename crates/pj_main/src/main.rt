//! Reads a plan and its files, and writes the results to standard output.
#![tactic(auto)]

use pj_engine::{OpenGate, run_words};
use pj_io::{DiskFolder, StdSink};
use std::env;
use std::io::ErrorKind;
use std::process::ExitCode;

const NO_MEMORY: u8 = 5;

const NO_WORDS: u8 = 65;

fn main(rt: HostRuntime) -> ExitCode {
    let words = match env::args(&rt) {
        Ok(args) => args,
        Err(error) => return ExitCode::from(without_words(error.kind())),
    };
    let Ok(words) = words.skip(1).collect::<Vec<String>>(rt.alloc()) else {
        return ExitCode::from(NO_MEMORY);
    };
    let mut folder = DiskFolder::new(rt.alloc(), &rt);
    let Ok(mut out) = StdSink::new(rt.alloc(), &rt) else {
        return ExitCode::from(NO_MEMORY);
    };
    let status = run_words(&rt, words.as_slice(), &mut folder, &mut out, &OpenGate);
    ExitCode::from(status.number())
}

// The exit status where the words can't be had.
fn without_words(why: ErrorKind) -> u8 {
    match why {
        ErrorKind::OutOfMemory => NO_MEMORY,
        _ => NO_WORDS,
    }
}
