// What no clause says: that the calls succeed with ample memory, on worked lines.
ghost use Rattle.std.specs.Prelude.{IfOk};
ghost use Rattle.pj_line.specs.Buffers.{KnowsEnd};

use crate::texts::{append_reject, digit, schema_of};
use pj_element::{punct_text, row_text};
use pj_intake::{Intake, IntakeStop, Step};
use pj_io::MemSource;
use pj_value::{Bytes, Kind, List, NoMemory};
use std::alloc::Global;

// The element that is accepted, or the number of a line and why it is rejected; the end or the stop.
fn append_answer(
    alloc: Global,
    answer: Result<Step, IntakeStop>,
    out: &mut Bytes,
) -> Result<(), NoMemory> {
    match answer {
        Ok(Step::Tuple(row)) => row_text(alloc, &row, out),
        Ok(Step::Punct(punct)) => punct_text(alloc, &punct, out),
        Ok(Step::Rejected(line, why)) => {
            out.push(digit(line))?;
            append_reject(why, out)
        }
        Ok(Step::End) => out.append(b"end"),
        Err(IntakeStop::ReadFault) => out.append(b"fault"),
        Err(IntakeStop::ByteLimit) => out.append(b"limit"),
        Err(IntakeStop::NoMemory) => out.append(b"memory"),
    }
}

// The bytes of a file, read in pieces of at most so many, the read that fails, how many bytes may be taken, and what comes.
type Case = (&'static str, usize, u64, u64, &'static str);

const LINES: &str = "t 1 \"a\"\np 1 *\nt 1 \"b\"\nt 2 \"b\"";

#[rattlefmt::skip]
const CASES: [Case; 6] = [
    (LINES, 1, 99, 1000, "t 1 \"a\"?p 1 *?3c2?t 2 \"b\"|end|end|2111"),
    (LINES, 7, 99, 1000, "t 1 \"a\"|p 1 *?3c2?t 2 \"b\"|end|end|2111"),
    (LINES, 4096, 99, 1000, "t 1 \"a\"|p 1 *|3c2?t 2 \"b\"|end|end|2111"),
    ("\n# c\nt x \"a\"\n\n", 5, 99, 1000, "3b1?end|end|end|end|end|0011"),
    ("t 1 \"a\"\nt 2", 9, 99, 10, "t 1 \"a\"?limit|limit|limit|limit|limit|1000"),
    ("t 1 \"a\"\nt 2", 8, 1, 99, "t 1 \"a\"?fault|fault|fault|fault|fault|1000"),
];

// Of a stream with an int column and a text column.
fn intake_of(alloc: Global, case: &Case) -> Result<Intake<MemSource>, NoMemory>
    ensures { IfOk result (λ intake. KnowsEnd intake.state.buffer intake.source.source) }
{
    let (bytes, cut, fail, limit, _) = *case;
    let schema = schema_of(alloc, &[Kind::Int, Kind::Text])?;
    let source = MemSource::new(alloc, bytes.as_bytes(), cut.max(1), &[fail])?;
    match Intake::new(alloc, schema, source, limit.max(1)) {
        Ok(intake) => Ok(intake),
        Err((_, stop)) => Err(stop),
    }
}

// What six calls give, with `?` behind one where the next would wait for its source and `|` behind the others, and the counts of
// tuples, punctuations, rejects and listed rejects.
fn given(alloc: Global, case: &Case) -> Result<Bytes, NoMemory> {
    let mut intake = intake_of(alloc, case)?;
    let mut out = List::new(alloc);
    for _ in 0..6 {
        append_answer(alloc, intake.next(), &mut out)?;
        out.push(if intake.waits() { b'?' } else { b'|' })?;
    }
    let (_, tally) = intake.close();
    let listed = tally.listed.len() as u64;
    for count in [tally.tuples, tally.puncts, tally.rejected, listed] {
        out.push(digit(count))?;
    }
    Ok(out)
}

#[test]
fn lines_are_judged_one_by_one(rt: HostRuntime) {
    for case in CASES {
        let given = given(rt.alloc(), &case);
        let want = case.4;
        assert!(rt;
            matches!(&given, Ok(given) if given.as_slice() == want.as_bytes()),
            "at {want}"
        );
    }
}
