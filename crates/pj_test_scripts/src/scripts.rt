// What no clause says: that scripts are read with ample memory, and what they say by hand.
use pj_plan::Plan;
use pj_plan_text::read_plan;
use pj_script::{ScriptStep, ScriptStop, read_script};
use pj_value::{List, NoMemory};
use std::alloc::Global;
use std::test::Fail;

pub(crate) const AUCTION: &[u8] =
    b"plan 1\nstream items item:int seller:text\nscheme items + _\nstream bids bitem:int price:int\nscheme bids + _\njoin j items bids on item=bitem\noutput j\n";

// The join of the auction, which is its last node.
pub(crate) const JOIN: u32 = 2;

const ITEMS: ScriptStep = ScriptStep::Arrive(0);

const BIDS: ScriptStep = ScriptStep::Arrive(1);

fn auction(alloc: Global) -> Result<Plan, NoMemory> {
    match read_plan(alloc, AUCTION) {
        Ok(plan) => Ok(plan),
        Err(_) => Err(NoMemory),
    }
}

pub(crate) fn give(ticket: u64) -> ScriptStep {
    ScriptStep::Give { join: JOIN, ticket }
}

pub(crate) fn sweep(input: u32) -> ScriptStep {
    ScriptStep::Sweep { join: JOIN, input }
}

// Whether the bytes are read as these steps, each with its line.
fn is_read(alloc: Global, bytes: &[u8], want: &[(u64, ScriptStep)]) -> bool {
    match auction(alloc) {
        Ok(plan) => match read_script(alloc, &plan, bytes) {
            Ok(steps) => steps.as_slice() == want,
            Err(_) => false,
        },
        Err(NoMemory) => false,
    }
}

// The line that is refused; 0 where none is.
fn refused_at(alloc: Global, bytes: &[u8]) -> Result<u64, NoMemory> {
    let plan = auction(alloc)?;
    match read_script(alloc, &plan, bytes) {
        Ok(_steps) => Ok(0),
        Err(ScriptStop::Fault { line }) => Ok(line),
        Err(ScriptStop::NoMemory) => Err(NoMemory),
    }
}

// ---- scripts that are read

#[test]
fn each_step_is_read(rt: HostRuntime) {
    let bytes = b"arrive items\narrive bids\ntake\ngive j 0\nsweep j items\nsweep j bids\ndrain\n";
    let want = [
        (1, ITEMS),
        (2, BIDS),
        (3, ScriptStep::Take),
        (4, give(0)),
        (5, sweep(0)),
        (6, sweep(1)),
        (7, ScriptStep::Drain),
    ];
    assert!(rt; is_read(rt.alloc(), bytes, &want));
}

// Comments and lines of blanks count, and blanks around words and a carriage return do not; the last line needs no line feed.
#[test]
fn lines_that_are_skipped_count(rt: HostRuntime) {
    let alloc = rt.alloc();
    let bytes = b"# steps\n\n \t\n\ttake\t\n  give \t j   7 \r\n\r\n#take\narrive bids";
    let want = [(4, ScriptStep::Take), (5, give(7)), (8, BIDS)];
    assert!(rt; is_read(alloc, bytes, &want));
    assert!(rt; is_read(alloc, b"\n\n# none\n", &[]));
    assert!(rt; is_read(alloc, b"", &[]));
    assert!(rt; is_read(alloc, b"drain\r", &[(1, ScriptStep::Drain)]));
}

#[test]
fn tickets_have_up_to_nineteen_digits(rt: HostRuntime) {
    let alloc = rt.alloc();
    let large = b"give j 9999999999999999999\ngive j 1000000000000000000";
    let zeros = b"give j 000\ngive j 0042\ngive j 0000000000000000001";
    let larger = [
        (1, give(9_999_999_999_999_999_999)),
        (2, give(1_000_000_000_000_000_000)),
    ];
    let small = [(1, give(0)), (2, give(42)), (3, give(1))];
    assert!(rt; is_read(alloc, large, &larger));
    assert!(rt; is_read(alloc, zeros, &small));
}

// ---- scripts that are refused

// The bytes, with a line feed for each semicolon.
fn lines(alloc: Global, row: &str) -> Result<List<u8>, NoMemory> {
    let mut bytes = List::new(alloc);
    for byte in row.as_bytes() {
        bytes.push(if *byte == b';' { b'\n' } else { *byte })?;
    }
    Ok(bytes)
}

// Whether the script in front of the arrow is refused at the line behind it.
fn is_refused(alloc: Global, row: &str) -> Result<bool, NoMemory> {
    let (script, want) = row.split_once(" => ").unwrap_or((row, ""));
    let bytes = lines(alloc, script)?;
    let line = refused_at(alloc, bytes.as_slice())?;
    Ok(want.parse::<u64>().ok() == Some(line))
}

fn are_refused(alloc: Global, table: &str) -> Result<bool, NoMemory> {
    for row in table.split('\n') {
        if !is_refused(alloc, row)? {
            return Ok(false);
        }
    }
    Ok(true)
}

// Names that are not there, or are no stream's, join's or input's.
fn wrong_names() -> &'static str {
    concat!(
        "arrive items;take;arrive q => 3\n",
        "take;arrive j => 2\n",
        "# none;;take;give items 0 => 4\n",
        "take;give q 0 => 2\n",
        "arrive bids;take;sweep j j => 3\n",
        "sweep j items;sweep j q => 2\n",
        "sweep j bids;drain;sweep bids items => 3\n",
        "take;sweep q items => 2",
    )
}

// Lines whose words or cells are no step's.
fn wrong_words() -> &'static str {
    concat!(
        "take;take;arrive => 3\n",
        "take;arrive items bids => 2\n",
        "drain;take 1 => 2\n",
        "take;drain now => 2\n",
        "arrive items;Take => 2\n",
        "take;settle => 2\n",
        "take;sweep j => 2\n",
        "take;give j 0 0 => 2\n",
        "take;\"take => 2\n",
        "take;\"take\" => 2\n",
        "take;;take # now => 3\n",
        "q => 1\n",
        "take;q;arrive q => 2",
    )
}

// Tickets that are no number of 1 to 19 digits.
fn wrong_tickets() -> &'static str {
    concat!(
        "take;give j => 2\n",
        "take;give j -1 => 2\n",
        "take;give j +1 => 2\n",
        "take;give j 1x => 2\n",
        "take;give j \"\" => 2\n",
        "give j 0;take;give j 12345678901234567890 => 3\n",
        "take;give j 00000000000000000000 => 2",
    )
}

#[test]
fn lines_that_are_no_steps_are_refused(rt: HostRuntime) -> Result<(), Fail> {
    assert!(rt; are_refused(rt.alloc(), wrong_names())?);
    assert!(rt; are_refused(rt.alloc(), wrong_words())?);
    assert!(rt; are_refused(rt.alloc(), wrong_tickets())?);
    Ok(())
}

// ---- long lines

// A step, and then a line that begins so and has so many bytes.
fn with_long_line(alloc: Global, begin: &[u8], length: usize) -> Result<List<u8>, NoMemory> {
    let mut bytes = List::copy_of(alloc, b"take\n")?;
    bytes.append(begin)?;
    for _ in begin.len()..length {
        bytes.push(b' ')?;
    }
    bytes.append(b"\ndrain\n")?;
    Ok(bytes)
}

// The line that is refused where the second line begins so and has so many bytes.
fn refused_with(alloc: Global, begin: &[u8], length: usize) -> Result<u64, NoMemory> {
    let bytes = with_long_line(alloc, begin, length)?;
    refused_at(alloc, bytes.as_slice())
}

#[test]
fn lines_that_are_too_long_are_refused(rt: HostRuntime) {
    let alloc = rt.alloc();
    assert_eq!(rt; refused_with(alloc, b"take", 65_536), Ok(0));
    assert_eq!(rt; refused_with(alloc, b"take", 65_537), Ok(2));
    assert_eq!(rt; refused_with(alloc, b"#", 65_536), Ok(0));
    assert_eq!(rt; refused_with(alloc, b"#", 65_537), Ok(2));
}
