// Worked sets of inputs, verdicts, and rows of a join.
ghost use Rattle.std.specs.Prelude.{◌≡◌, length, IfOk};
ghost use Rattle.pj_cert.specs.Instances.{constants_of};
ghost use Rattle.pj_test_plans.specs.Joins.{IsAskable};
ghost use Rattle.pj_test_plans.specs.MixedKinds.{MixedRows};

use crate::joins::{Join, SAMPLE, STUCK, join_of, step};
use pj_cert::{
    blank_instances, blank_row, closed, escape, fresh_number, fresh_text, partners_text,
    reached_line, unreached_line, verdict_text,
};
use pj_graph::Reach;
use pj_shape::{Cert, Instance};
use pj_value::{Bytes, List, NoMemory, Row, SharedText, Value};
use std::alloc::Global;

fn is_closed(alloc: Global, text: &str, reached: &[u32]) -> Result<bool, NoMemory> {
    let join = join_of(alloc, text)?;
    Ok(closed(&join.spec, &join.schemes, reached))
}

#[test]
fn closed_sets_are_told_from_others(rt: HostRuntime) {
    for (text, reached, want) in [
        (STUCK, [0].as_slice(), true),
        (SAMPLE, &[0], false),
        (SAMPLE, &[2, 0, 1], true),
    ] {
        let answered = is_closed(rt.alloc(), text, reached);
        assert_eq!(rt; answered, Ok(want), "at {reached:?} in {text}");
    }
}

fn names(alloc: Global) -> Result<List<Bytes>, NoMemory> {
    let mut names = List::new(alloc);
    for name in ["a", "b", "c"] {
        names.push(List::copy_of(alloc, name.as_bytes())?)?;
    }
    Ok(names)
}

// The certificate of the first input; or that it reaches itself and the last one alone.
fn found(alloc: Global, is_whole: bool) -> Result<Reach, NoMemory> {
    if is_whole {
        let steps = List::copy_of(alloc, &[step(2, 0), step(1, 0)])?;
        return Ok(Reach::All(Cert::of(steps)));
    }
    let reached = List::copy_of(alloc, &[0, 2])?;
    Ok(Reach::Stuck {
        reached,
        missing: 1,
    })
}

// Whether this is printed of the first input of the join `j` where that is found.
fn is_printed(alloc: Global, is_whole: bool, want: &str) -> Result<bool, NoMemory> {
    let join = join_of(alloc, SAMPLE)?;
    let found = found(alloc, is_whole)?;
    let names = names(alloc)?;
    let mut text = List::new(alloc);
    verdict_text(
        alloc,
        &join.spec,
        &join.schemes,
        b"j",
        names.as_slice(),
        0,
        &found,
        &mut text,
    )?;
    Ok(text.as_slice() == want.as_bytes())
}

#[test]
fn verdicts_are_printed(rt: HostRuntime) {
    for (is_whole, want) in [
        (true, "# safe join j input a: c by + _, b by + +\n"),
        (
            false,
            "# unsafe join j input a: cannot reach b\n# reached: a c\n",
        ),
    ] {
        let printed = is_printed(rt.alloc(), is_whole, want);
        assert_eq!(rt; printed, Ok(true), "at {want}");
    }
}

// Whether these are the lines of the first input where that is found of it.
fn are_lines(alloc: Global, unreached: &str, reached: &str) -> Result<bool, NoMemory> {
    let names = names(alloc)?;
    let first = unreached_line(alloc, b"j", names.as_slice(), 0, 1)?;
    let second = reached_line(alloc, names.as_slice(), &[0, 2])?;
    Ok(first.as_slice() == unreached.as_bytes() && second.as_slice() == reached.as_bytes())
}

#[test]
fn lines_of_a_stuck_input_are_made(rt: HostRuntime) {
    let unreached = "# unsafe join j input a: cannot reach b\n";
    let made = are_lines(rt.alloc(), unreached, "# reached: a c\n");
    assert_eq!(rt; made, Ok(true));
}

// The rows that show why the first input is stuck; none where it is not.
fn rows_of(alloc: Global, join: &Join) -> Result<List<Row>, NoMemory>
    requires { IsAskable join.now.spec join.now.schemes }
{
    let (spec, schemes) = (&join.spec, &join.schemes);
    let row = blank_row(alloc, &spec.inputs.as_slice()[0])?;
    let listed = blank_instances(alloc, spec, schemes, &[0])?;
    if closed(spec, schemes, &[0]) {
        escape(alloc, spec, schemes, 0, &[0], &row, listed.as_slice())
    } else {
        Ok(List::new(alloc))
    }
}

fn are_partners(alloc: Global, text: &str, want: &str) -> Result<bool, NoMemory> {
    let join = join_of(alloc, text)?;
    let rows = rows_of(alloc, &join)?;
    let names = names(alloc)?;
    let mut lines = List::new(alloc);
    partners_text(alloc, names.as_slice(), 0, rows.as_slice(), &mut lines)?;
    Ok(lines.as_slice() == want.as_bytes())
}

#[test]
fn partners_are_printed(rt: HostRuntime) {
    let want = "# partner b t 0 1\n# partner c t 0 1\n";
    assert_eq!(rt; are_partners(rt.alloc(), STUCK, want), Ok(true));
}

// An instance with the constants 1, "ab" and 0.
fn listed(alloc: Global) -> Result<List<Instance>, NoMemory>
    ensures { IfOk result (λ listed. length (constants_of listed) ≡ 3) }
{
    let mut constants = List::new(alloc);
    constants.push(Value::Int(1))?;
    constants.push(Value::Text(SharedText::copy_of(alloc, b"ab")?))?;
    constants.push(Value::Int(0))?;
    let mut listed = List::new(alloc);
    listed.push(Instance {
        input: 1,
        scheme: 0,
        constants,
    })?;
    Ok(listed)
}

fn are_fresh(alloc: Global, number: u32, text: &[u8]) -> Result<bool, NoMemory> {
    let listed = listed(alloc)?;
    let fresh = fresh_text(alloc, listed.as_slice())?;
    Ok(fresh.as_slice() == text && fresh_number(alloc, listed.as_slice())? == number)
}

#[test]
fn fresh_values_are_none_of_the_constants(rt: HostRuntime) {
    assert_eq!(rt; are_fresh(rt.alloc(), 2, b"aaa"), Ok(true));
}

// The definition gives the worked rows.
fn mixed_rows_are_the_worked_ones()
    ensures { MixedRows }
{}
