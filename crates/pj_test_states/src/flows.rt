// What no clause says: that the calls succeed with ample memory, and what they answer on rows and runs by hand.
ghost use Rattle.std.specs.Prelude.{◌≡◌, ◌<◌, All};

use crate::lines::{are_puncts, are_rows, punct, row};
use pj_flow::{Union, project_punct, project_tuple, select_tuple};
use pj_value::{List, NoMemory};
use std::alloc::Global;
use std::slice::from_ref;

// Whether a row passes the test of 5 and a wildcard, with this as its line.
fn passes(alloc: Global, cells: &str, line: &str) -> Result<bool, NoMemory> {
    let test = punct(alloc, "[5..5] *")?;
    match select_tuple(&test, row(alloc, cells)?) {
        Some(row) => are_rows(alloc, from_ref(&row), line),
        None => Ok(false),
    }
}

#[test]
fn rows_are_selected(rt: HostRuntime) {
    for (cells, passed) in [("5 7", true), ("7 5", false)] {
        assert_eq!(rt;
            passes(rt.alloc(), cells, "t 5 7\n"),
            Ok(passed),
            "at {cells}"
        );
    }
}

// Whether these columns of the row with the cells 7 and 5 are these.
fn projects_to(alloc: Global, columns: &[u32], line: &str) -> Result<bool, NoMemory>
    requires { All (λ column. column < 2) columns.now }
{
    let row = row(alloc, "7 5")?;
    if row.len() != 2 {
        return Ok(false);
    }
    let made = project_tuple(alloc, columns, &row)?;
    are_rows(alloc, from_ref(&made), line)
}

#[test]
fn rows_are_projected(rt: HostRuntime) {
    assert_eq!(rt; projects_to(rt.alloc(), &[1, 0, 1], "t 5 7 5\n"), Ok(true));
}

// Whether these columns of the punctuation of 5 and a wildcard are these, or none where nothing goes up.
fn punct_projects_to(alloc: Global, columns: &[u32], line: &str) -> Result<bool, NoMemory>
    requires { All (λ column. column < 2) columns.now }
{
    let punct = punct(alloc, "[5..5] *")?;
    if punct.len() != 2 {
        return Ok(false);
    }
    match project_punct(alloc, columns, &punct)? {
        None => Ok(line.is_empty()),
        Some(kept) => are_puncts(alloc, from_ref(&kept), line),
    }
}

#[test]
fn punctuations_are_projected(rt: HostRuntime) {
    assert_eq!(rt; punct_projects_to(rt.alloc(), &[1, 0], "p * 5\n"), Ok(true));
    assert_eq!(rt; punct_projects_to(rt.alloc(), &[1], ""), Ok(true));
}

// Whether a punctuation of one column that comes at an input makes these go out.
fn hands_up(
    alloc: Global,
    union: &mut Union,
    inputs: u32,
    said: (u32, &str, &str),
) -> Result<bool, NoMemory>
    requires inputs { union.old.inputs ≡ inputs }
    requires arity { union.old.arity ≡ 1 }
    ensures inputs { union.new.inputs ≡ inputs }
    ensures arity { union.new.arity ≡ 1 }
{
    let (input, cell, lines) = said;
    let punct = punct(alloc, cell)?;
    if punct.len() != 1 {
        return Ok(false);
    }
    if input >= inputs {
        return Ok(false);
    }
    let mut out = List::new(alloc);
    union.punct(input, punct, &mut out)?;
    are_puncts(alloc, out.as_slice(), lines)
}

// Whether all of these go as told at a union of so many inputs: the input, what comes, and what goes out.
fn union_runs(alloc: Global, inputs: u32, said: &[(u32, &str, &str)]) -> Result<bool, NoMemory> {
    let mut union = Union::new(alloc, inputs, 1);
    for one in said {
        if !hands_up(alloc, &mut union, inputs, *one)? {
            return Ok(false);
        }
    }
    Ok(true)
}

const TWO_INPUTS: &[(u32, &str, &str)] = &[
    (0, "[1..9]", ""),
    (1, "[5..5]", "p 5\n"),
    (0, "*", ""),
    (1, "*", "p [1..9]\np *\np *\n"),
];

const THREE_INPUTS: &[(u32, &str, &str)] = &[
    (0, "[5..5]", ""),
    (0, "*", ""),
    (1, "[5..5]", ""),
    (2, "[4..5]", "p 5\np 5\n"),
    (1, "*", "p [4..5]\n"),
];

const ONE_INPUT: &[(u32, &str, &str)] = &[
    (0, "[1..9]", "p [1..9]\n"),
    (0, "[5..5]", "p 5\n"),
    (0, "*", "p *\n"),
    (0, "*", "p *\n"),
];

#[test]
fn unions_hold_punctuations_back(rt: HostRuntime) {
    for (inputs, said) in [(2, TWO_INPUTS), (3, THREE_INPUTS), (1, ONE_INPUT)] {
        assert_eq!(rt;
            union_runs(rt.alloc(), inputs, said),
            Ok(true),
            "at {inputs}"
        );
    }
}
