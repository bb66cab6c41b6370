// What no clause says: that the calls succeed with ample memory, and what they hand out on runs by hand.
ghost use Rattle.std.specs.Prelude.{◌≡◌, ◌<◌, ◌≤◌, ◌+◌, ◌^◌, All, IfOk, length};
ghost use Rattle.pj_group.specs.Steps.{Fits, IsInRange};

use crate::lines::{are, element};
use pj_group::{Group, GroupStop};
use pj_pattern::Element;
use pj_shape::{Agg, GroupSpec};
use pj_value::{List, NoMemory};
use std::alloc::Global;

// A group of rows of so many columns by these.
fn group_of(
    alloc: Global,
    width: usize,
    keys: &[u32],
    aggs: &[Agg],
    limit: u64,
) -> Result<Group, NoMemory>
    requires keys { All (λ column. column < width) keys.now }
    requires range { All (IsInRange width) aggs.now }
    requires few { length keys.now + length aggs.now ≤ 120 }
    requires limit { limit ≤ 2 ^ 40 }
    ensures fits { IfOk result (λ g. Fits g.spec width) }
    ensures few { IfOk result (λ g. length g.spec.keys + length g.spec.aggs ≤ 120) }
{
    let keys = List::copy_of(alloc, keys)?;
    let aggs = List::copy_of(alloc, aggs)?;
    Ok(Group::new(alloc, GroupSpec { keys, aggs }, limit)?)
}

// Takes what a line says.
fn say(
    alloc: Global,
    group: &mut Group,
    width: usize,
    line: &str,
    out: &mut List<Element>,
) -> Result<(), GroupStop>
    requires fits { Fits group.old.spec width }
    requires few { length group.old.spec.keys + length group.old.spec.aggs ≤ 120 }
    ensures { group.new.spec ≡ group.old.spec }
{
    match element(alloc, line)? {
        Element::Tuple(row) => {
            if row.len() != width {
                return Err(GroupStop::NoMemory);
            }
            group.tuple(row)
        }
        Element::Punct(punct) => {
            if punct.len() != width {
                return Err(GroupStop::NoMemory);
            }
            group.punct(punct, out)
        }
    }
}

fn say_all(
    alloc: Global,
    group: &mut Group,
    width: usize,
    lines: &[&str],
    out: &mut List<Element>,
) -> Result<(), GroupStop>
    requires fits { Fits group.old.spec width }
    requires few { length group.old.spec.keys + length group.old.spec.aggs ≤ 120 }
{
    for line in lines {
        say(alloc, group, width, line, out)?;
    }
    Ok(())
}

// Whether a group of rows of so many columns by these, with at most so many elements, hands out these lines.
fn hands_out(
    alloc: Global,
    width: usize,
    keys: &[u32],
    aggs: &[Agg],
    limit: u64,
    said: &[&str],
    lines: &str,
) -> Result<bool, GroupStop>
    requires keys { All (λ column. column < width) keys.now }
    requires range { All (IsInRange width) aggs.now }
    requires few { length keys.now + length aggs.now ≤ 120 }
    requires limit { limit ≤ 2 ^ 40 }
{
    let mut group = group_of(alloc, width, keys, aggs, limit)?;
    let mut out = List::new(alloc);
    say_all(alloc, &mut group, width, said, &mut out)?;
    Ok(are(alloc, out.as_slice(), lines)?)
}

const SUMS: &[&str] = &[
    "t 1 50",
    "t 2 7",
    "t 1 60",
    "p * [50..50]",
    "p [1..1] *",
    "t 2 9223372036854775807",
    "p * *",
];

const SUMS_OUT: &str = "t 1 2 110\np 1 * *\nt 2 2 9223372036854775807\np * * *\n";

#[test]
fn groups_close_where_keys_match(rt: HostRuntime) {
    let aggs = [Agg::Count, Agg::Sum(1)];
    assert_eq!(rt;
        hands_out(rt.alloc(), 2, &[0], &aggs, 1000, SUMS, SUMS_OUT),
        Ok(true)
    );
}

const CLAMPED: &[&str] = &[
    "t 3 9223372036854775807",
    "t 1 -9223372036854775807",
    "t 3 9223372036854775807",
    "t 1 -9",
    "t 3 -9223372036854775807",
    "t 3 -9223372036854775807",
    "t 3 -2",
    "p * *",
];

const CLAMPED_OUT: &str =
    "t 3 -2 -9223372036854775807 9223372036854775807\nt 1 -9223372036854775808 -9223372036854775807 -9\np * * * *\n";

#[test]
fn sums_are_exact_and_clamped(rt: HostRuntime) {
    let aggs = [Agg::Sum(1), Agg::Min(1), Agg::Max(1)];
    assert_eq!(rt;
        hands_out(rt.alloc(), 2, &[0], &aggs, 1000, CLAMPED, CLAMPED_OUT),
        Ok(true)
    );
}

const TEXTS: &[&str] = &["t 1 \"bb\"", "t 1 \"abcd\"", "t 1 \"b\"", "p [1..1] *"];

#[test]
fn texts_have_least_and_greatest(rt: HostRuntime) {
    let aggs = [Agg::Min(1), Agg::Max(1)];
    let lines = "t 1 \"abcd\" \"bb\"\np 1 * *\n";
    assert_eq!(rt;
        hands_out(rt.alloc(), 2, &[0], &aggs, 4, TEXTS, lines),
        Ok(true)
    );
}

// Groups that are closed one by one, and one whose key comes again.
const CLOSED: &[&str] = &[
    "t 1 0",
    "t 2 0",
    "t 3 0",
    "t 2 0",
    "p [2..2] *",
    "t 4 0",
    "t 2 0",
    "p [5..5] *",
    "p [3..3] *",
    "p [1..1] *",
    "p * *",
];

const CLOSED_OUT: &str = "t 2 2\np 2 *\np 5 *\nt 3 1\np 3 *\nt 1 1\np 1 *\nt 4 1\nt 2 1\np * *\n";

// Each range but the last two comes to at most half of the groups; 20 is closed and comes again, and then stands last.
const RANGES: &[&str] = &[
    "t 30 0",
    "t 10 0",
    "t 50 0",
    "t 20 0",
    "t 40 0",
    "t 60 0",
    "t 10 0",
    "t -5 0",
    "p [20..30] *",
    "p [..0] *",
    "p [61..] *",
    "t 20 0",
    "t 35 0",
    "p [15..35] *",
    "p [50..] *",
    "t 5 0",
    "p [..9] *",
    "p [0..100] *",
    "p * *",
];

const RANGES_OUT: &str =
    "t 30 1\nt 20 1\np [20..30] *\nt -5 1\np [..0] *\np [61..] *\nt 20 1\nt 35 1\np [15..35] *\nt 50 1\nt 60 1\np [50..] *\nt 5 1\np [..9] *\nt 10 2\nt 40 1\np [0..100] *\np * *\n";

// Ranges that reach further each time, and past what was closed before; 2 is closed and comes again, and then stands last.
const WATERMARKS: &[&str] = &[
    "t 3 0",
    "t 1 0",
    "t 8 0",
    "t 2 0",
    "t 5 0",
    "t 4 0",
    "t 7 0",
    "t 6 0",
    "p [..1] *",
    "p [..2] *",
    "p [..2] *",
    "p [..4] *",
    "t 9 0",
    "t 2 0",
    "p [..5] *",
    "p [..9] *",
];

const WATERMARKS_OUT: &str =
    "t 1 1\np [..1] *\nt 2 1\np [..2] *\np [..2] *\nt 3 1\nt 4 1\np [..4] *\nt 5 1\nt 2 1\np [..5] *\nt 8 1\nt 7 1\nt 6 1\nt 9 1\np [..9] *\n";

// A range of integers over a column that has texts too, and then a range of texts.
const MIXED: &[&str] = &[
    "t \"b\" 1",
    "t 9 1",
    "t \"ddd\" 1",
    "t 3 1",
    "p [1..] *",
    "p [\"c\"..] *",
];

const MIXED_OUT: &str = "t 9 1\nt 3 1\np [1..] *\nt \"ddd\" 1\np [\"c\"..] *\n";

// Counts by the first of two columns.
#[test]
fn counted_groups_close(rt: HostRuntime) {
    for (name, limit, said, lines) in [
        ("closed groups leave the order", 1000, CLOSED, CLOSED_OUT),
        ("groups close by ranges", 1000, RANGES, RANGES_OUT),
        (
            "watermarks close what came since",
            1000,
            WATERMARKS,
            WATERMARKS_OUT,
        ),
        ("ranges are of one kind", 9, MIXED, MIXED_OUT),
    ] {
        let handed = hands_out(rt.alloc(), 2, &[0], &[Agg::Count], limit, said, lines);
        assert_eq!(rt; handed, Ok(true), "at {name}");
    }
}

// Rows of three columns, by the first two. The second punctuation comes to more than half of the places, so that closed groups
// are cleared away.
const PAIRS: &[&str] = &[
    "t 1 1 10",
    "t 2 1 20",
    "t 1 2 30",
    "t 3 3 5",
    "t 2 2 1",
    "p [1..1] * *",
    "t 4 1 7",
    "t 2 1 2",
    "p * [1..1] *",
    "t 2 3 4",
    "t 3 4 6",
    "t 2 2 1",
    "p [2..2] * *",
    "p [2..2] * *",
    "p [3..3] [..3] *",
    "p * * *",
];

const PAIRS_OUT: &str =
    "t 1 1 1 10\nt 1 2 1 30\np 1 * * *\nt 2 1 2 22\nt 4 1 1 7\np * 1 * *\nt 2 2 2 2\nt 2 3 1 4\np 2 * * *\np 2 * * *\nt 3 3 1 5\np 3 [..3] * *\nt 3 4 1 6\np * * * *\n";

#[test]
fn groups_close_by_one_of_two_columns(rt: HostRuntime) {
    let aggs = [Agg::Count, Agg::Sum(2)];
    assert_eq!(rt;
        hands_out(rt.alloc(), 3, &[0, 1], &aggs, 1000, PAIRS, PAIRS_OUT),
        Ok(true)
    );
}

// How three elements go at a group that takes one.
fn three_at_one(alloc: Global) -> Result<[Result<(), GroupStop>; 3], NoMemory> {
    let mut group = group_of(alloc, 2, &[0], &[Agg::Count], 1)?;
    let mut out = List::new(alloc);
    let first = say(alloc, &mut group, 2, "t 1 1", &mut out);
    let second = say(alloc, &mut group, 2, "t 1 1", &mut out);
    let third = say(alloc, &mut group, 2, "p * *", &mut out);
    Ok([first, second, third])
}

#[test]
fn no_more_than_the_limit_come(rt: HostRuntime) {
    let full = Err(GroupStop::Limit);
    assert_eq!(rt; three_at_one(rt.alloc()), Ok([Ok(()), full, full]));
}
