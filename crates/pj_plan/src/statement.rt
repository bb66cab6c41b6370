// What the lines of a plan say, in words; a word stands for itself until the plan is built.
use crate::PlanWhy;
use pj_pattern::Pattern;
use pj_value::{Bytes, Kind, List};

/// `COL:KIND`, a column of a stream.
#[derive(Drop)]
pub struct ColumnWord {
    pub name: Bytes,
    pub kind: Kind,
}

/// The pattern of a test; `Mixed` stands for a pattern with values of both kinds.
#[derive(Drop)]
pub enum Test {
    One(Pattern),
    Mixed,
}

/// `COL PATTERN`, a test of a select.
#[derive(Drop)]
pub struct TestWord {
    pub column: Bytes,
    pub test: Test,
}

/// `NEW=OLD`, a column of a project; where the column keeps its name both are equal.
#[derive(Drop)]
pub struct Renamed {
    pub new: Bytes,
    pub old: Bytes,
}

/// `count`, `sum:COL`, `min:COL` or `max:COL`.
#[derive(Drop)]
pub enum AggWord {
    Count,
    Sum(Bytes),
    Min(Bytes),
    Max(Bytes),
}

/// `NEW=AGG`, an aggregate of a group.
#[derive(Drop)]
pub struct NamedAgg {
    pub name: Bytes,
    pub agg: AggWord,
}

/// What a line of a plan states; the words stand in the order of the line. `Bad` stands for a line that is unreadable, of
/// an unknown statement or of a bad shape.
#[derive(Drop)]
pub enum Statement {
    Plan {
        version: u32,
    },
    Stream {
        name: Bytes,
        columns: List<ColumnWord>,
    },
    Scheme {
        stream: Bytes,
        marks: List<bool>,
    },
    Select {
        name: Bytes,
        input: Bytes,
        tests: List<TestWord>,
    },
    Project {
        name: Bytes,
        input: Bytes,
        columns: List<Renamed>,
    },
    Union {
        name: Bytes,
        inputs: List<Bytes>,
    },
    Join {
        name: Bytes,
        inputs: List<Bytes>,
        classes: List<List<Bytes>>,
    },
    Group {
        name: Bytes,
        input: Bytes,
        keys: List<Bytes>,
        aggs: List<NamedAgg>,
    },
    Output {
        name: Bytes,
    },
    Bad(PlanWhy),
}

/// A statement, and the number of its line, counted from 1.
#[derive(Drop)]
pub struct Stated {
    pub line: u64,
    pub what: Statement,
}
