// The routes by which the stored rows are found that have to be judged again, made once from the plan.
use pj_shape::{ClassCol, Scheme};
use pj_value::List;

/// A column of each of two inputs: rows of them that join have one value there.
#[derive(Clone, Copy)]
pub struct Pair {
    pub mine: u32,
    pub theirs: u32,
}

/// A column of a punctuation that its scheme marks, and the indexed column of stored rows in the same class.
#[derive(Clone, Copy)]
pub struct Lead {
    pub asked: u32,
    pub column: u32,
}

/// A step back from rows of one input to those of another through which they are asked for: by an indexed column of the
/// latter, and one of the former.
#[derive(Clone, Copy)]
pub struct Hop {
    pub input: u32,
    pub other: u32,
    pub pair: Pair,
}

/// All steps back from rows at a position of a certificate to those that ask.
#[derive(Drop)]
pub struct Way {
    pub first: Hop,
    pub rest: List<Hop>,
}

/// The rows at a position behind the own one: how a punctuation leads to them, and how they lead back; `None` where they do
/// not.
#[derive(Drop)]
pub struct Stop {
    pub input: u32,
    pub leads: List<Lead>,
    pub way: Option<Way>,
}

/// How a punctuation leads to the rows of an input that ask, by an entry of its certificate, for what the punctuation may
/// cover: the scheme of the entry, and the positions up to it.
#[derive(Drop)]
pub struct RecheckRoute {
    pub owner: u32,
    pub scheme: Scheme,
    pub own: List<Lead>,
    pub behind: List<Stop>,
}

/// How rows that go lead back to those of an input that ask through them; `None` where that cannot be told.
#[derive(Drop)]
pub struct BackRoute {
    pub owner: u32,
    pub way: Option<Way>,
}

/// A column of a punctuation, and one of an input in the same class: where the punctuation has a range of integers, rows are
/// looked for by an order of those there.
#[derive(Clone, Copy)]
pub struct OrderRoute {
    pub column: u32,
    pub at: ClassCol,
}

/// What is looked up where a punctuation of an input comes, and where rows of it go.
#[derive(Drop)]
pub struct InputRoutes {
    pub recheck: List<RecheckRoute>,
    pub back: List<BackRoute>,
    pub orders: List<OrderRoute>,
}
