// What a line may say, and why it may be refused.
use pj_pattern::Punct;
use pj_value::Row;

/// Why a line is no accepted element. A line that is not skipped is judged in this order, and the first that holds is its
/// reject.
#[derive(Clone, Copy, Debug, PartialEq, Eq)]
pub enum Reject {
    /// It has more than 65,536 bytes. This is judged of a piece of a file.
    TooLong,
    /// It is unclosed, has more than 128 cells, or its first cell is neither `t` nor `p`.
    NotElement,
    /// It has so many cells behind the tag, where so many columns are. The number of columns stops at 2^32 - 1.
    Arity { want: u32, got: u32 },
    /// The cell of this column, counted from 1, spells no value or no pattern.
    BadCell { column: u32 },
    /// The cell of this column, counted from 1, has a value of another kind than the column's.
    WrongKind { column: u32 },
    /// It is a tuple that matches a punctuation accepted before it, the first of them on this line, counted from 1.
    Closed { line: u64 },
}

/// What a line says of a stream.
#[derive(Drop)]
pub enum Read {
    /// It is blank or a comment.
    Skip,
    Tuple(Row),
    Punct(Punct),
    Bad(Reject),
}

/// What a cell says of a column.
#[derive(Drop)]
pub enum Judged<T> {
    /// This item, whose values are of the column's kind.
    Fits(T),
    /// An item that has a value of another kind.
    OtherKind,
    /// It spells no item.
    Unspelled,
}
