// The elements of a stream.
use crate::Punct;
use pj_value::Row;

/// An element of a stream, or of what a plan hands out: a tuple, or a punctuation, which promises that no later tuple
/// matches it.
#[derive(Drop)]
pub enum Element {
    Tuple(Row),
    Punct(Punct),
}
