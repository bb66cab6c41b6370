// Where a byte stands in a cell.

/// Where a byte stands in a cell: outside quotes, inside a quoted part, or behind a backslash in one.
#[derive(Clone, Copy)]
pub enum Quote {
    Outside,
    Inside,
    Taken,
}
