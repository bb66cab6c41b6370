// A law of joins, as the contract of a function that does nothing.
ghost use Rattle.pj_shape.specs.Laws.{TestsJoining};

/// Rows join where in each class the values of its columns in these rows are all equal, and the test for it is true exactly
/// there.
pub fn joining_is_tested()
    ensures { TestsJoining }
{}
