// Laws of values, as contracts of functions that do nothing.
ghost use Rattle.std.specs.Cmp.{IsTotalOrder};
ghost use Rattle.pj_value.specs.Values.{value_cmp};
ghost use Rattle.pj_value.specs.Laws.{EqualExactlyWhereSame, SameBagsCountRows, SpellsPrintably, SubBagsCountRows, TestsEquality, TestsRowEquality};

/// The order of values is a total order: turned round for the two values turned round, transitive, and equal exactly
/// where both are one value. The test for equality says the same.
pub fn values_are_ordered()
    ensures total { IsTotalOrder value_cmp }
    ensures same { EqualExactlyWhereSame }
    ensures test { TestsEquality }
    ensures rows { TestsRowEquality }
{}

/// Lists of rows are equal as bags exactly where each row occurs equally often in both, and one is part of another exactly
/// where no row occurs more often in it.
pub fn bags_count_rows()
    ensures same { SameBagsCountRows }
    ensures sub { SubBagsCountRows }
{}

/// No canonical spelling has a control byte, so that a spelled value never breaks a line.
pub fn spellings_are_printable()
    ensures { SpellsPrintably }
{}
