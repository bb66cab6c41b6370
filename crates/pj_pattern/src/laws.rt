// Laws of patterns, punctuations and lists of elements, as contracts of functions that do nothing.
ghost use Rattle.pj_pattern.specs.Laws.{CoveredIsMatched, CoveredRowIsMatched, LawfulByPosition, MeetMatchesBoth, NormalIsNormal, NormalKeepsKind, NormalMatchesSame, WidenedMatches};

/// On values of its kind a pattern, however it was spelled, and its normal form match the same. The normal form has no other
/// kinds of values, and, where the values of the pattern are of one kind, is its own normal form.
pub fn normal_forms()
    ensures same { NormalMatchesSame }
    ensures normal { NormalIsNormal }
    ensures kind { NormalKeepsKind }
{}

/// What is covered is matched: a pattern that covers another matches every value that the other matches, and so it is with
/// punctuations and rows.
pub fn covered_is_matched()
    ensures values { CoveredIsMatched }
    ensures rows { CoveredRowIsMatched }
{}

/// The meet of two normal forms of one kind is in normal form and matches exactly what both match.
pub fn meets_match_both()
    ensures { MeetMatchesBoth }
{}

/// A punctuation with wildcards in front and behind matches a row exactly where the part between them is matched.
pub fn widened_matches()
    ensures { WidenedMatches }
{}

/// A list of elements is lawful (Tucker et al. 2003) exactly where no row matches a punctuation that stands before it.
pub fn lawful_lists()
    ensures { LawfulByPosition }
{}
