// Laws of the lines, as contracts of functions that do nothing.
ghost use Rattle.pj_report.specs.Laws.{ExactSumsByBag, FormByBags, FormedAreLawful, FormedPuncts, FormedRows, ResultsAreElements, SortedAreElements, SortedAreInOrder, SortedAreSame, SortedByBag, TotalsAreExact, UnnotedAreElements};

/// Of what is handed out, the lines that are no notes are those of the elements; without notes those are all.
pub fn lines_are_of_elements()
    ensures unnoted { UnnotedAreElements }
    ensures results { ResultsAreElements }
{}

/// Sorted lines are the same lines, each as often, in order of their bytes; they and the sorted form depend on how often each
/// line, row and punctuation is there, and on nothing else.
pub fn sorted_by_bags()
    ensures same { SortedAreSame }
    ensures order { SortedAreInOrder }
    ensures lines { SortedByBag }
    ensures form { FormByBags }
{}

/// In each form that writes results the same elements are written, rows and punctuations each as often, and no row behind a punctuation that it
/// matches where none was handed out so; the sorted form is that of elements.
pub fn forms_write_the_same()
    ensures rows { FormedRows }
    ensures puncts { FormedPuncts }
    ensures lawful { FormedAreLawful }
    ensures lines { SortedAreElements }
{}

/// A total is the exact sum of the last column where each of its numbers is from 0 to 2^31 and there are at most 2^31 rows: nothing
/// is lost at 64 bits. The exact sum depends on how often each row is there, and on nothing else.
pub fn totals_are_exact()
    ensures exact { TotalsAreExact }
    ensures bags { ExactSumsByBag }
{}
