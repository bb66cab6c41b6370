// Laws of whole histories.
ghost use Rattle.pj_whole_laws.specs.Whole.{OfWhole, SortedIsOne, WholeAnswers, WholeIsLawful, WholePunctuates};

/// A whole history of a job over a sound plan, whatever the order of its arrivals, probes and sweeps: its rows are the plan's
/// nested-loop answer over exactly the accepted rows, and its punctuations the plan's, as bags; no row matches a punctuation before it;
/// and where results are sorted, its lines are those of any other.
pub fn whole_histories()
    ensures answer { OfWhole WholeAnswers }
    ensures punctuations { OfWhole WholePunctuates }
    ensures lawful { OfWhole WholeIsLawful }
    ensures sorted { OfWhole SortedIsOne }
{}
