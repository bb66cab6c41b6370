// What a made input comes to.
ghost use Rattle.std.specs.Prelude.{ℕ, ◌≤◌};
ghost use Rattle.pj_make_laws.specs.Made.{MadeAnswerIsSmall, MadeFilesAreShort, MadeIsWithinLimits, MadePlanFits, MadePlanIsRead, MadePunctsAreFew, MadeTotalIsExact};

/// What is made for up to 1,000,000 items, from whatever seed, can be run. Its plan is read as the one that is written out among the
/// definitions, which is safe; it is short and has two streams. Each file has fewer than 2^40 bytes, and fewer than 2^31 punctuations
/// are accepted of it. To no node of the plan come more than 2^40 elements, with the rows that are accepted and at most 2^31
/// punctuations at each stream: an item joins with two bids at most. The answer has at most 2^31 rows, and the number in the last
/// column of each is from 0 to 2^31, so that the total of its rows, in whatever order, is their exact sum.
pub fn made_inputs_fit()
    ensures is_read { MadePlanIsRead }
    ensures fits { MadePlanFits }
    ensures short { (seed count : ℕ) → count ≤ 1000000 → MadeFilesAreShort seed count }
    ensures few { (seed count : ℕ) → count ≤ 1000000 → MadePunctsAreFew seed count }
    ensures within { (seed count : ℕ) → count ≤ 1000000 → MadeIsWithinLimits seed count }
    ensures small { (seed count : ℕ) → count ≤ 1000000 → MadeAnswerIsSmall seed count }
    ensures exact { (seed count : ℕ) → count ≤ 1000000 → MadeTotalIsExact seed count }
{}
