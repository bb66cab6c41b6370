// Laws of rows that escape, as contracts of functions that do nothing.
ghost use Rattle.pj_cert.specs.Laws.{EscapesAll, FindsLeastNumber, FindsText};

/// Where the inputs that are reached are closed, no list of instances of the others can end the need for a row of a reached
/// input: whatever instances are listed, there are rows, with this one among them, that join and of which none of an input
/// that is not reached matches a listed instance. So its partners may come whatever is promised.
pub fn escaping_is_lawful()
    ensures { EscapesAll }
{}

/// The fresh number of rows that escape is the least that is none of the listed constants, and the fresh text is none.
pub fn fresh_values_are_new()
    ensures number { FindsLeastNumber }
    ensures text { FindsText }
{}
