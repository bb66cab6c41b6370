// Laws of the form of words.
ghost use Rattle.pj_words.specs.Request.{RequestsAreExact, RequestsKeep};

/// Words make a request exactly where they have the form of one of the four commands, and the request is the one that their parts ask for.
/// Its operands are operands, and its numbers lie in their ranges.
pub fn words_are_read_exactly()
    ensures exact { RequestsAreExact }
    ensures kept { RequestsKeep }
{}
