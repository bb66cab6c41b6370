// Laws of the pieces of a file.
ghost use Rattle.pj_line.specs.PieceLaws.{FedPieceIsFirst, LastPieceIsAll, CutPieceIsFirst};

/// The pieces that calls of `next_line` cut off are the pieces of the file, in order: each is the first one of what was
/// not given before.
pub fn line_bytes()
    ensures fed { FedPieceIsFirst }
    ensures last { LastPieceIsAll }
    ensures cut { CutPieceIsFirst }
{}
