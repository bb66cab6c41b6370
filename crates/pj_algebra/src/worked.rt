// Worked plans, computed through the definitions.
ghost use Rattle.pj_algebra.specs.Worked.{ChainPuncts, ChainRows, GroupPuncts, GroupRows, JoinPuncts, JoinRows, PartPuncts, PartRows, UnionPuncts, UnionRows};

/// The rows and punctuations of a join of two streams and of one of three, of a group, of a union, and of a select with a
/// project behind it.
pub fn worked_answers()
    ensures join_rows { JoinRows }
    ensures join_puncts { JoinPuncts }
    ensures chain_rows { ChainRows }
    ensures chain_puncts { ChainPuncts }
    ensures group_rows { GroupRows }
    ensures group_puncts { GroupPuncts }
    ensures union_rows { UnionRows }
    ensures union_puncts { UnionPuncts }
    ensures part_rows { PartRows }
    ensures part_puncts { PartPuncts }
{}
