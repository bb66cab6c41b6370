// Laws of safe joins and their certificates, as the contracts of functions that do nothing.
ghost use Rattle.pj_graph.specs.Laws.{ReachesAreTold, SafeWhereCertified, SaturationsAreTold};

/// A join is safe, since every input reaches every other, exactly where every input has a certificate.
pub fn safe_where_certified()
    ensures { SafeWhereCertified }
{}

/// The certificate in an answer `All` is a function of the join, its schemes and the input: the one that starts from the input
/// alone and always adds the least input that can be added, by its first scheme that allows it.
pub fn saturations_are_told()
    ensures { SaturationsAreTold }
{}

/// What is true of what an input of a join reaches is said by exactly one answer, which is a function of the join, its schemes
/// and the input: the certificate of the saturation where it knows every input at its end, else the inputs that it knows, in
/// order, and the least other.
pub fn reaches_are_told()
    ensures { ReachesAreTold }
{}
