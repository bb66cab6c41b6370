// The law of certificates that the checker finds.
ghost use Rattle.pj_safe_core.specs.Certified.{FoundCertify};

/// The certificates that the checker finds for a safe plan are those that a core asks for.
pub fn certificates_of_safe_plans()
    ensures { FoundCertify }
{}
