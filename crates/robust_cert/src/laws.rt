//! The law of the checker, as a function that a check has to prove.
ghost use Rattle.robust_cert.specs.Law.{LawOfAcceptance};

/// A set with an accepted certificate has no dangerous structure.
pub fn law_of_acceptance()
    ensures { LawOfAcceptance }
{}
