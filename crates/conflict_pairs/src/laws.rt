//! The law of verdicts, as a function that a check has to prove.
ghost use Rattle.conflict_pairs.specs.Law.{LawOfVerdicts};

/// A right verdict tells exactly which of the three a question is.
pub fn law_of_verdicts()
    ensures { LawOfVerdicts }
{}
