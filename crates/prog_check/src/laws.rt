//! A law of checked sets, as a function that a check has to prove.
ghost use Rattle.prog_check.specs.Sound.{Soundness};

/// A draft without a fault keeps what a checked set promises.
pub fn soundness()
    ensures { Soundness }
{}
