//! One version of a cell.
use std::marker::Model;

/// A value or a removal of a cell, by the number of its commit. Opening rows have the number 0.
#[derive(Clone, Copy, Debug)]
pub struct Version {
    pub number: u64,
    pub value: Option<i64>,
}

impl Model for Version {
    ghost use Rattle.std.specs.Prelude.{ℕ, ℤ, Option};

    ghost Value = { ℕ × Option ℤ };

    ghost view = { λ v. (v.number, v.value) };

    ghost inverse = { λ pair. record { number = pair.0; value = pair.1 } };
}
