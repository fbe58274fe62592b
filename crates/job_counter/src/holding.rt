//! What a pass holds in the proofs, the rule that all passes keep together, and the steps on the
//! counter's word.

ghost use Rattle.std.specs.Prelude.{ℕ};

use atomic_table::{Join, Play, Split, TableRule};
use std::collections::LinkedList;
use std::marker::{Brand, PhantomData};

// What a seat of the table knows. No value of it is made.
pub struct Holding {
    pub left: u64,
    pub numbers: LinkedList<u64>,
}

// The counter's word is how many numbers were drawn, and all passes together hold just these.
pub struct Account;

impl TableRule<u8, Holding, u64> for Account {
    ghost use Rattle.std.specs.Prelude.{[]};
    ghost use Rattle.job_counter.specs.Holdings.{IsCounterRule, holding};

    ghost holds = { λ budget s. IsCounterRule budget s.words s.views };

    ghost first = { λ budget. holding budget [] };
}

// A number that each call picks.
pub trait Amount {
    ghost amount: { ℕ };
}

impl Amount for Brand {
    ghost amount = { 0 };
}

// A step that draws the number that it finds, which the pass didn't hold yet. B is the budget.
pub struct Draws<B: Amount>(PhantomData<B>);

impl<B: Amount> Play<u8, Holding> for Draws<B> {
    ghost use Rattle.std.specs.Prelude.{◌≡◌, ◌<◌};
    ghost use Rattle.job_counter.specs.Holdings.{AreDistinct, after_draw};

    ghost then = { λ s before found after.
        (after ≡ (after_draw before.0 found, before.1)) × AreDistinct after.0.numbers
        × (found < B.amount) };
}

// A step that changes nothing, and tells what the account says of one pass.
pub struct Looks;

impl Play<u8, Holding> for Looks {
    ghost use Rattle.std.specs.Prelude.{◌≡◌, ◌<◌, ◌^◌};
    ghost use Rattle.job_counter.specs.Holdings.{AreDistinct};

    ghost then = { λ s before found after.
        (after ≡ before) × (after.0.left < 2 ^ 64) × AreDistinct after.0.numbers };
}

// Gives draws to a new pass, G many. The numbers stay.
pub struct GivesAway<G: Amount>(PhantomData<G>);

impl<G: Amount> Split<Holding> for GivesAway<G> {
    ghost use Rattle.std.specs.Prelude.{◌-◌, []};
    ghost use Rattle.job_counter.specs.Holdings.{holding};

    ghost left = { λ p. holding (p.left - G.amount) p.numbers };

    ghost right = { λ p. holding G.amount [] };
}

// Makes two passes one. The second is left with nothing.
pub struct Together;

impl Join<Holding> for Together {
    ghost use Rattle.std.specs.Prelude.{[]};
    ghost use Rattle.job_counter.specs.Holdings.{holding, both_of};

    ghost both = { both_of };

    ghost spent = { holding 0 [] };
}
