//! A counter whose numbers several workers draw, each with a pass of its own, through a `&`.
//! A draw is one `fetch_add`: no lock, no wait. All calls but `open` take no memory.
#![tactic(auto)]

ghost use Rattle.std.specs.Prelude.{◌≡◌, ◌+◌, ◌-◌, ◌<◌, ◌≤◌, ◌++◌, ◌∷◌, ◌↔◌, [], length, IfOk};
ghost use Rattle.std.specs.Prelude.{IfSome, IfNone, IsNone};

mod holding;

use crate::holding::{Account, Amount, Draws, GivesAway, Holding, Looks, Together};
use atomic_table::{Seat, Table};
use std::alloc::{AllocError, Global};
use std::marker::Brand;

/// The numbers below a budget, in order. No number is drawn twice.
#[derive(Drop)]
pub struct Counter {
    table: Table<u8, Holding, u64, Account, Global>,
    ghost one_word: { table.shared.table_id.words ≡ 1 },
    ghost no_slot: { table.shared.table_id.slots ≡ 0 },
}

/// The right to draw some of a counter's numbers. Contracts also see which ones it drew.
/// A pass that is dropped takes the draws that it has left with it.
#[derive(Drop)]
pub struct Pass {
    left: u64,
    seat: Seat<u8, Holding>,
    ghost same: { left ≡ seat.me.0.left },
    ghost bare: { seat.me.1 ≡ [] },
}

impl Pass {
    ghost use Rattle.job_counter.specs.Passes.{left_of};

    /// How many draws it has left.
    pub fn left(&self) -> u64
        ensures { result ≡ left_of self.now }
    {
        self.left
    }
}

impl Counter {
    ghost use Rattle.job_counter.specs.Holdings.{AreDistinct, AreEachOnceBelow, IsInAccount};
    ghost use Rattle.job_counter.specs.Holdings.{after_draw, holding};
    ghost use Rattle.job_counter.specs.Passes.{counter_of, holding_of, left_of, numbers_of};
    ghost use Rattle.job_counter.specs.Passes.{name_of, budget_of};

    /// A counter, and the pass with the whole budget.
    pub fn open(alloc: Global, budget: u64) -> Result<(Counter, Pass), AllocError>
        ensures budget { IfOk result (λ r. budget_of r.0 ≡ budget) }
        ensures counter { IfOk result (λ r. counter_of r.1 ≡ name_of r.0) }
        ensures left { IfOk result (λ r. left_of r.1 ≡ budget) }
        ensures numbers { IfOk result (λ r. numbers_of r.1 ≡ []) }
    {
        let (table, seat) = Table::of_words(alloc, &[0], &budget)?;
        Ok((Counter { table }, Pass { left: budget, seat }))
    }

    /// The next number, which no pass has drawn, or none where this pass has no draw left.
    pub fn draw(&self, pass: &mut Pass) -> Option<u64>
        requires { counter_of pass.old ≡ name_of self.now }
        ensures counter { counter_of pass.new ≡ counter_of pass.old }

        ensures none { IsNone result ↔ (left_of pass.old ≡ 0) }
        ensures same { IfNone result (pass.new ≡ pass.old) }

        ensures below { IfSome result (λ n. n < budget_of self.now) }
        ensures left { IfSome result (λ n. left_of pass.new + 1 ≡ left_of pass.old) }
        ensures numbers { IfSome result (λ n. numbers_of pass.new ≡ numbers_of pass.old ++ n ∷ []) }
        ensures distinct { IfSome result (λ n. AreDistinct (numbers_of pass.new)) }
    {
        if pass.left == 0 {
            return None;
        }
        let number = self.draw_by::<Brand>(&mut pass.seat);
        pass.left -= 1;
        Some(number)
    }

    // The step of `draw`, for a type that says the budget, as the table's step asks.
    fn draw_by<B: Amount>(&self, seat: &mut Seat<u8, Holding>) -> u64
        requires counter { seat.old.table_id ≡ name_of self.now }
        requires some_left { 0 < seat.old.me.0.left }
        requires budget { B.amount ≡ budget_of self.now }
        ensures counter { seat.new.table_id ≡ seat.old.table_id }
        ensures below { result < budget_of self.now }
        ensures drawn { seat.new.me ≡ (after_draw seat.old.me.0 result, seat.old.me.1) }
        ensures distinct { AreDistinct seat.new.me.0.numbers }
    {
        self.table.shared.fetch_add::<Draws<B>>(seat, 0, 1)
    }

    /// The pass without the draws that it gives away, and a new pass with these.
    /// The numbers stay with the first.
    pub fn split(&self, pass: Pass, give: u64) -> (Pass, Pass)
        requires counter { counter_of pass ≡ name_of self.now }
        requires room { give ≤ left_of pass }
        ensures first { counter_of result.0 ≡ counter_of pass }
        ensures second { counter_of result.1 ≡ counter_of pass }

        ensures kept { left_of result.0 + give ≡ left_of pass }
        ensures numbers { numbers_of result.0 ≡ numbers_of pass }

        ensures given { left_of result.1 ≡ give }
        ensures bare { numbers_of result.1 ≡ [] }
    {
        self.split_by::<Brand>(pass, give)
    }

    // `split`, for a type that says how many draws are given, as the table's step asks.
    fn split_by<G: Amount>(&self, pass: Pass, give: u64) -> (Pass, Pass)
        requires counter { counter_of pass ≡ name_of self.now }
        requires room { give ≤ left_of pass }
        requires amount { G.amount ≡ give }
        ensures first { counter_of result.0 ≡ counter_of pass }
        ensures second { counter_of result.1 ≡ counter_of pass }
        ensures kept { holding_of result.0 ≡ holding (left_of pass - give) (numbers_of pass) }
        ensures given { holding_of result.1 ≡ holding give [] }
    {
        let Pass { left, mut seat } = pass;
        let other = self.table.shared.split_seat::<GivesAway<G>>(&mut seat);
        let kept = Pass {
            left: left - give,
            seat,
        };
        let given = Pass {
            left: give,
            seat: other,
        };
        (kept, given)
    }

    /// Puts two passes together. No number is in both.
    pub fn join(&self, pass: Pass, other: Pass) -> Pass
        requires pass { counter_of pass ≡ name_of self.now }
        requires other { counter_of other ≡ name_of self.now }
        ensures counter { counter_of result ≡ counter_of pass }
        ensures left { left_of result ≡ left_of pass + left_of other }
        ensures numbers { numbers_of result ≡ numbers_of pass ++ numbers_of other }
        ensures distinct { AreDistinct (numbers_of result) }
    {
        let Pass { left, mut seat } = pass;
        let Pass {
            left: more,
            seat: spent,
        } = other;
        self.table.shared.join_seat::<Together>(&mut seat, spent);
        // A load, from which the proof learns that the sum fits, and that the numbers are distinct.
        self.table.shared.load::<Looks>(&mut seat, 0);
        Pass {
            left: left + more,
            seat,
        }
    }

    /// How many numbers were drawn, by this pass and all others.
    pub fn close(self, pass: Pass) -> u64
        requires { counter_of pass ≡ name_of self }

        // All passes together hold just the numbers that were drawn, and this is one of them.
        ensures account { IsInAccount (budget_of self) result (holding_of pass) }

        // A pass that has the whole budget, held or left, holds all numbers that were drawn.
        ensures whole { length (numbers_of pass) + left_of pass ≡ budget_of self
            → AreEachOnceBelow (numbers_of pass) result }
    {
        let Counter { table } = self;
        let Pass { left: _, seat } = pass;
        let closed = table.close_with(seat);
        let drawn = closed.word(0);
        closed.free();
        drawn
    }
}
