//! The rule of the list, and its steps.
ghost use Rattle.std.specs.Prelude.{[], None};

use logbook::{Gain, Plain, Play, Rule};
use prog_tree::Rows;
use std::marker::PhantomData;

/// The word is the length of the list.
pub struct Law;

impl Rule<Rows, u64> for Law {
    ghost use Rattle.std.specs.Prelude.{[]};
    ghost use base.Fml.{ftrue};
    ghost use Rattle.state_log.specs.Rules.{IsCounted};

    ghost holds = { λ cells log. IsCounted cells log };

    ghost first = { [] };

    ghost hinted = { λ n log. Unit {0} };

    ghost shows = { λ log. [] };

    ghost keeps = { λ names log. ftrue };

    ghost moves = { λ ask before after answer. Unit {0} };
}

/// Callers trade nothing.
pub struct Nothing;

impl Gain<Rows, u64> for Nothing {
    ghost use base.Fml.{ftrue};

    ghost after = { λ names about answer. ftrue };
}

/// What a value says of a state.
pub trait Tells<X> {
    ghost use Rattle.prog_tree.specs.Table.{TableState};

    ghost state: { X → TableState };
}

/// A step that adds the state that a value tells.
pub struct Add<M> {
    of: PhantomData<M>,
}

impl<M> Play<Rows, u64> for Add<M> {
    ghost use Rattle.state_log.specs.Rules.{Adds};

    ghost then = { Adds };
}

impl<X, M: Tells<X>> Plain<X, Rows, u64> for Add<M> {
    ghost use Rattle.std.specs.Prelude.{None};

    ghost ask = { λ x. M.state x };

    ghost state = { λ x. None };
}
