//! How far a run has come.

use crate::changes::Changes;
use crate::deed::Deed;
use crate::env::Env;
use crate::look::Look;
use crate::sequence::Sequence;
use std::alloc::{AllocError, Global};

/// What a run has done so far.
#[derive(Debug, Drop)]
pub struct Progress<'a> {
    /// The names that it can see.
    pub env: Env<'a>,
    /// One for each finished store statement.
    pub deeds: Sequence<Deed>,
    pub replies: Sequence<i64>,
    pub changes: Changes,
    /// What it found in its snapshot, in order.
    pub looks: Sequence<Look>,
}

impl<'a> Progress<'a> {
    ghost use Rattle.std.specs.Prelude.{◌≡◌, IfOk};
    ghost use Rattle.prog_tree.specs.Steps.{started_with};

    /// A run that has only its arguments, with room for so many deeds.
    pub fn with_room(alloc: Global, env: Env<'a>, deeds: usize) -> Result<Self, AllocError>
        ensures { IfOk result (λ progress. progress ≡ started_with env.entry) }
    {
        let deeds = Sequence::with_capacity(alloc, deeds)?;
        Ok(Progress {
            env,
            deeds,
            replies: Sequence::new(alloc),
            changes: Changes::new(alloc),
            looks: Sequence::new(alloc),
        })
    }
}
