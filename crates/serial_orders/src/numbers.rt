//! Numbers of commits.

ghost use Rattle.std.specs.Prelude.{◌≡◌, [], ◌∷◌, ◌++◌, OnOk, OnErr};

use smallvec::SmallVec;
use std::alloc::{AllocError, Global};
use std::marker::Model;

// How many numbers are kept without an allocation: most cells are changed by few commits.
const FEW_NUMBERS: usize = 2;

/// Numbers of commits in the order in which they came. Contracts see the list of them.
#[derive(Debug, Drop)]
pub(crate) struct CommitNumbers {
    items: SmallVec<usize, FEW_NUMBERS>,
}

impl Model for CommitNumbers {
    ghost use Rattle.std.specs.Prelude.{List, ℕ};

    ghost Value = { List ℕ };

    ghost view = { λ n. n.items.items };
}

impl CommitNumbers {
    /// No numbers.
    pub(crate) fn new(alloc: Global) -> Self
        ensures { result ≡ [] }
    {
        CommitNumbers {
            items: SmallVec::new(alloc),
        }
    }

    pub(crate) fn as_slice(&self) -> &[usize]
        ensures { result.now ≡ self.now }
    {
        self.items.as_slice()
    }

    /// Adds a number behind the others.
    pub(crate) fn push(&mut self, number: usize) -> Result<(), AllocError>
        ensures ok { OnOk result (self.new ≡ self.old ++ number ∷ []) }
        ensures err { OnErr result (self.new ≡ self.old) }
    {
        self.items.push(number)?;
        Ok(())
    }
}
