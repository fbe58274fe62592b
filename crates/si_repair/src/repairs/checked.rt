//! The check of what a repair makes.
ghost use Rattle.std.specs.Prelude.{◌≡◌, IfNone, IfOk, IfSome};
ghost use Rattle.prog_tree.specs.Tree.{draft_tree};
ghost use Rattle.prog_check.specs.Sound.{IsSound};
ghost use Rattle.si_repair.specs.Checking.{IsRefused};

use prog_check::{CheckFault, ProgramSet, check};
use prog_tree::Draft;
use std::alloc::{AllocError, Global};

/// The set of a repaired draft, or none where that breaks a limit.
pub fn checked_set(alloc: Global, draft: Draft) -> Result<Option<ProgramSet>, AllocError>
    ensures made { IfOk result (λ o. IfSome o (λ s. draft_tree s ≡ draft_tree draft)) }
    ensures sound { IfOk result (λ o. IfSome o (λ s. IsSound (draft_tree s))) }
    ensures refused { IfOk result (λ o. IfNone o (IsRefused (draft_tree draft))) }
{
    match check(alloc, draft) {
        Ok(set) => Ok(Some(set)),
        Err(CheckFault::Memory) => Err(AllocError),
        Err(_) => Ok(None),
    }
}
