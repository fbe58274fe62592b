//! First committer wins: the clash of a commit with those above its start.
ghost use Rattle.std.specs.Prelude.{◌≡◌, [], ◌∷◌};
ghost use Rattle.prog_tree.specs.ChangeSet.{touches_cell};
ghost use Rattle.version_store.specs.Clash.{IsFirstAbove, first_above, lesser};
ghost use Rattle.version_store.specs.Reading.{number_at};
ghost use Rattle.version_store.specs.Told.{told};

use crate::chains::Chains;
use crate::touches::Touches;
use prog_tree::{Cell, Changes};

/// A commit above the start changed or kept a cell too.
#[derive(Clone, Copy, Debug, PartialEq, Eq)]
pub struct Clash {
    /// The least such cell.
    pub cell: Cell,
    /// The greatest number of such a commit.
    pub number: u64,
}

// The clash of one cell, where it has a number above the start.
fn clash_at(chains: &Chains, start: u64, cell: Cell) -> Option<Clash>
    ensures { told result ≡ first_above (number_at chains.now) start (cell ∷ []) }
{
    let number = chains.last_number(&cell);
    if number > start {
        Some(Clash { cell, number })
    } else {
        None
    }
}

// The one of two that has the lesser cell.
fn lesser_clash(one: Option<Clash>, other: Option<Clash>) -> Option<Clash>
    ensures { told result ≡ lesser (told one) (told other) }
{
    match (one, other) {
        (Some(first), Some(second)) if second.cell < first.cell => other,
        (Some(_), _) => one,
        (None, _) => other,
    }
}

/// The least of the changed and kept cells that have a number above the start.
pub fn first_clash(chains: &Chains, start: u64, changes: &Changes) -> Option<Clash>
    ensures { IsFirstAbove (touches_cell changes.now) (number_at chains.now) start (told result) }
{
    let mut least = None;
    for (cell, _) in Touches::of(changes) {
        let clash = clash_at(chains, start, cell);
        least = lesser_clash(least, clash);
    }
    least
}
