//! Blocks: the rows of some cells, which scans share.
ghost use Rattle.std.specs.Prelude.{◌≡◌, ◌↔◌, ℕ, None, IfSome, IsTrue, option_map};
ghost use Rattle.prog_tree.specs.Table.{Cells};
ghost use Rattle.version_store.specs.Blocks.{IsTrueBlock, IsTrueSlot, IsOfOlder, IsOfSlot};
ghost use Rattle.version_store.specs.Blocks.{IsSilent, IsSilentSlot, SaysOf, ended, ended_slot};
ghost use Rattle.version_store.specs.Blocks.{with_block};
ghost use Rattle.version_store.specs.StandsFor.{VersionChain};

use prog_tree::{Piece, Region};
use std::mem;

/// The rows of some cells, after each number of commits from `since` on and below `till`.
#[derive(Debug, Drop)]
pub struct RowBlock {
    pub since: u64,
    pub till: u64,
    pub rows: Piece,
}

/// The newest block of the cells of a region, and maybe an older one.
#[derive(Debug, Drop)]
pub struct Slot {
    pub region: Region,
    pub newest: RowBlock,
    pub older: Option<RowBlock>,
}

impl RowBlock {
    // Whether it says what is after the first `start` commits.
    fn is_of(&self, start: u64) -> bool
        ensures { IsTrue result ↔ SaysOf start self.now }
    {
        self.since <= start && start < self.till
    }

    // Says no more what is from a commit on.
    fn end_at(&mut self, number: u64)
        ensures { self.new ≡ ended number self.old }
    {
        self.till = self.till.min(number);
    }
}

// Ends a block, if there is one.
fn end_older(older: &mut Option<RowBlock>, number: u64)
    ensures { older.new ≡ option_map (ended number) older.old }
{
    if let Some(block) = older {
        block.end_at(number);
    }
}

// The rows of an older block after the first `start` commits, if it has them.
fn rows_of_older(older: &Option<RowBlock>, start: u64) -> Option<&Piece>
    ensures rows { IfSome result (λ rows. IsOfOlder start older.now rows.now) }
    ensures none { result ≡ None → IsSilent start older.now }
{
    let block = older.as_ref()?;
    if block.is_of(start) {
        Some(&block.rows)
    } else {
        None
    }
}

impl Slot {
    /// The rows of its cells after the first `start` commits, if it has them.
    pub fn rows_at(&self, start: u64) -> Option<&Piece>
        ensures rows { IfSome result (λ rows. IsOfSlot start self.now rows.now) }
        ensures none { result ≡ None → IsSilentSlot start self.now }
    {
        if self.newest.is_of(start) {
            return Some(&self.newest.rows);
        }
        rows_of_older(&self.older, start)
    }

    /// Its blocks say no more what is from a commit on.
    pub fn end_at(&mut self, number: u64)
        ensures { self.new ≡ ended_slot number self.old }
    {
        self.newest.end_at(number);
        end_older(&mut self.older, number);
    }

    /// Takes a block of its cells, and keeps the newest of the others.
    pub fn add(&mut self, block: RowBlock)
        ensures takes { self.new ≡ with_block block self.old }
        ensures true_slot { (floor : ℕ) (chains : Cells VersionChain) →
            IsTrueBlock 0 chains self.old.region block →
            IsTrueSlot floor chains self.old → IsTrueSlot floor chains self.new }
    {
        if block.since < self.newest.since {
            self.older = Some(block);
            return;
        }
        let newest = mem::replace(&mut self.newest, block);
        self.older = Some(newest);
    }
}
