//! The blocks of all cells.
ghost use Rattle.std.specs.Prelude.{◌≡◌, ◌↔◌, ◌≤◌, ◌<◌, ◌/◌, [], length, true, is_some, IfSome};
ghost use Rattle.std.specs.Prelude.{IsTrue, OnOk, Some};
ghost use Rattle.prog_tree.specs.declared.cell.Cell.{Cell};
ghost use Rattle.prog_tree.specs.ChangeSet.{change_at};
ghost use Rattle.prog_tree.specs.Corners.{AreCorners};
ghost use Rattle.prog_tree.specs.Table.{at_cell, Cells};
ghost use Rattle.version_store.specs.Blocks.{AreEnded, AreEndedIn, HasAt, HasCell, HasSlot};
ghost use Rattle.version_store.specs.Blocks.{IsKeyOf, IsPut, IsTaken, IsTrueBlock, LeavesFree, Reaches};
ghost use Rattle.version_store.specs.Blocks.{StandsBehind, StaysTrue, one_block, with_block};
ghost use Rattle.version_store.specs.declared.block.Slot.{Slot};
ghost use Rattle.version_store.specs.StandsFor.{VersionChain};

use crate::block::{RowBlock, Slot};
use prog_tree::{Cell, Changes, Region};
use std::alloc::{AllocError, Global};
use std::collections::BTreeMap;
use std::marker::Model;

// How many cells there are at least for a slot.
const FEWEST_CELLS: usize = 32;

/// Slots that stand apart, each by the last cell of its region.
#[derive(Debug, Drop)]
pub struct Blocks {
    pub alloc: Global,
    pub slots: BTreeMap<Cell, Slot>,
}

impl Model for Blocks {
    ghost use Rattle.prog_tree.specs.Table.{Cells};
    ghost use Rattle.version_store.specs.declared.block.Slot.{Slot};
    ghost use Rattle.version_store.specs.Blocks.{AreApart};

    ghost Value = { Cells Slot };

    ghost view = { λ b. b.slots.entries };

    ghost invariant = { λ b. AreApart b.slots.entries };
}

/// Whether a region goes on to where the one of a slot begins.
pub fn reaches(region: &Region, slot: &Region) -> bool
    ensures { IsTrue result ↔ Reaches region.now slot.now }
{
    region.table == slot.table && slot.first_low <= region.first_high
}

// Whether each cell of a region comes behind a cell.
fn is_behind(region: &Region, cell: &Cell) -> bool
    ensures { IsTrue result ↔ StandsBehind cell.now region.now }
{
    match region.corners() {
        Some((first, _)) => cell.cmp(&first).is_lt(),
        None => true,
    }
}

// Whether a cell is one of the region of the slot that was ended last.
fn is_done(done: &Option<Region>, cell: &Cell) -> bool
    ensures { IsTrue result ↔ HasCell done.now cell.now }
{
    match done {
        Some(region) => region.contains(cell),
        None => false,
    }
}

impl Blocks {
    pub fn new(alloc: Global) -> Self
        ensures { result ≡ [] }
    {
        Blocks {
            alloc,
            slots: BTreeMap::new(alloc),
        }
    }

    pub fn is_empty(&self) -> bool
        ensures { IsTrue result ↔ (self.now ≡ []) }
    {
        self.slots.is_empty()
    }

    /// Drops all of them.
    pub fn clear(&mut self)
        ensures { self.new ≡ [] }
    {
        self.slots.clear();
    }

    /// Drops all of them where there are too many for so many cells with chains: cells that have
    /// gone leave theirs behind.
    pub fn limit(&mut self, cells: usize)
        ensures keeps { length self.old ≤ cells / FEWEST_CELLS → self.new ≡ self.old }
        ensures drops { cells / FEWEST_CELLS < length self.old → self.new ≡ [] }
        ensures stays { (chains : Cells VersionChain) → StaysTrue chains self.old self.new }
    {
        if self.slots.len() > cells / FEWEST_CELLS {
            self.clear();
        }
    }

    // The key of the slot that has a cell, if there is one.
    fn key_of(&self, cell: &Cell) -> Option<Cell>
        ensures key { IsKeyOf self.now cell.now result }
        ensures has { IfSome result (HasAt self.now cell.now) }
    {
        let (key, slot) = self.slots.range(*cell..).next()?;
        if slot.region.contains(cell) {
            Some(*key)
        } else {
            None
        }
    }

    // The blocks that have a cell say no more what is from a commit on. Answers with the region of
    // their slot, if there is one.
    fn end_at(&mut self, cell: &Cell, number: u64) -> Option<Region>
        ensures ended { AreEnded number cell.now self.new }
        ensures region { IfSome result (λ region. AreEndedIn number region self.new) }
        ensures others { (c : Cell) → AreEnded number c self.old → AreEnded number c self.new }
        ensures stays { (chains : Cells VersionChain) → StaysTrue chains self.old self.new }
    {
        let key = self.key_of(cell)?;
        let slot = self.slots.get_mut(&key)?;
        let region = slot.region;
        slot.end_at(number);
        Some(region)
    }

    /// The blocks that have a changed cell say no more what is from a commit on. The cells rise, so
    /// those of one slot come one behind another, and it is looked for once.
    pub fn end_changed(&mut self, number: u64, changes: &Changes)
        ensures ended { (c : Cell) → is_some (change_at changes.now c) ≡ true →
            AreEnded number c self.new }
        ensures stays { (chains : Cells VersionChain) → StaysTrue chains self.old self.new }
    {
        if self.is_empty() {
            return;
        }
        let mut done = None;
        for (cell, _) in changes.iter() {
            if !is_done(&done, cell) {
                done = self.end_at(cell, number);
            }
        }
    }

    // Whether no slot has a cell from `low` to `high`, nor cells around these.
    fn is_free(&self, low: &Cell, high: &Cell) -> bool
        ensures { IsTrue result ↔ LeavesFree low.now high.now self.now }
    {
        let Some((key, slot)) = self.slots.range(*low..).next() else {
            return true;
        };
        high.cmp(key).is_lt() && is_behind(&slot.region, high)
    }

    /// Makes a slot of a block, where none has any of its cells.
    pub fn insert(&mut self, region: &Region, block: RowBlock) -> Result<(), AllocError>
        ensures inserted { OnOk result ((low high : Cell) →
            AreCorners region.now (Some (low, high)) → LeavesFree low high self.old →
            IsPut self.old self.new high (one_block region.now block)) }
        ensures stays { (chains : Cells VersionChain) →
            IsTrueBlock 0 chains region.now block →
            StaysTrue chains self.old self.new }
    {
        let Some((low, high)) = region.corners() else {
            return Ok(());
        };
        if !self.is_free(&low, &high) {
            return Ok(());
        }
        let slot = Slot {
            region: *region,
            newest: block,
            older: None,
        };
        self.slots.insert(high, slot)?;
        Ok(())
    }

    /// Drops the slot of a key.
    pub fn remove(&mut self, key: &Cell)
        ensures gone { IsTaken self.old self.new key.now }
        ensures stays { (chains : Cells VersionChain) → StaysTrue chains self.old self.new }
    {
        let _ = self.slots.remove(key);
    }

    /// Adds a block to the slot of a key, where that is just of this region.
    pub fn add(&mut self, key: &Cell, region: &Region, block: RowBlock)
        ensures added { HasSlot self.old key.now region.now → (slot : Slot) →
            at_cell self.old key.now ≡ Some slot →
            IsPut self.old self.new key.now (with_block block slot) }
        ensures kept { (HasSlot self.old key.now region.now → ⊥) → self.new ≡ self.old }
        ensures stays { (chains : Cells VersionChain) →
            IsTrueBlock 0 chains region.now block →
            StaysTrue chains self.old self.new }
    {
        if !self.has_slot(key, region) {
            return;
        }
        let Some(slot) = self.slots.get_mut(key) else {
            return;
        };
        slot.add(block);
    }

    /// Whether the slot of a key is just of a region.
    pub fn has_slot(&self, key: &Cell, region: &Region) -> bool
        ensures { IsTrue result ↔ HasSlot self.now key.now region.now }
    {
        match self.slots.get(key) {
            Some(slot) => slot.region.is_same(region),
            None => false,
        }
    }
}
