//! The chains of all cells.
ghost use Rattle.std.specs.Prelude.{◌≡◌, ◌+◌, ◌-◌, ◌≤◌, ◌^◌, [], length, Some, min, IfOk, IsTrue};
ghost use Rattle.std.specs.Prelude.{IsFalse, OnOk, OnErr};
ghost use Rattle.std.specs.BTreeMap.{IsFromIterResult};
ghost use Rattle.std.specs.List.Sorted.{IsStrictlySortedBy};
ghost use Rattle.prog_tree.specs.Table.{cell_cmp, cells_of, row_at, IsTableState};
ghost use Rattle.version_store.specs.Reading.{AllRise, chain_at, value_at, number_at};
ghost use Rattle.version_store.specs.Reading.{opening_chains, with_opening_row, with_commit};
ghost use Rattle.version_store.specs.Reading.{cut_from, IsGrown, TrimsAll, MakesAt, MakesEach};
ghost use Rattle.version_store.specs.Reading.{MakesTouched, MayTrim, KeepsBelow, OthersHold};
ghost use Rattle.version_store.specs.StandsFor.{no_chain, size, trimmed, EachHolds};
ghost use Rattle.version_store.specs.Touches.{with_touch};
ghost use Rattle.version_store.specs.Trimming.{within, beyond};

use crate::chain::VersionChain;
use crate::pending::Pending;
use crate::touches::{Touch, Touches};
use prog_tree::{Cell, Changes, Rows};
use std::alloc::{AllocError, Global};
use std::collections::BTreeMap;
use std::marker::Model;

/// The chains by their cells. A cell without a chain has an empty one.
#[derive(Debug, Drop)]
pub struct Chains {
    pub alloc: Global,
    pub chains: BTreeMap<Cell, VersionChain>,
}

impl Model for Chains {
    ghost use Rattle.prog_tree.specs.Table.{Cells};
    ghost use Rattle.version_store.specs.StandsFor.{VersionChain};

    ghost Value = { Cells VersionChain };

    ghost view = { λ c. c.chains.entries };
}

// The chains of opening rows with their cells, in the order of these.
fn opening_chains(alloc: Global, opening: &Rows) -> Result<Vec<(Cell, VersionChain)>, AllocError>
    ensures chains { IfOk result (λ chains. chains.items ≡ opening_chains opening.now) }
    ensures ordered { IfOk result (λ chains. IsTableState opening.now) }
{
    let mut chains = Vec::with_capacity(alloc, opening.len())?;
    for (cell, value) in opening.iter() {
        let mut chain = VersionChain::new(alloc);
        chain.add(0, Touch::Change(Some(*value)))?;
        chains.push((*cell, chain))?;
    }
    Ok(chains)
}

// The map of chains with their cells. That of cells which rise is built without a search for each.
fn map_of(
    alloc: Global,
    chains: Vec<(Cell, VersionChain)>,
) -> Result<BTreeMap<Cell, VersionChain>, AllocError>
    ensures { IfOk result (IsFromIterResult cell_cmp chains.items) }
{
    chains.into_iter().collect(alloc)
}

impl Chains {
    /// What a cell held after the first `start` commits.
    pub fn get(&self, start: u64, cell: &Cell) -> Option<i64>
        ensures { AllRise self.now → result ≡ value_at start (chain_at self.now cell.now) }
    {
        self.chains.get(cell)?.value_at(start)
    }

    /// The greatest number of a commit that changed or kept a cell, or 0.
    pub fn last_number(&self, cell: &Cell) -> u64
        ensures { result ≡ number_at self.now cell.now }
    {
        match self.chains.get(cell) {
            Some(chain) => chain.last_number(),
            None => 0,
        }
    }

    // Drops the chain of a cell, of which nothing is left.
    fn drop_empty(&mut self, cell: &Cell)
        requires { chain_at self.old cell.now ≡ no_chain }
        ensures chains { MakesEach (λ c chain. chain) self.old self.new }
        ensures count { size self.new ≡ size self.old }
        ensures hold { OthersHold cell.now self.old → EachHolds self.new }
    {
        let _ = self.chains.remove(cell);
    }

    // Whether a cell has a chain of which nothing is left.
    fn has_empty(&self, cell: &Cell) -> bool
        ensures empty { IsTrue result → chain_at self.now cell.now ≡ no_chain }
        ensures left { IsFalse result → OthersHold cell.now self.now → EachHolds self.now }
    {
        match self.chains.get(cell) {
            Some(chain) => chain.is_empty(),
            None => false,
        }
    }

    // Drops the chain of a cell, if nothing is left of it.
    fn drop_if_empty(&mut self, cell: &Cell)
        ensures chains { MakesEach (λ c chain. chain) self.old self.new }
        ensures hold { OthersHold cell.now self.old → EachHolds self.new }
    {
        if self.has_empty(cell) {
            self.drop_empty(cell);
        }
    }

    // Adds a touch to the chain of a cell, behind the others.
    fn add(&mut self, cell: Cell, number: u64, touch: Touch) -> Result<(), AllocError>
        ensures ok { OnOk result (MakesAt cell (with_touch number touch) self.old self.new) }
        ensures err { OnErr result (MakesEach (λ c chain. chain) self.old self.new) }
        ensures hold { EachHolds self.old → EachHolds self.new }
    {
        let entry = self.chains.entry(cell)?;
        let chain = entry.or_insert(VersionChain::new(self.alloc));
        let Ok(()) = chain.add(number, touch) else {
            self.drop_if_empty(&cell);
            return Err(AllocError);
        };
        Ok(())
    }

    // Cuts the chain of a cell, and answers whether it is there and nothing is left of it.
    fn cut_chain(&mut self, cell: &Cell, number: u64) -> bool
        ensures chains { MakesAt cell.now (cut_from number) self.old self.new }
        ensures others { EachHolds self.old → OthersHold cell.now self.new }
        ensures empty { IsTrue result → chain_at self.new cell.now ≡ no_chain }
        ensures left { IsFalse result → EachHolds self.old → EachHolds self.new }
    {
        let Some(chain) = self.chains.get_mut(cell) else {
            return false;
        };
        chain.cut_from(number);
        chain.is_empty()
    }

    // Cuts the chain of a cell, which leaves the map where nothing is left of it.
    fn cut_from(&mut self, cell: &Cell, number: u64)
        ensures chains { MakesAt cell.now (cut_from number) self.old self.new }
        ensures hold { EachHolds self.old → EachHolds self.new }
    {
        if self.cut_chain(cell, number) {
            self.drop_empty(cell);
        }
    }

    /// The chains of opening rows.
    pub fn open(alloc: Global, opening: &Rows) -> Result<Self, AllocError>
        ensures rows { IfOk result (λ chains.
            MakesEach (λ c. with_opening_row (row_at opening.now c)) [] chains) }
        ensures hold { IfOk result (λ chains. EachHolds chains) }
    {
        let rows = opening_chains(alloc, opening)?;
        let chains = map_of(alloc, rows)?;
        Ok(Chains { alloc, chains })
    }

    // Adds the touches of a commit, or some of them.
    fn add_touches(&mut self, number: u64, changes: &Changes) -> Result<(), AllocError>
        ensures ok { OnOk result (MakesEach (with_commit number changes.now) self.old self.new) }
        ensures err { OnErr result (IsGrown number changes.now self.old self.new) }
        ensures hold { EachHolds self.old → EachHolds self.new }
    {
        for (cell, touch) in Touches::of(changes) {
            self.add(cell, number, touch)?;
        }
        Ok(())
    }

    // Cuts the chains of the cells that a commit touches.
    fn cut_touched(&mut self, number: u64, changes: &Changes)
        ensures chains { MakesTouched changes.now (cut_from number) self.old self.new }
        ensures hold { EachHolds self.old → EachHolds self.new }
    {
        for (cell, _) in Touches::of(changes) {
            self.cut_from(&cell, number);
        }
    }

    /// Adds what a commit does. Without memory, chains that had only lesser numbers are as before.
    pub fn add_commit(&mut self, number: u64, changes: &Changes) -> Result<(), AllocError>
        ensures ok { OnOk result (MakesEach (with_commit number changes.now) self.old self.new) }
        ensures err { OnErr result (KeepsBelow number self.old self.new) }
        ensures hold { EachHolds self.old → EachHolds self.new }
    {
        let Ok(()) = self.add_touches(number, changes) else {
            self.cut_touched(number, changes);
            return Err(AllocError);
        };
        Ok(())
    }

    /// How many cells have a chain.
    pub fn len(&self) -> usize
        ensures { result ≡ length self.now }
    {
        self.chains.len()
    }

    /// The cells stand in their order.
    pub fn read_order(&self)
        ensures { IsStrictlySortedBy cell_cmp (cells_of self.now) }
    {
        let _ = self.chains.iter();
    }

    // Trims the chain of a cell, and answers how many versions went, and whether it is there and
    // nothing is left of it.
    fn trim_chain(&mut self, cell: &Cell, floor: u64) -> (usize, bool)
        ensures chains { MakesAt cell.now (trimmed floor) self.old self.new }
        ensures count { size self.new + result.0 ≡ size self.old }
        ensures others { EachHolds self.old → OthersHold cell.now self.new }
        ensures empty { IsTrue result.1 → chain_at self.new cell.now ≡ no_chain }
        ensures left { IsFalse result.1 → EachHolds self.old → EachHolds self.new }
    {
        let Some(chain) = self.chains.get_mut(cell) else {
            return (0, false);
        };
        let count = chain.trim(floor);
        (count, chain.is_empty())
    }

    // Trims the chain of a cell, which leaves the map where nothing is left of it.
    fn trim(&mut self, cell: &Cell, floor: u64) -> usize
        ensures chains { MakesAt cell.now (trimmed floor) self.old self.new }
        ensures count { size self.new + result ≡ size self.old }
        ensures hold { EachHolds self.old → EachHolds self.new }
    {
        let (count, is_empty) = self.trim_chain(cell, floor);
        if is_empty {
            self.drop_empty(cell);
        }
        count
    }

    /// Trims the chains of the pending cells up to a floor, and answers how many versions went, as
    /// far as a u64 can tell.
    pub fn vacuum(&mut self, pending: &mut Pending, floor: u64) -> u64
        ensures pending { pending.new ≡ beyond floor pending.old }
        ensures chains { TrimsAll floor (within floor pending.old) self.old self.new }
        ensures each { MayTrim floor self.old self.new }
        ensures hold { EachHolds self.old → EachHolds self.new }
        ensures falls { size self.new ≤ size self.old }
        ensures count { result ≡ min (size self.old - size self.new) (2 ^ 64 - 1) }
    {
        let mut count: u64 = 0;
        while let Some(cell) = pending.next_within(floor) {
            count = count.saturating_add(self.trim(&cell, floor) as u64);
        }
        count
    }
}
