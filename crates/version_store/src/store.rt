//! The store, over the chains of all cells.
ghost use Rattle.std.specs.Prelude.{◌≡◌, ◌+◌, ◌-◌, ◌<◌, ◌≤◌, ◌^◌, [], ◌∷◌, ◌++◌, length, ◌↔◌, IfOk};
ghost use Rattle.std.specs.Prelude.{IsTrue, OnErr};
ghost use Rattle.prog_tree.specs.Evaluation.{rows_left};
ghost use Rattle.prog_tree.specs.Table.{rows_in, row_at};
ghost use Rattle.version_store.specs.Clash.{IsClash};
ghost use Rattle.version_store.specs.Commits.{state_at};
ghost use Rattle.version_store.specs.StandsFor.{StandsFor, InEachHistory, KeepsHistories};
ghost use Rattle.version_store.specs.Told.{told};
ghost use Rattle.version_store.specs.Versions.{retained, reclaimed};

use crate::blocks::Blocks;
use crate::chains::Chains;
use crate::clash::{Clash, first_clash};
use crate::pending::Pending;
use prog_tree::{Cell, Changes, Region, RisingCells, RowPieces, Rows, Sequence};
use std::alloc::{AllocError, Global};
use std::marker::Model;

/// What each cell held after each commit from the floor on.
#[derive(Debug, Drop)]
pub struct Store {
    chains: Chains,
    commits: u64,
    floor: u64,
    versions: u64,
    pending: Pending,
    blocks: Blocks,
}

impl Model for Store {
    ghost use Rattle.std.specs.Prelude.{◌+◌};
    ghost use Rattle.version_store.specs.Blocks.{AreTrue};
    ghost use Rattle.version_store.specs.Reading.{AllRise, AreBelow};
    ghost use Rattle.version_store.specs.StandsFor.{StoreView};

    ghost Value = { StoreView };

    ghost view = { λ s. record {
      chains = s.chains;
      commits = s.commits;
      floor = s.floor;
      versions = s.versions;
      pending = s.pending;
    } };

    ghost invariant = { λ s. AllRise s.chains × AreBelow (s.commits + 1) s.chains
        × AreTrue s.floor s.chains s.blocks };
}

impl Store {
    /// A store of opening rows, which have the number 0.
    pub fn open(alloc: Global, opening: &Rows) -> Result<Self, AllocError>
        ensures stands { IfOk result (λ store. StandsFor store opening.now []) }
    {
        Ok(Store {
            chains: Chains::open(alloc, opening)?,
            commits: 0,
            floor: 0,
            versions: opening.len() as u64,
            pending: Pending::new(alloc),
            blocks: Blocks::new(alloc),
        })
    }

    /// How many commits were installed.
    pub fn commits(&self) -> u64
        ensures { result ≡ self.now.commits }
    {
        self.commits
    }

    /// The floor of the last vacuum, or 0.
    pub fn floor(&self) -> u64
        ensures { result ≡ self.now.floor }
    {
        self.floor
    }

    /// What a cell held after the first `start` commits.
    pub fn get(&self, start: u64, cell: &Cell) -> Option<i64>
        requires above { self.now.floor ≤ start }
        requires within { start ≤ self.now.commits }
        ensures { InEachHistory self.now (λ opening ws.
            result ≡ row_at (state_at opening ws start) cell.now) }
    {
        self.chains.get(start, cell)
    }

    /// The rows of a region after the first `start` commits, in the order of their cells.
    pub fn scan(&self, start: u64, region: &Region) -> Result<Sequence<(Cell, i64)>, AllocError>
        requires above { self.now.floor ≤ start }
        requires within { start ≤ self.now.commits }
        ensures { IfOk result (λ rows. InEachHistory self.now (λ opening ws.
            rows ≡ rows_in region.now (state_at opening ws start))) }
    {
        self.chains.scan(start, region)
    }

    /// Makes ready for `scan_pieces` of a region after the first `start` commits, as far as memory
    /// allows.
    pub fn prepare(&mut self, start: u64, region: &Region)
        ensures { self.new ≡ self.old }
    {
        if self.blocks.prepare(&self.chains, start, region).is_err() {
            self.blocks.clear();
        }
    }

    /// The rows that `scan` reads. Those of a wide region are shared where they were made ready.
    pub fn scan_pieces(&self, start: u64, region: &Region) -> Result<RowPieces, AllocError>
        requires above { self.now.floor ≤ start }
        requires within { start ≤ self.now.commits }
        ensures { IfOk result (λ rows. InEachHistory self.now (λ opening ws.
            rows ≡ rows_in region.now (state_at opening ws start))) }
    {
        self.blocks.scan(&self.chains, start, region)
    }

    /// Whether some rows are those of a region after the first `start` commits, but for those of
    /// some `own` cells. Rows in several pieces are compared with those of blocks.
    pub fn are_held(&self, start: u64, region: &Region, own: &RisingCells, rows: &RowPieces) -> bool
        requires above { self.now.floor ≤ start }
        requires within { start ≤ self.now.commits }
        ensures { InEachHistory self.now (λ opening ws.
            IsTrue result ↔ (rows_left region.now own.now (state_at opening ws start) ≡ rows.now)) }
    {
        if own.is_empty() && rows.pieces().len() > 1 {
            if let Ok(found) = self.scan_pieces(start, region) {
                return found.is_same(rows);
            }
        }
        self.chains.are_held(start, region, own, rows)
    }

    /// The rows of all tables after the first `start` commits.
    pub fn state(&self, start: u64) -> Result<Rows, AllocError>
        requires above { self.now.floor ≤ start }
        requires within { start ≤ self.now.commits }
        ensures { IfOk result (λ rows. InEachHistory self.now (λ opening ws.
            rows ≡ state_at opening ws start)) }
    {
        self.chains.state(start)
    }

    /// The rows of all tables after the first `start` commits, in the order of their cells.
    pub fn state_rows(&self, start: u64) -> Result<Sequence<(Cell, i64)>, AllocError>
        requires above { self.now.floor ≤ start }
        requires within { start ≤ self.now.commits }
        ensures { IfOk result (λ rows. InEachHistory self.now (λ opening ws.
            rows ≡ state_at opening ws start)) }
    {
        self.chains.state_rows(start)
    }

    /// The clash of what an instance changes and keeps with the commits above its start. Where
    /// there is none above it, no cell is looked for.
    pub fn clash(&self, start: u64, changes: &Changes) -> Option<Clash>
        requires above { self.now.floor ≤ start }
        requires within { start ≤ self.now.commits }
        ensures { InEachHistory self.now (λ opening ws.
            IsClash ws start changes.now (told result)) }
    {
        if start == self.commits {
            return None;
        }
        first_clash(&self.chains, start, changes)
    }

    /// Adds a commit, and answers with its number. Without memory the store stands for what it did.
    pub fn install(&mut self, changes: &Changes) -> Result<u64, AllocError>
        requires { self.old.commits < 2 ^ 64 - 1 }
        ensures number { IfOk result (λ number. number ≡ self.old.commits + 1) }
        ensures commits { IfOk result (λ number. self.new.commits ≡ number) }
        ensures floor { self.new.floor ≡ self.old.floor }
        ensures stands { IfOk result (λ number. InEachHistory self.old (λ opening ws.
            StandsFor self.new opening (ws ++ changes.now ∷ []))) }
        ensures err { OnErr result (self.new.commits ≡ self.old.commits) }
        ensures err_stands { OnErr result (KeepsHistories self.old self.new) }
    {
        let number = self.commits + 1;
        let Some(versions) = self.versions.checked_add(changes.iter().len() as u64) else {
            return Err(AllocError);
        };
        let before = self.pending.len();
        self.pending.add(number, changes)?;
        self.blocks.end_changed(number, changes);
        let Ok(()) = self.chains.add_commit(number, changes) else {
            self.blocks.clear();
            self.pending.truncate(before);
            return Err(AllocError);
        };
        self.commits = number;
        self.versions = versions;
        Ok(number)
    }

    /// Drops the versions that no read from the floor on can see, and answers how many they were.
    /// It needs no memory: a smaller block that is refused leaves the larger one. It takes the time
    /// that the commits since the last vacuum took.
    pub fn vacuum(&mut self, floor: u64) -> u64
        requires rises { self.old.floor ≤ floor }
        requires within { floor ≤ self.old.commits }
        ensures count { InEachHistory self.old (λ opening ws.
            result ≡ reclaimed opening ws self.old.floor floor) }
        ensures floor { self.new.floor ≡ floor }
        ensures commits { self.new.commits ≡ self.old.commits }
        ensures stands { KeepsHistories self.old self.new }
    {
        self.chains.read_order();
        let count = self.chains.vacuum(&mut self.pending, floor);
        self.chains.read_order();
        self.blocks.limit(self.chains.len());
        self.floor = floor;
        self.versions = self.versions.saturating_sub(count);
        count
    }

    /// How many versions it keeps.
    pub fn versions(&self) -> u64
        ensures { InEachHistory self.now (λ opening ws.
            result ≡ length (retained opening ws self.now.floor)) }
    {
        self.versions
    }
}
