//! The rows that are read from the chains of all cells.
ghost use Rattle.std.specs.Prelude.{◌≡◌, ◌↔◌, IfOk, IsTrue};
ghost use Rattle.prog_tree.specs.Table.{TableState};
ghost use Rattle.version_store.specs.Reading.{AllRise};
ghost use Rattle.version_store.specs.Regions.{seen_anywhere, seen_in, seen_left, IsSeen};

use crate::chains::Chains;
use crate::found::{add_found, left_between, push_row, rows_behind, seen_between};
use prog_tree::{Cell, Region, RisingCells, RowPieces, Rows, Sequence};
use std::alloc::AllocError;

// For how many rows a scan makes room at most before it has found one.
const MOST_FIRST_ROWS: usize = 1024;

// How many numbers there are from one to another, as far as a usize can tell.
fn count_between(low: i64, high: i64) -> usize {
    match usize::try_from(high.saturating_sub(low)) {
        Ok(steps) => steps.saturating_add(1),
        Err(_) => 0,
    }
}

// For how many rows of a region there is room at first: it has no more rows than cells.
fn first_room(region: &Region) -> usize {
    let firsts = count_between(region.first_low, region.first_high);
    let seconds = count_between(region.second_low, region.second_high);
    firsts.saturating_mul(seconds).min(MOST_FIRST_ROWS)
}

impl Chains {
    /// The rows of a region after the first `start` commits. They keep no room for more.
    pub fn scan(&self, start: u64, region: &Region) -> Result<Sequence<(Cell, i64)>, AllocError>
        ensures { IfOk result (λ rows. AllRise self.now →
            IsSeen (seen_in region.now start) self.now rows) }
    {
        let mut rows = Vec::with_capacity(self.alloc, first_room(region))?;
        let Some((low, high)) = region.corners() else {
            return Ok(Sequence::from_vec(rows));
        };
        for (cell, chain) in self.chains.range(low..=high) {
            let found = seen_between(region, start, cell, chain);
            push_row(&mut rows, cell, found)?;
        }
        rows.shrink_to_fit();
        Ok(Sequence::from_vec(rows))
    }

    /// The rows of all tables after the first `start` commits, in the order of their cells.
    pub fn state_rows(&self, start: u64) -> Result<Sequence<(Cell, i64)>, AllocError>
        ensures { IfOk result (λ rows. AllRise self.now →
            IsSeen (seen_anywhere start) self.now rows) }
    {
        let mut rows = Vec::with_capacity(self.alloc, self.chains.len())?;
        for (cell, chain) in self.chains.iter() {
            push_row(&mut rows, cell, chain.value_at(start))?;
        }
        Ok(Sequence::from_vec(rows))
    }

    /// Whether some rows are those of a region after the first `start` commits, but for those of
    /// some `own` cells.
    pub fn are_held(&self, start: u64, region: &Region, own: &RisingCells, rows: &RowPieces) -> bool
        ensures { AllRise self.now → (m : TableState) →
            IsSeen (seen_left region.now own.now start) self.now m →
            IsTrue result ↔ (m ≡ rows.now) }
    {
        let Some((low, high)) = region.corners() else {
            return rows.is_empty();
        };
        let mut rest = rows.walk();
        for (cell, chain) in self.chains.range(low..=high) {
            let found = left_between(region, own, start, cell, chain);
            let Some(after) = rows_behind(rest, cell, found) else {
                return false;
            };
            rest = after;
        }
        rest.is_empty()
    }

    /// The rows of all tables after the first `start` commits.
    pub fn state(&self, start: u64) -> Result<Rows, AllocError>
        ensures { IfOk result (λ rows. AllRise self.now →
            IsSeen (seen_anywhere start) self.now rows) }
    {
        let mut rows = Rows::new(self.alloc);
        for (cell, chain) in self.chains.iter() {
            add_found(&mut rows, start, cell, chain)?;
        }
        Ok(rows)
    }
}
