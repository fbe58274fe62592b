//! Walks over chains that make blocks.
ghost use Rattle.std.specs.Prelude.{◌≡◌, ◌<◌, IfOk};
ghost use Rattle.version_store.specs.Blocks.{IsTrueBlock, SaysOf, last_u64};
ghost use Rattle.version_store.specs.Reading.{AllRise};

use crate::block::RowBlock;
use crate::chains::Chains;
use crate::found::push_row;
use crate::stretch::stretch_between;
use prog_tree::{Cell, Piece, Region};
use std::alloc::{AllocError, Global};

/// How many cells a new block has.
pub const NEW_CELLS: usize = 64;

/// A block, and how many cells with chains it is of.
#[derive(Drop)]
pub struct Walked {
    pub block: RowBlock,
    pub cells: usize,
}

// A block of rows, which keep no room for more.
fn block_with(
    alloc: Global,
    mut rows: Vec<(Cell, i64)>,
    since: u64,
    till: u64,
) -> Result<RowBlock, AllocError>
    ensures rows { IfOk result (λ block. block.rows ≡ rows.items) }
    ensures since { IfOk result (λ block. block.since ≡ since) }
    ensures till { IfOk result (λ block. block.till ≡ till) }
{
    rows.shrink_to_fit();
    let rows = Piece::new(alloc, rows)?;
    Ok(RowBlock { since, till, rows })
}

impl Chains {
    /// The block of a region that says what is after the first `start` commits.
    pub fn block_of(&self, start: u64, region: &Region) -> Result<Walked, AllocError>
        ensures says { IfOk result (λ walked. AllRise self.now →
            IsTrueBlock 0 self.now region.now walked.block) }
        ensures start { IfOk result (λ walked. AllRise self.now → start < last_u64 →
            SaysOf start walked.block) }
    {
        let mut rows = Vec::with_capacity(self.alloc, NEW_CELLS)?;
        let mut since = 0;
        let mut till = u64::MAX;
        let mut cells: usize = 0;
        let Some((low, high)) = region.corners() else {
            let block = block_with(self.alloc, rows, since, till)?;
            return Ok(Walked { block, cells });
        };
        for (cell, chain) in self.chains.range(low..=high) {
            let stretch = stretch_between(region, start, cell, chain);
            push_row(&mut rows, cell, stretch.value)?;
            since = since.max(stretch.since);
            till = till.min(stretch.till);
            cells = cells.saturating_add(1);
        }
        let block = block_with(self.alloc, rows, since, till)?;
        Ok(Walked { block, cells })
    }

    /// Parts of a region that have so many cells with chains each, and the last one fewer than
    /// twice as many. Where there are fewer, none.
    pub fn parts_of(&self, region: &Region, size: usize) -> Result<Vec<Region>, AllocError> {
        let mut parts = Vec::new(self.alloc);
        let Some((low, high)) = region.corners() else {
            return Ok(parts);
        };
        let mut left = *region;
        let mut cells: usize = 0;
        for (cell, _) in self.chains.range(low..=high) {
            if cells == size {
                parts.push(Region {
                    first_high: cell.first.saturating_sub(1),
                    ..left
                })?;
                left.first_low = cell.first;
                cells = 0;
            }
            cells = cells.saturating_add(1);
        }
        if cells == size || !parts.is_empty() {
            parts.push(left)?;
        }
        Ok(parts)
    }
}
