//! How blocks are made for scans.
ghost use Rattle.std.specs.Prelude.{◌≡◌};
ghost use Rattle.version_store.specs.Blocks.{StaysTrue};
ghost use Rattle.version_store.specs.Reading.{AllRise};

use crate::block_walk::NEW_CELLS;
use crate::blocks::{Blocks, reaches};
use crate::chains::Chains;
use prog_tree::{Cell, Region};
use std::alloc::AllocError;

// How many cells the block of a slot has at most.
const MOST_CELLS: usize = 2 * NEW_CELLS;

// Whether it may have as many cells as a new block.
fn is_wide(region: &Region) -> bool {
    region.first_high.saturating_sub(region.first_low) >= NEW_CELLS as i64 - 1
}

// Whether its cells are those of a table of one key column.
fn is_plain(region: &Region) -> bool {
    region.second_low == 0 && region.second_high == 0
}

impl Blocks {
    // The parts of a region for which blocks are to be made: slots that have no block after the
    // first `start` commits, and what is wide enough between slots.
    fn parts_to_make(&self, start: u64, region: &Region) -> Result<Vec<Region>, AllocError> {
        let mut parts = Vec::new(self.alloc);
        let Some((low, _)) = region.corners() else {
            return Ok(parts);
        };
        let mut left = *region;
        for (_, slot) in self.slots.range(low..) {
            let part = slot.region;
            if !reaches(region, &part) {
                break;
            }
            let before = Region {
                first_high: part.first_low.saturating_sub(1),
                ..left
            };
            if is_wide(&before) {
                parts.push(before)?;
            }
            if slot.rows_at(start).is_none() {
                parts.push(part)?;
            }
            left.first_low = part.first_high.saturating_add(1);
        }
        if is_wide(&left) {
            parts.push(left)?;
        }
        Ok(parts)
    }

    // Makes slots of a region.
    fn fill(&mut self, chains: &Chains, start: u64, region: &Region) -> Result<(), AllocError>
        ensures { AllRise chains.now → StaysTrue chains.now self.old self.new }
    {
        // The slots stand apart, as their type says.
        let _ = &self.alloc;
        for part in chains.parts_of(region, NEW_CELLS)? {
            let walked = chains.block_of(start, &part)?;
            self.insert(&part, walked.block)?;
        }
        Ok(())
    }

    // Gives the slot of a key a block, or parts it where it has grown.
    fn renew(
        &mut self,
        chains: &Chains,
        start: u64,
        key: &Cell,
        region: &Region,
    ) -> Result<(), AllocError>
        ensures { AllRise chains.now → StaysTrue chains.now self.old self.new }
    {
        let walked = chains.block_of(start, region)?;
        if walked.cells <= MOST_CELLS {
            self.add(key, region, walked.block);
            return Ok(());
        }
        self.remove(key);
        self.fill(chains, start, region)
    }

    // Makes blocks of a part of a region.
    fn make(&mut self, chains: &Chains, start: u64, region: &Region) -> Result<(), AllocError>
        ensures { AllRise chains.now → StaysTrue chains.now self.old self.new }
    {
        let Some((_, high)) = region.corners() else {
            return Ok(());
        };
        if self.has_slot(&high, region) {
            return self.renew(chains, start, &high, region);
        }
        self.fill(chains, start, region)
    }

    /// Makes blocks for scans of a region after the first `start` commits. Only wide regions of
    /// tables of one key column have any.
    pub fn prepare(
        &mut self,
        chains: &Chains,
        start: u64,
        region: &Region,
    ) -> Result<(), AllocError>
        ensures { AllRise chains.now → StaysTrue chains.now self.old self.new }
    {
        if !is_plain(region) || !is_wide(region) {
            return Ok(());
        }
        for part in self.parts_to_make(start, region)? {
            self.make(chains, start, &part)?;
        }
        Ok(())
    }
}
