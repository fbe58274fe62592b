//! Regions that a book keeps of looks.

ghost use Rattle.std.specs.Prelude.{◌≡◌, ◌↔◌, IfOk, IsTrue};

use prog_tree::Region;
use std::alloc::{AllocError, Global};
use std::marker::Model;

/// A region in a block of its own: most looks are at one cell, and have no room for a region.
/// Contracts see the region.
#[derive(Debug, Drop)]
pub struct KeptRegion {
    region: Box<Region>,
}

impl Model for KeptRegion {
    ghost use Rattle.prog_tree.specs.declared.cell.Region.{Region};

    ghost Value = { Region };

    ghost view = { λ k. k.region.value };
}

impl KeptRegion {
    pub(crate) fn new(alloc: Global, region: Region) -> Result<Self, AllocError>
        ensures { IfOk result (λ kept. kept ≡ region) }
    {
        Ok(KeptRegion {
            region: Box::new(alloc, region)?,
        })
    }

    pub(crate) fn get(&self) -> &Region
        ensures { result.now ≡ self.now }
    {
        self.region.as_ref()
    }

    /// Whether both are the same.
    pub(crate) fn is_same(&self, other: &KeptRegion) -> bool
        ensures { IsTrue result ↔ (self.now ≡ other.now) }
    {
        self.get().is_same(other.get())
    }
}
