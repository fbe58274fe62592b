//! Scans that share the rows of blocks.
ghost use Rattle.std.specs.Prelude.{◌≡◌, ◌↔◌, ◌⊎◌, ◌++◌, ◌≤◌, ◌<ℤ◌, ℕ, None, IfOk, IfSome, IsTrue};
ghost use Rattle.std.specs.Prelude.{OnOk};
ghost use Rattle.prog_tree.specs.Number.{least, greatest};
ghost use Rattle.prog_tree.specs.Pieces.{rows_of};
ghost use Rattle.prog_tree.specs.Table.{TableState, rows_in};
ghost use Rattle.version_store.specs.Blocks.{AreEnds, AreInner, AreTrue, HaveNoneInCommon};
ghost use Rattle.version_store.specs.Blocks.{IsBySlot, IsCommon, IsOfSlot, IsPart, IsSilentSlot};
ghost use Rattle.version_store.specs.Blocks.{LieIn, in_common, part_before, part_behind, part_between};
ghost use Rattle.version_store.specs.Reading.{AllRise};
ghost use Rattle.version_store.specs.Regions.{seen_in, IsSeen};

use crate::block::Slot;
use crate::blocks::{Blocks, reaches};
use crate::chains::Chains;
use prog_tree::{Cell, Piece, Region, RowPieces};
use std::alloc::{AllocError, Global};

// For how many pieces a scan makes room at most before it has met one.
const FIRST_PIECES: usize = 32;

// The part of a region between two ends.
fn part_between(region: &Region, low: i64, high: i64) -> Region
    ensures { result ≡ part_between region.now low high }
{
    Region {
        first_low: low,
        first_high: high,
        ..*region
    }
}

// The part of a region before another one.
fn part_before(region: &Region, inner: &Region) -> Region
    requires { least <ℤ inner.now.first_low }
    ensures { result ≡ part_before region.now inner.now.first_low }
{
    Region {
        first_high: inner.first_low - 1,
        ..*region
    }
}

// The part of a region behind another one.
fn part_behind(region: &Region, inner: &Region) -> Region
    requires { inner.now.first_high <ℤ greatest }
    ensures { result ≡ part_behind region.now inner.now.first_high }
{
    Region {
        first_low: inner.first_high + 1,
        ..*region
    }
}

// Whether some ends lie in the first column of a region, in order.
fn lie_in(region: &Region, low: i64, high: i64) -> bool
    ensures { IsTrue result ↔ LieIn region.now low high }
{
    region.first_low <= low && low <= high && high <= region.first_high
}

// Whether some ends are not the least and the greatest i64.
fn are_inner(low: i64, high: i64) -> bool
    ensures { IsTrue result ↔ AreInner low high }
{
    i64::MIN < low && high < i64::MAX
}

// Whether some ends are those of a part of a region.
fn are_ends(region: &Region, low: i64, high: i64) -> bool
    ensures { IsTrue result ↔ AreEnds region.now low high }
{
    lie_in(region, low, high) && are_inner(low, high)
}

// Whether one region is a part of another.
fn is_part(inner: &Region, region: &Region) -> bool
    ensures { IsTrue result ↔ IsPart inner.now region.now }
{
    let (low, high) = (inner.first_low, inner.first_high);
    are_ends(region, low, high) && inner.is_same(&part_between(region, low, high))
}

// What two regions have in common by their first column.
fn in_common(one: &Region, other: &Region) -> Region
    ensures { result ≡ in_common one.now other.now }
{
    let low = one.first_low.max(other.first_low);
    let high = one.first_high.min(other.first_high);
    part_between(other, low, high)
}

// The part that two regions have in common, if they have one.
fn common_part(one: &Region, other: &Region) -> Option<Region>
    ensures part { IfSome result (IsCommon one.now other.now) }
    ensures none { result ≡ None → HaveNoneInCommon one.now other.now }
{
    let part = in_common(one, other);
    if is_part(&part, one) && is_part(&part, other) {
        Some(part)
    } else {
        None
    }
}

// The rows whose cells lie in a region.
fn rows_within(alloc: Global, rows: &[(Cell, i64)], region: &Region) -> Result<Piece, AllocError>
    ensures { IfOk result (λ piece. piece ≡ rows_in region.now rows.now) }
{
    let mut kept = Vec::with_capacity(alloc, rows.len())?;
    for row in rows {
        if region.contains(&row.0) {
            kept.push(*row)?;
        }
    }
    kept.shrink_to_fit();
    Piece::new(alloc, kept)
}

/// The rows of a part of a region.
#[derive(Drop)]
struct PartRows {
    part: Region,
    rows: Piece,
}

impl Slot {
    // Its rows after the first `start` commits in a part of its region, if it has them.
    fn rows_of_part(
        &self,
        alloc: Global,
        start: u64,
        part: &Region,
    ) -> Result<Option<Piece>, AllocError>
        ensures rows { IfOk result (λ found. IfSome found (λ rows.
            IsPart part.now self.now.region → IsBySlot start self.now part.now rows)) }
        ensures none { IfOk result (λ found. found ≡ None → IsSilentSlot start self.now) }
    {
        let Some(rows) = self.rows_at(start) else {
            return Ok(None);
        };
        Ok(Some(rows_within(alloc, rows.rows(), part)?))
    }

    // All of it with its rows after the first `start` commits, if it has them. They are shared.
    fn whole(&self, start: u64) -> Result<Option<PartRows>, AllocError>
        ensures part { IfOk result (λ found. IfSome found (λ whole.
            whole.part ≡ self.now.region)) }
        ensures rows { IfOk result (λ found. IfSome found (λ whole.
            IsOfSlot start self.now whole.rows)) }
        ensures none { IfOk result (λ found. found ≡ None → IsSilentSlot start self.now) }
    {
        let Some(rows) = self.rows_at(start) else {
            return Ok(None);
        };
        Ok(Some(PartRows {
            part: self.region,
            rows: rows.share()?,
        }))
    }

    // What it has in common with a region, with the rows after the first `start` commits, if it
    // has them. Mostly that is all of it.
    fn rows_inside(
        &self,
        alloc: Global,
        start: u64,
        region: &Region,
    ) -> Result<Option<PartRows>, AllocError>
        ensures part { IfOk result (λ found. IfSome found (λ inside.
            IsCommon self.now.region region.now inside.part)) }
        ensures rows { IfOk result (λ found. IfSome found (λ inside.
            IsBySlot start self.now inside.part inside.rows)) }
        ensures none { IfOk result (λ found. found ≡ None →
            IsSilentSlot start self.now ⊎ HaveNoneInCommon self.now.region region.now) }
    {
        if is_part(&self.region, region) {
            return self.whole(start);
        }
        let Some(part) = common_part(&self.region, region) else {
            return Ok(None);
        };
        let Some(rows) = self.rows_of_part(alloc, start, &part)? else {
            return Ok(None);
        };
        Ok(Some(PartRows { part, rows }))
    }
}

// Adds the rows of a region after the first `start` commits, which are read from the chains.
fn push_scan(
    pieces: &mut Vec<Piece>,
    chains: &Chains,
    start: u64,
    region: &Region,
) -> Result<(), AllocError>
    ensures { OnOk result (AllRise chains.now → (m : TableState) →
        IsSeen (seen_in region.now start) chains.now m →
        rows_of pieces.new.items ≡ rows_of pieces.old.items ++ m) }
{
    let Some(_) = region.corners() else {
        return Ok(());
    };
    let rows = chains.scan(start, region)?;
    if !rows.is_empty() {
        let piece = Piece::new(chains.alloc, rows.into_vec())?;
        pieces.push(piece)?;
    }
    Ok(())
}

impl Blocks {
    /// The rows of a region after the first `start` commits: those of blocks are shared, and the
    /// others read from the chains.
    pub fn scan(
        &self,
        chains: &Chains,
        start: u64,
        region: &Region,
    ) -> Result<RowPieces, AllocError>
        ensures { IfOk result (λ rows. AllRise chains.now →
            (floor : ℕ) → floor ≤ start → AreTrue floor chains.now self.now →
            IsSeen (seen_in region.now start) chains.now rows) }
    {
        chains.read_order();
        let mut pieces = Vec::with_capacity(self.alloc, self.slots.len().min(FIRST_PIECES))?;
        let Some((low, _)) = region.corners() else {
            return RowPieces::from_pieces(self.alloc, pieces);
        };
        let mut left = *region;
        for (_, slot) in self.slots.range(low..) {
            if !reaches(region, &slot.region) {
                break;
            }
            if let Some(inside) = slot.rows_inside(self.alloc, start, &left)? {
                let before = part_before(&left, &inside.part);
                push_scan(&mut pieces, chains, start, &before)?;
                pieces.push(inside.rows)?;
                left = part_behind(&left, &inside.part);
            }
        }
        push_scan(&mut pieces, chains, start, &left)?;
        RowPieces::from_pieces(self.alloc, pieces)
    }
}
