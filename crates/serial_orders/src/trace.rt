//! What commits looked at and changed.

ghost use Rattle.std.specs.Prelude.{◌≡◌, ◌↔◌, length, map, IfOk, IsTrue};
ghost use Rattle.std.specs.List.Sorted.{IsStrictlySortedBy};
ghost use Rattle.prog_tree.specs.Table.{cell_cmp, cells_of};
ghost use Rattle.serial_orders.specs.Orders.{IsUpTo};
ghost use Rattle.serial_orders.specs.Traces.{changed_at, looked_at, sight_of, takes_in, trace_at};
ghost use Rattle.serial_orders.specs.Traces.{trace_of};

use crate::kept_region::KeptRegion;
use prog_run::Run;
use prog_tree::{Cell, Changes, Look, Region, RisingCells, Sequence};
use std::alloc::{AllocError, Global};
use std::marker::Model;

/// What a look looked at, without what it found.
#[derive(Debug, Drop)]
pub enum Sight {
    One(Cell),
    /// A region, but for its `own` cells: the ones that the instance had changed.
    Range {
        region: KeptRegion,
        own: RisingCells,
    },
}

/// Whether a look at a region takes in a cell: one of the region, but for its `own` cells.
pub(crate) fn region_takes_in(region: &Region, own: &RisingCells, cell: &Cell) -> bool
    ensures { result ≡ takes_in (Sight.Range region.now own.now) cell.now }
{
    region.contains(cell) && !own.contains(cell)
}

impl Sight {
    /// Whether it takes in a cell.
    pub(crate) fn takes_in(&self, cell: &Cell) -> bool
        ensures { result ≡ takes_in self.now cell.now }
    {
        match self {
            Sight::One(looked) => looked.cmp(cell).is_eq(),
            Sight::Range { region, own } => region_takes_in(region.get(), own, cell),
        }
    }

    /// Whether both look at the same.
    pub(crate) fn is_same(&self, other: &Sight) -> bool
        ensures { IsTrue result ↔ (self.now ≡ other.now) }
    {
        match (self, other) {
            (Sight::One(cell), Sight::One(c)) => cell == c,
            (Sight::Range { region, own }, Sight::Range { region: r, own: o }) => {
                region.is_same(r) && own.is_same(o)
            }
            _ => false,
        }
    }
}

/// How many commits an instance saw, the cells that it changed, in their order, and what it
/// looked at.
#[derive(Debug, Drop)]
pub struct Trace {
    pub(crate) start: u64,
    pub(crate) changed: RisingCells,
    pub(crate) looked: Sequence<Sight>,
}

impl Model for Trace {
    ghost use Rattle.std.specs.List.Sorted.{IsStrictlySortedBy};
    ghost use Rattle.prog_tree.specs.Table.{cell_cmp};
    ghost use Rattle.serial_orders.specs.TraceView.{TraceView};

    ghost Value = { TraceView };

    ghost view = { λ t. record { start = t.start; changed = t.changed; looked = t.looked } };

    ghost invariant = { λ t. IsStrictlySortedBy cell_cmp t.changed };
}

// The changed cells in a list.
fn listed_cells(alloc: Global, changes: &Changes) -> Result<Vec<Cell>, AllocError>
    ensures cells { IfOk result (λ cells. cells.items ≡ cells_of changes.now.cells) }
    ensures ordered { IfOk result (λ cells. IsStrictlySortedBy cell_cmp cells.items) }
{
    let mut cells = Vec::with_capacity(alloc, changes.iter().len())?;
    for (cell, _) in changes.iter() {
        cells.push(*cell)?;
    }
    Ok(cells)
}

// The changed cells.
fn changed_cells(alloc: Global, changes: &Changes) -> Result<RisingCells, AllocError>
    ensures cells { IfOk result (λ cells. cells ≡ cells_of changes.now.cells) }
    ensures ordered { IfOk result (λ cells. IsStrictlySortedBy cell_cmp cells) }
{
    let cells = listed_cells(alloc, changes)?;
    Ok(RisingCells::from_vec(cells))
}

// A look without what it found.
fn sight_of(alloc: Global, look: &Look) -> Result<Sight, AllocError>
    ensures { IfOk result (λ sight. sight ≡ sight_of look.now) }
{
    match look {
        Look::One(cell, _) => Ok(Sight::One(*cell)),
        Look::Range { region, own, .. } => Ok(Sight::Range {
            region: KeptRegion::new(alloc, *region)?,
            own: own.copy()?,
        }),
    }
}

// The looks without what they found.
fn sights_of(alloc: Global, looks: &[Look]) -> Result<Sequence<Sight>, AllocError>
    ensures { IfOk result (λ sights. sights ≡ map sight_of looks.now) }
{
    let mut sights = Vec::with_capacity(alloc, looks.len())?;
    for look in looks {
        sights.push(sight_of(alloc, look)?)?;
    }
    Ok(Sequence::from_vec(sights))
}

impl Trace {
    /// The trace of an instance that saw so many commits, by its run.
    pub fn of(alloc: Global, start: u64, run: &Run<'_>) -> Result<Self, AllocError>
        ensures { IfOk result (λ trace.
            trace ≡ trace_of start run.now.changes.cells run.now.looks) }
    {
        let changed = changed_cells(alloc, run.changes())?;
        let looked = sights_of(alloc, run.looks())?;
        Ok(Trace {
            start,
            changed,
            looked,
        })
    }

    /// Whether the commit changed a cell.
    pub(crate) fn changed_at(&self, cell: &Cell) -> bool
        ensures { result ≡ changed_at self.now cell.now }
    {
        self.changed.contains(cell)
    }

    /// Whether the commit looked at a cell.
    pub(crate) fn looked_at(&self, cell: &Cell) -> bool
        ensures { result ≡ looked_at self.now cell.now }
    {
        let sights = self.looked.as_slice();
        sights.iter().any(|sight| sight.takes_in(cell))
    }
}

/// The trace of a commit that there is.
pub fn trace_at(traces: &[Trace], number: usize) -> &Trace
    requires { IsUpTo (length traces.now) number }
    ensures { result.now ≡ trace_at traces.now number }
{
    &traces[number - 1]
}

// Whether a number is that of a commit.
fn is_commit(traces: &[Trace], number: u64) -> bool
    ensures { IsTrue result ↔ IsUpTo (length traces.now) number }
{
    (1..=traces.len() as u64).contains(&number)
}

/// Whether two numbers are those of commits.
pub fn are_commits(traces: &[Trace], first: u64, second: u64) -> bool
    ensures { IsTrue result
        ↔ (IsUpTo (length traces.now) first × IsUpTo (length traces.now) second) }
{
    is_commit(traces, first) && is_commit(traces, second)
}
