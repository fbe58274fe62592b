//! Which commits may have missed a change of an earlier one: of two commits the later one has to
//! stand before the earlier only where it did.

ghost use Rattle.std.specs.Prelude.{◌≡◌, ◌∷◌, ◌<◌, ◌+◌, ◌%◌, ◌^◌, [], All, IfOk, IsFalse, length};
ghost use Rattle.std.specs.Prelude.{unsigned_abs};
ghost use Rattle.serial_orders.specs.Late.{slot_of, EntersAll, IsSeenAt, TellLate};
ghost use Rattle.serial_orders.specs.Late.{AreNextMarked, AreNextLate};
ghost use Rattle.serial_orders.specs.Traces.{SeesEarlier};

use crate::trace::{Sight, Trace};
use prog_tree::Cell;
use std::alloc::{AllocError, Global};

// How many slots there are for each commit: most commits change few cells, and cells of one slot
// can't be told apart.
const SLOTS_OF_A_COMMIT: usize = 8;

// Columns of a cell are taken as numbers below this, so that sums of them are small.
const FOLD: u64 = 4_294_967_296;

// A column of a cell as a number of 32 bits.
fn folded(column: i64) -> usize
    ensures value { result ≡ unsigned_abs column % 2 ^ 32 }
    ensures small { result < 2 ^ 32 }
{
    (column.unsigned_abs() % FOLD) as usize
}

// The slot of a cell among so many. Cells of two tables may have one slot.
fn slot_of(slots: usize, cell: &Cell) -> usize
    requires { 0 < slots }
    ensures slot { result ≡ slot_of slots cell.now }
    ensures within { result < slots }
{
    (folded(cell.first) + folded(cell.second) * 31) % slots
}

// Whether a look may have missed a change behind the first `start` commits, where each slot has the
// last of the first `count` commits that changed a cell there.
fn may_miss(slots: &[usize], count: usize, start: u64, sight: &Sight) -> bool
    requires { 0 < length slots.now }
    ensures { IsFalse result → IsSeenAt slots.now count start sight.now }
{
    match sight {
        Sight::One(cell) => slots[slot_of(slots.len(), cell)] as u64 > start,
        Sight::Range { .. } => count as u64 > start,
    }
}

// Whether a commit may have missed a change of the first `count` commits.
fn is_late(slots: &[usize], count: usize, trace: &Trace) -> bool
    requires { 0 < length slots.now }
    ensures { IsFalse result → All (IsSeenAt slots.now count trace.now.start) trace.now.looked }
{
    let sights = trace.looked.as_slice();
    for sight in sights {
        if may_miss(slots, count, trace.start, sight) {
            return true;
        }
    }
    false
}

// Enters a commit at the slot of a cell that it changed.
fn enter(slots: &mut [usize], cell: &Cell, number: usize)
    requires { 0 < length slots.old }
    ensures { EntersAll (cell.now ∷ []) number slots.old slots.new }
{
    let slot = slot_of(slots.len(), cell);
    slots[slot] = number.max(slots[slot]);
}

// Enters a commit at the slots of the cells that it changed.
fn enter_all(slots: &mut [usize], cells: &[Cell], number: usize)
    requires { 0 < length slots.old }
    ensures { EntersAll cells.now number slots.old slots.new }
{
    for cell in cells {
        enter(slots, cell, number);
    }
}

// Marks each commit that may have missed a change of an earlier one, by its number.
fn mark_late(traces: &[Trace], slots: &mut [usize], late: &mut [bool])
    requires sees { SeesEarlier traces.now }
    requires some { 0 < length slots.old }
    requires long { length late.old ≡ length traces.now + 1 }
    ensures { TellLate traces.now late.new }
{
    for (index, trace) in traces.iter().enumerate() {
        late[index + 1] = is_late(slots, index, trace);
        enter_all(slots, trace.changed.as_slice(), index + 1);
    }
}

// For each number from 0 on, whether its commit may have missed a change of an earlier one.
fn late_commits(alloc: Global, traces: &[Trace]) -> Result<Vec<bool>, AllocError>
    requires { SeesEarlier traces.now }
    ensures { IfOk result (λ late. TellLate traces.now late.items) }
{
    let count = traces.len().saturating_mul(SLOTS_OF_A_COMMIT).max(1);
    let mut slots = vec![in alloc; 0; count]?;
    let mut late = vec![in alloc; false; traces.len() + 1]?;
    mark_late(traces, &mut slots, &mut late);
    Ok(late)
}

// For each number from 0 on, and one more, the first from there on that has a mark, or how many
// numbers there are.
fn next_marked(alloc: Global, marks: &[bool]) -> Result<Vec<usize>, AllocError>
    ensures { IfOk result (λ next. AreNextMarked marks.now next.items) }
{
    let mut next = vec![in alloc; marks.len(); marks.len() + 1]?;
    let mut number = marks.len();
    while number > 0 {
        number -= 1;
        if marks[number] {
            next[number] = number;
            continue;
        }
        next[number] = next[number + 1];
    }
    Ok(next)
}

/// For each number from 0 on, and one more, the first commit from there on that may have missed a
/// change of an earlier one, or the number behind the last commit.
pub fn next_late(alloc: Global, traces: &[Trace]) -> Result<Vec<usize>, AllocError>
    requires { SeesEarlier traces.now }
    ensures { IfOk result (λ next. AreNextLate traces.now next.items) }
{
    let late = late_commits(alloc, traces)?;
    let next = next_marked(alloc, &late)?;
    Ok(next)
}
