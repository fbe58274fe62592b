//! What the statements of the store do. Where memory ends the progress is as it was.
ghost use Rattle.std.specs.Prelude.{◌≡◌, IfOk, OnOk, OnErr};
ghost use Rattle.prog_tree.specs.Steps.{did};
ghost use Rattle.prog_tree.specs.Tree.{expr_tree};
ghost use Rattle.prog_run.specs.Task.{Counts, Sums, cell_use_tree, task_tree, get_flow, need_flow};
ghost use Rattle.prog_run.specs.Task.{lacks_flow, insert_flow, use_flow, rows_flow};
ghost use Rattle.prog_run.specs.Statement.{written_by, IsFlow, IsBegun, IsCellAnswered};

use crate::next::Step;
use crate::notes::{note_deed, note_found};
use crate::region::exact_i64;
use crate::task::{Asked, CellUse, Task};
use prog_tree::{Cause, Cell, Deed, End, Expr, Look, Name, Progress, Region, RowPieces};
use std::alloc::AllocError;

/// The end of a run with a number that is no i64.
pub const OVERFLOW: End = End::Aborted(Cause::Overflow);

/// Does a task, or says what it asks: a cell that the run has changed is not asked.
pub fn begin<'a>(progress: &mut Progress<'a>, task: Task<'a>) -> Result<Step<'a>, AllocError>
    ensures begun { IfOk result (λ s. IsBegun (task_tree task.entry) s progress.old progress.new) }
    ensures err { OnErr result (progress.new ≡ progress.old) }
{
    match task {
        Task::Ask(Asked::OfCell { cell, usage }) => {
            let Some(own) = progress.changes.get(&cell) else {
                return Ok(Step::Asks(Asked::OfCell { cell, usage }));
            };
            use_cell(progress, cell, usage, own)
        }
        Task::Ask(asked) => Ok(Step::Asks(asked)),
        Task::Put { cell, value } => write(progress, Deed::Put(cell, value)),
        Task::Remove { cell } => write(progress, Deed::Removed(cell)),
        Task::Keep { cell } => write(progress, Deed::Kept(cell)),
    }
}

// Does a deed that writes to the store.
fn write<'a>(progress: &mut Progress<'a>, deed: Deed) -> Result<Step<'a>, AllocError>
    ensures step { IfOk result (λ s. s ≡ Step.Did deed) }
    ensures ok { OnOk result (progress.new ≡ did deed (written_by deed progress.old)) }
    ensures err { OnErr result (progress.new ≡ progress.old) }
{
    note_deed(progress, deed)?;
    Ok(Step::Did(deed))
}

/// Finishes a statement that has asked for a cell.
pub fn answer_cell<'a>(
    progress: &mut Progress<'a>,
    cell: Cell,
    usage: CellUse<'a>,
    held: Option<i64>,
) -> Result<Step<'a>, AllocError>
    ensures flow { IfOk result
        (λ s. IsCellAnswered (cell_use_tree usage.entry) cell held s progress.old progress.new) }
    ensures err { OnErr result (progress.new ≡ progress.old) }
{
    let looks = progress.looks.len();
    progress.looks.push(Look::One(cell, held))?;
    let Ok(step) = use_cell(progress, cell, usage, held) else {
        progress.looks.truncate(looks);
        return Err(AllocError);
    };
    Ok(step)
}

// Goes on with what is known of a cell.
fn use_cell<'a>(
    progress: &mut Progress<'a>,
    cell: Cell,
    usage: CellUse<'a>,
    held: Option<i64>,
) -> Result<Step<'a>, AllocError>
    ensures flow { IfOk result
        (λ s. IsFlow (use_flow (cell_use_tree usage.entry) cell held progress.old) s progress.old
        progress.new) }
    ensures err { OnErr result (progress.new ≡ progress.old) }
{
    match usage {
        CellUse::Get { name, otherwise } => get(progress, cell, held, name, otherwise),
        CellUse::Need { name } => need(progress, cell, held, name),
        CellUse::Lacks => lacks(progress, cell, held),
        CellUse::Insert { value } => insert(progress, cell, held, value),
    }
}

fn get<'a>(
    progress: &mut Progress<'a>,
    cell: Cell,
    held: Option<i64>,
    name: &'a Name,
    otherwise: &Expr,
) -> Result<Step<'a>, AllocError>
    ensures flow { IfOk result
        (λ s. IsFlow (get_flow name.now (expr_tree otherwise.now) cell held progress.old) s
        progress.old progress.new) }
    ensures err { OnErr result (progress.new ≡ progress.old) }
{
    let value = match held {
        Some(value) => Some(value),
        None => otherwise.value(&progress.env),
    };
    let Some(value) = value else {
        return Ok(Step::Over(OVERFLOW));
    };
    let deed = Deed::Read(cell, held);
    note_found(progress, name, value, deed)?;
    Ok(Step::Did(deed))
}

fn need<'a>(
    progress: &mut Progress<'a>,
    cell: Cell,
    held: Option<i64>,
    name: &'a Name,
) -> Result<Step<'a>, AllocError>
    ensures flow { IfOk result
        (λ s. IsFlow (need_flow name.now cell held progress.old) s progress.old progress.new) }
    ensures err { OnErr result (progress.new ≡ progress.old) }
{
    let Some(value) = held else {
        return Ok(Step::Over(End::Aborted(Cause::Missing(cell))));
    };
    let deed = Deed::Read(cell, held);
    note_found(progress, name, value, deed)?;
    Ok(Step::Did(deed))
}

fn lacks<'a>(
    progress: &mut Progress<'a>,
    cell: Cell,
    held: Option<i64>,
) -> Result<Step<'a>, AllocError>
    ensures flow { IfOk result
        (λ s. IsFlow (lacks_flow cell held progress.old) s progress.old progress.new) }
    ensures err { OnErr result (progress.new ≡ progress.old) }
{
    if held.is_some() {
        return Ok(Step::Over(End::Aborted(Cause::Present(cell))));
    }
    let deed = Deed::Read(cell, held);
    progress.deeds.push(deed)?;
    Ok(Step::Did(deed))
}

fn insert<'a>(
    progress: &mut Progress<'a>,
    cell: Cell,
    held: Option<i64>,
    value: i64,
) -> Result<Step<'a>, AllocError>
    ensures flow { IfOk result
        (λ s. IsFlow (insert_flow value cell held progress.old) s progress.old progress.new) }
    ensures err { OnErr result (progress.new ≡ progress.old) }
{
    let None = held else {
        return Ok(Step::Over(End::Aborted(Cause::Present(cell))));
    };
    write(progress, Deed::Put(cell, value))
}

/// Binds the number of the rows that the run sees in a region.
pub fn count_rows<'a>(
    progress: &mut Progress<'a>,
    region: Region,
    name: &'a Name,
    rows: &RowPieces,
) -> Result<Step<'a>, AllocError>
    ensures flow { IfOk result
        (λ s. IsFlow (rows_flow (Counts name.now) region rows.now progress.old) s progress.old
        progress.new) }
    ensures err { OnErr result (progress.new ≡ progress.old) }
{
    let Some(value) = exact_i64(rows.len() as i128) else {
        return Ok(Step::Over(OVERFLOW));
    };
    let deed = Deed::Counted(region, value);
    note_found(progress, name, value, deed)?;
    Ok(Step::Did(deed))
}

/// Binds the total of their values.
pub fn sum_rows<'a>(
    progress: &mut Progress<'a>,
    region: Region,
    name: &'a Name,
    rows: &RowPieces,
) -> Result<Step<'a>, AllocError>
    ensures flow { IfOk result
        (λ s. IsFlow (rows_flow (Sums name.now) region rows.now progress.old) s progress.old
        progress.new) }
    ensures err { OnErr result (progress.new ≡ progress.old) }
{
    let Some(value) = exact_i64(rows.total()) else {
        return Ok(Step::Over(OVERFLOW));
    };
    let deed = Deed::Summed(region, value);
    note_found(progress, name, value, deed)?;
    Ok(Step::Did(deed))
}
