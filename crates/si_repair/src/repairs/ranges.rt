//! Which statements are ranges.
ghost use Rattle.std.specs.Prelude.{◌≡◌, ◌↔◌, ◌++◌, false, IfOk, OnOk, IsTrue, slice_get};
ghost use Rattle.std.specs.Prelude.{slice_index_or};
ghost use Rattle.prog_tree.specs.Syntax.{BlockTree};
ghost use Rattle.prog_tree.specs.Tree.{with_stmt, block_tree, draft_tree};
ghost use Rattle.repair_laws.specs.Refusals.{IsRangeAt};
ghost use Rattle.si_repair.specs.Obstacles.{range_list, program_ranges};

use prog_tree::{Block, Draft, Stmt};
use std::alloc::{AllocError, Global};

// Adds whether a statement is a range, and the same of those in its blocks.
#[cycle(ranges)]
fn push_stmt(ranges: &mut Vec<bool>, stmt: &Stmt) -> Result<(), AllocError>
    ensures { OnOk result ((rest : BlockTree) → ranges.new.items ++ range_list rest
        ≡ ranges.old.items ++ range_list (with_stmt stmt.now rest)) }
{
    match stmt {
        Stmt::Branch {
            then,
            otherwise,
            ..
        } => {
            ranges.push(false)?;
            push_block(ranges, then)?;
            push_block(ranges, otherwise)?;
        }
        Stmt::Each { body, .. } => {
            ranges.push(true)?;
            push_block(ranges, body)?;
        }
        Stmt::Count { .. } | Stmt::Sum { .. } => ranges.push(true)?,
        Stmt::Bind { .. }
        | Stmt::Get { .. }
        | Stmt::Need { .. }
        | Stmt::Lacks { .. }
        | Stmt::Put { .. }
        | Stmt::Insert { .. }
        | Stmt::Delete { .. }
        | Stmt::Keep { .. }
        | Stmt::Reply { .. }
        | Stmt::Abort => ranges.push(false)?,
    }
    Ok(())
}

// Adds for each statement of a block whether it is a range.
#[cycle(ranges)]
fn push_block(ranges: &mut Vec<bool>, block: &Block) -> Result<(), AllocError>
    ensures { OnOk result
        (ranges.new.items ≡ ranges.old.items ++ range_list (block_tree block.now)) }
{
    for stmt in &block.stmts {
        push_stmt(ranges, stmt)?;
    }
    Ok(())
}

/// For each statement of the program of a number whether it is a range.
pub fn ranges_of(alloc: Global, draft: &Draft, program: usize) -> Result<Vec<bool>, AllocError>
    ensures { IfOk result (λ ranges.
        ranges.items ≡ program_ranges (slice_get (draft_tree draft.now).programs program)) }
{
    let mut ranges = Vec::new(alloc);
    if program < draft.programs.len() {
        push_block(&mut ranges, &draft.programs[program].body)?;
    }
    Ok(ranges)
}

pub fn is_range(ranges: &[bool], number: usize) -> bool
    ensures { result ≡ slice_index_or ranges.now number false }
{
    ranges.get(number).copied().unwrap_or(false)
}

/// Whether the statement of a number of a program is a range.
pub fn is_range_at(
    alloc: Global,
    draft: &Draft,
    program: usize,
    number: usize,
) -> Result<bool, AllocError>
    ensures { IfOk result (λ yes.
        IsTrue yes ↔ IsRangeAt (draft_tree draft.now) program number) }
{
    let ranges = ranges_of(alloc, draft, program)?;
    let yes = is_range(&ranges, number);
    Ok(yes)
}
