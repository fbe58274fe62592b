//! Keeps behind the statements that are marked.
ghost use Rattle.std.specs.Prelude.{◌≡◌, ◌+◌, ◌++◌, ◌≤◌, [], map, All, IfOk, OnOk, if◌then◌else◌};
ghost use Rattle.prog_tree.specs.Syntax.{Plain};
ghost use Rattle.prog_tree.specs.Syntax as s;
ghost use Rattle.prog_tree.specs.Tree.{key_tree, stmt_tree, block_tree, program_tree, draft_tree};
ghost use Rattle.prog_check.specs.Paths.{statement_count};
ghost use Rattle.prog_check.specs.Sound.{IsSound};
ghost use Rattle.prog_paths.specs.Kinds.{option_items};
ghost use Rattle.repair_laws.specs.Promoted.{keep_of, with_keeps, all_with_keeps, promoted_by};
ghost use Rattle.repair_laws.specs.Promoted.{promoted_program};
ghost use Rattle.si_repair.specs.Behind.{cell_read_by, count_by, with_keeps_in, HasFewStatements};
ghost use Rattle.si_repair.specs.Marks.{is_marked};

use crate::repairs::marks::{MarkedStatement, is_marked};
use prog_check::MAX_STATEMENTS;
use prog_paths::count_statements;
use prog_tree::{Block, Draft, Key, Name, Program, Stmt, copy_names, copy_tables};
use std::alloc::{AllocError, Global};

// A statement, and the number of the next one.
#[derive(Drop)]
struct NumberedStmt {
    stmt: Stmt,
    next: usize,
}

// A block, and the number of the next statement.
#[derive(Drop)]
struct NumberedBlock {
    block: Block,
    next: usize,
}

// The statement that keeps a cell.
fn keep_cell(alloc: Global, table: &Name, key: &Key) -> Result<Stmt, AllocError>
    ensures { IfOk result
        (λ keep. stmt_tree keep ≡ Plain (s.Keep table.now (key_tree key.now))) }
{
    Ok(Stmt::Keep {
        table: table.copy()?,
        key: key.copy(alloc)?,
    })
}

// The keep of the cell that a statement reads, if it reads one.
fn keep_of(alloc: Global, stmt: &Stmt) -> Result<Option<Stmt>, AllocError>
    ensures { IfOk result (λ keep. map stmt_tree (option_items keep)
        ≡ map Plain (keep_of (cell_read_by (stmt_tree stmt.now)))) }
{
    match stmt {
        Stmt::Get { table, key, .. }
        | Stmt::Need { table, key, .. }
        | Stmt::Lacks { table, key }
        | Stmt::Insert { table, key, .. } => Ok(Some(keep_cell(alloc, table, key)?)),
        Stmt::Bind { .. }
        | Stmt::Count { .. }
        | Stmt::Sum { .. }
        | Stmt::Put { .. }
        | Stmt::Delete { .. }
        | Stmt::Keep { .. }
        | Stmt::Branch { .. }
        | Stmt::Each { .. }
        | Stmt::Reply { .. }
        | Stmt::Abort => Ok(None),
    }
}

// What stands behind a statement: the keep of its cell where it is marked.
fn keep_behind(alloc: Global, marked: bool, stmt: &Stmt) -> Result<Option<Stmt>, AllocError>
    ensures { IfOk result (λ keep. map stmt_tree (option_items keep)
        ≡ map Plain (if marked then keep_of (cell_read_by (stmt_tree stmt.now)) else [])) }
{
    if marked {
        keep_of(alloc, stmt)
    } else {
        Ok(None)
    }
}

// Adds a statement, where there is one.
fn push_some(stmts: &mut Vec<Stmt>, stmt: Option<Stmt>) -> Result<(), AllocError>
    ensures { OnOk result (stmts.new.items ≡ stmts.old.items ++ option_items stmt) }
{
    if let Some(stmt) = stmt {
        stmts.push(stmt)?;
    }
    Ok(())
}

// A statement of this number with keeps in the blocks of a branch; none in the body of an `each`.
#[cycle(keeps)]
fn keeps_in_stmt(
    alloc: Global,
    marks: &[MarkedStatement],
    program: usize,
    number: usize,
    stmt: &Stmt,
) -> Result<NumberedStmt, AllocError>
    requires { number + count_by (stmt_tree stmt.now) ≤ MAX_STATEMENTS }
    ensures next { IfOk result (λ kept. kept.next ≡ number + count_by (stmt_tree stmt.now)) }
    ensures kept { IfOk result (λ kept. stmt_tree kept.stmt
        ≡ with_keeps_in (is_marked marks.now program) number (stmt_tree stmt.now)) }
{
    match stmt {
        Stmt::Branch {
            test,
            then,
            otherwise,
        } => {
            let first = keeps_in_block(alloc, marks, program, number + 1, then)?;
            let second = keeps_in_block(alloc, marks, program, first.next, otherwise)?;
            Ok(NumberedStmt {
                stmt: Stmt::Branch {
                    test: test.copy()?,
                    then: first.block,
                    otherwise: second.block,
                },
                next: second.next,
            })
        }
        Stmt::Each { body, .. } => Ok(NumberedStmt {
            stmt: stmt.copy(alloc)?,
            next: number + 1 + count_statements(body),
        }),
        _ => Ok(NumberedStmt {
            stmt: stmt.copy(alloc)?,
            next: number + 1,
        }),
    }
}

// A block, whose first statement has this number, with keeps behind those that are marked.
#[cycle(keeps)]
fn keeps_in_block(
    alloc: Global,
    marks: &[MarkedStatement],
    program: usize,
    number: usize,
    block: &Block,
) -> Result<NumberedBlock, AllocError>
    requires { number + statement_count (block_tree block.now) ≤ MAX_STATEMENTS }
    ensures next { IfOk result (λ kept.
        kept.next ≡ number + statement_count (block_tree block.now)) }
    ensures kept { IfOk result (λ kept. block_tree kept.block
        ≡ with_keeps (is_marked marks.now program) number (block_tree block.now)) }
{
    let mut stmts = Vec::new(alloc);
    let mut next = number;
    for stmt in &block.stmts {
        let keep = keep_behind(alloc, is_marked(marks, program, next), stmt)?;
        let kept = keeps_in_stmt(alloc, marks, program, next, stmt)?;
        next = kept.next;
        stmts.push(kept.stmt)?;
        push_some(&mut stmts, keep)?;
    }
    Ok(NumberedBlock {
        block: Block { stmts },
        next,
    })
}

// The program of this number with keeps.
fn promoted_program(
    alloc: Global,
    marks: &[MarkedStatement],
    number: usize,
    program: &Program,
) -> Result<Program, AllocError>
    requires { HasFewStatements program.now }
    ensures { IfOk result (λ kept. program_tree kept
        ≡ promoted_program (is_marked marks.now number) (program_tree program.now)) }
{
    let kept = keeps_in_block(alloc, marks, number, 0, &program.body)?;
    Ok(Program {
        name: program.name.copy()?,
        params: copy_names(alloc, &program.params)?,
        body: kept.block,
    })
}

// All programs with keeps.
fn promoted_programs(
    alloc: Global,
    marks: &[MarkedStatement],
    programs: &[Program],
) -> Result<Vec<Program>, AllocError>
    requires { All HasFewStatements programs.now }
    ensures { IfOk result (λ kept. map program_tree kept.items
        ≡ all_with_keeps (is_marked marks.now) 0 (map program_tree programs.now)) }
{
    let mut kept = Vec::new(alloc);
    for (number, program) in programs.iter().enumerate() {
        kept.push(promoted_program(alloc, marks, number, program)?)?;
    }
    Ok(kept)
}

/// A draft with keeps behind the statements that are marked.
pub fn promoted_draft(
    alloc: Global,
    draft: &Draft,
    marks: &[MarkedStatement],
) -> Result<Draft, AllocError>
    requires { IsSound (draft_tree draft.now) }
    ensures { IfOk result (λ kept. draft_tree kept
        ≡ promoted_by (draft_tree draft.now) (is_marked marks.now)) }
{
    Ok(Draft {
        tables: copy_tables(alloc, &draft.tables)?,
        programs: promoted_programs(alloc, marks, &draft.programs)?,
    })
}
