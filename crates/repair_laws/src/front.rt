//! Keep statements in front of the programs of a draft, and the new tables of which they keep rows.
ghost use Rattle.std.specs.Prelude.{◌≡◌, ◌++◌, IfOk, length, map, All};
ghost use Rattle.std.specs.List.{flat_map};
ghost use Rattle.prog_tree.specs.Syntax.{Plain};
ghost use Rattle.prog_tree.specs.Tree.{stmt_tree, program_tree, draft_tree};
ghost use Rattle.repair_laws.specs.Materialised.{plain_table, keeps_for, with_front};
ghost use Rattle.repair_laws.specs.Materialised.{all_with_front, HasKey, materialised_by};
ghost use Rattle.repair_laws.specs.Front.{HasColumns, HaveColumns};

use crate::keeps::keeps_for;
use crate::plan::NewTable;
use prog_tree::{Arity, Block, Draft, Name, Program, Stmt, TableDecl, copy_tables};
use std::alloc::{AllocError, Global};

// The tables, and behind them a new one for each pair.
fn with_tables(
    alloc: Global,
    tables: &[TableDecl],
    made: &[NewTable],
) -> Result<Vec<TableDecl>, AllocError>
    ensures { IfOk result (λ all. all.items
        ≡ tables.now ++ map (λ m. plain_table m.table) made.now) }
{
    let mut all = copy_tables(alloc, tables)?;
    for new_table in made {
        all.push(TableDecl {
            name: new_table.table.copy()?,
            arity: Arity::One,
            grow: false,
        })?;
    }
    Ok(all)
}

// What a program of these parameters keeps for all pairs, the first pair's keeps first.
fn front_of(
    alloc: Global,
    program: usize,
    params: &[Name],
    made: &[NewTable],
) -> Result<Vec<Stmt>, AllocError>
    requires { All (HasColumns program (length params.now)) made.now }
    ensures { IfOk result (λ front. map stmt_tree front.items
        ≡ map Plain (flat_map (keeps_for program params.now) made.now)) }
{
    let mut front = Vec::new(alloc);
    for new_table in made {
        let mut keeps = keeps_for(alloc, program, params, new_table)?;
        front.append(&mut keeps)?;
    }
    Ok(front)
}

// A program with the keeps of all pairs in front.
fn with_front(
    alloc: Global,
    number: usize,
    program: &Program,
    made: &[NewTable],
) -> Result<Program, AllocError>
    requires { All (HasColumns number (length program.now.params.items)) made.now }
    ensures { IfOk result (λ repaired. program_tree repaired
        ≡ with_front made.now number (program_tree program.now)) }
{
    let mut stmts = front_of(alloc, number, &program.params, made)?;
    let Program { name, params, body } = program.copy()?;
    let mut own = body.stmts;
    stmts.append(&mut own)?;
    Ok(Program {
        name,
        params,
        body: Block { stmts },
    })
}

// The programs with the keeps of all pairs in front.
fn all_with_front(
    alloc: Global,
    programs: &[Program],
    made: &[NewTable],
) -> Result<Vec<Program>, AllocError>
    requires { HaveColumns (map program_tree programs.now) made.now }
    ensures { IfOk result (λ all. map program_tree all.items
        ≡ all_with_front made.now 0 (map program_tree programs.now)) }
{
    let mut all = Vec::with_capacity(alloc, programs.len())?;
    for (number, program) in programs.iter().enumerate() {
        all.push(with_front(alloc, number, program, made)?)?;
    }
    Ok(all)
}

/// The draft with a new table for each pair, and the keeps in front of its programs.
pub fn materialised_draft(
    alloc: Global,
    draft: &Draft,
    made: &[NewTable],
) -> Result<Draft, AllocError>
    requires { All (HasKey (draft_tree draft.now)) made.now }
    ensures { IfOk result (λ repaired. draft_tree repaired
        ≡ materialised_by (draft_tree draft.now) made.now) }
{
    Ok(Draft {
        tables: with_tables(alloc, &draft.tables, made)?,
        programs: all_with_front(alloc, &draft.programs, made)?,
    })
}
