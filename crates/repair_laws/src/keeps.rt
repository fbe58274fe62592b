//! The keep statements of a pair in its two programs.
ghost use Rattle.std.specs.Prelude.{◌≡◌, IfOk, length, map};
ghost use Rattle.prog_tree.specs.Syntax.{Plain};
ghost use Rattle.prog_tree.specs.Tree.{IsPlain, stmt_tree};
ghost use Rattle.repair_laws.specs.Materialised.{is_one, columns_for, keep_in, keeps_for};
ghost use Rattle.repair_laws.specs.Front.{IsColumn, HasColumns};

use crate::plan::NewTable;
use prog_tree::{Expr, Key, Name, Stmt};
use std::alloc::{AllocError, Global};

// Whether one parameter, or 0, serves for both programs.
fn is_one(key: Option<(usize, usize)>) -> bool
    ensures { result ≡ is_one key }
{
    match key {
        Some((first, second)) => first == second,
        None => true,
    }
}

// The parameters that a program keeps for a pair, or none for the key 0. A program with itself
// keeps both, where they differ.
fn columns_for(
    alloc: Global,
    program: usize,
    new_table: &NewTable,
) -> Result<Vec<Option<usize>>, AllocError>
    ensures { IfOk result (λ columns. columns.items ≡ columns_for program new_table.now) }
{
    let key = new_table.key;
    let first = key.map(|key| key.0);
    let second = key.map(|key| key.1);
    let is_first = new_table.pair.from == program;
    let is_second = new_table.pair.to == program;
    if is_first && is_second && !is_one(key) {
        return Ok(Vec::from_array(alloc, [first, second])?);
    }
    if is_first {
        return Ok(Vec::from_array(alloc, [first])?);
    }
    if is_second {
        return Ok(Vec::from_array(alloc, [second])?);
    }
    Ok(Vec::new(alloc))
}

// The statement that keeps the row of a parameter, or of the key 0.
fn keep_in(table: &Name, params: &[Name], column: Option<usize>) -> Result<Stmt, AllocError>
    requires { IsColumn (length params.now) column }
    ensures { IfOk result (λ stmt. IsPlain stmt (keep_in table.now params.now column)) }
{
    let key = match column {
        Some(number) => Expr::Name(params[number].copy()?),
        None => Expr::Literal(0),
    };
    Ok(Stmt::Keep {
        table: table.copy()?,
        key: Key::One(key),
    })
}

/// The statements that a program of these parameters keeps for a pair.
pub fn keeps_for(
    alloc: Global,
    program: usize,
    params: &[Name],
    new_table: &NewTable,
) -> Result<Vec<Stmt>, AllocError>
    requires { HasColumns program (length params.now) new_table.now }
    ensures { IfOk result (λ keeps. map stmt_tree keeps.items
        ≡ map Plain (keeps_for program params.now new_table.now)) }
{
    let columns = columns_for(alloc, program, new_table)?;
    let mut keeps = Vec::with_capacity(alloc, columns.len())?;
    for column in &columns {
        keeps.push(keep_in(&new_table.table, params, *column)?)?;
    }
    Ok(keeps)
}
