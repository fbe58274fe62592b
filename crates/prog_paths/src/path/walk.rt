//! The walk along a program's committing paths. It enters no block that always aborts, so each way
//! that it keeps is one of the paths that are listed.
ghost use Rattle.std.specs.Prelude.{◌≡◌, ◌+◌, ◌≤◌, ◌∷◌, [], true, map, min, IfOk, OnOk};
ghost use Rattle.prog_tree.specs.Tree.{stmt_tree, block_tree};
ghost use Rattle.prog_check.specs.Paths.{statement_count, routes};
ghost use Rattle.prog_paths.specs.Trails.{IsLow, AreLow, alone, passes, commits, past_body, along};
ghost use Rattle.prog_paths.specs.Trails.{all_along};

use crate::limits::MAX_COUNTED;
use crate::path::trail::{Trail, pass};
use prog_check::{MAX_STATEMENTS, ProgramSet};
use prog_tree::{Block, Name, Stmt};
use std::alloc::{AllocError, Global};

// How many statements a statement is, with those of its blocks, up to the most that are counted.
#[cycle(sizes)]
fn count_own(stmt: &Stmt) -> usize
    ensures few { result ≤ MAX_COUNTED }
    ensures counted { result ≡ min (statement_count (alone (stmt_tree stmt.now))) MAX_COUNTED }
{
    match stmt {
        Stmt::Branch {
            then,
            otherwise,
            ..
        } => (1 + count_statements(then) + count_statements(otherwise)).min(MAX_COUNTED),
        Stmt::Each { body, .. } => (1 + count_statements(body)).min(MAX_COUNTED),
        _ => 1,
    }
}

/// How many statements a block has, with those of its blocks, up to the most that are counted.
#[cycle(sizes)]
pub fn count_statements(block: &Block) -> usize
    ensures few { result ≤ MAX_COUNTED }
    ensures counted { result ≡ min (statement_count (block_tree block.now)) MAX_COUNTED }
{
    let mut count = 0;
    for stmt in &block.stmts {
        count = (count + count_own(stmt)).min(MAX_COUNTED);
    }
    count
}

// Whether some way leads on behind a statement.
#[cycle(commits)]
fn lets_on(stmt: &Stmt) -> bool
    ensures { result ≡ commits (alone (stmt_tree stmt.now)) }
{
    match stmt {
        Stmt::Branch {
            then,
            otherwise,
            ..
        } => commits(then) || commits(otherwise),
        Stmt::Abort => false,
        _ => true,
    }
}

// Whether some way through a block meets no `abort;`.
#[cycle(commits)]
fn commits(block: &Block) -> bool
    ensures { result ≡ commits (block_tree block.now) }
{
    for stmt in &block.stmts {
        if !lets_on(stmt) {
            return false;
        }
    }
    true
}

// Goes past a statement of this number in the body of an `each`.
#[cycle(bodies)]
fn pass_inside(
    set: &ProgramSet,
    params: &[Name],
    number: usize,
    stmt: &Stmt,
    trail: &mut Trail,
) -> Result<(), AllocError>
    requires few { number + statement_count (alone (stmt_tree stmt.now)) ≤ MAX_STATEMENTS }
    requires low { IsLow number trail.old }
    ensures { OnOk result (trail.new ≡ past_body set.now.tables.items params.now number
        (alone (stmt_tree stmt.now)) trail.old) }
{
    pass(set, params, false, number, stmt, trail)?;
    match stmt {
        Stmt::Branch {
            then,
            otherwise,
            ..
        } => {
            pass_body(set, params, number + 1, then, trail)?;
            pass_body(
                set,
                params,
                number + 1 + count_statements(then),
                otherwise,
                trail,
            )?;
        }
        Stmt::Each { body, .. } => pass_body(set, params, number + 1, body, trail)?,
        _ => {}
    }
    Ok(())
}

// Goes past the body of an `each`, whose first statement has this number.
#[cycle(bodies)]
fn pass_body(
    set: &ProgramSet,
    params: &[Name],
    number: usize,
    body: &Block,
    trail: &mut Trail,
) -> Result<(), AllocError>
    requires few { number + statement_count (block_tree body.now) ≤ MAX_STATEMENTS }
    requires low { IsLow number trail.old }
    ensures { OnOk result (trail.new
        ≡ past_body set.now.tables.items params.now number (block_tree body.now) trail.old) }
{
    let mut number = number;
    for stmt in &body.stmts {
        pass_inside(set, params, number, stmt, trail)?;
        number += count_own(stmt);
    }
    Ok(())
}

// Goes past a statement of this number that isn't a branch, and past its body if it has one.
fn pass_whole(
    set: &ProgramSet,
    params: &[Name],
    number: usize,
    stmt: &Stmt,
    trail: &mut Trail,
) -> Result<(), AllocError>
    requires few { number + statement_count (alone (stmt_tree stmt.now)) ≤ MAX_STATEMENTS }
    requires low { IsLow number trail.old }
    requires passes { passes (stmt_tree stmt.now) ≡ true }
    ensures { OnOk result (trail.new ∷ []
        ≡ map (along set.now.tables.items params.now trail.old)
        (routes number (alone (stmt_tree stmt.now)))) }
{
    pass(set, params, true, number, stmt, trail)?;
    if let Stmt::Each { body, .. } = stmt {
        pass_body(set, params, number + 1, body, trail)?;
    }
    Ok(())
}

// Takes all trails past a statement of this number that isn't a branch.
fn pass_all(
    alloc: Global,
    set: &ProgramSet,
    params: &[Name],
    number: usize,
    stmt: &Stmt,
    trails: Vec<Trail>,
) -> Result<Vec<Trail>, AllocError>
    requires few { number + statement_count (alone (stmt_tree stmt.now)) ≤ MAX_STATEMENTS }
    requires low { AreLow number trails.items }
    requires passes { passes (stmt_tree stmt.now) ≡ true }
    ensures { IfOk result (λ r. r.items ≡ all_along set.now.tables.items params.now trails.items
        (routes number (alone (stmt_tree stmt.now)))) }
{
    let mut passed = Vec::new(alloc);
    for mut trail in trails {
        pass_whole(set, params, number, stmt, &mut trail)?;
        passed.push(trail)?;
    }
    Ok(passed)
}

// All trails behind a statement of this number.
#[cycle(walk)]
fn walk_stmt(
    alloc: Global,
    set: &ProgramSet,
    params: &[Name],
    number: usize,
    stmt: &Stmt,
    trails: Vec<Trail>,
) -> Result<Vec<Trail>, AllocError>
    requires few { number + statement_count (alone (stmt_tree stmt.now)) ≤ MAX_STATEMENTS }
    requires low { AreLow number trails.items }
    ensures { IfOk result (λ r. r.items ≡ all_along set.now.tables.items params.now trails.items
        (routes number (alone (stmt_tree stmt.now)))) }
{
    match stmt {
        Stmt::Branch {
            then,
            otherwise,
            ..
        } => {
            let second = number + 1 + count_statements(then);
            let mut passed = Vec::new(alloc);
            for trail in trails {
                let on = trail.copied_with_choice(alloc, true)?;
                let mut ways = walk_block(alloc, set, params, number + 1, then, on)?;
                passed.append(&mut ways)?;
                let on = trail.with_choice(false)?;
                let mut ways = walk_block(alloc, set, params, second, otherwise, on)?;
                passed.append(&mut ways)?;
            }
            Ok(passed)
        }
        Stmt::Abort => Ok(Vec::new(alloc)),
        _ => pass_all(alloc, set, params, number, stmt, trails),
    }
}

/// The trail's ways on through a block whose first statement has this number.
#[cycle(walk)]
pub fn walk_block(
    alloc: Global,
    set: &ProgramSet,
    params: &[Name],
    number: usize,
    block: &Block,
    trail: Trail,
) -> Result<Vec<Trail>, AllocError>
    requires few { number + statement_count (block_tree block.now) ≤ MAX_STATEMENTS }
    requires low { IsLow number trail }
    ensures { IfOk result (λ r. r.items ≡ map (along set.now.tables.items params.now trail)
        (routes number (block_tree block.now))) }
{
    let mut trails = Vec::new(alloc);
    if !commits(block) {
        return Ok(trails);
    }
    trails.push(trail)?;
    let mut number = number;
    for stmt in &block.stmts {
        trails = walk_stmt(alloc, set, params, number, stmt, trails)?;
        number += count_own(stmt);
    }
    Ok(trails)
}
