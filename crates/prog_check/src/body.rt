//! The check of a program's statements.
ghost use Rattle.std.specs.Prelude.{◌≡◌, ℕ, ◌+◌, ◌<◌, ◌++◌, false, OnOk, OnErr, length};
ghost use Rattle.std.specs.Prelude.{option_copied, Option, Some, None};
ghost use Rattle.std.specs.Option.{option_map};
ghost use Rattle.prog_tree.specs.Tree.{listing_tree, stmt_tree, with_stmt, block_tree};
ghost use Rattle.prog_check.specs.Faults.{first_broken, place_rules, table_use_rules};
ghost use Rattle.prog_check.specs.Faults.{value_use_rules, new_name_rules, inner_name_rules};
ghost use Rattle.prog_check.specs.Faults.{statement_rules, block_fault, ◌or_else◌};
ghost use Rattle.prog_check.specs.declared.fault.Place.TheVariants as Place;
ghost use Rattle.prog_check.specs.Names.{Extends};
ghost use Rattle.prog_check.specs.Paths.{statement_count};
ghost use Rattle.prog_check.specs.Sets.{Finds, ChecksOn};
ghost use Rattle.prog_check.specs.Uses.{used_table_by, overwrites_by, used_names_by, new_name_by};
ghost use Rattle.prog_check.specs.Uses.{with_new, with_inner};

use crate::fault::{CheckFault, Place};
use crate::limits::MAX_STATEMENTS;
use crate::names::Names;
use crate::tables::Tables;
use crate::uses::{bound_name, is_overwriting, knows_values, table_use};
use prog_tree::{Block, Listing, Stmt};

/// Where the check stands in a program: before the statement of this number, with these names
/// visible.
#[derive(Drop)]
pub struct Position {
    pub number: usize,
    pub visible: Names,
}

fn check_place(place: Place, number: usize, aborted: bool) -> Result<(), CheckFault>
    ensures { Finds (λ _. number < MAX_STATEMENTS) result
        (first_broken (place_rules place number aborted)) }
{
    if aborted {
        return Err(CheckFault::AfterAbort { place });
    }
    if number >= MAX_STATEMENTS {
        return Err(CheckFault::TooMany { place });
    }
    Ok(())
}

fn check_table(tables: &Tables<'_>, place: Place, stmt: &Stmt) -> Result<(), CheckFault>
    ensures { Finds (λ _. Unit {0}) result
        (first_broken (table_use_rules tables.now place (overwrites_by (stmt_tree stmt.now))
        (used_table_by (stmt_tree stmt.now)))) }
{
    let Some((name, arity)) = table_use(stmt) else {
        return Ok(());
    };
    let Some(table) = tables.find(name) else {
        return Err(CheckFault::UnknownTable { place });
    };
    if table.arity != arity {
        return Err(CheckFault::WrongArity { place });
    }
    if is_overwriting(stmt) && table.grow {
        return Err(CheckFault::GrowTableChanged { place });
    }
    Ok(())
}

fn check_values(visible: &Names, place: Place, stmt: &Stmt) -> Result<(), CheckFault>
    ensures { Finds (λ _. Unit {0}) result
        (first_broken (value_use_rules place visible.now (used_names_by (stmt_tree stmt.now)))) }
{
    if !knows_values(visible, stmt) {
        return Err(CheckFault::UnknownName { place });
    }
    Ok(())
}

// Makes the name that a statement gives to a value visible.
fn declare(visible: &mut Names, place: Place, stmt: &Stmt) -> Result<(), CheckFault>
    ensures found { Finds (λ _. Unit {0}) result
        (first_broken (new_name_rules place visible.old (new_name_by (stmt_tree stmt.now)))) }
    ensures visible { OnOk result
        (visible.new ≡ with_new visible.old (new_name_by (stmt_tree stmt.now))) }
{
    if let Some(name) = bound_name(stmt) {
        if !visible.insert(name)? {
            return Err(CheckFault::NameTaken { place });
        }
    }
    Ok(())
}

// Makes the names of an `each` visible.
fn declare_inner(visible: &mut Names, place: Place, listing: &Listing) -> Result<(), CheckFault>
    ensures found { Finds (λ _. Unit {0}) result
        (first_broken (inner_name_rules place visible.old (listing_tree listing.now))) }
    ensures visible { OnOk result
        (visible.new ≡ with_inner visible.old (listing_tree listing.now)) }
{
    if !visible.insert(&listing.key)? {
        return Err(CheckFault::NameTaken { place });
    }
    if !visible.insert(&listing.value)? {
        return Err(CheckFault::NameTaken { place });
    }
    Ok(())
}

// Checks a statement but for its blocks, and goes on behind it.
fn check_own(
    tables: &Tables<'_>,
    program: usize,
    at: &mut Position,
    aborted: bool,
    stmt: &Stmt,
) -> Result<(), CheckFault>
    ensures found { Finds (λ _. Unit {0}) result
        (first_broken (statement_rules tables.now program at.old.number aborted at.old.visible
        (stmt_tree stmt.now))) }
    ensures number { OnOk result (at.new.number ≡ at.old.number + 1) }
    ensures visible { OnOk result
        (at.new.visible ≡ with_new at.old.visible (new_name_by (stmt_tree stmt.now))) }
{
    let place = Place::Statement {
        program,
        statement: at.number,
    };
    check_place(place, at.number, aborted)?;
    check_table(tables, place, stmt)?;
    check_values(&at.visible, place, stmt)?;
    declare(&mut at.visible, place, stmt)?;
    at.number += 1;
    Ok(())
}

// Checks one statement of a block, and answers whether it aborts.
#[cycle(walk)]
fn check_stmt(
    tables: &Tables<'_>,
    program: usize,
    at: &mut Position,
    aborted: bool,
    stmt: &Stmt,
) -> Result<bool, CheckFault>
    ensures goes_on { ChecksOn tables.now program at.old aborted (with_stmt stmt.now) at.new
        result }
    ensures visible { OnOk result (Extends at.old.visible at.new.visible) }
{
    let number = at.number;
    check_own(tables, program, at, aborted, stmt)?;
    match stmt {
        Stmt::Branch {
            then,
            otherwise,
            ..
        } => {
            check_block(tables, program, at, then)?;
            check_block(tables, program, at, otherwise)?;
            Ok(false)
        }
        Stmt::Each { listing, body } => {
            check_body(tables, program, number, at, listing, body)?;
            Ok(false)
        }
        _ => Ok(matches!(stmt, Stmt::Abort)),
    }
}

// Checks the names and the body of an `each` of this number, behind which these names end.
#[cycle(walk)]
fn check_body(
    tables: &Tables<'_>,
    program: usize,
    number: usize,
    at: &mut Position,
    listing: &Listing,
    body: &Block,
) -> Result<(), CheckFault>
    ensures found { Finds (λ _. Unit {0}) result
        (first_broken (inner_name_rules (Place.Statement program number) at.old.visible
        (listing_tree listing.now))
        or_else block_fault tables.now program at.old.number false
        (with_inner at.old.visible (listing_tree listing.now)) (block_tree body.now)) }
    ensures number { OnOk result
        (at.new.number ≡ at.old.number + statement_count (block_tree body.now)) }
    ensures visible { OnOk result (at.new.visible ≡ at.old.visible) }
{
    let place = Place::Statement {
        program,
        statement: number,
    };
    let outer = at.visible.len();
    declare_inner(&mut at.visible, place, listing)?;
    check_block(tables, program, at, body)?;
    at.visible.truncate(outer);
    Ok(())
}

/// Checks the statements of a block, whose names end with it.
#[cycle(walk)]
pub fn check_block(
    tables: &Tables<'_>,
    program: usize,
    at: &mut Position,
    block: &Block,
) -> Result<(), CheckFault>
    ensures found { Finds (λ _. Unit {0}) result
        (block_fault tables.now program at.old.number false at.old.visible (block_tree block.now)) }
    ensures number { OnOk result
        (at.new.number ≡ at.old.number + statement_count (block_tree block.now)) }
    ensures visible { OnOk result (at.new.visible ≡ at.old.visible) }
{
    let outer = at.visible.len();
    let mut aborted = false;
    for stmt in &block.stmts {
        aborted = check_stmt(tables, program, at, aborted, stmt)?;
    }
    at.visible.truncate(outer);
    Ok(())
}
