//! Copies of a draft and of its parts.

use crate::told::is_so;
use example_sets::{PAY, SMALL_BANK, set_of};
use prog_text::parse;
use prog_tree::{
    Block, Draft, Expr, Key, Name, Program, Stmt, TableDecl, Test, copy_names, copy_tables,
    same_tables,
};
use std::alloc::{AllocError, Global};
use std::fmt::Debug;
use std::test::Fail;

fn is_copied(draft: &Draft) -> Result<bool, AllocError> {
    let copy = draft.copy()?;
    let is_same = copy.is_same(draft);
    drop(copy);
    Ok(is_same)
}

fn is_table_copied(table: &TableDecl) -> Result<bool, AllocError> {
    let copy = table.copy()?;
    let is_same = copy.is_same(table);
    drop(copy);
    Ok(is_same)
}

fn are_tables_copied(tables: &[TableDecl]) -> Result<bool, AllocError> {
    for table in tables {
        if !is_table_copied(table)? {
            return Ok(false);
        }
    }
    Ok(true)
}

fn is_program_copied(program: &Program) -> Result<bool, AllocError> {
    let copy = program.copy()?;
    let is_same = copy.is_same(program);
    drop(copy);
    Ok(is_same)
}

fn are_programs_copied(programs: &[Program]) -> Result<bool, AllocError> {
    for program in programs {
        if !is_program_copied(program)? {
            return Ok(false);
        }
    }
    Ok(true)
}

/// Whether a draft, its tables and its programs are copied.
fn are_copied(draft: &Draft) -> Result<[bool; 3], AllocError> {
    let whole = is_copied(draft)?;
    let tables = are_tables_copied(&draft.tables)?;
    let programs = are_programs_copied(&draft.programs)?;
    Ok([whole, tables, programs])
}

/// The same of the draft of a text.
fn are_copied_of(alloc: Global, text: &str) -> Result<[bool; 3], Fail> {
    let set = set_of(alloc, text)?;
    let copied = are_copied(set.draft());
    drop(set);
    Ok(copied?)
}

#[test]
fn a_copy_is_the_same(rt: HostRuntime) -> Result<(), Fail> {
    for text in &[SMALL_BANK, PAY] {
        let copied = are_copied_of(rt.alloc(), text)?;
        is_so(&rt, text, copied == [true, true, true]);
    }
    Ok(())
}

fn are_same_names(copies: &[Name], names: &[Name]) -> bool {
    for (copy, name) in copies.iter().zip(names) {
        if !copy.is_same(name) {
            return false;
        }
    }
    copies.len() == names.len()
}

fn are_names_copied(alloc: Global, names: &[Name]) -> Result<bool, AllocError> {
    let copies = copy_names(alloc, names)?;
    let are_same = are_same_names(&copies, names);
    drop(copies);
    Ok(are_same)
}

/// Whether the lists of the programs' parameters are copied.
fn are_params_copied(alloc: Global, programs: &[Program]) -> Result<bool, AllocError> {
    for program in programs {
        if !are_names_copied(alloc, &program.params)? {
            return Ok(false);
        }
    }
    Ok(true)
}

fn is_list_copied(alloc: Global, tables: &[TableDecl]) -> Result<bool, AllocError> {
    let copies = copy_tables(alloc, tables)?;
    let are_same = same_tables(&copies, tables);
    drop(copies);
    Ok(are_same)
}

/// Whether the list of a draft's tables and those of its programs' parameters are copied.
fn are_lists_copied(alloc: Global, draft: &Draft) -> Result<bool, AllocError> {
    Ok(are_params_copied(alloc, &draft.programs)? && is_list_copied(alloc, &draft.tables)?)
}

/// The same of the draft of a text.
fn are_lists_copied_of(alloc: Global, text: &str) -> Result<bool, Fail> {
    let set = set_of(alloc, text)?;
    let copied = are_lists_copied(alloc, set.draft());
    drop(set);
    Ok(copied?)
}

#[test]
fn lists_are_copied(rt: HostRuntime) -> Result<(), Fail> {
    for text in &[SMALL_BANK, PAY] {
        let copied = are_lists_copied_of(rt.alloc(), text)?;
        is_so(&rt, text, copied);
    }
    Ok(())
}

fn is_shown_so<T: Debug>(alloc: Global, copy: &T, wanted: &str) -> Result<bool, AllocError> {
    let shown = format!(in alloc; "{copy:?}")?;
    let is_so = shown.as_str() == wanted;
    drop(shown);
    Ok(is_so)
}

/// Whether a copy is shown as the first one is.
fn is_shown_alike<T: Debug>(alloc: Global, copy: &T, first: &T) -> Result<bool, AllocError> {
    let first = format!(in alloc; "{first:?}")?;
    let is_alike = is_shown_so(alloc, copy, first.as_str());
    drop(first);
    is_alike
}

fn is_test_copied(alloc: Global, test: &Test) -> Result<bool, AllocError> {
    let copy = test.copy()?;
    let is_alike = is_shown_alike(alloc, &copy, test);
    drop(copy);
    is_alike
}

fn is_block_copied(alloc: Global, block: &Block) -> Result<bool, AllocError> {
    let copy = block.copy()?;
    let is_alike = is_shown_alike(alloc, &copy, block);
    drop(copy);
    is_alike
}

fn is_key_copied(alloc: Global, key: &Key) -> Result<bool, AllocError> {
    let copy = key.copy(alloc)?;
    let is_alike = is_shown_alike(alloc, &copy, key);
    drop(copy);
    is_alike
}

fn is_value_copied(alloc: Global, value: &Expr) -> Result<bool, AllocError> {
    let copy = value.copy(alloc)?;
    let is_alike = is_shown_alike(alloc, &copy, value);
    drop(copy);
    is_alike
}

fn is_whole_copied(alloc: Global, stmt: &Stmt) -> Result<bool, AllocError> {
    let copy = stmt.copy(alloc)?;
    let is_alike = is_shown_alike(alloc, &copy, stmt);
    drop(copy);
    is_alike
}

/// Whether a branch's test and block, a change's key and value, or another statement are copied.
fn is_stmt_copied(alloc: Global, stmt: &Stmt) -> Result<bool, AllocError> {
    match stmt {
        Stmt::Branch { test, then, .. } => {
            Ok(is_test_copied(alloc, test)? && is_block_copied(alloc, then)?)
        }
        Stmt::Put { key, value, .. } => {
            Ok(is_key_copied(alloc, key)? && is_value_copied(alloc, value)?)
        }
        _ => is_whole_copied(alloc, stmt),
    }
}

/// The number of the first statement whose copy is another, or else how many there are.
fn alike(alloc: Global, stmts: &[Stmt]) -> Result<usize, AllocError> {
    for (number, stmt) in stmts.iter().enumerate() {
        if !is_stmt_copied(alloc, stmt)? {
            return Ok(number);
        }
    }
    Ok(stmts.len())
}

/// The same of a draft's first program.
fn alike_in(alloc: Global, draft: &Draft) -> Result<usize, AllocError> {
    match draft.programs.first() {
        Some(program) => alike(alloc, &program.body.stmts),
        None => Ok(0),
    }
}

const STATEMENTS: &str = "\
program P(k, v) {
  if not k < v { abort; }
  put e[k, 2] = v - 3 * k;
  delete e[k, -1];
  each i, u in t[1..k] { keep t[i]; }
}
";

#[test]
fn parts_of_statements_are_copied_whole(rt: HostRuntime) -> Result<(), Fail> {
    let draft = parse(rt.alloc(), STATEMENTS.as_bytes())?;
    let alike = alike_in(rt.alloc(), &draft);
    drop(draft);
    assert!(rt; alike? == 4);
    Ok(())
}
