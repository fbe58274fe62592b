//! What expressions, tests, keys and ranges come to, as a reader works it out from the rules of the
//! language.

use crate::told::is_told;
use prog_text::parse;
use prog_tree::{Draft, Env, Name, Stmt};
use std::alloc::{AllocError, Global};
use std::process::Abort;
use std::test::Fail;

// Programs of one statement, and what it comes to where `x` is 7: its value, whether its test
// holds, its cell or its region.
const LINES: [(&str, &str); 14] = [
    ("program P(x) { reply 2 * -3 + x; }", "Some(1)"),
    ("program P(x) { reply x - 2 - 3; }", "Some(2)"),
    ("program P(x) { reply least - 1; }", "None"),
    ("program P(x) { reply least - 1 + 1; }", "None"),
    ("program P(x) { reply least * -1; }", "None"),
    (
        "program P(x) { if not 1 < 0 and 2 == 2 or 3 > 4 { } }",
        "Some(true)",
    ),
    (
        "program P(x) { if 0 <= 0 and 0 >= 0 and 0 != 1 and -1 < 0 and 0 > -1 { } }",
        "Some(true)",
    ),
    (
        "program P(x) { if 0 < 0 or 0 > 0 or 0 != 0 or 1 <= 0 or -1 >= 0 or 0 == 1 { } }",
        "Some(false)",
    ),
    ("program P(x) { if 1 < 2 or greatest + 1 >= 0 { } }", "None"),
    (
        "program P(x) { keep t[x]; }",
        "Some(Cell { table: 3, first: 7, second: 0 })",
    ),
    (
        "program P(x) { keep t[x, 2]; }",
        "Some(Cell { table: 3, first: 7, second: 2 })",
    ),
    ("program P(x) { keep t[greatest + 1]; }", "None"),
    (
        "program P(x) { let n = count t[1..x]; }",
        "Some(Region { table: 3, first_low: 1, first_high: 7, second_low: 0, second_high: 0 })",
    ),
    (
        "program P(x) { let n = count t[x, 1..3]; }",
        "Some(Region { table: 3, first_low: 7, first_high: 7, second_low: 1, second_high: 3 })",
    ),
];

/// What a statement comes to. Its table has the number 3.
fn shown(alloc: Global, stmt: &Stmt, env: &Env<'_>) -> Result<String, AllocError> {
    match stmt {
        Stmt::Reply { value } => format!(in alloc; "{:?}", value.value(env)),
        Stmt::Branch { test, .. } => format!(in alloc; "{:?}", test.holds(env)),
        Stmt::Keep { key, .. } => format!(in alloc; "{:?}", key.cell(3, env)),
        Stmt::Count { range, .. } => format!(in alloc; "{:?}", range.region(3, env)),
        _ => Ok(String::new(alloc)),
    }
}

fn first_statement(draft: &Draft) -> Option<&Stmt> {
    draft.programs.first()?.body.stmts.first()
}

fn shown_first(alloc: Global, draft: &Draft, env: &Env<'_>) -> Result<String, AllocError> {
    match first_statement(draft) {
        Some(stmt) => shown(alloc, stmt, env),
        None => Ok(String::new(alloc)),
    }
}

/// What the statement of a text comes to.
fn evaluated(alloc: Global, text: &str, env: &Env<'_>) -> Result<String, Fail> {
    let draft = parse(alloc, text.as_bytes())?;
    let shown = shown_first(alloc, &draft, env);
    drop(draft);
    Ok(shown?)
}

/// Asserts what texts come to.
fn check_lines(rt: &impl Abort, alloc: Global, env: &Env<'_>) -> Result<(), Fail> {
    for &(text, want) in LINES.iter() {
        let found = evaluated(alloc, text, env)?;
        is_told(rt, text, found.as_str(), want);
    }
    Ok(())
}

/// The same where a name is bound to 7.
fn check_bound(rt: &impl Abort, alloc: Global, name: &Name) -> Result<(), Fail> {
    let mut env = Env::new(alloc);
    env.bind(name, 7)?;
    check_lines(rt, alloc, &env)
}

#[test]
fn lines_come_to_their_values(rt: HostRuntime) -> Result<(), Fail> {
    let x = Name::new(rt.alloc(), "x")?;
    let checked = check_bound(&rt, rt.alloc(), &x);
    drop(x);
    checked
}

/// A name that is bound to 1, then to 3.
fn bound_twice<'n>(alloc: Global, name: &'n Name) -> Result<Env<'n>, AllocError> {
    let mut env = Env::new(alloc);
    for value in &[1, 3] {
        env.bind(name, *value)?;
    }
    Ok(env)
}

/// A name's copy is asked for, behind the cut of the second binding too.
fn check_bindings(rt: &impl Abort, env: &mut Env<'_>, copy: &Name) {
    assert!(rt; env.get(copy) == Some(3));
    env.cut(1);
    assert!(rt; env.get(copy) == Some(1) && env.len() == 1);
}

/// Binds a name, of which there is a copy.
fn check_bound_twice(
    rt: &impl Abort,
    alloc: Global,
    name: &Name,
    copy: &Name,
) -> Result<(), AllocError> {
    assert!(rt; copy.as_str() == "x" && name.is_same(copy));
    let mut env = bound_twice(alloc, name)?;
    check_bindings(rt, &mut env, copy);
    drop(env);
    Ok(())
}

fn check_copy(rt: &impl Abort, alloc: Global, name: &Name) -> Result<(), AllocError> {
    let copy = name.copy()?;
    let checked = check_bound_twice(rt, alloc, name, &copy);
    drop(copy);
    checked
}

#[test]
fn the_last_binding_of_a_name_counts(rt: HostRuntime) -> Result<(), AllocError> {
    let x = Name::new(rt.alloc(), "x")?;
    let checked = check_copy(&rt, rt.alloc(), &x);
    drop(x);
    checked
}
