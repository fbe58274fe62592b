//! The cycle that the commits of a book form, in words.
ghost use Rattle.std.specs.Prelude.{◌≡◌, ◌++◌, IfOk, OnOk, option_copied, string_bytes};
ghost use Rattle.prog_tree.specs.Tree.{draft_tree};
ghost use Rattle.run_words.specs.Cycles.{ahead_text, behind_text, call_or_none, call_text};
ghost use Rattle.run_words.specs.Cycles.{commit_line, cycle_text, first_or, line_text, lines_text};

use fault_words::{cell_text, program_name, region_text};
use history_book::{Book, HistoryRow, OrderReason};
use prog_check::ProgramSet;
use std::alloc::{AllocError, Global};
use text_places::bracketed;

// An instance as a call.
fn call_text(alloc: Global, set: &ProgramSet, row: &HistoryRow) -> Result<String, AllocError>
    ensures { IfOk result (λ text. string_bytes text ≡ call_text (draft_tree set.now) row.now) }
{
    let name = program_name(set, row.program);
    let arguments = bracketed(alloc, row.args.as_slice())?;
    format!(in alloc; "{name}{arguments}")
}

// The call of an instance, where there is one.
fn call_or_none(
    alloc: Global,
    set: &ProgramSet,
    row: Option<&HistoryRow>,
) -> Result<String, AllocError>
    ensures { IfOk result (λ text. string_bytes text
        ≡ call_or_none (draft_tree set.now) (option_copied row.entry)) }
{
    match row {
        Some(row) => call_text(alloc, set, row),
        None => Ok(String::new(alloc)),
    }
}

// What the first of two commits did, before the number of the second.
fn ahead_text(
    alloc: Global,
    set: &ProgramSet,
    reason: Option<OrderReason>,
) -> Result<String, AllocError>
    ensures { IfOk result (λ text. string_bytes text ≡ ahead_text (draft_tree set.now) reason) }
{
    match reason {
        Some(OrderReason::Both(cell)) => {
            let cell = cell_text(alloc, set, cell)?;
            format!(in alloc; "changed {cell} before")
        }
        Some(OrderReason::Saw(cell)) => {
            let cell = cell_text(alloc, set, cell)?;
            format!(in alloc; "changed {cell}, and")
        }
        Some(OrderReason::Missed(cell)) => {
            let cell = cell_text(alloc, set, cell)?;
            format!(in alloc; "looked at {cell}, and missed what")
        }
        Some(OrderReason::MissedIn(region, _)) => {
            let region = region_text(alloc, set, region)?;
            format!(in alloc; "looked at {region}, and missed what")
        }
        None => format!(in alloc; "stands before"),
    }
}

// What the second did, behind its number.
fn behind_text(
    alloc: Global,
    set: &ProgramSet,
    reason: Option<OrderReason>,
) -> Result<String, AllocError>
    ensures { IfOk result (λ text. string_bytes text ≡ behind_text (draft_tree set.now) reason) }
{
    match reason {
        Some(OrderReason::Both(_)) => format!(in alloc; " did"),
        Some(OrderReason::Saw(_)) => format!(in alloc; " saw it"),
        Some(OrderReason::Missed(_)) => format!(in alloc; " changed there"),
        Some(OrderReason::MissedIn(_, cell)) => {
            let cell = cell_text(alloc, set, cell)?;
            format!(in alloc; " changed at {cell}")
        }
        None => Ok(String::new(alloc)),
    }
}

// The line of a commit, with its call and why it has to stand before the next.
fn commit_line(
    alloc: Global,
    set: &ProgramSet,
    call: &str,
    reason: Option<OrderReason>,
    first: usize,
    second: usize,
) -> Result<String, AllocError>
    ensures { IfOk result (λ line. string_bytes line
        ≡ commit_line (draft_tree set.now) call.now reason first second) }
{
    let ahead = ahead_text(alloc, set, reason)?;
    let behind = behind_text(alloc, set, reason)?;
    format!(in alloc; "commit {first}, `{call}`, {ahead} commit {second}{behind}\n")
}

fn line_text(
    alloc: Global,
    book: &Book<'_>,
    first: usize,
    second: usize,
) -> Result<String, AllocError>
    ensures { IfOk result (λ line. string_bytes line ≡ line_text book.now first second) }
{
    let set = book.set();
    let call = call_or_none(alloc, set, book.nth_commit(first as u64))?;
    let reason = book.reason(first as u64, second as u64);
    commit_line(alloc, set, &call, reason, first, second)
}

// The first of some commits, or another where there is none.
fn first_or(commits: &[usize], other: usize) -> usize
    ensures { result ≡ first_or commits.now other }
{
    match commits {
        [first, ..] => *first,
        [] => other,
    }
}

// Adds the line of each commit of a cycle.
fn push_lines(
    alloc: Global,
    book: &Book<'_>,
    cycle: &[usize],
    out: &mut String,
) -> Result<(), AllocError>
    ensures { OnOk result (string_bytes out.new
        ≡ string_bytes out.old ++ lines_text book.now cycle.now (first_or cycle.now 0)) }
{
    let first = first_or(cycle, 0);
    for index in 0..cycle.len() {
        let next = first_or(&cycle[index + 1..], first);
        let line = line_text(alloc, book, cycle[index], next)?;
        out.push_str(&line)?;
    }
    Ok(())
}

/// Why the commits of a book have no serial order: the cycle that its `serial_order` answers,
/// commit by commit.
pub fn cycle_words(alloc: Global, book: &Book<'_>, cycle: &[usize]) -> Result<String, AllocError>
    ensures { IfOk result (λ words. string_bytes words ≡ cycle_text book.now cycle.now) }
{
    let mut words = format!(in alloc;
        "no serial order: each of these commits has to stand before the next, and the last before the first\n"
    )?;
    push_lines(alloc, book, cycle, &mut words)?;
    Ok(words)
}
