//! The edges that the entries leave.
ghost use Rattle.std.specs.Prelude.{◌≡◌, [], ◌∷◌, IfOk, OnOk};
ghost use Rattle.prog_paths.specs.Questions.{asked_by, asked_among};
ghost use Rattle.prog_paths.specs.Listing.{RiseBy};
ghost use Rattle.order_facts.specs.Square.{Enters};
ghost use Rattle.robust_cert.specs.Accepted.{question_of};
ghost use Rattle.robust_cert.specs.Leaving.{some_edge, some_vulnerable, Leaves, IsReady, Passes};

use crate::checking::numbers::AskedNumbers;
use crate::checking::telling::{mark_with, telling_at};
use crate::entries::Entries;
use prog_check::Path;
use prog_paths::{Changers, EdgeTables, Placed, all_places, asks, question_between};
use std::alloc::{AllocError, Global};

// Enters what an access asks of another, where it asks.
fn enter_question(
    left: &mut EdgeTables,
    entries: &Entries,
    cursor: usize,
    first: &Placed,
    second: &Placed,
) -> usize
    requires { IsReady entries.now (asked_by first.now (second.now ∷ [])) cursor }
    ensures { Passes entries.now (asked_by first.now (second.now ∷ [])) cursor result
        left.old left.new }
{
    if !asks(first, second) {
        return cursor;
    }
    let question = question_between(first, second);
    let (telling, behind) = telling_at(entries, cursor, AskedNumbers::from(question));
    left.enter(mark_with(question, telling));
    behind
}

// Enters what one access asks of each.
fn enter_asked(
    left: &mut EdgeTables,
    entries: &Entries,
    cursor: usize,
    first: &Placed,
    places: &[Placed],
) -> usize
    requires { IsReady entries.now (asked_by first.now places.now) cursor }
    ensures { Passes entries.now (asked_by first.now places.now) cursor result left.old left.new }
{
    let mut at = cursor;
    for second in places {
        at = enter_question(left, entries, at, first, second);
    }
    at
}

// Enters what each asks of each. Only the changers of its table are looked through.
fn enter_all(
    alloc: Global,
    left: &mut EdgeTables,
    entries: &Entries,
    places: &[Placed],
) -> Result<(), AllocError>
    requires { IsReady entries.now (asked_among places.now places.now) 0 }
    ensures edges { OnOk result (Enters left.old.edges left.new.edges
        (some_edge entries.now (asked_among places.now places.now))) }
    ensures vulnerable { OnOk result (Enters left.old.vulnerable left.new.vulnerable
        (some_vulnerable entries.now (asked_among places.now places.now))) }
{
    let changers = Changers::of(alloc, places)?;
    let mut at = 0;
    for first in places {
        let seconds = changers.of_table(first.access.table);
        at = enter_asked(left, entries, at, first, seconds);
    }
    Ok(())
}

/// What the entries leave of the paths' questions. Both rise, so one pass over both is enough.
pub fn left_of(alloc: Global, paths: &[Path], entries: &Entries) -> Result<EdgeTables, AllocError>
    requires { RiseBy question_of entries.now }
    ensures { IfOk result (λ left. Leaves paths.now entries.now left) }
{
    let places = all_places(alloc, paths)?;
    let mut left = EdgeTables::new(alloc, paths.len())?;
    enter_all(alloc, &mut left, entries, &places)?;
    Ok(left)
}
