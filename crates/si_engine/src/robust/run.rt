//! Runs over robust sets: their commits always have a serial order.
ghost use Rattle.std.specs.Prelude.{◌≡◌, ◌++◌, Some, length, IfOk, OnOk};
ghost use Rattle.std.specs.List.{zip};
ghost use Rattle.prog_tree.specs.Tree.{draft_tree};
ghost use Rattle.prog_check.specs.Paths.{paths_of};
ghost use Rattle.prog_paths.specs.StaticGraph.{IsDangerous};
ghost use Rattle.serial_orders.specs.Orders.{least_order};
ghost use Rattle.history_book.specs.View.{depends_in, history_of, FitsBook};
ghost use Rattle.si_engine.specs.Headline.{Headline, IsLeastOrdered, commit_in, commits_said};
ghost use Rattle.si_engine.specs.Machine.{machine_after, replies_of};
ghost use Rattle.si_engine.specs.Robustness.{IsHistory};
ghost use Rattle.si_engine.specs.View.{StaysOver};

use crate::engine::Engine;
use crate::event::{Event, Reply};
use history_book::{Book, OrderFault};
use prog_tree::{Cell, Rows, Sequence};
use robust_cert::RobustSet;
use std::alloc::{AllocError, Global};

/// What comes of events on a robust set.
#[derive(Debug, Drop)]
pub struct Outcome {
    /// What each event was answered.
    pub replies: Sequence<Reply>,
    /// The instance of each commit, the first commit first.
    pub committed: Sequence<usize>,
    /// A serial order of the commits, by their numbers, which begin at 1.
    pub order: Sequence<usize>,
    /// The rows that are left, in the order of their cells.
    pub table: Sequence<(Cell, i64)>,
}

// Notes the instance of a commit.
fn note_commit(committed: &mut Vec<usize>, event: &Event, reply: &Reply) -> Result<(), AllocError>
    ensures { OnOk result
        (committed.new.items ≡ committed.old.items ++ commit_in (event.now, reply.now)) }
{
    if let (Event::Commit(instance), Reply::Committed(_)) = (event, reply) {
        committed.push(*instance)?;
    }
    Ok(())
}

// Hands the events to the engine, and keeps each reply and the instance of each commit.
fn apply_events(
    alloc: Global,
    engine: &mut Engine<'_>,
    events: &[Event],
) -> Result<(Vec<Reply>, Vec<usize>), AllocError>
    ensures over { StaysOver engine.old engine.new }
    ensures after { OnOk result (engine.new.machine ≡ machine_after
        (draft_tree engine.old.set) engine.old.opening events.now engine.old.machine) }
    ensures replies { IfOk result (λ kept. kept.0.items ≡ replies_of
        (draft_tree engine.old.set) engine.old.opening events.now engine.old.machine) }
    ensures committed { IfOk result (λ kept.
        kept.1.items ≡ commits_said (zip events.now kept.0.items)) }
{
    let mut replies = Vec::with_capacity(alloc, events.len())?;
    let mut committed = Vec::new(alloc);
    for event in events {
        let reply = engine.apply(event)?;
        note_commit(&mut committed, event, &reply)?;
        replies.push_reserved(reply);
    }
    Ok((replies, committed))
}

/// The history of a book is lawful, its set sound and its rows of i64, as their types say.
pub fn read_history(book: &Book<'_>)
    ensures { IsHistory (draft_tree book.now.set) book.now.opening (history_of book.now.rows) }
{
    book.commits();
    book.set().draft();
    book.opening().len();
}

/// The least serial order of a book over a set without a dangerous structure: there is one.
pub fn order_of(book: &Book<'_>) -> Result<Vec<usize>, AllocError>
    requires safe { ¬ IsDangerous (paths_of (draft_tree book.now.set)) }
    ensures least { IfOk result (λ order.
        least_order (depends_in book.now) (length book.now.rows) ≡ Some order.items) }
    ensures fits { IfOk result (λ order. FitsBook book.now order.items) }
{
    read_history(book);
    match book.serial_order() {
        Ok(order) => Ok(order),
        Err(OrderFault::Memory) => Err(AllocError),
        Err(OrderFault::Cycle(_)) => unreachable!(),
    }
}

/// Hands events to an engine over a robust set. Whatever they are, what committed has a serial
/// order: the least, as `Book::serial_order` finds it.
pub fn run_robust(
    alloc: Global,
    set: &RobustSet,
    rows: Rows,
    events: &[Event],
) -> Result<Outcome, AllocError>
    ensures headline { IfOk result (Headline (draft_tree set.now) rows events.now) }
    ensures least { IfOk result (IsLeastOrdered (draft_tree set.now) rows events.now) }
{
    let mut engine = Engine::open(alloc, set.set(), rows)?;
    let (replies, committed) = apply_events(alloc, &mut engine, events)?;
    let order = order_of(engine.book())?;
    let table = engine.table()?;
    Ok(Outcome {
        replies: Sequence::from_vec(replies),
        committed: Sequence::from_vec(committed),
        order: Sequence::from_vec(order),
        table,
    })
}
