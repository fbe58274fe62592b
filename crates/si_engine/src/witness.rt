//! Who is told what a run comes to.
ghost use Rattle.serial_orders.specs.Orders.{IsCycle};
ghost use Rattle.history_book.specs.View.{depends_in};

use crate::event::{Event, Reply};
use history_book::Book;
use std::mem;

/// Is told what a run comes to, while its book is there.
pub trait Witness {
    /// An event was answered; the book is as it is behind it.
    fn answered(&mut self, event: &Event, reply: &Reply, book: &Book<'_>);

    /// The commits of the book form this cycle.
    fn cycle(&mut self, book: &Book<'_>, cycle: &[usize])
        requires { IsCycle (depends_in book.now) cycle.now };

    /// Whether the process ends behind the run. What the run made is then not taken apart: the
    /// system takes its memory back as a whole.
    fn is_last(&self) -> bool;
}

/// Nobody is told.
#[derive(Clone, Copy)]
pub struct NoWitness;

impl Witness for NoWitness {
    fn answered(&mut self, _event: &Event, _reply: &Reply, _book: &Book<'_>) {}

    fn cycle(&mut self, _book: &Book<'_>, _cycle: &[usize]) {}

    fn is_last(&self) -> bool {
        false
    }
}

// Lets go of what a run made: of the last one it stays where it is until the process ends.
pub(crate) fn let_go<T: Drop>(made: T, last: bool) {
    if last {
        mem::forget(made);
    } else {
        drop(made);
    }
}
