//! What a run or an audit comes to, as it is said to people: the cycle in which its commits end,
//! and the lines of a script that do nothing.

ghost use Rattle.std.specs.Prelude.{◌≡◌, IfSome, string_bytes};
ghost use Rattle.serial_orders.specs.Orders.{IsCycle};
ghost use Rattle.history_book.specs.View.{depends_in};
ghost use Rattle.run_words.specs.Cycles.{cycle_text};

use crate::sentences::kept::Kept;
use crate::sentences::kept_input::KeptInput;
use history_book::Book;
use run_words::{cycle_words, refused_words};
use si_engine::{Event, Reply, Witness};
use std::alloc::{AllocError, Global};

/// Keeps what the run or the audit of a part comes to.
#[derive(Drop)]
pub struct Keeper<'k, 'p> {
    pub alloc: Global,
    pub part: &'p [u8],
    pub kept: &'k mut Kept,
}

// A cycle of the commits of a book in words, unless memory runs out for them.
fn told_cycle(alloc: Global, book: &Book<'_>, cycle: &[usize]) -> Option<String>
    requires { IsCycle (depends_in book.now) cycle.now }
    ensures { IfSome result (λ words. string_bytes words ≡ cycle_text book.now cycle.now) }
{
    match cycle_words(alloc, book, cycle) {
        Ok(words) => Some(words),
        Err(_) => None,
    }
}

impl Witness for Keeper<'_, '_> {
    fn answered(&mut self, event: &Event, reply: &Reply, book: &Book<'_>) {
        self.kept.refusals.look(self.part, event, reply, book);
    }

    fn cycle(&mut self, book: &Book<'_>, cycle: &[usize]) {
        self.kept.cycle = told_cycle(self.alloc, book, cycle);
    }

    fn is_last(&self) -> bool {
        true
    }
}

/// Which lines of a script do nothing, as its run found them.
pub fn refused_sentence(alloc: Global, kept: &Kept) -> Result<Option<String>, AllocError> {
    if kept.refusals.is_empty() {
        return Ok(None);
    }
    let input = KeptInput::of(&kept.input);
    let Some(set) = input.set(alloc) else {
        return Ok(None);
    };
    refused_words(alloc, &set, input.part, &kept.refusals)
}
