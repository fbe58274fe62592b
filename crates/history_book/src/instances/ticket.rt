//! What a book hands out for instances and commits.

ghost use Rattle.std.specs.Prelude.{◌≡◌};

use std::marker::Model;

/// An active instance of a book.
#[derive(Debug, Drop)]
pub struct Ticket {
    pub(crate) number: u64,
    pub(crate) start: u64,
}

impl Model for Ticket {
    ghost use Rattle.history_book.specs.Ticket.{TicketView};

    ghost Value = { TicketView };

    ghost view = { λ t. record { number = t.number; start = t.start } };
}

impl Ticket {
    /// How many begins of its book succeeded before its own.
    pub fn number(&self) -> u64
        ensures { result ≡ self.now.number }
    {
        self.number
    }

    /// The number of commits that its instance sees.
    pub fn start(&self) -> u64
        ensures { result ≡ self.now.start }
    {
        self.start
    }
}

/// A commit of a book.
#[derive(Debug, Drop)]
pub struct Receipt {
    pub(crate) commit: u64,
}

impl Model for Receipt {
    ghost use Rattle.std.specs.Prelude.{ℕ};

    ghost Value = { ℕ };

    ghost view = { λ r. r.commit };
}

impl Receipt {
    /// The commit's number.
    pub fn number(&self) -> u64
        ensures { result ≡ self.now }
    {
        self.commit
    }
}
