//! The entries of a certificate. There are many, and few different reasons, so entries may share
//! one.
ghost use Rattle.std.specs.Prelude.{◌≡◌, ◌<◌, ◌↔◌, [], ◌∷◌, ◌++◌, All, IsTrue, OnOk, OnErr, Some};
ghost use Rattle.std.specs.Prelude.{length, slice_get};
ghost use Rattle.robust_cert.specs.Sharing.{Entry, entry_with, entries_told, HasReason};

use crate::certificate::EntryQuestion;
use crate::chain::Chain;
use crate::limits::MAX_REASONS;
use prog_tree::Sequence;
use std::alloc::{AllocError, Global};
use std::marker::Model;

/// Why a question leaves nothing to fear.
#[derive(Debug, Drop)]
pub enum Reason {
    /// The two accesses never meet.
    Apart(Chain),
    /// Where they meet, `mine` of `x` and `theirs` of `y` write one cell. The chains say so, column
    /// by column: mine to theirs, then theirs to mine.
    Cover {
        mine: u32,
        theirs: u32,
        chains: Sequence<Chain>,
    },
}

/// A question, and the number of its reason in a list of them.
#[derive(Clone, Copy, Debug)]
pub struct Told {
    pub question: EntryQuestion,
    pub reason: u32,
}

/// The entries of a certificate in order.
#[derive(Debug, Drop)]
pub struct Entries {
    told: Vec<Told>,
    reasons: Vec<Reason>,
}

impl Model for Entries {
    ghost use Rattle.std.specs.Prelude.{List, All};
    ghost use Rattle.robust_cert.specs.Sharing.{Entry, entries_told, HasReason};

    ghost Value = { List Entry };

    ghost view = { λ e. entries_told e.reasons.items e.told.items };

    ghost invariant = { λ e. All (HasReason e.reasons.items) e.told.items };
}

impl Entries {
    pub fn new(alloc: Global) -> Self
        ensures { result ≡ [] }
    {
        Entries {
            told: Vec::new(alloc),
            reasons: Vec::new(alloc),
        }
    }

    /// The entries of questions that have the numbers of their reasons.
    pub fn of(told: Vec<Told>, reasons: Vec<Reason>) -> Self
        requires { All (HasReason reasons.items) told.items }
        ensures { result ≡ entries_told reasons.items told.items }
    {
        Entries { told, reasons }
    }

    pub fn len(&self) -> usize
        ensures { result ≡ length self.now }
    {
        self.told.len()
    }

    pub fn is_empty(&self) -> bool
        ensures { IsTrue result ↔ (self.now ≡ []) }
    {
        self.told.is_empty()
    }

    /// Adds an entry with a reason of its own. One more reason than 32 bits can number is answered
    /// as want of memory.
    pub fn push(&mut self, question: EntryQuestion, reason: Reason) -> Result<(), AllocError>
        ensures ok { OnOk result (self.new ≡ self.old ++ entry_with question reason ∷ []) }
        ensures err { OnErr result (self.new ≡ self.old) }
    {
        let number = self.reasons.len();
        if number >= MAX_REASONS {
            return Err(AllocError);
        }
        self.reasons.push(reason)?;
        self.told.push(Told {
            question,
            reason: number as u32,
        })?;
        Ok(())
    }

    /// Adds an entry that shares the reason of another one.
    pub fn push_like(&mut self, question: EntryQuestion, k: usize) -> Result<(), AllocError>
        requires { k < length self.old }
        ensures ok { OnOk result ((e : Entry) → slice_get self.old k ≡ Some e
            → self.new ≡ self.old ++ entry_with question e.reason ∷ []) }
        ensures err { OnErr result (self.new ≡ self.old) }
    {
        let Told { reason, .. } = self.told[k];
        self.told.push(Told { question, reason })?;
        Ok(())
    }

    /// The question of the entry of a number.
    pub fn question(&self, k: usize) -> EntryQuestion
        requires { k < length self.now }
        ensures { (e : Entry) → slice_get self.now k ≡ Some e → result ≡ e.question }
    {
        self.told[k].question
    }

    /// The reason of the entry of a number.
    pub fn reason(&self, k: usize) -> &Reason
        requires { k < length self.now }
        ensures { (e : Entry) → slice_get self.now k ≡ Some e → result.now ≡ e.reason }
    {
        &self.reasons[self.told[k].reason as usize]
    }

    /// The questions with the numbers of their reasons, and the reasons: for what is done once for
    /// each reason.
    pub fn parts(&self) -> (&[Told], &[Reason])
        ensures entries { self.now ≡ entries_told result.1.now result.0.now }
        ensures within { All (HasReason result.1.now) result.0.now }
    {
        (self.told.as_slice(), self.reasons.as_slice())
    }
}
