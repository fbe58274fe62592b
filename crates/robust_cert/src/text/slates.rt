//! Texts of the next entries, several at once. Each has its room from the beginning, so to write
//! them takes no memory.

ghost use Rattle.std.specs.Prelude.{◌≡◌, ◌↔◌, ◌+◌, ◌<◌, ◌≤◌, ◌++◌, ℕ, All, IfOk, IsTrue, length};
ghost use Rattle.std.specs.Prelude.{string_bytes, string_capacity, take};
ghost use Rattle.robust_cert.specs.Pieces.{entries_room, next_entries_text};
ghost use Rattle.robust_cert.specs.Sharing.{HasReason, entries_told};
ghost use Rattle.robust_cert.specs.Slates.{CanDealOut, CanTake, CanWrite, IsWide, KeepsWidth};
ghost use Rattle.robust_cert.specs.Slates.{slates_entries, slates_left, slates_text};

use crate::certificate::EntryQuestion;
use crate::entries::{Reason, Told};
use crate::text::heads::Heads;
use crate::text::middles::Middles;
use crate::text::next_entries::{fitting, put_all};
use rayon::prelude::*;
use std::alloc::{AllocError, Global};
use std::mem::swap;
use std::thread::Threads;

/// The heads with which a text begins, before an entry has asked for its own.
pub const NO_QUESTION: EntryQuestion = EntryQuestion {
    x: 0,
    a: 0,
    y: 0,
    b: 0,
};

/// A text of some entries, which one thread writes, with the heads that it remembers.
#[derive(Drop)]
pub struct Slate<'c> {
    pub text: String,
    heads: Heads,
    pub entries: &'c [Told],
}

impl<'c> Slate<'c> {
    // A slate with so much room, without an entry.
    fn of(alloc: Global, bytes: usize) -> Result<Self, AllocError>
        ensures { IfOk result (λ slate. bytes ≤ string_capacity slate.text) }
    {
        Ok(Slate {
            text: String::with_capacity(alloc, bytes)?,
            heads: Heads::of(alloc, NO_QUESTION)?,
            entries: &[],
        })
    }

    // Takes the first of these entries, as many as are sure to have room, and gives those behind
    // them.
    fn take(&mut self, told: &'c [Told], reasons: &[Reason], tails: &[String]) -> &'c [Told]
        requires { CanTake reasons.now tails.now told.now self.old }
        ensures all { self.new.entries.now ++ result.now ≡ told.now }
        ensures room { CanWrite reasons.now tails.now self.new }
        ensures capacity { string_capacity self.new.text ≡ string_capacity self.old.text }
        ensures within { All (HasReason reasons.now) result.now }
        ensures fewer { 0 < length told.now → length result.now < length told.now }
        ensures full { 0 < length result.now → string_capacity self.old.text
            < entries_room reasons.now (take (length self.new.entries.now + 1) told.now) }
    {
        let count = fitting(told, reasons, tails, self.text.capacity());
        let (first, behind) = told.split_at(count);
        self.entries = first;
        behind
    }

    // Writes the texts of its entries, each behind a comma, where others stood.
    fn write(&mut self, reasons: &[Reason], tails: &[String], middles: &Middles)
        requires { CanWrite reasons.now tails.now self.old }
        ensures text { string_bytes self.new.text
            ≡ next_entries_text (entries_told reasons.now self.old.entries.now) }
        ensures capacity { string_capacity self.old.text ≤ string_capacity self.new.text }
    {
        self.text.clear();
        put_all(
            &mut self.text,
            &mut self.heads,
            middles,
            self.entries,
            reasons,
            tails,
        );
    }
}

/// Slates that are written together, and then given one by one.
#[derive(Drop)]
pub struct Slates<'c> {
    pub all: Vec<Slate<'c>>,
    /// So many of them were given since they were written.
    pub given: usize,
}

impl<'c> Slates<'c> {
    /// So many slates, each with room for so many bytes.
    pub fn of(alloc: Global, count: usize, bytes: usize) -> Result<Self, AllocError>
        ensures count { IfOk result (λ slates. length slates.all.items ≡ count) }
        ensures given { IfOk result (λ slates. slates.given ≡ length slates.all.items) }
        ensures wide { IfOk result (λ slates. All (IsWide bytes) slates.all.items) }
    {
        let mut all = Vec::with_capacity(alloc, count)?;
        for _ in 0..count {
            all.push(Slate::of(alloc, bytes)?)?;
        }
        Ok(Slates {
            given: all.len(),
            all,
        })
    }

    /// Whether one is left that was not given.
    pub fn has_next(&self) -> bool
        ensures { IsTrue result ↔ (self.now.given < length self.now.all.items) }
    {
        self.given < self.all.len()
    }

    /// Gives the text of the next one in place of another text, which the slate takes.
    pub fn give_next(&mut self, text: &mut String)
        requires { self.old.given < length self.old.all.items }
        ensures text { string_bytes text.new ++ slates_text (slates_left self.new)
            ≡ slates_text (slates_left self.old) }
        ensures left { length (slates_left self.new) + 1 ≡ length (slates_left self.old) }
        ensures count { length self.new.all.items ≡ length self.old.all.items }
        ensures wide { (bytes : ℕ) → bytes ≤ string_capacity text.old
            → All (IsWide bytes) self.old.all.items
            → All (IsWide bytes) self.new.all.items × (bytes ≤ string_capacity text.new) }
    {
        let next = self.given;
        swap(text, &mut self.all[next].text);
        self.given = next + 1;
    }

    // Deals out the next entries, and gives those behind them.
    fn deal_out(&mut self, told: &'c [Told], reasons: &[Reason], tails: &[String]) -> &'c [Told]
        requires { CanDealOut reasons.now tails.now told.now self.old }
        ensures all { slates_entries self.new.all.items ++ result.now ≡ told.now }
        ensures room { All (CanWrite reasons.now tails.now) self.new.all.items }
        ensures count { length self.new.all.items ≡ length self.old.all.items }
        ensures wide { KeepsWidth self.old.all.items self.new.all.items }
        ensures within { All (HasReason reasons.now) result.now }
        ensures most { length result.now ≤ length told.now }
        ensures fewer { 0 < length self.old.all.items → 0 < length told.now
            → length result.now < length told.now }
    {
        let mut left = told;
        for n in 0..self.all.len() {
            left = self.all[n].take(left, reasons, tails);
        }
        left
    }

    /// Writes the texts of the next entries, by several threads, and gives the entries behind them.
    pub fn write(
        &mut self,
        rt: &(impl Threads + Sync),
        told: &'c [Told],
        reasons: &[Reason],
        tails: &[String],
        middles: &Middles,
    ) -> &'c [Told]
        requires { CanDealOut reasons.now tails.now told.now self.old }
        ensures text { slates_text self.new.all.items
            ++ next_entries_text (entries_told reasons.now result.now)
            ≡ next_entries_text (entries_told reasons.now told.now) }
        ensures count { length self.new.all.items ≡ length self.old.all.items }
        ensures given { self.new.given ≡ 0 }
        ensures wide { KeepsWidth self.old.all.items self.new.all.items }
        ensures within { All (HasReason reasons.now) result.now }
        ensures none { length self.old.all.items ≡ 0 → result.now ≡ told.now }
        ensures most { length result.now ≤ length told.now }
        ensures fewer { 0 < length self.old.all.items → 0 < length told.now
            → length result.now < length told.now }
    {
        let behind = self.deal_out(told, reasons, tails);
        par_for_each_mut(
            rt,
            &mut self.all,
            |_n: usize, slate: &mut Slate|
                requires { CanWrite reasons.now tails.now slate.old }
                ensures text { string_bytes slate.new.text
                    ≡ next_entries_text (entries_told reasons.entry.now slate.old.entries.now) }
                ensures capacity { string_capacity slate.old.text
                    ≤ string_capacity slate.new.text }
            { slate.write(reasons, tails, middles) },
        );
        self.given = 0;
        behind
    }
}
