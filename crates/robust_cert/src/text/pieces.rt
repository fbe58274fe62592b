//! The text of a certificate in pieces, so that it stands nowhere as a whole. All memory that they
//! need is taken before the first one is given.

ghost use Rattle.std.specs.Prelude.{◌≡◌, ◌<◌, ◌≤◌, ◌++◌, [], All, IsTrue, IsFalse, IfOk};
ghost use Rattle.robust_cert.specs.Json.{certificate_text, QuestionFits, CertificateFits};
ghost use Rattle.robust_cert.specs.Pieces.{text_left};

use crate::certificate::{Certificate, EntryQuestion};
use crate::entries::{Reason, Told};
use crate::limits::MIN_ENTRIES_OF_THREADS;
use crate::text::heads::Heads;
use crate::text::middles::Middles;
use crate::text::next_entries::{put_entries, room_for};
use crate::text::slates::{NO_QUESTION, Slates};
use crate::text::tails::tails_of;
use crate::text::writing::{closing_of, push_first_entry, push_opening};
use std::alloc::{AllocError, Global};
use std::marker::Model;
use std::mem::swap;
use std::thread::Threads;

// The room of a piece, unless the opening or an entry needs more.
const PIECE_BYTES: usize = 65_536;

// Where threads write a text, they write so many pieces at once, of so many bytes each.
const SLATES: usize = 8;

const SLATE_BYTES: usize = 524_288;

// Each number of a question has 32 bits.
fn question_fits(question: EntryQuestion)
    ensures { QuestionFits question }
{}

// So has each number of several.
fn questions_fit(told: &[Told])
    ensures { All (λ t. QuestionFits t.question) told.now }
{
    for next in told {
        question_fits(next.question);
    }
}

// So many slates threads write at once, of a text with so many entries.
fn slate_count(entries: usize) -> usize {
    if entries < MIN_ENTRIES_OF_THREADS {
        0
    } else {
        SLATES
    }
}

// So many bytes a piece of a text with so many slates has room for, where an entry needs so many:
// one has room at least, and without slates no more.
fn piece_bytes(slates: usize, room: usize) -> usize
    ensures { room ≤ result }
{
    if slates == 0 {
        return room;
    }
    SLATE_BYTES.max(room)
}

/// What is left of a certificate's text: the piece at hand, and what stands behind it. As long as
/// there is more, the next piece can be had.
#[derive(Drop)]
pub struct CertificateText<'c> {
    piece: String,
    // Pieces that several threads wrote, as far as they are not given yet.
    slates: Slates<'c>,
    // The entries that are still to come, and what they are written from.
    left: &'c [Told],
    reasons: &'c [Reason],
    tails: Vec<String>,
    heads: Heads,
    middles: Middles,
    room: usize,
    // What stands behind the entries, until it is given.
    closing: String,
}

impl<'c> Model for CertificateText<'c> {
    ghost use Rattle.std.specs.Prelude.{◌+◌, ◌*◌, ◌++◌, length, string_bytes, string_capacity};
    ghost use Rattle.robust_cert.specs.Pieces.{TextLeft, next_entries_text};
    ghost use Rattle.robust_cert.specs.Sharing.{entries_told};
    ghost use Rattle.robust_cert.specs.Slates.{CanGive, slates_left, slates_text};

    ghost Value = { TextLeft };

    ghost view = { λ t. record {
      piece = string_bytes t.piece;
      behind = slates_text (slates_left t.slates)
          ++ (next_entries_text (entries_told t.reasons.now t.left.now) ++ string_bytes t.closing);
      steps = length (slates_left t.slates)
          + (length t.left.now * (length t.slates.all.items + 1) + length (string_bytes t.closing));
    } };

    ghost invariant = { λ t. CanGive t.reasons.now t.left.now t.tails.items t.room
        (string_capacity t.piece) t.slates };
}

impl<'c> CertificateText<'c> {
    // The text of a certificate, of which nothing was given, with so many slates.
    fn with_slates(
        alloc: Global,
        certificate: &'c Certificate,
        count: usize,
    ) -> Result<Self, AllocError>
        ensures text { IfOk result (λ text. text_left text ≡ certificate_text certificate.now) }
        ensures fits { IfOk result (λ _. CertificateFits certificate.now) }
    {
        let (told, reasons) = certificate.entries.parts();
        questions_fit(told);
        let tails = tails_of(alloc, reasons)?;
        let room = room_for(&tails)?;
        let bytes = piece_bytes(count, room);
        let mut piece = String::with_capacity(alloc, PIECE_BYTES)?;
        push_opening(&mut piece, certificate)?;
        let left = push_first_entry(&mut piece, told, reasons)?;
        piece.reserve(bytes)?;
        let slates = Slates::of(alloc, count, bytes)?;
        let heads = Heads::of(alloc, NO_QUESTION)?;
        let middles = Middles::for_entries(alloc, told)?;
        let closing = closing_of(alloc, certificate)?;
        Ok(CertificateText {
            piece,
            slates,
            left,
            reasons,
            tails,
            heads,
            middles,
            room,
            closing,
        })
    }

    /// The text of a certificate, of which nothing was given.
    pub fn of(alloc: Global, certificate: &'c Certificate) -> Result<Self, AllocError>
        ensures text { IfOk result (λ text. text_left text ≡ certificate_text certificate.now) }
        ensures fits { IfOk result (λ _. CertificateFits certificate.now) }
    {
        CertificateText::with_slates(alloc, certificate, 0)
    }

    /// The text of a certificate, of which nothing was given, for threads to write it where it is
    /// long, which takes some memory more.
    pub fn for_threads(alloc: Global, certificate: &'c Certificate) -> Result<Self, AllocError>
        ensures text { IfOk result (λ text. text_left text ≡ certificate_text certificate.now) }
        ensures fits { IfOk result (λ _. CertificateFits certificate.now) }
    {
        let count = slate_count(certificate.entries.len());
        CertificateText::with_slates(alloc, certificate, count)
    }

    /// The piece at hand.
    pub fn piece(&self) -> &str
        ensures { result.now ≡ self.now.piece }
    {
        self.piece.as_str()
    }

    /// Whether more stands behind it.
    pub fn has_more(&self) -> bool
        ensures more { IsTrue result → 0 < self.now.steps }
        ensures end { IsFalse result → self.now.behind ≡ [] }
    {
        if self.slates.has_next() {
            return true;
        }
        if !self.left.is_empty() {
            return true;
        }
        !self.closing.as_str().is_empty()
    }

    /// Goes on to the next piece, for which no memory is needed.
    pub fn advance(&mut self)
        ensures text { text_left self.new ≡ self.old.behind }
        ensures fewer { 0 < self.old.steps → self.new.steps < self.old.steps }
    {
        if self.slates.has_next() {
            self.slates.give_next(&mut self.piece);
            return;
        }
        self.piece.clear();
        if self.left.is_empty() {
            swap(&mut self.piece, &mut self.closing);
            return;
        }
        let left = put_entries(
            &mut self.piece,
            &mut self.heads,
            &self.middles,
            self.left,
            self.reasons,
            &self.tails,
            self.room,
        );
        self.left = left;
    }

    // Has threads write the next pieces, where none is left of those that they wrote.
    fn write_slates(&mut self, rt: &(impl Threads + Sync))
        ensures piece { self.new.piece ≡ self.old.piece }
        ensures behind { self.new.behind ≡ self.old.behind }
        ensures steps { self.new.steps ≤ self.old.steps }
        ensures some { 0 < self.old.steps → 0 < self.new.steps }
    {
        if self.slates.has_next() || self.left.is_empty() {
            return;
        }
        let behind = self
            .slates
            .write(rt, self.left, self.reasons, &self.tails, &self.middles);
        self.left = behind;
    }

    /// Goes on to the next piece, as `advance` does, by several threads where the text has room for
    /// them.
    pub fn advance_par(&mut self, rt: &(impl Threads + Sync))
        ensures text { text_left self.new ≡ self.old.behind }
        ensures fewer { 0 < self.old.steps → self.new.steps < self.old.steps }
    {
        self.write_slates(rt);
        self.advance();
    }
}
