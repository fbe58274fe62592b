//! What the entries tell of a question, and what that leaves.
ghost use Rattle.std.specs.Prelude.{◌≡◌, Some, slice_get};
ghost use Rattle.prog_paths.specs.Listing.{IsBefore, RiseBy};
ghost use Rattle.robust_cert.specs.Accepted.{question_of};
ghost use Rattle.robust_cert.specs.Sharing.{Entry};
ghost use Rattle.robust_cert.specs.Telling.{question_with, telling_with, telling_of, IsBehind};
ghost use Rattle.robust_cert.specs.Telling.{may_meet, may_be_exposed, mark_with};

use crate::checking::numbers::AskedNumbers;
use crate::entries::{Entries, Reason};
use prog_paths::{Mark, Question, mark_by};

/// What is told of a question.
#[derive(Clone, Copy)]
pub enum Telling {
    Nothing,
    /// Its accesses never meet.
    Apart,
    /// Where they meet, two others write one cell.
    Cover,
}

fn told_by(reason: &Reason) -> Telling
    ensures { result ≡ telling_with reason.now }
{
    match reason {
        Reason::Apart(_) => Telling::Apart,
        Reason::Cover { .. } => Telling::Cover,
    }
}

// The first entry from the cursor on that stands not before the question.
fn cursor_at(entries: &Entries, cursor: usize, question: AskedNumbers) -> usize
    requires { IsBehind entries.now cursor (question_with question) }
    ensures passed { IsBehind entries.now result (question_with question) }
    ensures stops { (e : Entry) → slice_get entries.now result ≡ Some e
        → ¬ IsBefore (question_of e) (question_with question) }
{
    let mut at = cursor;
    while at < entries.len() && AskedNumbers::from(entries.question(at)).is_before(question) {
        at += 1;
    }
    at
}

/// What the entries tell of the question, and the cursor for the questions behind it.
pub fn telling_at(entries: &Entries, cursor: usize, question: AskedNumbers) -> (Telling, usize)
    requires rising { RiseBy question_of entries.now }
    requires behind { IsBehind entries.now cursor (question_with question) }
    ensures telling { result.0 ≡ telling_of entries.now (question_with question) }
    ensures behind { IsBehind entries.now result.1 (question_with question) }
{
    let at = cursor_at(entries, cursor, question);
    if at < entries.len() && AskedNumbers::from(entries.question(at)).is_same(question) {
        (told_by(entries.reason(at)), at)
    } else {
        (Telling::Nothing, at)
    }
}

fn may_meet(told: Telling) -> bool
    ensures { result ≡ may_meet told }
{
    !matches!(told, Telling::Apart)
}

fn may_be_exposed(told: Telling) -> bool
    ensures { result ≡ may_be_exposed told }
{
    matches!(told, Telling::Nothing)
}

/// What a question gives of which this is told.
pub fn mark_with(question: Question, told: Telling) -> Mark
    ensures { result ≡ mark_with question told }
{
    mark_by(question, may_meet(told), may_be_exposed(told))
}
