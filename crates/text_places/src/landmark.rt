//! Where the tables, programs and statements of a set's text begin, and the records or the jobs of
//! a list. A statement's first word stands nowhere else.
ghost use Rattle.std.specs.Prelude.{◌≡◌, ◌≤◌, ◌&&◌, bytes_eq, drop, IfNone, IfSome};
ghost use Rattle.text_places.specs.Landmarks.{begun_at, is_landmark, HasFewer, HasNoRecord};
ghost use Rattle.text_places.specs.Landmarks.{IsNumbered, IsRecordPlace};
ghost use Rattle.text_places.specs.Places.{begins_line};
ghost use Rattle.text_places.specs.Reading.{short_word};
ghost use Rattle.text_places.specs.declared.landmark.Landmark.TheVariants.{Job};

use crate::place::{begins_line, behind};
use crate::reading::{short_word, stands_free};
use prog_text::{Beginning, beginning_of};

/// What begins at a place.
pub fn begun_at(text: &[u8], place: usize) -> Option<Beginning>
    ensures { result ≡ begun_at text.now place }
{
    // Most places stand within a word, as the byte before them tells, and most others have none.
    if !stands_free(text, place) {
        return None;
    }
    match short_word(behind(text, place)) {
        [] => None,
        word => beginning_of(word),
    }
}

/// What has a word of its own at its front.
#[derive(Clone, Copy, Debug, PartialEq, Eq)]
pub enum Landmark {
    Table,
    Program,
    Statement,
    Record,
    Job,
}

// Whether a word stands at the front. Most bytes are not its first one.
fn begins_with(word: &[u8], bytes: &[u8]) -> bool
    ensures { result ≡ bytes_eq (short_word bytes.now) word.now }
{
    match (bytes, word) {
        ([byte, ..], [first, ..]) if byte != first => false,
        _ => short_word(bytes) == word,
    }
}

// Whether a word stands at a place, and before it in its line only spaces.
fn begins_line_with(word: &[u8], text: &[u8], place: usize) -> bool
    ensures { result ≡ (bytes_eq (short_word (drop place text.now)) word.now
        && begins_line text.now place) }
{
    begins_with(word, behind(text, place)) && begins_line(text, place)
}

fn is_landmark(kind: Landmark, text: &[u8], place: usize) -> bool
    ensures { result ≡ is_landmark kind text.now place }
{
    match kind {
        Landmark::Table => matches!(begun_at(text, place), Some(Beginning::Table)),
        Landmark::Program => matches!(begun_at(text, place), Some(Beginning::Program)),
        Landmark::Statement => matches!(begun_at(text, place), Some(Beginning::Statement)),
        Landmark::Record => begins_line_with(b"record".as_slice(), text, place),
        Landmark::Job => begins_line_with(b"job".as_slice(), text, place),
    }
}

/// Where the one of this number begins, counted from a place on.
pub fn numbered(kind: Landmark, text: &[u8], start: usize, number: usize) -> Option<usize>
    ensures found { IfSome result (IsNumbered kind text.now start number) }
    ensures behind { IfSome result (λ place. start ≤ place) }
    ensures none { IfNone result (HasFewer kind text.now start number) }
{
    let mut left = number;
    for place in start..text.len() {
        if !is_landmark(kind, text, place) {
            continue;
        }
        if left == 0 {
            return Some(place);
        }
        left -= 1;
    }
    None
}

/// Where a record of a list begins.
pub fn record_place(list: &[u8], number: usize) -> Option<usize>
    ensures found { IfSome result (IsRecordPlace list.now number) }
    ensures none { IfNone result (HasNoRecord list.now number) }
{
    numbered(Landmark::Record, list, 0, number)
}

/// Where a job of a list begins, counted from a place on.
pub fn job_place(list: &[u8], start: usize, number: usize) -> Option<usize>
    ensures found { IfSome result (IsNumbered Job list.now start number) }
    ensures behind { IfSome result (λ place. start ≤ place) }
    ensures none { IfNone result (HasFewer Job list.now start number) }
{
    numbered(Landmark::Job, list, start, number)
}
