//! The texts of entries behind another one: heads and middles are remembered, and tails are at hand.

ghost use Rattle.std.specs.Prelude.{◌≡◌, ◌+◌, ◌<◌, ◌≤◌, ◌++◌, All, IfOk};
ghost use Rattle.std.specs.Prelude.{length, string_bytes, string_capacity, string_len, take};
ghost use Rattle.robust_cert.specs.Parts.{tail_text, AreTailsOf, HasRoomFor, next_entry_text};
ghost use Rattle.robust_cert.specs.Pieces.{entries_room, next_entries_text};
ghost use Rattle.robust_cert.specs.Sharing.{reason_at, entries_told, HasReason};

use crate::entries::{Reason, Told};
use crate::text::heads::Heads;
use crate::text::middles::Middles;
use crate::text::room::{has_room, put_str};
use crate::text::tails::tail_at;
use std::alloc::AllocError;

// So many bytes the text of an entry has at most before its tail.
const FRONT_BYTES: usize = 64;

// No tail is longer.
fn longest(tails: &[String]) -> usize
    ensures { All (λ t. length (string_bytes t) ≤ result) tails.now }
{
    let mut longest: usize = 0;
    for tail in tails {
        longest = longest.max(tail.as_bytes().len());
    }
    longest
}

/// So much room the text of an entry with one of these tails takes at most, behind another one.
pub fn room_for(tails: &[String]) -> Result<usize, AllocError>
    ensures { IfOk result (λ room. All (λ t. length (string_bytes t) + FRONT_BYTES ≤ room)
        tails.now) }
{
    let most = longest(tails);
    let Some(room) = most.checked_add(FRONT_BYTES) else {
        return Err(AllocError);
    };
    Ok(room)
}

// Adds an entry behind another one, for which there is room. Its tail is at hand, and mostly its
// head and its middle.
#[inline]
fn put_next(
    text: &mut String,
    heads: &mut Heads,
    middles: &Middles,
    told: Told,
    reasons: &[Reason],
    tails: &[String],
)
    requires tails { AreTailsOf reasons.now tails.now }
    requires within { HasReason reasons.now told }
    requires room { string_len text.old
        + (length (tail_text (reason_at reasons.now told.reason)) + FRONT_BYTES)
        ≤ string_capacity text.old }
    ensures text { string_bytes text.new ≡ string_bytes text.old
        ++ next_entry_text told.question (reason_at reasons.now told.reason) }
    ensures len { string_len text.new ≤ string_len text.old
        + (length (tail_text (reason_at reasons.now told.reason)) + FRONT_BYTES) }
    ensures capacity { string_capacity text.old ≤ string_capacity text.new }
{
    let number = told.reason as usize;
    heads.renew(told.question);
    put_str(text, heads.with_reason(&reasons[number]));
    middles.put_access(text, told.question);
    put_str(text, tail_at(reasons, tails, number));
}

/// Adds entries behind another one, one at least, as long as there is room, and gives those that
/// are left.
pub fn put_entries<'t>(
    text: &mut String,
    heads: &mut Heads,
    middles: &Middles,
    told: &'t [Told],
    reasons: &[Reason],
    tails: &[String],
    room: usize,
) -> &'t [Told]
    requires tails { AreTailsOf reasons.now tails.now }
    requires short { All (HasRoomFor room) reasons.now }
    requires within { All (HasReason reasons.now) told.now }
    requires room { string_len text.old + room ≤ string_capacity text.old }
    ensures text { string_bytes text.new ++ next_entries_text (entries_told reasons.now result.now)
        ≡ string_bytes text.old ++ next_entries_text (entries_told reasons.now told.now) }
    ensures within { All (HasReason reasons.now) result.now }
    ensures capacity { string_capacity text.old ≤ string_capacity text.new }
    ensures fewer { 0 < length told.now → length result.now < length told.now }
{
    let mut left = told;
    while let Some((next, behind)) = left.split_first() {
        put_next(text, heads, middles, *next, reasons, tails);
        left = behind;
        if !has_room(text, room) {
            return left;
        }
    }
    left
}

/// So many of these entries are sure to have room in so many bytes, each behind another one. The
/// first one has room, where there is one.
pub fn fitting(told: &[Told], reasons: &[Reason], tails: &[String], bytes: usize) -> usize
    requires tails { AreTailsOf reasons.now tails.now }
    requires within { All (HasReason reasons.now) told.now }
    requires short { All (HasRoomFor bytes) reasons.now }
    ensures within { result ≤ length told.now }
    ensures room { entries_room reasons.now (take result told.now) ≤ bytes }
    ensures full { result < length told.now
        → bytes < entries_room reasons.now (take (result + 1) told.now) }
{
    let mut left = bytes;
    for (count, next) in told.iter().enumerate() {
        let room = FRONT_BYTES + tail_at(reasons, tails, next.reason as usize).len();
        if room > left {
            return count;
        }
        left -= room;
    }
    told.len()
}

/// Adds all of some entries behind another one. There is room for them.
pub fn put_all(
    text: &mut String,
    heads: &mut Heads,
    middles: &Middles,
    told: &[Told],
    reasons: &[Reason],
    tails: &[String],
)
    requires tails { AreTailsOf reasons.now tails.now }
    requires within { All (HasReason reasons.now) told.now }
    requires room { string_len text.old + entries_room reasons.now told.now
        ≤ string_capacity text.old }
    ensures text { string_bytes text.new ≡ string_bytes text.old
        ++ next_entries_text (entries_told reasons.now told.now) }
    ensures capacity { string_capacity text.old ≤ string_capacity text.new }
{
    for next in told {
        put_next(text, heads, middles, *next, reasons, tails);
    }
}
