//! Reasons that were read, so that none is read twice.

use std::alloc::{AllocError, Global};

// How many reasons are remembered. It is a prime.
const REASONS_REMEMBERED: usize = 4_093;

// For a shorter text no slots are made, since that would take longer than they save.
const MIN_TEXT_WITH_SLOTS: usize = 16_384;

// The text of a reason, with the end of its entry, and the number of an entry that has it.
#[derive(Clone, Copy)]
struct SeenSlot<'a> {
    text: &'a [u8],
    entry: usize,
}

// The slot for reasons like the one with which the bytes begin: of all up to the end of a chain.
fn slot_of(bytes: &[u8]) -> usize {
    let mut mark: usize = 0;
    let mut last = 0;
    for byte in bytes {
        if *byte == b']' && last == b']' {
            return mark % REASONS_REMEMBERED;
        }
        mark = mark.wrapping_mul(31).wrapping_add(*byte as usize);
        last = *byte;
    }
    mark % REASONS_REMEMBERED
}

/// Reasons as far as they are remembered: a slot holds the last one that came there.
#[derive(Drop)]
pub(crate) struct Seen<'a> {
    slots: Vec<Option<SeenSlot<'a>>>,
}

impl<'a> Seen<'a> {
    /// Slots that hold no reason yet, for a text of so many bytes.
    pub(crate) fn for_bytes(alloc: Global, count: usize) -> Result<Seen<'a>, AllocError> {
        if count < MIN_TEXT_WITH_SLOTS {
            return Ok(Seen {
                slots: Vec::new(alloc),
            });
        }
        let slots = vec![in alloc; None; REASONS_REMEMBERED]?;
        Ok(Seen { slots })
    }

    /// An entry that has the reason with which the bytes begin, if it was seen, and the bytes
    /// behind it.
    pub(crate) fn find(&self, bytes: &'a [u8]) -> Option<(usize, &'a [u8])> {
        let slot = (*self.slots.get(slot_of(bytes))?)?;
        let rest = bytes.strip_prefix(slot.text)?;
        Some((slot.entry, rest))
    }

    /// Remembers a reason: the bytes begin with it, and so many are left behind it.
    pub(crate) fn keep(&mut self, bytes: &'a [u8], left: usize, entry: usize) {
        let Some(length) = bytes.len().checked_sub(left) else {
            return;
        };
        if let Some(slot) = self.slots.get_mut(slot_of(bytes)) {
            *slot = Some(SeenSlot {
                text: &bytes[..length],
                entry,
            });
        }
    }
}
