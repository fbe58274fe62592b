//! The middles of entries' texts. Each first access meets the same second ones, so the numbers of a
//! second access are written once and copied.

ghost use Rattle.std.specs.Prelude.{◌≡◌, ◌+◌, ◌≤◌, ◌++◌, IsTrue, IfSome, IfOk, string_bytes};
ghost use Rattle.std.specs.Prelude.{string_capacity, string_len};
ghost use Rattle.robust_cert.specs.Parts.{second_text};
ghost use Rattle.robust_cert.specs.Json.{QuestionFits};

use crate::certificate::EntryQuestion;
use crate::entries::Told;
use crate::text::room::{put_before_comma, put_number, put_str};
use std::alloc::{AllocError, Global};
use std::marker::Model;

// How many middles are remembered. It is a prime.
const MIDDLES_REMEMBERED: usize = 8_191;

// For fewer entries no slots are made, since that would take longer than they save.
const MIN_ENTRIES_WITH_SLOTS: usize = 1_024;

// The middles of so many entries are remembered: each first access meets mostly the same second ones.
const ENTRIES_READ: usize = 32_768;

/// So many bytes a middle has at most: two numbers and the comma between them.
pub(crate) const MIDDLE_BYTES: usize = 21;

// Adds the numbers of the second access.
fn put_second_access(text: &mut String, question: EntryQuestion)
    requires { string_len text.old + MIDDLE_BYTES ≤ string_capacity text.old }
    ensures text { string_bytes text.new ≡ string_bytes text.old ++ second_text question }
    ensures len { string_len text.new ≤ string_len text.old + MIDDLE_BYTES }
    ensures capacity { string_capacity text.old ≤ string_capacity text.new }
{
    put_before_comma(text, question.y);
    put_number(text, question.b);
}

// The text of the second access of a question.
#[derive(Drop)]
struct Middle {
    question: EntryQuestion,
    text: String,
}

impl Model for Middle {
    ghost use Rattle.std.specs.Prelude.{◌≡◌, string_bytes};
    ghost use Rattle.robust_cert.specs.declared.certificate.EntryQuestion.{EntryQuestion};
    ghost use Rattle.robust_cert.specs.Parts.{second_text};

    ghost Value = { EntryQuestion };

    ghost view = { λ m. m.question };

    ghost invariant = { λ m. string_bytes m.text ≡ second_text m.question };
}

impl Middle {
    fn of(alloc: Global, question: EntryQuestion) -> Result<Self, AllocError>
        ensures { IfOk result (λ middle. middle ≡ question) }
    {
        let mut text = String::with_capacity(alloc, MIDDLE_BYTES)?;
        put_second_access(&mut text, question);
        Ok(Middle { question, text })
    }

    fn is_that_of(&self, question: EntryQuestion) -> bool
        ensures { IsTrue result → second_text self.now ≡ second_text question }
    {
        self.question.y == question.y && self.question.b == question.b
    }

    fn text(&self) -> &str
        ensures { result.now ≡ second_text self.now }
    {
        self.text.as_str()
    }
}

// The slot for the second access of a question.
fn slot_of(question: EntryQuestion) -> usize {
    let mark = (question.y as usize).wrapping_mul(31);
    mark.wrapping_add(question.b as usize) % MIDDLES_REMEMBERED
}

/// Middles as far as they are remembered: a slot holds the last one that came there. They are read
/// by several threads at once.
#[derive(Drop)]
pub(crate) struct Middles {
    slots: Vec<Option<Middle>>,
}

impl Middles {
    /// The middles of the first entries, if there are many, as far as there is memory.
    pub(crate) fn for_entries(alloc: Global, told: &[Told]) -> Result<Self, AllocError> {
        let mut middles = Middles {
            slots: Vec::new(alloc),
        };
        if told.len() < MIN_ENTRIES_WITH_SLOTS {
            return Ok(middles);
        }
        middles.slots.resize_with(MIDDLES_REMEMBERED, || None)?;
        for next in &told[..told.len().min(ENTRIES_READ)] {
            middles.keep(alloc, next.question);
        }
        Ok(middles)
    }

    fn find(&self, question: EntryQuestion) -> Option<&str>
        ensures text { IfSome result (λ text. text.now ≡ second_text question) }
        ensures fits { QuestionFits question }
    {
        let Some(Some(middle)) = self.slots.get(slot_of(question)) else {
            return None;
        };
        if !middle.is_that_of(question) {
            return None;
        }
        Some(middle.text())
    }

    // Remembers the numbers of a second access, as far as there is memory.
    fn keep(&mut self, alloc: Global, question: EntryQuestion) {
        if self.find(question).is_some() {
            return;
        }
        if let Some(slot) = self.slots.get_mut(slot_of(question)) {
            *slot = Middle::of(alloc, question).ok();
        }
    }

    /// Adds the numbers of the second access.
    pub(crate) fn put_access(&self, text: &mut String, question: EntryQuestion)
        requires { string_len text.old + MIDDLE_BYTES ≤ string_capacity text.old }
        ensures text { string_bytes text.new ≡ string_bytes text.old ++ second_text question }
        ensures len { string_len text.new ≤ string_len text.old + MIDDLE_BYTES }
        ensures capacity { string_capacity text.old ≤ string_capacity text.new }
    {
        if let Some(known) = self.find(question) {
            put_str(text, known);
            return;
        }
        put_second_access(text, question);
    }
}
