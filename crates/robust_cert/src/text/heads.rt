//! The heads of entries' texts. Entries with one first access follow each other, so their heads are
//! written once and copied. The next heads are written where those before them stood.

ghost use Rattle.std.specs.Prelude.{◌≡◌, ◌≤◌, ◌++◌, codes, string_bytes, string_capacity, IsTrue};
ghost use Rattle.std.specs.Prelude.{IfOk, length};
ghost use Rattle.robust_cert.specs.Json.{QuestionFits};
ghost use Rattle.robust_cert.specs.Parts.{first_text, next_head_text};

use crate::certificate::EntryQuestion;
use crate::entries::Reason;
use crate::text::room::{put_before_comma, put_str};
use std::alloc::{AllocError, Global};
use std::marker::Model;

// So many bytes a kind takes at most, with the comma behind the entry before.
const KIND_BYTES: usize = 10;

// So many bytes a head has at most: its kind and two numbers, each before a comma.
const HEAD_BYTES: usize = 32;

// Makes a text the head of a kind.
fn write_head(head: &mut String, kind: &str, question: EntryQuestion)
    requires short { length kind.now ≤ KIND_BYTES }
    requires room { HEAD_BYTES ≤ string_capacity head.old }
    ensures text { string_bytes head.new ≡ kind.now ++ first_text question }
    ensures room { HEAD_BYTES ≤ string_capacity head.new }
{
    head.clear();
    put_str(head, kind);
    put_before_comma(head, question.x);
    put_before_comma(head, question.a);
}

fn ask_of_one_access(question: EntryQuestion, other: EntryQuestion) -> bool
    ensures { IsTrue result → first_text question ≡ first_text other }
{
    question.x == other.x && question.a == other.a
}

/// The heads of the entries that have the first access of one question.
#[derive(Drop)]
pub(crate) struct Heads {
    question: EntryQuestion,
    apart: String,
    cover: String,
}

impl Model for Heads {
    ghost use Rattle.robust_cert.specs.declared.certificate.EntryQuestion.{EntryQuestion};
    ghost use Rattle.robust_cert.specs.Parts.{AreHeadsOf};

    ghost Value = { EntryQuestion };

    ghost view = { λ h. h.question };

    ghost invariant = { λ h. AreHeadsOf h.question h.apart h.cover };
}

impl Heads {
    pub(crate) fn of(alloc: Global, question: EntryQuestion) -> Result<Self, AllocError>
        ensures { IfOk result (λ heads. heads ≡ question) }
    {
        let mut apart = String::with_capacity(alloc, HEAD_BYTES)?;
        let mut cover = String::with_capacity(alloc, HEAD_BYTES)?;
        write_head(&mut apart, ",[\"apart\",", question);
        write_head(&mut cover, ",[\"cover\",", question);
        Ok(Heads {
            question,
            apart,
            cover,
        })
    }

    /// From these heads to those of another question.
    pub(crate) fn renew(&mut self, question: EntryQuestion)
        ensures head { first_text self.new ≡ first_text question }
        ensures fits { QuestionFits question }
    {
        if ask_of_one_access(self.question, question) {
            return;
        }
        self.question = question;
        write_head(&mut self.apart, ",[\"apart\",", question);
        write_head(&mut self.cover, ",[\"cover\",", question);
    }

    /// The head of an entry that has this first access, behind a comma.
    pub(crate) fn with_reason(&self, reason: &Reason) -> &str
        ensures { result.now ≡ next_head_text self.now reason.now }
    {
        match reason {
            Reason::Apart(_) => self.apart.as_str(),
            Reason::Cover { .. } => self.cover.as_str(),
        }
    }
}
