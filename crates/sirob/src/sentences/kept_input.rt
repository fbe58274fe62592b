//! The parts of an input again, to say something of them.

use crate::parts::two_parts;
use prog_check::{ProgramSet, check};
use prog_text::parse;
use run_words::Part;
use std::alloc::Global;

/// An input, and its parts where there are two; else it is all the text of a set.
#[derive(Clone, Copy)]
pub struct KeptInput<'a> {
    pub whole: &'a [u8],
    /// The text of the set.
    pub text: &'a [u8],
    /// What stands behind the line `%%`; ahead of it stand the set and that line.
    pub part: Part<'a>,
}

impl<'a> KeptInput<'a> {
    pub fn of(input: &'a [u8]) -> Self {
        match two_parts(input) {
            Ok(parts) => KeptInput {
                whole: input,
                text: parts.text,
                part: Part {
                    ahead: &input[..input.len() - parts.rest.len()],
                    bytes: parts.rest,
                },
            },
            Err(_) => KeptInput {
                whole: input,
                text: input,
                part: Part {
                    ahead: input,
                    bytes: &[],
                },
            },
        }
    }

    /// The set, which has no fault.
    pub fn set(self, alloc: Global) -> Option<ProgramSet> {
        let draft = parse(alloc, self.text).ok()?;
        check(alloc, draft).ok()
    }
}
