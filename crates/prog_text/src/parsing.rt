//! From the bytes of a text to a draft.

ghost use Rattle.std.specs.Prelude.{◌≡◌, ℕ, ◌<◌, ◌≤◌, List, length, IfOk, IfErr, MatchResult, Ok};
ghost use Rattle.std.specs.Prelude.{Err};
ghost use Rattle.prog_tree.specs.Syntax.{DraftTree};
ghost use Rattle.prog_tree.specs.Tree.{draft_tree};
ghost use Rattle.prog_text.specs.Answer.{HasTokens, IsShallow, Accepts, IsFlawed, Refuses};
ghost use Rattle.prog_text.specs.Answer.{place_of};
ghost use Rattle.prog_text.specs.Limits.{text_limit};
ghost use Rattle.prog_text.specs.Grammar.{IsSet};
ghost use Rattle.prog_text.specs.Lexing.{kinds};
ghost use Rattle.prog_text.specs.Reading.{Unexpected, set_at};

use crate::fault::TextFault;
use crate::lexing::lex_error::{Flaw, LexError};
use crate::lexing::lexer::tokens;
use crate::lexing::placed_tokens::PlacedTokens;
use crate::limits::{MAX_TEXT_BYTES, too_deep};
use crate::reading::read_error::ReadError;
use crate::reading::sets::set;
use prog_tree::Draft;
use std::alloc::Global;

fn flaw_fault(flaw: Flaw, place: usize) -> TextFault
    ensures { (bytes : List ℕ) → IsFlawed bytes flaw place → Refuses bytes result }
{
    match flaw {
        Flaw::NotAscii => TextFault::NotAscii { place },
        Flaw::UnknownByte => TextFault::UnknownByte { place },
        Flaw::NumberOutOfRange => TextFault::NumberOutOfRange { place },
        Flaw::NameTooLong => TextFault::NameTooLong { place },
    }
}

// The tokens of a text, or the refusal of its first flaw.
fn cut(alloc: Global, text: &[u8]) -> Result<PlacedTokens<'_>, TextFault>
    requires { length text.now ≤ text_limit }
    ensures cut { IfOk result (HasTokens text.now) }
    ensures refused { IfErr result (Refuses text.now) }
{
    match tokens(alloc, text) {
        Ok(placed) => Ok(placed),
        Err(LexError::Memory) => Err(TextFault::Memory),
        Err(LexError::At { flaw, left }) => Err(flaw_fault(flaw, text.len().saturating_sub(left))),
    }
}

// The place of a token.
fn place_of(text: &[u8], placed: &PlacedTokens<'_>, index: usize) -> usize
    requires { index < length placed.now }
    ensures { result ≡ place_of text.now placed.now index }
{
    text.len().saturating_sub(placed.left(index))
}

// Reading stopped where so many tokens were left, or at the end.
fn stop_fault(text: &[u8], placed: &PlacedTokens<'_>, left: usize) -> TextFault
    requires shallow { IsShallow text.now placed.now }
    requires stops { set_at (kinds placed.now) ≡ Err (Unexpected left) }
    ensures { Refuses text.now result }
{
    if left == 0 {
        return TextFault::UnexpectedEnd { place: text.len() };
    }
    let index = placed.tokens().len() - left;
    TextFault::UnexpectedToken {
        place: place_of(text, placed, index),
    }
}

// The set that the tokens spell, or the refusal of the first that fits nowhere.
fn read_set(alloc: Global, text: &[u8], placed: &PlacedTokens<'_>) -> Result<Draft, TextFault>
    requires { IsShallow text.now placed.now }
    ensures found { IfOk result (λ draft. IsSet (kinds placed.now) (draft_tree draft)) }
    ensures refused { IfErr result (Refuses text.now) }
{
    match set(alloc, placed.tokens()) {
        Ok(draft) => Ok(draft),
        Err(ReadError::Memory) => Err(TextFault::Memory),
        Err(ReadError::Unexpected { left }) => Err(stop_fault(text, placed, left)),
    }
}

/// Reads the text of a set of tables and programs.
pub fn parse(alloc: Global, text: &[u8]) -> Result<Draft, TextFault>
    // What is read is spelled so, and no refusal applies.
    ensures found { IfOk result (λ draft. Accepts text.now (draft_tree draft)) }

    // What is spelled so, with no refusal, is read so, unless memory runs out.
    ensures only { (d : DraftTree) → Accepts text.now d
        → MatchResult result (λ draft. draft_tree draft ≡ d)
        (λ fault. fault ≡ TextFault.Memory) }

    // A refusal is the first that applies.
    ensures refused { IfErr result (Refuses text.now) }
{
    if text.len() > MAX_TEXT_BYTES {
        return Err(TextFault::TooLong {
            place: MAX_TEXT_BYTES,
        });
    }
    let placed = cut(alloc, text)?;
    if let Some(index) = too_deep(placed.tokens()) {
        let place = place_of(text, &placed, index);
        return Err(TextFault::TooDeep { place });
    }
    read_set(alloc, text, &placed)
}
