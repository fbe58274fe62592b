//! Laws of the cut into tokens, as functions that a check has to prove.

ghost use Rattle.std.specs.Prelude.{◌≡◌, ◌↔◌, ℕ, ◌+◌, List, length, Ok, Err};
ghost use Rattle.prog_text.specs.Cut.{IsCut, IsFirstFlaw};
ghost use Rattle.prog_text.specs.Lexing.{Placed, tokens_of};
ghost use Rattle.prog_text.specs.declared.lexing.lex_error.Flaw.{Flaw};

/// A text has exactly the tokens that it is cut into: spaces, comments and tokens one after
/// another, each the longest that stands there.
#[tactic(auto, using(crate::proofs::Converse::tokens_exactly))]
pub fn tokens_are_the_longest()
    ensures { (bytes : List ℕ) (placed : Placed)
        → (tokens_of bytes ≡ Ok placed) ↔ IsCut bytes placed }
{}

/// A text has exactly the first flaw that it is refused for: spaces, comments and tokens one after
/// another stand before it, each the longest that stands there.
pub fn flaws_are_the_first()
    ensures { (bytes : List ℕ) (flaw : Flaw) (left : ℕ)
        → (tokens_of bytes ≡ Err (flaw, left))
        ↔ ((place : ℕ) × IsFirstFlaw bytes flaw place × (length bytes ≡ place + left)) }
{}
