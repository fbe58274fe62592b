//! A law of what is looked for in a text, the contract of a function that does nothing.

ghost use Rattle.std.specs.Prelude.{◌≡◌, ◌≢◌, ℕ, List, length};
ghost use Rattle.prog_tree.specs.Syntax.{BlockTree, DraftTree};
ghost use Rattle.text_places.specs.Landmarks.{is_sign_of};
ghost use Rattle.text_places.specs.declared.landmark.Landmark.{Landmark};
ghost use Rattle.text_places.specs.declared.landmark.Landmark.TheVariants.{Job, Record};
ghost use Rattle.prog_text.specs.declared.lexing.token.Token.{Token};
ghost use Rattle.prog_text.specs.Cut.{Spells};
ghost use Rattle.prog_text.specs.Grammar.{IsSet};
ghost use Rattle.prog_check.specs.Paths.{statement_count};
ghost use Rattle.fault_words.specs.Beginnings.{beginnings_among, draft_beginnings, firsts_of};
ghost use Rattle.fault_words.specs.Beginnings.{is_first};

/// The words by which tables, programs and statements are found in a text are those with which the
/// grammar begins them. So where they are counted, each statement is met at its number: in the
/// order of the text, a branch and an `each` before their blocks.
pub fn beginnings_are_those_of_the_grammar()
    // Among the tokens of a set such words stand for each table, program and statement, and for
    // nothing else.
    ensures tokens { (ts : List Token) → (set : DraftTree) → IsSet ts set
        → beginnings_among ts ≡ draft_beginnings set }

    // What is looked for is a word that spells such a token: no name and no number does.
    ensures words { (kind : Landmark) → kind ≢ Record → kind ≢ Job
        → (token : Token) → (word : List ℕ) → Spells token word
        → is_sign_of kind word ≡ is_first kind token }

    // There are as many as the numbers of statements that a fault may name.
    ensures numbers { (block : BlockTree) → length (firsts_of block) ≡ statement_count block }
{}
