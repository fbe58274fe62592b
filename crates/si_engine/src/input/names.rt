//! Words as names of tables and programs.
ghost use Rattle.std.specs.Prelude.{◌≡◌};
ghost use Rattle.std.specs.List.{list_all};
ghost use Rattle.std.specs.Char.{is_ascii};
ghost use Rattle.std.specs.Option.{option_copied};
ghost use Rattle.prog_tree.specs.Tree.{draft_tree};
ghost use Rattle.prog_check.specs.Faults.{table_names, program_names};
ghost use Rattle.si_engine.specs.Names.{text_of, number_named};

use prog_check::ProgramSet;

fn is_ascii(word: &[u8]) -> bool
    ensures { result ≡ list_all is_ascii word.now }
{
    word.iter().all(|byte| byte.is_ascii())
}

// A word as a text, if it is ASCII.
fn text(word: &[u8]) -> Option<&str>
    ensures { option_copied result ≡ text_of word.now }
{
    if !is_ascii(word) {
        return None;
    }
    str::from_utf8(word).ok()
}

/// The number of the table that a word names.
pub fn table_number(set: &ProgramSet, word: &[u8]) -> Option<usize>
    ensures { result ≡ number_named (table_names (draft_tree set.now)) word.now }
{
    set.table_number(text(word)?)
}

/// The number of the program that a word names.
pub fn program_number(set: &ProgramSet, word: &[u8]) -> Option<usize>
    ensures { result ≡ number_named (program_names (draft_tree set.now)) word.now }
{
    set.program_number(text(word)?)
}
