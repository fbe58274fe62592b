//! The pieces of lines: words and numbers, values, cells and regions. Where memory runs out, some
//! first bytes of a piece may have been added.
#![tactic(auto, using(crate::proofs::WritingLaws::writing_steps))]

ghost use Rattle.std.specs.Fmt.{signed_decimal};
ghost use Rattle.std.specs.Prelude.{◌≡◌, ◌<◌, ◌++◌, [], ◌∷◌, codes};
ghost use Rattle.std.specs.List.{flat_map};
ghost use Rattle.si_engine.specs.Printed.{table_head, cell_text, region_in, region_text};
ghost use Rattle.si_engine.specs.Printed.{value_text};
ghost use Rattle.si_engine.specs.Writing.{AddsBytes};

use itoa::{Buffer, Integer};
use prog_tree::{Arity, Cell, Region, TableDecl};
use std::alloc::AllocError;

/// Adds a word.
pub fn push_word(text: &mut String, word: &str) -> Result<(), AllocError>
    ensures { AddsBytes text.old text.new result word.now }
{
    text.push_str(word)
}

/// Adds a character of one byte.
pub fn push_mark(text: &mut String, mark: char) -> Result<(), AllocError>
    requires { mark < 128 }
    ensures { AddsBytes text.old text.new result (mark ∷ []) }
{
    text.push(mark)
}

/// Adds the digits of a number, behind a sign where it is negative.
pub fn push_number<I: Integer>(text: &mut String, number: I) -> Result<(), AllocError>
    ensures { AddsBytes text.old text.new result (I.text number) }
{
    let mut digits = Buffer::new();
    push_word(text, digits.format(number))
}

/// Adds a word, and a number behind it.
pub fn push_with_number<I: Integer>(
    text: &mut String,
    word: &str,
    number: I,
) -> Result<(), AllocError>
    ensures { AddsBytes text.old text.new result (word.now ++ I.text number) }
{
    push_word(text, word)?;
    push_number(text, number)
}

// Adds a name, and the first number behind its bracket.
fn push_opening(text: &mut String, name: &str, first: i64) -> Result<(), AllocError>
    ensures { AddsBytes text.old text.new result (name.now ++ (codes "[" ++ signed_decimal first)) }
{
    push_word(text, name)?;
    push_mark(text, '[')?;
    push_number(text, first)
}

/// Adds numbers, each behind a space.
#[tactic(auto, using(crate::proofs::WritingLaws::growing_steps))]
pub fn push_numbers<I: Integer>(text: &mut String, numbers: &[I]) -> Result<(), AllocError>
    ensures { AddsBytes text.old text.new result
        (flat_map (λ n. codes " " ++ I.text n) numbers.now) }
{
    for number in numbers {
        push_mark(text, ' ')?;
        push_number(text, *number)?;
    }
    Ok(())
}

fn push_value(text: &mut String, value: Option<i64>) -> Result<(), AllocError>
    ensures { AddsBytes text.old text.new result (value_text value) }
{
    match value {
        Some(value) => push_number(text, value),
        None => push_word(text, "absent"),
    }
}

/// Adds a value behind a space.
pub fn push_behind(text: &mut String, value: Option<i64>) -> Result<(), AllocError>
    ensures { AddsBytes text.old text.new result (codes " " ++ value_text value) }
{
    push_mark(text, ' ')?;
    push_value(text, value)
}

/// The name of a table, and how many key columns it has.
pub fn table_head(tables: &[TableDecl], number: usize) -> (&str, Arity)
    ensures name { result.0.now ≡ (table_head tables.now number).0 }
    ensures arity { result.1 ≡ (table_head tables.now number).1 }
{
    match tables.get(number) {
        None => ("", Arity::One),
        Some(table) => (table.name.as_str(), table.arity),
    }
}

fn push_cell(text: &mut String, tables: &[TableDecl], cell: &Cell) -> Result<(), AllocError>
    ensures { AddsBytes text.old text.new result (cell_text tables.now cell.now) }
{
    let (name, arity) = table_head(tables, cell.table);
    let Cell { first, second, .. } = *cell;
    push_opening(text, name, first)?;
    match arity {
        Arity::One => push_mark(text, ']'),
        Arity::Two => {
            push_with_number(text, ", ", second)?;
            push_mark(text, ']')
        }
    }
}

/// Adds a word, and a cell behind it.
pub fn push_with_cell(
    text: &mut String,
    word: &str,
    tables: &[TableDecl],
    cell: &Cell,
) -> Result<(), AllocError>
    ensures { AddsBytes text.old text.new result (word.now ++ cell_text tables.now cell.now) }
{
    push_word(text, word)?;
    push_cell(text, tables, cell)
}

// Adds a word, both ends of a range behind it, and the bracket that closes them.
fn push_range(text: &mut String, word: &str, low: i64, high: i64) -> Result<(), AllocError>
    ensures { AddsBytes text.old text.new result (word.now
        ++ (signed_decimal low ++ (codes ".." ++ (signed_decimal high ++ codes "]")))) }
{
    push_with_number(text, word, low)?;
    push_with_number(text, "..", high)?;
    push_mark(text, ']')
}

fn push_region_in(
    text: &mut String,
    name: &str,
    arity: Arity,
    region: &Region,
) -> Result<(), AllocError>
    ensures { AddsBytes text.old text.new result (region_in name.now arity region.now) }
{
    let Region {
        first_low,
        first_high,
        second_low,
        second_high,
        ..
    } = *region;
    match arity {
        Arity::One => {
            push_word(text, name)?;
            push_range(text, "[", first_low, first_high)
        }
        Arity::Two => {
            push_opening(text, name, first_low)?;
            push_range(text, ", ", second_low, second_high)
        }
    }
}

fn push_region(text: &mut String, tables: &[TableDecl], region: &Region) -> Result<(), AllocError>
    ensures { AddsBytes text.old text.new result (region_text tables.now region.now) }
{
    let (name, arity) = table_head(tables, region.table);
    push_region_in(text, name, arity, region)
}

/// Adds a word, a region behind it, and what was found there.
pub fn push_found<I: Integer>(
    text: &mut String,
    word: &str,
    tables: &[TableDecl],
    region: &Region,
    found: I,
) -> Result<(), AllocError>
    ensures { AddsBytes text.old text.new result (word.now
        ++ (region_text tables.now region.now ++ (codes " " ++ I.text found))) }
{
    push_word(text, word)?;
    push_region(text, tables, region)?;
    push_with_number(text, " ", found)
}
