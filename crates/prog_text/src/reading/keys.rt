//! Keys and ranges, behind the name of their table.

ghost use Rattle.std.specs.Prelude.{◌≡◌, ◌<◌, length, IfOk};
ghost use Rattle.prog_tree.specs.Tree.{expr_tree, key_tree, range_tree};
ghost use Rattle.prog_text.specs.Reading.{key_from, key_at, high_at, range_from, range_at};
ghost use Rattle.prog_text.specs.Cursor.{Reads, keyed_tree, ranged_tree};

use crate::lexing::token::Sign;
use crate::reading::cursor::TokenCursor;
use crate::reading::expressions::expr;
use crate::reading::read_error::ReadError;
use prog_tree::{Expr, Key, Name, Range};

/// A row of a table.
#[derive(Drop)]
pub struct Keyed {
    pub table: Name,
    pub key: Key,
}

/// Rows of a table.
#[derive(Drop)]
pub struct Ranged {
    pub table: Name,
    pub range: Range,
}

// Behind the first expression of a key.
#[tactic(auto, unfolding(crate::specs::Reading::key_from))]
fn key_behind(cursor: &mut TokenCursor<'_>, first: Expr) -> Result<Key, ReadError>
    ensures { Reads key_tree (key_from (expr_tree first)) result cursor.old cursor.new }
{
    if cursor.eat(Sign::Comma) {
        let second = expr(cursor)?;
        cursor.expect(Sign::CloseKey)?;
        return Ok(Key::Two(first, second));
    }
    cursor.expect(Sign::CloseKey)?;
    Ok(Key::One(first))
}

/// A table's name and a key.
#[tactic(auto, unfolding(crate::specs::Reading::key_at))]
pub fn key(cursor: &mut TokenCursor<'_>) -> Result<Keyed, ReadError>
    ensures { Reads keyed_tree key_at result cursor.old cursor.new }
{
    let table = cursor.name()?;
    cursor.expect(Sign::OpenKey)?;
    let first = expr(cursor)?;
    let key = key_behind(cursor, first)?;
    Ok(Keyed { table, key })
}

// Behind the low end of a range: the high one.
#[tactic(auto, unfolding(crate::specs::Reading::high_at))]
fn high(cursor: &mut TokenCursor<'_>) -> Result<Expr, ReadError>
    ensures { Reads expr_tree high_at result cursor.old cursor.new }
{
    cursor.expect(Sign::Dots)?;
    let high = expr(cursor)?;
    cursor.expect(Sign::CloseKey)?;
    Ok(high)
}

// Behind the first expression of a range.
#[tactic(auto, unfolding(crate::specs::Reading::range_from))]
fn range_behind(cursor: &mut TokenCursor<'_>, first: Expr) -> Result<Range, ReadError>
    ensures { Reads range_tree (range_from (expr_tree first)) result cursor.old cursor.new }
{
    if cursor.eat(Sign::Comma) {
        let low = expr(cursor)?;
        let high = high(cursor)?;
        return Ok(Range::Two { first, low, high });
    }
    let high = high(cursor)?;
    Ok(Range::One { low: first, high })
}

/// A table's name and a range.
#[tactic(auto, unfolding(crate::specs::Reading::range_at))]
pub fn range(cursor: &mut TokenCursor<'_>) -> Result<Ranged, ReadError>
    ensures { Reads ranged_tree range_at result cursor.old cursor.new }
{
    let table = cursor.name()?;
    cursor.expect(Sign::OpenKey)?;
    let first = expr(cursor)?;
    let range = range_behind(cursor, first)?;
    Ok(Ranged { table, range })
}
