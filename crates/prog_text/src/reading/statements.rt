//! Statements without blocks.

ghost use Rattle.prog_tree.specs.Tree.{expr_tree};
ghost use Rattle.prog_text.specs.Cursor.{Reads, ReadsPlain, assigned_tree, keyed_tree, ranged_tree};
ghost use Rattle.prog_text.specs.Reading.{last_expr_at, last_key_at, last_range_at, assigned_at};
ghost use Rattle.prog_text.specs.Reading.{get_at, bound_at, let_at, statement_at};

use crate::lexing::token::{Sign, Token};
use crate::reading::cursor::TokenCursor;
use crate::reading::expressions::expr;
use crate::reading::keys::{Keyed, Ranged, key, range};
use crate::reading::read_error::{ReadError, unexpected};
use prog_tree::{Expr, Key, Name, Stmt};

/// A row and its new value.
#[derive(Drop)]
pub struct Assigned {
    pub table: Name,
    pub key: Key,
    pub value: Expr,
}

// An expression and `;`.
#[tactic(auto, unfolding(crate::specs::Reading::last_expr_at))]
fn last_expr(cursor: &mut TokenCursor<'_>) -> Result<Expr, ReadError>
    ensures { Reads expr_tree last_expr_at result cursor.old cursor.new }
{
    let value = expr(cursor)?;
    cursor.expect(Sign::Semicolon)?;
    Ok(value)
}

// A key and `;`.
#[tactic(auto, unfolding(crate::specs::Reading::last_key_at))]
fn last_key(cursor: &mut TokenCursor<'_>) -> Result<Keyed, ReadError>
    ensures { Reads keyed_tree last_key_at result cursor.old cursor.new }
{
    let keyed = key(cursor)?;
    cursor.expect(Sign::Semicolon)?;
    Ok(keyed)
}

// A range and `;`.
#[tactic(auto, unfolding(crate::specs::Reading::last_range_at))]
fn last_range(cursor: &mut TokenCursor<'_>) -> Result<Ranged, ReadError>
    ensures { Reads ranged_tree last_range_at result cursor.old cursor.new }
{
    let ranged = range(cursor)?;
    cursor.expect(Sign::Semicolon)?;
    Ok(ranged)
}

// A key, `=`, an expression and `;`.
#[tactic(auto, unfolding(crate::specs::Reading::assigned_at))]
fn assignment(cursor: &mut TokenCursor<'_>) -> Result<Assigned, ReadError>
    ensures { Reads assigned_tree assigned_at result cursor.old cursor.new }
{
    let Keyed { table, key } = key(cursor)?;
    cursor.expect(Sign::Equals)?;
    let value = last_expr(cursor)?;
    Ok(Assigned { table, key, value })
}

// Behind `let NAME = get`.
#[tactic(auto, unfolding(crate::specs::Reading::get_at))]
fn get(cursor: &mut TokenCursor<'_>, name: Name) -> Result<Stmt, ReadError>
    ensures { ReadsPlain (get_at name) result cursor.old cursor.new }
{
    let Keyed { table, key } = key(cursor)?;
    cursor.expect(Sign::Else)?;
    let otherwise = last_expr(cursor)?;
    Ok(Stmt::Get {
        name,
        table,
        key,
        otherwise,
    })
}

// Behind `let NAME =`, by the first token.
#[tactic(auto, unfolding(crate::specs::Reading::bound_at, crate::specs::Reading::bind_at))]
fn bound_value(cursor: &mut TokenCursor<'_>, name: Name) -> Result<Stmt, ReadError>
    ensures { ReadsPlain (bound_at name) result cursor.old cursor.new }
{
    if cursor.eat(Sign::Get) {
        return get(cursor, name);
    }
    if cursor.eat(Sign::Need) {
        let Keyed { table, key } = last_key(cursor)?;
        return Ok(Stmt::Need { name, table, key });
    }
    if cursor.eat(Sign::Count) {
        let Ranged { table, range } = last_range(cursor)?;
        return Ok(Stmt::Count { name, table, range });
    }
    if cursor.eat(Sign::Sum) {
        let Ranged { table, range } = last_range(cursor)?;
        return Ok(Stmt::Sum { name, table, range });
    }
    let value = last_expr(cursor)?;
    Ok(Stmt::Bind { name, value })
}

// Behind the word `let`.
#[tactic(auto, unfolding(crate::specs::Reading::let_at))]
fn let_binding(cursor: &mut TokenCursor<'_>) -> Result<Stmt, ReadError>
    ensures { ReadsPlain let_at result cursor.old cursor.new }
{
    let name = cursor.name()?;
    cursor.expect(Sign::Equals)?;
    bound_value(cursor, name)
}

/// A statement without blocks.
#[tactic(auto, unfolding(crate::specs::Reading::statement_at))]
pub fn statement(cursor: &mut TokenCursor<'_>) -> Result<Stmt, ReadError>
    ensures { ReadsPlain statement_at result cursor.old cursor.new }
{
    let tokens = cursor.tokens;
    match cursor.next()? {
        Token::Sign(Sign::Let) => let_binding(cursor),
        Token::Sign(Sign::Lacks) => {
            let Keyed { table, key } = last_key(cursor)?;
            Ok(Stmt::Lacks { table, key })
        }
        Token::Sign(Sign::Put) => {
            let Assigned { table, key, value } = assignment(cursor)?;
            Ok(Stmt::Put { table, key, value })
        }
        Token::Sign(Sign::Insert) => {
            let Assigned { table, key, value } = assignment(cursor)?;
            Ok(Stmt::Insert { table, key, value })
        }
        Token::Sign(Sign::Delete) => {
            let Keyed { table, key } = last_key(cursor)?;
            Ok(Stmt::Delete { table, key })
        }
        Token::Sign(Sign::Keep) => {
            let Keyed { table, key } = last_key(cursor)?;
            Ok(Stmt::Keep { table, key })
        }
        Token::Sign(Sign::Reply) => {
            let value = last_expr(cursor)?;
            Ok(Stmt::Reply { value })
        }
        Token::Sign(Sign::Abort) => {
            cursor.expect(Sign::Semicolon)?;
            Ok(Stmt::Abort)
        }
        _ => Err(unexpected(tokens)),
    }
}
