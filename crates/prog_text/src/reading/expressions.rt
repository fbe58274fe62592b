//! Expressions.

ghost use Rattle.std.specs.Prelude.{◌≡◌, IfOk};
ghost use Rattle.prog_tree.specs.Syntax.{Plus, Minus, Times};
ghost use Rattle.prog_tree.specs.Tree.{expr_tree};
ghost use Rattle.prog_text.specs.Cursor.{Reads};
ghost use Rattle.prog_text.specs.Reading.{negative_at, factor_at, product_at, expr_at};

use crate::lexing::token::{Sign, Token};
use crate::reading::cursor::TokenCursor;
use crate::reading::read_error::{ReadError, unexpected};
use prog_tree::{Expr, Name};
use std::alloc::{AllocError, Global};

fn times(alloc: Global, left: Expr, right: Expr) -> Result<Expr, AllocError>
    ensures { IfOk result (λ e. expr_tree e ≡ Times (expr_tree left) (expr_tree right)) }
{
    Ok(Expr::Times(Box::new(alloc, left)?, Box::new(alloc, right)?))
}

fn plus(alloc: Global, left: Expr, right: Expr) -> Result<Expr, AllocError>
    ensures { IfOk result (λ e. expr_tree e ≡ Plus (expr_tree left) (expr_tree right)) }
{
    Ok(Expr::Plus(Box::new(alloc, left)?, Box::new(alloc, right)?))
}

fn minus(alloc: Global, left: Expr, right: Expr) -> Result<Expr, AllocError>
    ensures { IfOk result (λ e. expr_tree e ≡ Minus (expr_tree left) (expr_tree right)) }
{
    Ok(Expr::Minus(Box::new(alloc, left)?, Box::new(alloc, right)?))
}

// The number after a minus sign.
fn negative_literal(cursor: &mut TokenCursor<'_>) -> Result<Expr, ReadError>
    ensures { Reads expr_tree negative_at result cursor.old cursor.new }
{
    let tokens = cursor.tokens;
    match cursor.next()? {
        Token::Number(number) => Ok(Expr::Literal(number.negated())),
        _ => Err(unexpected(tokens)),
    }
}

#[cycle(expr)]
#[tactic(auto, unfolding(crate::specs::Reading::factor_at))]
fn factor(cursor: &mut TokenCursor<'_>) -> Result<Expr, ReadError>
    ensures { Reads expr_tree (factor_at expr_at) result cursor.old cursor.new }
{
    let tokens = cursor.tokens;
    match cursor.next()? {
        Token::Number(number) => Ok(Expr::Literal(number.literal())),
        Token::Sign(Sign::Minus) => negative_literal(cursor),
        Token::Sign(Sign::Least) => Ok(Expr::Literal(i64::MIN)),
        Token::Sign(Sign::Greatest) => Ok(Expr::Literal(i64::MAX)),
        Token::Name(word) => Ok(Expr::Name(Name::new(cursor.alloc, word.as_str())?)),
        Token::Sign(Sign::Open) => {
            let inner = expr(cursor)?;
            cursor.expect(Sign::Close)?;
            Ok(inner)
        }
        _ => Err(unexpected(tokens)),
    }
}

// Factors with `*` between them.
#[cycle(expr)]
#[tactic(auto, unfolding(crate::specs::Reading::product_at, crate::specs::Reading::product_from))]
fn product(cursor: &mut TokenCursor<'_>) -> Result<Expr, ReadError>
    ensures { Reads expr_tree (product_at expr_at) result cursor.old cursor.new }
{
    let mut left = factor(cursor)?;
    while cursor.eat(Sign::Times) {
        let right = factor(cursor)?;
        left = times(cursor.alloc, left, right)?;
    }
    Ok(left)
}

/// An expression. Each bracket in it is one call deeper; `too_deep` lets `MAX_BRACKETS` through.
#[cycle(expr)]
#[tactic(auto, unfolding(crate::specs::Reading::sum_at, crate::specs::Reading::sum_from))]
pub fn expr(cursor: &mut TokenCursor<'_>) -> Result<Expr, ReadError>
    ensures { Reads expr_tree expr_at result cursor.old cursor.new }
{
    let mut left = product(cursor)?;
    loop {
        if cursor.eat(Sign::Plus) {
            let right = product(cursor)?;
            left = plus(cursor.alloc, left, right)?;
        } else if cursor.eat(Sign::Minus) {
            let right = product(cursor)?;
            left = minus(cursor.alloc, left, right)?;
        } else {
            return Ok(left);
        }
    }
}
