//! Tests.

ghost use Rattle.prog_tree.specs.Tree.{relation_sign, comparison_tree, clause_tree, test_tree};
ghost use Rattle.prog_text.specs.Cursor.{Reads};
ghost use Rattle.prog_text.specs.Reading.{relation_at, comparison_at, conjunction_at, test_at};

use crate::lexing::token::{Sign, Token};
use crate::reading::cursor::TokenCursor;
use crate::reading::expressions::expr;
use crate::reading::read_error::{ReadError, unexpected};
use prog_tree::{Clause, Comparison, Relation, Test};

// A sign that compares.
fn relation(cursor: &mut TokenCursor<'_>) -> Result<Relation, ReadError>
    ensures { Reads relation_sign relation_at result cursor.old cursor.new }
{
    let tokens = cursor.tokens;
    match cursor.next()? {
        Token::Sign(Sign::Less) => Ok(Relation::Less),
        Token::Sign(Sign::LessEqual) => Ok(Relation::LessEqual),
        Token::Sign(Sign::Greater) => Ok(Relation::Greater),
        Token::Sign(Sign::GreaterEqual) => Ok(Relation::GreaterEqual),
        Token::Sign(Sign::EqualEqual) => Ok(Relation::Equal),
        Token::Sign(Sign::NotEqual) => Ok(Relation::NotEqual),
        _ => Err(unexpected(tokens)),
    }
}

// Two expressions with a sign between them that compares; a `not` in front negates it.
#[tactic(auto, unfolding(crate::specs::Reading::comparison_at, crate::specs::Reading::compared_at))]
fn comparison(cursor: &mut TokenCursor<'_>) -> Result<Comparison, ReadError>
    ensures { Reads comparison_tree comparison_at result cursor.old cursor.new }
{
    let negated = cursor.eat(Sign::Not);
    let left = expr(cursor)?;
    let relation = relation(cursor)?;
    let right = expr(cursor)?;
    Ok(Comparison {
        negated,
        left,
        relation,
        right,
    })
}

// Comparisons with `and` between them.
#[tactic(auto, unfolding(crate::specs::Reading::separated_at, crate::specs::Reading::many_from))]
fn conjunction(cursor: &mut TokenCursor<'_>) -> Result<Clause, ReadError>
    ensures { Reads clause_tree conjunction_at result cursor.old cursor.new }
{
    let mut all = Vec::new(cursor.alloc);
    all.push(comparison(cursor)?)?;
    while cursor.eat(Sign::And) {
        all.push(comparison(cursor)?)?;
    }
    Ok(Clause { all })
}

/// A test: conjunctions with `or` between them.
#[tactic(auto, unfolding(crate::specs::Reading::separated_at, crate::specs::Reading::many_from))]
pub fn test(cursor: &mut TokenCursor<'_>) -> Result<Test, ReadError>
    ensures { Reads test_tree test_at result cursor.old cursor.new }
{
    let mut any = Vec::new(cursor.alloc);
    any.push(conjunction(cursor)?)?;
    while cursor.eat(Sign::Or) {
        any.push(conjunction(cursor)?)?;
    }
    Ok(Test { any })
}
