//! Tables, programs, and the whole set.

ghost use Rattle.std.specs.Prelude.{[], map};
ghost use Rattle.prog_tree.specs.Tree.{program_tree, draft_tree};
ghost use Rattle.prog_text.specs.Cursor.{Reads, itself};
ghost use Rattle.prog_text.specs.Reading.{Gives, arity_at, table_at, tables_at, names_at};
ghost use Rattle.prog_text.specs.Reading.{params_at, program_at, programs_at, set_at};

use crate::lexing::token::{Sign, Token};
use crate::reading::blocks::block;
use crate::reading::cursor::TokenCursor;
use crate::reading::read_error::{ReadError, unexpected};
use prog_tree::{Arity, Draft, Name, Program, TableDecl};
use std::alloc::Global;

// The number of a table's key columns: 1 or 2.
#[tactic(auto, unfolding(crate::specs::Reading::arity_at))]
fn arity(cursor: &mut TokenCursor<'_>) -> Result<Arity, ReadError>
    ensures { Reads itself arity_at result cursor.old cursor.new }
{
    let tokens = cursor.tokens;
    let Token::Number(number) = cursor.next()? else {
        return Err(unexpected(tokens));
    };
    match number.literal() {
        1 => Ok(Arity::One),
        2 => Ok(Arity::Two),
        _ => Err(unexpected(tokens)),
    }
}

// Behind the word `table`.
#[tactic(auto, unfolding(crate::specs::Reading::table_at))]
fn table(cursor: &mut TokenCursor<'_>) -> Result<TableDecl, ReadError>
    ensures { Reads itself table_at result cursor.old cursor.new }
{
    let name = cursor.name()?;
    let arity = arity(cursor)?;
    let grow = cursor.eat(Sign::Grow);
    cursor.expect(Sign::Semicolon)?;
    Ok(TableDecl { name, arity, grow })
}

// The tables at the front of a set.
#[tactic(auto, unfolding(crate::specs::Reading::many_from))]
fn read_tables(cursor: &mut TokenCursor<'_>) -> Result<Vec<TableDecl>, ReadError>
    ensures { Gives (λ tables. (tables.items, cursor.new.tokens.now)) result
        (tables_at cursor.old.tokens.now) }
{
    let mut tables = Vec::new(cursor.alloc);
    while cursor.eat(Sign::Table) {
        tables.push(table(cursor)?)?;
    }
    Ok(tables)
}

// Names with a comma between them.
#[tactic(auto, using(crate::proofs::Viewed::none_further), unfolding(crate::specs::Reading::separated_at, crate::specs::Reading::many_from))]
fn names(cursor: &mut TokenCursor<'_>) -> Result<Vec<Name>, ReadError>
    ensures { Reads (λ names. names.items) names_at result cursor.old cursor.new }
{
    let mut names = Vec::new(cursor.alloc);
    names.push(cursor.name()?)?;
    while cursor.eat(Sign::Comma) {
        names.push(cursor.name()?)?;
    }
    Ok(names)
}

// The parameters of a program and the closing bracket.
#[tactic(auto, unfolding(crate::specs::Reading::params_at))]
fn params(cursor: &mut TokenCursor<'_>) -> Result<Vec<Name>, ReadError>
    ensures { Reads (λ names. names.items) params_at result cursor.old cursor.new }
{
    if cursor.eat(Sign::Close) {
        return Ok(Vec::new(cursor.alloc));
    }
    let names = names(cursor)?;
    cursor.expect(Sign::Close)?;
    Ok(names)
}

// Behind the word `program`.
#[tactic(auto, unfolding(crate::specs::Reading::program_at))]
fn program(cursor: &mut TokenCursor<'_>) -> Result<Program, ReadError>
    ensures { Reads program_tree program_at result cursor.old cursor.new }
{
    let name = cursor.name()?;
    cursor.expect(Sign::Open)?;
    let params = params(cursor)?;
    let body = block(cursor)?;
    Ok(Program { name, params, body })
}

// The programs at the end of a set.
#[tactic(auto, using(crate::proofs::Viewed::none_further), unfolding(crate::specs::Reading::many_from))]
fn read_programs(cursor: &mut TokenCursor<'_>) -> Result<Vec<Program>, ReadError>
    ensures { Gives (λ programs. (map program_tree programs.items, cursor.new.tokens.now)) result
        (programs_at cursor.old.tokens.now) }
{
    let mut programs = Vec::new(cursor.alloc);
    while cursor.eat(Sign::Program) {
        programs.push(program(cursor)?)?;
    }
    Ok(programs)
}

/// A whole set.
#[tactic(auto, unfolding(crate::specs::Reading::set_at))]
pub fn set(alloc: Global, tokens: &[Token<'_>]) -> Result<Draft, ReadError>
    ensures { Gives (λ draft. (draft_tree draft, [])) result (set_at tokens.now) }
{
    let mut cursor = TokenCursor { alloc, tokens };
    let tables = read_tables(&mut cursor)?;
    let programs = read_programs(&mut cursor)?;
    cursor.end()?;
    Ok(Draft { tables, programs })
}
