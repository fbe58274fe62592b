//! The columns of a statement, as far as the text tells them.
ghost use Rattle.std.specs.Prelude.{◌≡◌, ◌+◌, ◌<◌, IfSome, Some, if◌then◌else◌};
ghost use Rattle.std.specs.Option.{option_map};
ghost use Rattle.prog_tree.specs.Tree.{expr_tree, key_tree, range_tree, stmt_tree};
ghost use Rattle.prog_check.specs.Accesses.{is_unknown, single, term_of, key_columns};
ghost use Rattle.prog_check.specs.Accesses.{range_columns};
ghost use Rattle.prog_check.specs.Names.{place_among};
ghost use Rattle.prog_paths.specs.Columns.{columns_with};
ghost use Rattle.prog_paths.specs.Trails.{columns_by};

use crate::limits::MAX_UNKNOWNS;
use prog_check::{Column, Term};
use prog_tree::{Expr, Key, Name, Range, Stmt};

/// The columns of a key or a range, and the number of the next unknown behind them.
#[derive(Clone, Copy)]
pub struct Columns {
    pub first: Column,
    pub second: Option<Column>,
    pub next: usize,
}

fn place_of(params: &[Name], name: &Name) -> Option<usize>
    ensures { result ≡ place_among params.now name.now }
{
    params.iter().position(|param| name.is_same(param))
}

// A lone number and a lone parameter are what they are. Anything else is an unknown of this
// number.
fn term(params: &[Name], unknown: usize, expr: &Expr) -> Term
    ensures { result ≡ term_of params.now unknown (expr_tree expr.now) }
{
    match expr {
        Expr::Literal(number) => Term::Literal(*number),
        Expr::Name(name) => {
            match place_of(params, name) {
                Some(place) => Term::Param(place),
                None => Term::Unknown(unknown),
            }
        }
        _ => Term::Unknown(unknown),
    }
}

fn next_behind(unknown: usize, term: Term) -> usize
    requires { unknown < MAX_UNKNOWNS + 2 }
    ensures { result ≡ (if is_unknown term then unknown + 1 else unknown) }
{
    match term {
        Term::Unknown(_) => unknown + 1,
        _ => unknown,
    }
}

fn single(term: Term) -> Column
    ensures { result ≡ single term }
{
    Column {
        low: term,
        high: term,
    }
}

fn columns_of_key(params: &[Name], unknown: usize, key: &Key) -> Columns
    requires { unknown < MAX_UNKNOWNS }
    ensures { columns_with result ≡ key_columns params.now unknown (key_tree key.now) }
{
    match key {
        Key::One(first) => {
            let first = term(params, unknown, first);
            Columns {
                first: single(first),
                second: None,
                next: next_behind(unknown, first),
            }
        }
        Key::Two(first, second) => {
            let first = term(params, unknown, first);
            let behind = next_behind(unknown, first);
            let second = term(params, behind, second);
            Columns {
                first: single(first),
                second: Some(single(second)),
                next: next_behind(behind, second),
            }
        }
    }
}

fn columns_of_range(params: &[Name], unknown: usize, range: &Range) -> Columns
    requires { unknown < MAX_UNKNOWNS }
    ensures { columns_with result ≡ range_columns params.now unknown (range_tree range.now) }
{
    match range {
        Range::One { low, high } => {
            let low = term(params, unknown, low);
            let behind = next_behind(unknown, low);
            let high = term(params, behind, high);
            Columns {
                first: Column { low, high },
                second: None,
                next: next_behind(behind, high),
            }
        }
        Range::Two { first, low, high } => {
            let first = term(params, unknown, first);
            let behind_first = next_behind(unknown, first);
            let low = term(params, behind_first, low);
            let behind = next_behind(behind_first, low);
            let high = term(params, behind, high);
            Columns {
                first: single(first),
                second: Some(Column { low, high }),
                next: next_behind(behind, high),
            }
        }
    }
}

/// The columns of a statement's cells, or none where it has no table.
pub fn columns_of(params: &[Name], unknown: usize, stmt: &Stmt) -> Option<Columns>
    requires { unknown < MAX_UNKNOWNS }
    ensures { option_map columns_with result ≡ columns_by params.now unknown (stmt_tree stmt.now) }
{
    match stmt {
        Stmt::Get { key, .. }
        | Stmt::Need { key, .. }
        | Stmt::Lacks { key, .. }
        | Stmt::Put { key, .. }
        | Stmt::Insert { key, .. }
        | Stmt::Delete { key, .. }
        | Stmt::Keep { key, .. } => Some(columns_of_key(params, unknown, key)),
        Stmt::Count { range, .. } | Stmt::Sum { range, .. } => {
            Some(columns_of_range(params, unknown, range))
        }
        Stmt::Each { listing, .. } => Some(columns_of_range(params, unknown, &listing.range)),
        Stmt::Bind { .. } | Stmt::Branch { .. } | Stmt::Reply { .. } | Stmt::Abort => None,
    }
}
