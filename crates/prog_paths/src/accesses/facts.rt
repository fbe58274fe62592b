//! The facts of a question.
ghost use Rattle.std.specs.Prelude.{◌≡◌, ◌∷◌, [], IfOk};
ghost use Rattle.prog_paths.specs.Kinds.{option_items};
ghost use Rattle.prog_paths.specs.Facts.{mine_node, their_node, column_facts, column_or_zero};
ghost use Rattle.prog_paths.specs.Facts.{question_facts};
ghost use Rattle.prog_paths.specs.Shown.{second_terms};

use order_facts::{Closed, Fact, Node};
use prog_check::{Access, Column, Term};
use std::alloc::{AllocError, Global};
use std::marker::Model;

/// What a fact calls a term of the first access.
pub fn mine_node(term: Term) -> Node
    ensures { result ≡ mine_node term }
{
    match term {
        Term::Param(number) => Node::Mine(number),
        Term::Literal(number) => Node::Number(number),
        Term::Unknown(number) => Node::MineUnknown(number),
    }
}

/// What a fact calls a term of the second access.
pub fn their_node(term: Term) -> Node
    ensures { result ≡ their_node term }
{
    match term {
        Term::Param(number) => Node::Theirs(number),
        Term::Literal(number) => Node::Number(number),
        Term::Unknown(number) => Node::TheirsUnknown(number),
    }
}

// The facts of one column.
fn column_facts(mine: Column, theirs: Column) -> (Fact, Fact)
    ensures { result.0 ∷ result.1 ∷ [] ≡ column_facts mine theirs }
{
    let value = their_node(theirs.low);
    let above = Fact {
        lo: mine_node(mine.low),
        hi: value,
    };
    let below = Fact {
        lo: value,
        hi: mine_node(mine.high),
    };
    (above, below)
}

/// What stands for a second column that a table doesn't have.
pub fn column_or_zero(column: Option<Column>) -> Column
    ensures { result ≡ column_or_zero column }
{
    let zero = Term::Literal(0);
    column.unwrap_or(Column {
        low: zero,
        high: zero,
    })
}

/// The terms of the second columns of two cells, where their table has one.
pub fn second_terms(mine: Option<Column>, theirs: Option<Column>) -> Option<(Term, Term)>
    ensures { option_items result ≡ second_terms mine theirs }
{
    if mine.is_some() || theirs.is_some() {
        Some((column_or_zero(mine).low, column_or_zero(theirs).low))
    } else {
        None
    }
}

// Two facts for each column.
#[derive(Drop)]
enum ColumnFacts {
    OneColumn([Fact; 2]),
    TwoColumns([Fact; 4]),
}

/// The facts of a question, which take no memory.
#[derive(Drop)]
pub struct QuestionFacts {
    held: ColumnFacts,
}

impl Model for QuestionFacts {
    ghost use Rattle.std.specs.Prelude.{List};
    ghost use Rattle.order_facts.specs.declared.steps.Fact.{Fact};
    ghost use Rattle.prog_paths.specs.Facts.{facts_held};

    ghost Value = { List Fact };

    ghost view = { λ q. facts_held q.held };
}

impl QuestionFacts {
    pub fn as_slice(&self) -> &[Fact]
        ensures { result.now ≡ self.now }
    {
        match &self.held {
            ColumnFacts::OneColumn(facts) => facts.as_slice(),
            ColumnFacts::TwoColumns(facts) => facts.as_slice(),
        }
    }
}

// The facts of two columns.
fn of_both(first: (Fact, Fact), second: (Fact, Fact)) -> QuestionFacts
    ensures { result ≡ first.0 ∷ first.1 ∷ second.0 ∷ second.1 ∷ [] }
{
    QuestionFacts {
        held: ColumnFacts::TwoColumns([first.0, first.1, second.0, second.1]),
    }
}

/// The facts of the question of an access against a single cell. Assignments meet them just where
/// the two accesses meet, as `law_of_facts` says.
pub fn question_facts(mine: &Access, theirs: &Access) -> QuestionFacts
    ensures { result ≡ question_facts mine.now theirs.now }
{
    let first = column_facts(mine.first, theirs.first);
    match (mine.second, theirs.second) {
        (None, None) => QuestionFacts {
            held: ColumnFacts::OneColumn([first.0, first.1]),
        },
        (None, Some(theirs)) => of_both(first, column_facts(column_or_zero(None), theirs)),
        (Some(mine), theirs) => of_both(first, column_facts(mine, column_or_zero(theirs))),
    }
}

/// What the facts of a question entail.
pub fn closed_facts(alloc: Global, mine: &Access, theirs: &Access) -> Result<Closed, AllocError>
    ensures { IfOk result (λ closed. closed ≡ question_facts mine.now theirs.now) }
{
    let facts = question_facts(mine, theirs);
    Closed::of(alloc, facts.as_slice())
}
