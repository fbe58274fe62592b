//! A set's text, and where its tables, programs and statements begin.
ghost use Rattle.std.specs.Prelude.{◌≡◌, ◌+◌, length, slice_get, IfNone, IfOk, IfSome};
ghost use Rattle.text_places.specs.Landmarks.{places_before, statements_ahead, HasNoProgram};
ghost use Rattle.text_places.specs.Landmarks.{HasNoStatement, HasNoTable, IsProgramPlace};
ghost use Rattle.text_places.specs.Landmarks.{IsStatementPlace, IsTablePlace};
ghost use Rattle.text_places.specs.Reading.{without_comments};
ghost use Rattle.text_places.specs.declared.landmark.Landmark.TheVariants.{Statement};

use crate::landmark::{Landmark, begun_at, numbered};
use crate::reading::without_comments;
use prog_text::Beginning;
use std::alloc::{AllocError, Global};
use std::marker::Model;

// Where the statements of a text begin, and how many of them begin ahead of each program.
#[derive(Drop)]
struct StatementPlaces {
    statements: Vec<usize>,
    ahead: Vec<usize>,
}

// Finds the statements of a text without comments.
fn statement_places(alloc: Global, text: &[u8]) -> Result<StatementPlaces, AllocError>
    ensures statements { IfOk result (λ places.
        places.statements.items ≡ places_before Statement text.now (length text.now)) }
    ensures ahead { IfOk result (λ places.
        places.ahead.items ≡ statements_ahead text.now (length text.now)) }
{
    let mut statements = Vec::new(alloc);
    let mut ahead = Vec::new(alloc);
    for place in 0..text.len() {
        let Some(beginning) = begun_at(text, place) else {
            continue;
        };
        match beginning {
            Beginning::Table => continue,
            Beginning::Program => ahead.push(statements.len())?,
            Beginning::Statement => statements.push(place)?,
        }
    }
    Ok(StatementPlaces { statements, ahead })
}

fn nth(numbers: &[usize], index: usize) -> Option<usize>
    ensures { result ≡ slice_get numbers.now index }
{
    numbers.get(index).copied()
}

// The place of a number, counted behind so many others.
fn nth_behind(places: &[usize], ahead: usize, number: usize) -> Option<usize>
    ensures { result ≡ slice_get places.now (ahead + number) }
{
    places.get(ahead.saturating_add(number)).copied()
}

/// The text of a set in which the places of its statements have been found.
#[derive(Drop)]
pub struct SetText<'a> {
    bytes: &'a [u8],
    plain: Vec<u8>,
    places: StatementPlaces,
}

impl<'a> Model for SetText<'a> {
    ghost use Rattle.std.specs.Prelude.{ℕ, ◌≡◌, List};
    ghost use Rattle.text_places.specs.Landmarks.{AreStatementPlaces};
    ghost use Rattle.text_places.specs.Reading.{without_comments};

    ghost Value = { List ℕ };

    ghost view = { λ t. t.bytes.now };

    ghost invariant = { λ t. (t.plain.items ≡ without_comments t.bytes.now)
        × AreStatementPlaces (without_comments t.bytes.now)
        t.places.statements.items t.places.ahead.items };
}

impl<'a> SetText<'a> {
    /// Finds the statements of a text.
    pub fn new(alloc: Global, bytes: &'a [u8]) -> Result<Self, AllocError>
        ensures { IfOk result (λ text. text ≡ bytes.now) }
    {
        let plain = without_comments(alloc, bytes)?;
        let places = statement_places(alloc, &plain)?;
        Ok(SetText {
            bytes,
            plain,
            places,
        })
    }

    pub fn bytes(&self) -> &'a [u8]
        ensures { result.now ≡ self.now }
    {
        self.bytes
    }

    /// The text with spaces for its comments.
    pub fn plain(&self) -> &[u8]
        ensures { result.now ≡ without_comments self.now }
    {
        self.plain.as_slice()
    }

    /// Where a table is declared.
    pub fn table_place(&self, table: usize) -> Option<usize>
        ensures found { IfSome result (IsTablePlace self.now table) }
        ensures none { IfNone result (HasNoTable self.now table) }
    {
        numbered(Landmark::Table, self.plain(), 0, table)
    }

    /// Where a program begins.
    pub fn program_place(&self, program: usize) -> Option<usize>
        ensures found { IfSome result (IsProgramPlace self.now program) }
        ensures none { IfNone result (HasNoProgram self.now program) }
    {
        numbered(Landmark::Program, self.plain(), 0, program)
    }

    /// Where a statement of a program begins.
    pub fn statement_place(&self, program: usize, statement: usize) -> Option<usize>
        ensures found { IfSome result (IsStatementPlace self.now program statement) }
        ensures none { IfNone result (HasNoStatement self.now program statement) }
    {
        match nth(self.places.ahead.as_slice(), program) {
            Some(ahead) => nth_behind(self.places.statements.as_slice(), ahead, statement),
            None => None,
        }
    }
}
