//! What a question gives, and how it is entered into square tables.
ghost use Rattle.std.specs.Prelude.{◌≡◌, IfOk};
ghost use Rattle.order_facts.specs.Square.{Enters, IsEmptySquare};
ghost use Rattle.prog_paths.specs.Marks.{gives_by, mark_by, gives_edge, gives_vulnerable};
ghost use Rattle.prog_paths.specs.Marks.{EntersMark};

use crate::accesses::questions::{Question, asks_read_write, asks_write_read, both_write};
use order_facts::Square;
use prog_check::Kind;
use std::alloc::{AllocError, Global};

/// What two accesses give between their nodes: an edge from the first node to the second, one back,
/// a vulnerable one.
#[derive(Clone, Copy)]
pub struct Gives {
    pub forward: bool,
    pub backward: bool,
    pub vulnerable: bool,
}

/// What accesses of two kinds give, by whether they may meet and whether they count as exposed.
#[inline]
pub fn gives_by(mine: Kind, theirs: Kind, meets: bool, exposed: bool) -> Gives
    ensures { result ≡ gives_by mine theirs meets exposed }
{
    Gives {
        forward: meets && (asks_read_write(mine, theirs) || both_write(mine, theirs)),
        backward: meets && (asks_write_read(mine, theirs) || both_write(mine, theirs)),
        vulnerable: exposed && asks_read_write(mine, theirs),
    }
}

/// What a question gives between its nodes `x` and `y`.
#[derive(Clone, Copy)]
pub struct Mark {
    pub x: usize,
    pub y: usize,
    pub gives: Gives,
}

/// What a question gives, by whether its accesses may meet and whether it counts as exposed.
#[inline]
pub fn mark_by(question: Question, meets: bool, exposed: bool) -> Mark
    ensures { result ≡ mark_by question meets exposed }
{
    Mark {
        x: question.x,
        y: question.y,
        gives: gives_by(question.mine, question.theirs, meets, exposed),
    }
}

// Enters the edges of a mark.
#[inline]
fn enter_edges(edges: &mut Square, mark: Mark)
    ensures { Enters edges.old edges.new (λ x y. gives_edge x y mark) }
{
    if mark.x < edges.size() && mark.y < edges.size() {
        if mark.gives.forward {
            edges.raise(mark.x, mark.y);
        }
        if mark.gives.backward {
            edges.raise(mark.y, mark.x);
        }
    }
}

// Enters the vulnerable edge of a mark.
#[inline]
fn enter_vulnerable(vulnerable: &mut Square, mark: Mark)
    ensures { Enters vulnerable.old vulnerable.new (λ x y. gives_vulnerable x y mark) }
{
    if mark.gives.vulnerable && mark.x < vulnerable.size() && mark.y < vulnerable.size() {
        vulnerable.raise(mark.x, mark.y);
    }
}

/// Which nodes are joined by an edge, and which by a vulnerable one.
#[derive(Drop)]
pub struct EdgeTables {
    pub edges: Square,
    pub vulnerable: Square,
}

impl EdgeTables {
    /// Tables of so many nodes that join none of them.
    pub fn new(alloc: Global, nodes: usize) -> Result<EdgeTables, AllocError>
        ensures edges { IfOk result (λ tables. IsEmptySquare tables.edges nodes) }
        ensures vulnerable { IfOk result (λ tables. IsEmptySquare tables.vulnerable nodes) }
    {
        Ok(EdgeTables {
            edges: Square::new(alloc, nodes)?,
            vulnerable: Square::new(alloc, nodes)?,
        })
    }

    /// Enters what a question gives.
    #[inline]
    pub fn enter(&mut self, mark: Mark)
        ensures { EntersMark self.old self.new mark }
    {
        enter_edges(&mut self.edges, mark);
        enter_vulnerable(&mut self.vulnerable, mark);
    }
}
