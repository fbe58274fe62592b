//! What two accesses ask, by their kinds and their places.
ghost use Rattle.std.specs.Prelude.{◌≡◌, ◌↔◌, IsTrue};
ghost use Rattle.prog_paths.specs.Questions.{asks_read_write, asks_write_read, both_write};
ghost use Rattle.prog_paths.specs.Questions.{kinds_depend, is_in_order, asks, question_between};
ghost use Rattle.prog_paths.specs.Meeting.{MayTouch, MayCover};
ghost use Rattle.prog_paths.specs.StaticGraph.{AsksReadWrite};

use crate::accesses::places::Placed;
use prog_check::{Access, Kind};

/// Access `a` of node `x` against access `b` of node `y`, with their kinds.
#[derive(Clone, Copy, Debug, PartialEq, Eq)]
pub struct Question {
    pub x: usize,
    pub a: usize,
    pub y: usize,
    pub b: usize,
    pub mine: Kind,
    pub theirs: Kind,
}

/// Whether the first may miss what the second changes.
pub fn asks_read_write(mine: Kind, theirs: Kind) -> bool
    ensures test { result ≡ asks_read_write mine theirs }
    ensures asks { IsTrue result ↔ AsksReadWrite mine theirs }
{
    match mine {
        Kind::Reads => matches!(theirs, Kind::Writes | Kind::Adds),
        Kind::Lacks => matches!(theirs, Kind::Adds),
        _ => false,
    }
}

/// Whether the first may see what the second changes.
pub fn asks_write_read(mine: Kind, theirs: Kind) -> bool
    ensures { result ≡ asks_write_read mine theirs }
{
    match mine {
        Kind::Reads => matches!(theirs, Kind::Writes | Kind::Adds),
        Kind::Sees => matches!(theirs, Kind::Adds),
        _ => false,
    }
}

/// Whether both change plain rows.
pub fn both_write(mine: Kind, theirs: Kind) -> bool
    ensures { result ≡ both_write mine theirs }
{
    matches!(mine, Kind::Writes) && matches!(theirs, Kind::Writes)
}

// Whether the second changes what the first depends on.
fn kinds_depend(mine: Kind, theirs: Kind) -> bool
    ensures { result ≡ kinds_depend mine theirs }
{
    asks_read_write(mine, theirs) || asks_write_read(mine, theirs)
}

fn is_in_order(first: &Placed, second: &Placed) -> bool
    ensures { result ≡ is_in_order first.now second.now }
{
    first.node < second.node || (first.node == second.node && first.number <= second.number)
}

/// Whether an access asks something of another.
#[inline]
pub fn asks(first: &Placed, second: &Placed) -> bool
    ensures { result ≡ asks first.now second.now }
{
    let mine = first.access.kind;
    let theirs = second.access.kind;
    first.access.table == second.access.table
        && (kinds_depend(mine, theirs) || (both_write(mine, theirs) && is_in_order(first, second)))
}

/// The question of an access against another.
#[inline]
pub fn question_between(first: &Placed, second: &Placed) -> Question
    ensures { result ≡ question_between first.now second.now }
{
    Question {
        x: first.node,
        a: first.number,
        y: second.node,
        b: second.number,
        mine: first.access.kind,
        theirs: second.access.kind,
    }
}

/// Whether the access changes or keeps its cell.
pub fn may_touch(access: &Access) -> bool
    ensures { IsTrue result ↔ MayTouch access.now }
{
    matches!(access.kind, Kind::Writes | Kind::Adds | Kind::Keeps)
}

/// Whether each run that follows the access's path changes or keeps its cell.
pub fn may_cover(access: &Access) -> bool
    ensures { IsTrue result ↔ MayCover access.now }
{
    access.sure && may_touch(access)
}
