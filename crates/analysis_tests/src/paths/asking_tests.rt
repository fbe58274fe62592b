//! What accesses ask of one another, and how many questions there are.

use crate::dangers::{Place, places_of};
use crate::examples::{paths_of, wide_paths};
use example_sets::{KEPT_PAY, TRANSFER};
use prog_paths::{
    Gives, Kind, Mark, Path, Placed, Question, all_places, asks, asks_read_write, gives_by,
    is_too_large, mark_by, may_cover, may_touch, question_between, question_count,
};
use std::alloc::{AllocError, Global};
use std::process::Abort;
use std::test::Fail;

/// Kinds of two accesses, and whether the first may miss what the second changes.
const MISSED: [(Kind, Kind, bool); 6] = [
    (Kind::Reads, Kind::Writes, true),
    (Kind::Reads, Kind::Adds, true),
    (Kind::Reads, Kind::Keeps, false),
    (Kind::Lacks, Kind::Adds, true),
    (Kind::Sees, Kind::Adds, false),
    (Kind::Writes, Kind::Writes, false),
];

#[test]
fn looks_may_miss_changes(rt: HostRuntime) {
    for &(mine, theirs, missed) in MISSED.iter() {
        assert!(rt;
            asks_read_write(mine, theirs) == missed,
            "{mine:?} {theirs:?}"
        );
    }
}

/// Of the keep, the list and the put in a body whether they touch their cells, and whether each run
/// does.
const TOUCHING: [[bool; 2]; 3] = [[true, true], [false, false], [true, false]];

/// Asserts which accesses of the first path touch their cells.
fn check_touching(rt: &impl Abort, paths: &[Path]) {
    let path = paths.first().expect(rt, "a path");
    let accesses = path.accesses.as_slice();
    assert!(rt; accesses.len() == TOUCHING.len());
    for (access, wanted) in accesses.iter().zip(&TOUCHING) {
        assert!(rt; [may_touch(access), may_cover(access)] == *wanted);
    }
}

#[test]
fn what_stands_in_a_body_touches_and_is_not_sure(rt: HostRuntime) -> Result<(), Fail> {
    let paths = paths_of(rt.alloc(), KEPT_PAY)?;
    check_touching(&rt, &paths);
    drop(paths);
    Ok(())
}

/// Kinds of a question, whether its accesses may meet, and whether it counts as exposed; whether it
/// gives an edge, one back, and a vulnerable one.
const MARKS: [(Kind, Kind, bool, bool, [bool; 3]); 6] = [
    (Kind::Reads, Kind::Writes, true, true, [true, true, true]),
    (Kind::Reads, Kind::Writes, true, false, [true, true, false]),
    (Kind::Reads, Kind::Writes, false, false, [false; 3]),
    (Kind::Writes, Kind::Writes, true, true, [true, true, false]),
    (Kind::Lacks, Kind::Adds, true, true, [true, false, true]),
    (Kind::Sees, Kind::Adds, true, true, [false, true, false]),
];

/// What a question between the nodes 4 and 2 gives.
fn mark_of(mine: Kind, theirs: Kind, meets: bool, exposed: bool) -> Mark {
    let question = Question {
        x: 4,
        a: 0,
        y: 2,
        b: 1,
        mine,
        theirs,
    };
    mark_by(question, meets, exposed)
}

/// Whether there is an edge from the first, one back, a vulnerable one.
fn edges_of(gives: Gives) -> [bool; 3] {
    [gives.forward, gives.backward, gives.vulnerable]
}

#[test]
fn questions_give_edges_by_their_kinds(rt: HostRuntime) {
    for &(mine, theirs, meets, exposed, edges) in MARKS.iter() {
        let gives = gives_by(mine, theirs, meets, exposed);
        assert!(rt; edges_of(gives) == edges, "{mine:?} {theirs:?}");
        let mark = mark_of(mine, theirs, meets, exposed);
        assert!(rt;
            (mark.x, mark.y, edges_of(mark.gives)) == (4, 2, edges),
            "{mine:?} {theirs:?}"
        );
    }
}

/// The places of two accesses of which the first asks of the second.
type Asked = (Place, Place);

/// What an access asks of others.
fn push_asked(asked: &mut Vec<Asked>, first: &Placed, places: &[Placed]) -> Result<(), AllocError> {
    for second in places {
        if asks(first, second) {
            asked.push(places_of(&question_between(first, second)))?;
        }
    }
    Ok(())
}

/// What the accesses of paths ask of one another.
fn all_asked(alloc: Global, paths: &[Path]) -> Result<Vec<Asked>, AllocError> {
    let places = all_places(alloc, paths)?;
    let mut asked = Vec::new(alloc);
    for first in &places {
        push_asked(&mut asked, first, &places)?;
    }
    Ok(asked)
}

/// Each look of the transfer set may miss both puts, and each put meets those from itself on.
const TRANSFERS: [Asked; 7] = [
    ((0, 0), (0, 1)),
    ((0, 0), (0, 3)),
    ((0, 1), (0, 1)),
    ((0, 1), (0, 3)),
    ((0, 2), (0, 1)),
    ((0, 2), (0, 3)),
    ((0, 3), (0, 3)),
];

fn check_asked(rt: &impl Abort, alloc: Global, paths: &[Path]) {
    let asked = all_asked(alloc, paths).expect(rt, "memory");
    assert!(rt; asked.as_slice() == &TRANSFERS[..]);
    assert!(rt; (question_count(paths), is_too_large(paths)) == (7, false));
}

#[test]
fn looks_and_puts_ask(rt: HostRuntime) -> Result<(), Fail> {
    let paths = paths_of(rt.alloc(), TRANSFER)?;
    check_asked(&rt, rt.alloc(), &paths);
    drop(paths);
    Ok(())
}

// 1,024 looks may miss as many puts: a count ends at one above a million.
#[test]
fn too_many_questions_are_not_counted_to_their_end(rt: HostRuntime) -> Result<(), Fail> {
    let paths = wide_paths(rt.alloc(), 2)?;
    let counted = (question_count(&paths), is_too_large(&paths));
    drop(paths);
    assert!(rt; counted == (1_000_001, true));
    Ok(())
}
