//! The facts of questions.

use crate::dangers::Place;
use crate::examples::paths_of;
use example_sets::{LEDGER, MOVE, SMALL_BANK, TRANSFER};
use order_facts::{Closed, Fact, Node};
use prog_paths::{
    Access, Changers, Column, Path, Placed, Term, all_places, closed_facts, column_or_zero,
    least_cover, mine_node, program_places, question_facts, second_terms, their_node,
};
use std::alloc::Global;
use std::process::Abort;
use std::test::Fail;

const MINE: Node = Node::Mine(0);

/// A question of a set between two accesses, each by its path and its number there, and what its
/// facts say.
struct Example {
    text: &'static str,
    mine: Place,
    theirs: Place,
    is_consistent: bool,
    entailed: &'static [(Node, Node)],
    left_open: &'static [(Node, Node)],
}

/// The accesses of the path of a number.
fn accesses_of<'a>(rt: &impl Abort, paths: &'a [Path], node: usize) -> &'a [Access] {
    let path = paths.get(node).expect(rt, "the path is there");
    path.accesses.as_slice()
}

fn access_at<'a>(rt: &impl Abort, paths: &'a [Path], place: Place) -> &'a Access {
    let accesses = accesses_of(rt, paths, place.0);
    accesses.get(place.1).expect(rt, "the access is there")
}

/// The facts of the question between two accesses, closed.
fn closed(rt: &impl Abort, alloc: Global, paths: &[Path], mine: Place, theirs: Place) -> Closed {
    let mine = access_at(rt, paths, mine);
    let theirs = access_at(rt, paths, theirs);
    closed_facts(alloc, mine, theirs).expect(rt, "memory")
}

fn check_all(rt: &impl Abort, facts: &Closed, pairs: &[(Node, Node)], are_entailed: bool) {
    for (low, high) in pairs {
        assert!(rt; facts.entails(*low, *high) == are_entailed);
    }
}

/// Asserts what the facts of an example say.
fn compare(rt: &impl Abort, facts: &Closed, example: &Example) {
    assert!(rt; facts.consistent() == example.is_consistent);
    check_all(rt, facts, example.entailed, true);
    check_all(rt, facts, example.left_open, false);
}

fn check(rt: &impl Abort, alloc: Global, example: &Example) -> Result<(), Fail> {
    let paths = paths_of(alloc, example.text)?;
    let facts = closed(rt, alloc, &paths, example.mine, example.theirs);
    compare(rt, &facts, example);
    drop(facts);
    drop(paths);
    Ok(())
}

const EQUAL: Example = Example {
    text: TRANSFER,
    mine: (0, 0),
    theirs: (0, 3),
    is_consistent: true,
    entailed: &[(MINE, Node::Theirs(1)), (Node::Theirs(1), MINE)],
    left_open: &[(MINE, Node::Theirs(0))],
};

#[test]
fn equal_parameters_are_entailed_both_ways(rt: HostRuntime) -> Result<(), Fail> {
    check(&rt, rt.alloc(), &EQUAL)
}

const RANGES: &str = "\
table t 1;
program Some(a, b) { let n = count t[a..5]; put t[b] = n; }
program Seven() { put t[7] = 1; }
program Low(a) { let n = count t[2..a]; }
";

const WITHIN: Example = Example {
    text: RANGES,
    mine: (0, 0),
    theirs: (0, 1),
    is_consistent: true,
    entailed: &[
        (MINE, Node::Theirs(1)),
        (Node::Theirs(1), Node::Number(5)),
        (MINE, Node::Number(5)),
    ],
    left_open: &[(Node::Theirs(1), MINE)],
};

const ABOVE: Example = Example {
    text: RANGES,
    mine: (2, 0),
    theirs: (1, 0),
    is_consistent: true,
    entailed: &[(Node::Number(7), MINE)],
    left_open: &[],
};

#[test]
fn a_range_puts_the_cell_between_its_ends(rt: HostRuntime) -> Result<(), Fail> {
    check(&rt, rt.alloc(), &WITHIN)?;
    check(&rt, rt.alloc(), &ABOVE)
}

const BEHIND: Example = Example {
    text: RANGES,
    mine: (0, 0),
    theirs: (1, 0),
    is_consistent: false,
    entailed: &[],
    left_open: &[],
};

#[test]
fn a_number_behind_a_range_is_never_met(rt: HostRuntime) -> Result<(), Fail> {
    check(&rt, rt.alloc(), &BEHIND)
}

const DAY: Example = Example {
    text: LEDGER,
    mine: (2, 0),
    theirs: (0, 1),
    is_consistent: true,
    entailed: &[(MINE, Node::Theirs(0)), (Node::Theirs(0), MINE)],
    left_open: &[(MINE, Node::Theirs(1)), (Node::Theirs(1), Node::Theirs(0))],
};

#[test]
fn a_second_column_has_its_own_facts(rt: HostRuntime) -> Result<(), Fail> {
    check(&rt, rt.alloc(), &DAY)
}

const MOVED: Example = Example {
    text: MOVE,
    mine: (0, 0),
    theirs: (0, 1),
    is_consistent: true,
    entailed: &[
        (Node::MineUnknown(0), Node::Theirs(1)),
        (Node::Theirs(1), Node::MineUnknown(0)),
    ],
    left_open: &[(MINE, Node::Theirs(1))],
};

#[test]
fn an_unknown_is_no_parameter(rt: HostRuntime) -> Result<(), Fail> {
    check(&rt, rt.alloc(), &MOVED)
}

/// Questions of sets, each by its two accesses, and the least pair that covers each.
const COVERS: [(&str, Place, Place, Option<(usize, usize)>); 4] = [
    (TRANSFER, (0, 0), (0, 1), Some((1, 1))),
    (TRANSFER, (0, 0), (0, 3), Some((1, 3))),
    (TRANSFER, (0, 2), (0, 1), Some((3, 1))),
    // A check reads the savings, and changes nothing there.
    (SMALL_BANK, (4, 0), (2, 1), None),
];

/// The least pair that covers the question between two accesses.
fn cover_of(
    rt: &impl Abort,
    alloc: Global,
    paths: &[Path],
    mine: Place,
    theirs: Place,
) -> Option<(usize, usize)> {
    let facts = closed(rt, alloc, paths, mine, theirs);
    let first = accesses_of(rt, paths, mine.0);
    let second = accesses_of(rt, paths, theirs.0);
    let cover = least_cover(&facts, first, second);
    drop(facts);
    cover
}

#[test]
fn the_least_pair_of_changes_covers(rt: HostRuntime) -> Result<(), Fail> {
    for &(text, mine, theirs, wanted) in COVERS.iter() {
        let paths = paths_of(rt.alloc(), text)?;
        let cover = cover_of(&rt, rt.alloc(), &paths, mine, theirs);
        drop(paths);
        assert!(rt; cover == wanted, "{mine:?} {theirs:?} of {text}");
    }
    Ok(())
}

/// Whether these are the facts of an example, in this order.
fn are_given(rt: &impl Abort, paths: &[Path], example: &Example, wanted: &[Fact]) -> bool {
    let mine = access_at(rt, paths, example.mine);
    let theirs = access_at(rt, paths, example.theirs);
    let facts = question_facts(mine, theirs);
    facts.as_slice() == wanted
}

fn check_given(
    rt: &impl Abort,
    alloc: Global,
    example: &Example,
    wanted: &[Fact],
) -> Result<(), Fail> {
    let paths = paths_of(alloc, example.text)?;
    let given = are_given(rt, &paths, example, wanted);
    drop(paths);
    assert!(rt; given);
    Ok(())
}

const EQUAL_FACTS: [Fact; 2] = [
    Fact {
        lo: MINE,
        hi: Node::Theirs(1),
    },
    Fact {
        lo: Node::Theirs(1),
        hi: MINE,
    },
];

const DAY_FACTS: [Fact; 4] = [
    Fact {
        lo: MINE,
        hi: Node::Theirs(0),
    },
    Fact {
        lo: Node::Theirs(0),
        hi: MINE,
    },
    Fact {
        lo: Node::Number(i64::MIN),
        hi: Node::Theirs(1),
    },
    Fact {
        lo: Node::Theirs(1),
        hi: Node::Number(i64::MAX),
    },
];

#[test]
fn each_column_gives_two_facts(rt: HostRuntime) -> Result<(), Fail> {
    check_given(&rt, rt.alloc(), &EQUAL, &EQUAL_FACTS)?;
    check_given(&rt, rt.alloc(), &DAY, &DAY_FACTS)
}

/// Terms, and what facts call them on the first side and on the second.
const NODES: [(Term, Node, Node); 3] = [
    (Term::Param(1), Node::Mine(1), Node::Theirs(1)),
    (Term::Literal(5), Node::Number(5), Node::Number(5)),
    (
        Term::Unknown(2),
        Node::MineUnknown(2),
        Node::TheirsUnknown(2),
    ),
];

#[test]
fn terms_have_nodes_of_their_side(rt: HostRuntime) {
    for &(term, mine, theirs) in NODES.iter() {
        assert!(rt;
            mine_node(term) == mine && their_node(term) == theirs,
            "{term:?}"
        );
    }
}

const SECOND: Column = Column {
    low: Term::Param(1),
    high: Term::Param(1),
};

const ZERO: Column = Column {
    low: Term::Literal(0),
    high: Term::Literal(0),
};

#[test]
fn a_second_column_that_a_table_lacks_is_zero(rt: HostRuntime) {
    assert!(rt; column_or_zero(Some(SECOND)) == SECOND && column_or_zero(None) == ZERO);
    assert!(rt; second_terms(Some(SECOND), None) == Some((SECOND.low, ZERO.low)));
    assert!(rt; second_terms(None, Some(SECOND)) == Some((ZERO.low, SECOND.low)));
    assert!(rt; second_terms(None, None) == None);
}

/// Whether these accesses stand at these places.
fn stand_at(places: &[Placed], wanted: &[Place]) -> bool {
    let mut pairs = places.iter().zip(wanted);
    places.len() == wanted.len() && pairs.all(|(place, at)| (place.node, place.number) == *at)
}

/// Asserts which accesses of some paths change table 0.
fn check_changers(rt: &impl Abort, alloc: Global, paths: &[Path], wanted: &[Place]) {
    let places = all_places(alloc, paths).expect(rt, "memory");
    let changers = Changers::of(alloc, &places).expect(rt, "memory");
    assert!(rt; stand_at(changers.of_table(0), wanted));
}

#[test]
fn the_changers_of_a_table_are_its_writes(rt: HostRuntime) -> Result<(), Fail> {
    let paths = paths_of(rt.alloc(), SMALL_BANK)?;
    check_changers(&rt, rt.alloc(), &paths, &[(2, 1), (3, 2)]);
    drop(paths);
    Ok(())
}

/// The accesses of the fifth program of SmallBank, which has two paths.
const OF_A_CHECK: [Place; 6] = [(4, 0), (4, 1), (4, 2), (5, 0), (5, 1), (5, 2)];

/// Asserts which accesses the program of a number has.
fn check_accesses(
    rt: &impl Abort,
    alloc: Global,
    paths: &[Path],
    program: usize,
    wanted: &[Place],
) {
    let places = program_places(alloc, paths, program).expect(rt, "memory");
    assert!(rt; stand_at(&places, wanted));
}

#[test]
fn the_accesses_of_a_program_are_those_of_its_paths(rt: HostRuntime) -> Result<(), Fail> {
    let paths = paths_of(rt.alloc(), SMALL_BANK)?;
    check_accesses(&rt, rt.alloc(), &paths, 4, &OF_A_CHECK);
    drop(paths);
    Ok(())
}
