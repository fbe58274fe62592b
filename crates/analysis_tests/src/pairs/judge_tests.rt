//! Verdicts on questions, one by one.

use crate::dangers::Place;
use crate::examples::paths_of;
use crate::pairs::said::{EXPOSED, Judged, Said, is_said};
use crate::pairs::sets::{IN_A_BODY, NUMBERS};
use conflict_pairs::{
    Verdict, access_at, changes_single_cells, is_exposed_question, is_question, verdict,
};
use example_sets::{MOVE, SMALL_BANK, TRANSFER};
use order_facts::Node;
use prog_paths::{Kind, Path};
use std::alloc::Global;
use std::process::Abort;
use std::test::Fail;

/// The verdict on access `a` of one path against access `b` of another.
fn judged(rt: &impl Abort, alloc: Global, x: &Path, a: usize, y: &Path, b: usize) -> Verdict {
    assert!(rt; is_question(x, a, y, b));
    assert!(rt; changes_single_cells(x));
    assert!(rt; changes_single_cells(y));
    verdict(alloc, x, a, y, b).expect(rt, "memory")
}

/// The quick answer, whether access `a` of one path against access `b` of another is exposed.
fn is_exposed_at(rt: &impl Abort, alloc: Global, x: &Path, a: usize, y: &Path, b: usize) -> bool {
    assert!(rt; is_question(x, a, y, b));
    assert!(rt; changes_single_cells(x));
    assert!(rt; changes_single_cells(y));
    is_exposed_question(alloc, x, a, y, b).expect(rt, "memory")
}

/// Asserts what a verdict says, also whether it is exposed, and whether its accesses can meet.
fn check_verdict(rt: &impl Abort, verdict: &Verdict, wanted: &Said) {
    assert!(rt; is_said(verdict, wanted));
    let exposed = matches!(wanted, Said::Exposed(_));
    let apart = matches!(wanted, Said::Apart(_));
    assert!(rt; [verdict.is_exposed(), verdict.can_meet()] == [exposed, !apart]);
}

fn path_at<'a>(rt: &impl Abort, paths: &'a [Path], node: usize) -> &'a Path {
    assert!(rt; node < paths.len());
    &paths[node]
}

/// Asserts what the verdict on a question between two places is.
fn check_question(rt: &impl Abort, alloc: Global, paths: &[Path], question: &Judged) {
    let (mine, theirs, wanted) = question;
    let x = path_at(rt, paths, mine.0);
    let y = path_at(rt, paths, theirs.0);
    let verdict = judged(rt, alloc, x, mine.1, y, theirs.1);
    check_verdict(rt, &verdict, wanted);
    let exposed = is_exposed_at(rt, alloc, x, mine.1, y, theirs.1);
    assert!(rt; exposed == verdict.is_exposed());
    drop(verdict);
}

/// Asserts what the verdicts on questions between paths are.
fn check_paths(rt: &impl Abort, alloc: Global, paths: &[Path], questions: &[Judged]) {
    for question in questions {
        check_question(rt, alloc, paths, question);
    }
}

/// Asserts what the verdicts on questions of a set are.
fn check(rt: &impl Abort, alloc: Global, text: &str, questions: &[Judged]) -> Result<(), Fail> {
    let paths = paths_of(alloc, text)?;
    check_paths(rt, alloc, &paths, questions);
    drop(paths);
    Ok(())
}

/// A chain from 2 to 1.
const FALLING: &[Node] = &[Node::Number(2), Node::Number(1)];

/// A chain from 7 to 5, by way of a parameter.
const BY_A_PARAMETER: &[Node] = &[Node::Number(7), Node::Theirs(0), Node::Number(5)];

/// Different numbers are apart, and so is a range by a parameter; a sample is nearest to zero.
const ON_NUMBERS: [Judged; 3] = [
    ((0, 0), (3, 0), Said::Apart(FALLING)),
    ((1, 0), (4, 0), Said::Apart(BY_A_PARAMETER)),
    ((2, 0), (5, 0), Said::Exposed([0, 0, 0, 0, 0, 3])),
];

#[test]
fn numbers_are_apart_or_sampled(rt: HostRuntime) -> Result<(), Fail> {
    check(&rt, rt.alloc(), NUMBERS, &ON_NUMBERS)
}

/// Questions of the path of WriteCheck with its penalty: two against Amalgamate, one against
/// TransactSaving.
const CHECKS: [Judged; 3] = [
    (
        (4, 0),
        (3, 2),
        Said::Covered((2, 3), (Node::Mine(0), Node::Theirs(0))),
    ),
    (
        (4, 1),
        (3, 5),
        Said::Covered((2, 5), (Node::Mine(0), Node::Theirs(1))),
    ),
    ((4, 0), (2, 1), EXPOSED),
];

#[test]
fn checks_are_covered_but_against_deposits(rt: HostRuntime) -> Result<(), Fail> {
    check(&rt, rt.alloc(), SMALL_BANK, &CHECKS)
}

#[test]
fn equal_for_some_arguments_is_no_cover(rt: HostRuntime) -> Result<(), Fail> {
    check(&rt, rt.alloc(), MOVE, &[((0, 0), (0, 1), EXPOSED)])
}

#[test]
fn a_write_in_a_body_covers_nothing(rt: HostRuntime) -> Result<(), Fail> {
    check(&rt, rt.alloc(), IN_A_BODY, &[((0, 1), (0, 2), EXPOSED)])
}

/// The kind of the access at a place, if one is there.
fn kind_at(paths: &[Path], place: Place) -> Option<Kind> {
    let (node, number) = place;
    let path = paths.get(node)?;
    path.accesses.as_slice().get(number)?;
    Some(access_at(paths, node, number).kind)
}

/// A transfer gets a row, puts it, and gets and puts another.
#[test]
fn an_access_is_found_by_its_place(rt: HostRuntime) -> Result<(), Fail> {
    let paths = paths_of(rt.alloc(), TRANSFER)?;
    let get = kind_at(&paths, (0, 2));
    let put = kind_at(&paths, (0, 3));
    drop(paths);
    assert!(rt; get == Some(Kind::Reads));
    assert!(rt; put == Some(Kind::Writes));
    Ok(())
}
