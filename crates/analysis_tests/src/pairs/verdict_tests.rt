//! Verdicts on all questions: tables of them, listed and class by class.

use crate::dangers::places_of;
use crate::examples::{change_single_cells, paths_of, wide_paths};
use crate::pairs::said::{EXPOSED, Judged, Said, is_said};
use crate::pairs::sets::{class_table_of, class_table_of_threads, table_of, table_of_threads};
use conflict_pairs::{ClassTable, PairFault, PairTable, TablePart, Verdict, pairs, pairs_par};
use example_sets::TRANSFER;
use order_facts::Node;
use prog_paths::{Kind, Path, Question};
use std::alloc::Global;
use std::process::Abort;
use std::test::Fail;
use std::thread::Threads;

/// The questions between the accesses of the only path of the transfer set.
const TRANSFERS: [Judged; 7] = [
    (
        (0, 0),
        (0, 1),
        Said::Covered((1, 1), (Node::Mine(0), Node::Theirs(0))),
    ),
    (
        (0, 0),
        (0, 3),
        Said::Covered((1, 3), (Node::Mine(0), Node::Theirs(1))),
    ),
    ((0, 1), (0, 1), EXPOSED),
    ((0, 1), (0, 3), EXPOSED),
    (
        (0, 2),
        (0, 1),
        Said::Covered((3, 1), (Node::Mine(1), Node::Theirs(0))),
    ),
    (
        (0, 2),
        (0, 3),
        Said::Covered((3, 3), (Node::Mine(1), Node::Theirs(1))),
    ),
    ((0, 3), (0, 3), EXPOSED),
];

/// Whether a row has this question and this verdict.
fn is_row(row: &Judged, question: &Question, verdict: &Verdict) -> bool {
    let (mine, theirs, said) = row;
    places_of(question) == (*mine, *theirs) && is_said(verdict, said)
}

/// Asserts which questions a table has, with which verdicts.
fn check_rows(rt: &impl Abort, table: &PairTable, rows: &[Judged]) {
    assert!(rt; table.len() == rows.len());
    for (n, row) in rows.iter().enumerate() {
        assert!(rt; is_row(row, &table.question(n), table.verdict(n)), "{n}");
    }
}

/// How many paths a table is of, by its own count and by that of its classes.
fn path_counts(table: &PairTable) -> [usize; 2] {
    [table.nodes(), table.classes().paths().len()]
}

/// Asserts that a table is that of the transfer set, which has one path.
fn check_transfers(rt: &impl Abort, table: &PairTable) {
    assert!(rt; path_counts(table) == [1, 1]);
    assert!(rt; !table.is_empty());
    check_rows(rt, table, &TRANSFERS);
}

fn check_listed(rt: &impl Abort, alloc: Global, paths: &[Path]) {
    let table = table_of(rt, alloc, paths);
    check_transfers(rt, &table);
    drop(table);
}

#[test]
fn transfers_are_covered(rt: HostRuntime) -> Result<(), Fail> {
    let paths = paths_of(rt.alloc(), TRANSFER)?;
    check_listed(&rt, rt.alloc(), &paths);
    drop(paths);
    Ok(())
}

fn check_listed_by_threads(rt: &(impl Abort + Threads + Sync), alloc: Global, paths: &[Path]) {
    let table = table_of_threads(rt, alloc, paths);
    check_transfers(rt, &table);
    drop(table);
}

#[test]
fn threads_cover_transfers(rt: HostRuntime) -> Result<(), Fail> {
    let paths = paths_of(rt.alloc(), TRANSFER)?;
    check_listed_by_threads(&rt, rt.alloc(), &paths);
    drop(paths);
    Ok(())
}

/// The same of the table that is listed from what is told of the classes.
fn check_listed_from_classes(rt: &impl Abort, alloc: Global, paths: &[Path]) {
    let table = class_table_of(rt, alloc, paths);
    let listed = table.listed(alloc).expect(rt, "memory");
    check_transfers(rt, &listed);
    drop(listed);
}

#[test]
fn questions_are_listed_from_their_classes(rt: HostRuntime) -> Result<(), Fail> {
    let paths = paths_of(rt.alloc(), TRANSFER)?;
    check_listed_from_classes(&rt, rt.alloc(), &paths);
    drop(paths);
    Ok(())
}

/// Asserts which questions a part of a table has, with which verdicts by their numbers.
fn check_part(rt: &impl Abort, table: &ClassTable, part: &TablePart<'_>, rows: &[Judged]) {
    assert!(rt; part.len() == rows.len());
    for (n, row) in rows.iter().enumerate() {
        let verdict = table.verdicts().get(part.verdict_number(n));
        let verdict = verdict.expect(rt, "a verdict");
        assert!(rt; is_row(row, &part.question(n), verdict), "{n}");
    }
}

/// Asserts what the first access of the transfer set asks: its first two questions.
fn check_first(rt: &impl Abort, alloc: Global, table: &ClassTable) {
    let places = table.places();
    assert!(rt; !places.is_empty());
    let changers = table.changers(alloc).expect(rt, "memory");
    let listed = table.listed_of(alloc, &changers, &places[..1]);
    drop(changers);
    let listed = listed.expect(rt, "memory");
    let part = table.part(&listed);
    assert!(rt; !part.is_empty() && part.verdict(0).can_meet());
    check_part(rt, table, &part, &TRANSFERS[..2]);
    drop(listed);
}

fn check_part_of_first(rt: &impl Abort, alloc: Global, paths: &[Path]) {
    let table = class_table_of(rt, alloc, paths);
    check_first(rt, alloc, &table);
    drop(table);
}

#[test]
fn what_one_access_asks_is_a_part_of_the_table(rt: HostRuntime) -> Result<(), Fail> {
    let paths = paths_of(rt.alloc(), TRANSFER)?;
    check_part_of_first(&rt, rt.alloc(), &paths);
    drop(paths);
    Ok(())
}

/// What is told of two classes: their kinds, the nodes of each, and the verdict.
struct Answer {
    kinds: (Kind, Kind),
    firsts: &'static [usize],
    seconds: &'static [usize],
    verdict: Said,
}

/// Two programs that are alike, and one with a get that is like theirs, but no put.
const UPDATES: &str = "\
table t 1;
program One(a) { let x = get t[a] else 0; put t[a] = x; }
program Other(a) { let x = get t[a] else 0; put t[a] = x; }
program Look(a) { let x = get t[a] else 0; }
";

/// Their classes are the gets of the first two, the puts of these, and the get of the third, which
/// no put of its own covers. Each get asks of the puts, and each put of itself and the other.
const OF_UPDATES: [Answer; 3] = [
    Answer {
        kinds: (Kind::Reads, Kind::Writes),
        firsts: &[0, 1],
        seconds: &[0, 1],
        verdict: Said::Covered((1, 1), (Node::Mine(0), Node::Theirs(0))),
    },
    Answer {
        kinds: (Kind::Writes, Kind::Writes),
        firsts: &[0, 1],
        seconds: &[0, 1],
        verdict: EXPOSED,
    },
    Answer {
        kinds: (Kind::Reads, Kind::Writes),
        firsts: &[2],
        seconds: &[0, 1],
        verdict: EXPOSED,
    },
];

/// Asserts what is told of each two classes.
fn check_answers(rt: &impl Abort, table: &ClassTable, answers: &[Answer]) {
    assert!(rt; table.len() == answers.len());
    for (n, answer) in answers.iter().enumerate() {
        assert!(rt; table.kinds(n) == answer.kinds, "{n}");
        assert!(rt; table.first_nodes(n) == answer.firsts);
        assert!(rt; table.second_nodes(n) == answer.seconds);
        assert!(rt; is_said(table.verdict(n), &answer.verdict));
    }
}

/// Asserts that a table is that of the updates, which have three paths.
fn check_updates(rt: &impl Abort, table: &ClassTable) {
    assert!(rt; table.paths().len() == 3);
    assert!(rt; !table.is_empty());
    check_answers(rt, table, &OF_UPDATES);
}

fn check_classed(rt: &impl Abort, alloc: Global, paths: &[Path]) {
    let table = class_table_of(rt, alloc, paths);
    check_updates(rt, &table);
    drop(table);
}

#[test]
fn each_two_classes_are_answered_once(rt: HostRuntime) -> Result<(), Fail> {
    let paths = paths_of(rt.alloc(), UPDATES)?;
    check_classed(&rt, rt.alloc(), &paths);
    drop(paths);
    Ok(())
}

fn check_classed_by_threads(rt: &(impl Abort + Threads + Sync), alloc: Global, paths: &[Path]) {
    let table = class_table_of_threads(rt, alloc, paths);
    check_updates(rt, &table);
    drop(table);
}

#[test]
fn threads_answer_each_two_classes_once(rt: HostRuntime) -> Result<(), Fail> {
    let paths = paths_of(rt.alloc(), UPDATES)?;
    check_classed_by_threads(&rt, rt.alloc(), &paths);
    drop(paths);
    Ok(())
}

/// The verdict on the question of a number, found by the verdict's own number.
fn verdict_by_number<'t>(rt: &impl Abort, table: &'t PairTable, n: usize) -> &'t Verdict {
    assert!(rt; n < table.len());
    &table.verdicts()[table.verdict_number(n)]
}

fn check_by_number(rt: &impl Abort, alloc: Global, paths: &[Path]) {
    let table = table_of(rt, alloc, paths);
    assert!(rt; is_said(verdict_by_number(rt, &table, 2), &EXPOSED));
    drop(table);
}

#[test]
fn a_verdict_is_found_by_its_number(rt: HostRuntime) -> Result<(), Fail> {
    let paths = paths_of(rt.alloc(), TRANSFER)?;
    check_by_number(&rt, rt.alloc(), &paths);
    drop(paths);
    Ok(())
}

/// How many questions a table has, and how many verdicts.
fn counts(table: &PairTable) -> [usize; 2] {
    [table.len(), table.verdicts().len()]
}

/// How many questions and verdicts the table of a set has.
fn counted(rt: &impl Abort, alloc: Global, text: &str) -> Result<[usize; 2], Fail> {
    let paths = paths_of(alloc, text)?;
    let table = table_of(rt, alloc, &paths);
    let counts = counts(&table);
    drop(table);
    drop(paths);
    Ok(counts)
}

/// The same of the table that threads make.
fn counted_by_threads(
    rt: &(impl Abort + Threads + Sync),
    alloc: Global,
    text: &str,
) -> Result<[usize; 2], Fail> {
    let paths = paths_of(alloc, text)?;
    let table = table_of_threads(rt, alloc, &paths);
    let counts = counts(&table);
    drop(table);
    drop(paths);
    Ok(counts)
}

/// Two programs that are alike. Their three questions are of two puts each.
const ALIKE: &str = "\
table t 1;
program One(a) { put t[a] = 0; }
program Other(a) { put t[a] = 0; }
";

#[test]
fn questions_that_are_alike_share_a_verdict(rt: HostRuntime) -> Result<(), Fail> {
    assert!(rt; counted(&rt, rt.alloc(), ALIKE)? == [3, 1]);
    Ok(())
}

/// Programs whose nine questions are between numbers, no two of them alike: three exposed, one
/// covered, two apart by the chain 2, 1, two by 3, 1, one by 3, 2.
const APART_ALIKE: &str = "\
table t 1;
program One() { put t[1] = 0; let a = get t[1] else 0; }
program Other() { put t[2] = 0; put t[3] = 0; }
";

#[test]
fn equal_verdicts_are_kept_once(rt: HostRuntime) -> Result<(), Fail> {
    assert!(rt; counted(&rt, rt.alloc(), APART_ALIKE)? == [9, 7]);
    assert!(rt; counted_by_threads(&rt, rt.alloc(), APART_ALIKE)? == [9, 7]);
    Ok(())
}

/// A program with three questions: of its put and itself, which is exposed, and of its get and its
/// count and the put. These two are not alike, as the count ends at 2; both are covered by the put
/// and itself, by the chains 1 and 1.
const COVERED_ALIKE: &str = "\
table t 1;
program One() { put t[1] = 0; let a = get t[1] else 0; let n = count t[1..2]; }
";

#[test]
fn equal_covered_verdicts_are_kept_once(rt: HostRuntime) -> Result<(), Fail> {
    assert!(rt; counted(&rt, rt.alloc(), COVERED_ALIKE)? == [3, 2]);
    assert!(rt; counted_by_threads(&rt, rt.alloc(), COVERED_ALIKE)? == [3, 2]);
    Ok(())
}

fn fault_of(rt: &impl Abort, alloc: Global, paths: &[Path]) -> Option<PairFault> {
    assert!(rt; change_single_cells(paths));
    pairs(alloc, paths).err()
}

fn fault_of_threads(
    rt: &(impl Abort + Threads + Sync),
    alloc: Global,
    paths: &[Path],
) -> Option<PairFault> {
    assert!(rt; change_single_cells(paths));
    pairs_par(rt, alloc, paths).err()
}

#[test]
fn more_than_a_million_questions_are_too_many(rt: HostRuntime) -> Result<(), Fail> {
    let paths = wide_paths(rt.alloc(), 2)?;
    let fault = fault_of(&rt, rt.alloc(), &paths);
    let by_threads = fault_of_threads(&rt, rt.alloc(), &paths);
    drop(paths);
    assert!(rt; [fault, by_threads] == [Some(PairFault::TooLarge); 2]);
    Ok(())
}
