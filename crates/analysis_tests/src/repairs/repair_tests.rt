//! Plans of sets, and what is made of plans of a caller's own.

use crate::examples::{SKEW, change_single_cells, paths_of, wide_text};
use crate::repairs::sets::MOVE_IN_A_BODY;
use example_sets::{KEPT_PAY, MOVE, PAY, REPORT, SMALL_BANK, TRANSFER, set_of};
use prog_check::ProgramSet;
use prog_paths::{Path, Question, paths};
use prog_text::print;
use prog_tree::Sequence;
use si_repair::{
    Obstacle, Pair, Plan, RepairFault, exposed_questions, first_exposed, has_unknown_key,
    hindered_question, is_range_at, materialise, plan, promote,
};
use std::alloc::Global;
use std::process::Abort;
use std::test::Fail;

/// Sets, and the pairs of their plans.
const PLANS: [(&str, &[Pair]); 7] = [
    (SMALL_BANK, &[Pair { from: 4, to: 2 }]),
    (REPORT, &[Pair { from: 2, to: 0 }]),
    (SKEW, &[Pair { from: 1, to: 0 }]),
    (MOVE, &[ITSELF]),
    (PAY, &[ITSELF]),
    (MOVE_IN_A_BODY, &[ITSELF]),
    (TRANSFER, &[]),
];

/// The first program with itself.
const ITSELF: Pair = Pair { from: 0, to: 0 };

/// The plan of the set of a text.
fn plan_of(alloc: Global, text: &str) -> Result<Plan, Fail> {
    let set = set_of(alloc, text)?;
    let plan = plan(alloc, &set);
    drop(set);
    Ok(plan?)
}

#[test]
fn plans_have_the_pairs_that_are_needed(rt: HostRuntime) -> Result<(), Fail> {
    for &(text, wanted) in PLANS.iter() {
        let plan = plan_of(rt.alloc(), text)?;
        assert!(rt; plan.pairs.as_slice() == wanted, "{text}");
    }
    Ok(())
}

/// Pairs of programs, and the first and second accesses of their exposed questions.
const EXPOSED: [(&str, Pair, &[[usize; 4]]); 3] = [
    (
        SMALL_BANK,
        Pair { from: 4, to: 2 },
        &[[4, 0, 2, 1], [5, 0, 2, 1]],
    ),
    (SKEW, Pair { from: 1, to: 0 }, &[[1, 0, 0, 2]]),
    (TRANSFER, ITSELF, &[]),
];

/// Whether a question has these nodes and accesses.
fn is_numbered(question: &Question, numbers: &[usize; 4]) -> bool {
    [question.x, question.a, question.y, question.b] == *numbers
}

/// Whether the questions have these.
fn are_numbered(questions: &[Question], wanted: &[[usize; 4]]) -> bool {
    if questions.len() != wanted.len() {
        return false;
    }
    for (question, numbers) in questions.iter().zip(wanted) {
        if !is_numbered(question, numbers) {
            return false;
        }
    }
    true
}

/// Whether a question has the first of these.
fn has_first(question: &Question, wanted: &[[usize; 4]]) -> bool {
    match wanted {
        [first, ..] => is_numbered(question, first),
        [] => false,
    }
}

/// Whether a question has the first of these, or is none where there are none.
fn is_first(found: Option<Question>, wanted: &[[usize; 4]]) -> bool {
    match found {
        Some(question) => has_first(&question, wanted),
        None => wanted.is_empty(),
    }
}

/// Asserts which questions of a pair are exposed.
fn check_exposed(
    rt: &impl Abort,
    alloc: Global,
    paths: &[Path],
    pair: Pair,
    wanted: &[[usize; 4]],
) {
    assert!(rt; change_single_cells(paths));
    let exposed = exposed_questions(alloc, paths, pair).expect(rt, "memory");
    assert!(rt; are_numbered(&exposed, wanted));
}

#[test]
fn what_is_not_covered_is_exposed(rt: HostRuntime) -> Result<(), Fail> {
    for &(text, pair, wanted) in EXPOSED.iter() {
        let paths = paths_of(rt.alloc(), text)?;
        check_exposed(&rt, rt.alloc(), &paths, pair, wanted);
        drop(paths);
    }
    Ok(())
}

/// Asserts which exposed question of a pair is found first.
fn check_first(rt: &impl Abort, alloc: Global, paths: &[Path], pair: Pair, wanted: &[[usize; 4]]) {
    assert!(rt; change_single_cells(paths));
    let first = first_exposed(alloc, paths, pair).expect(rt, "memory");
    assert!(rt; is_first(first, wanted));
}

#[test]
fn the_first_that_is_exposed_is_found(rt: HostRuntime) -> Result<(), Fail> {
    for &(text, pair, wanted) in EXPOSED.iter() {
        let paths = paths_of(rt.alloc(), text)?;
        check_first(&rt, rt.alloc(), &paths, pair, wanted);
        drop(paths);
    }
    Ok(())
}

/// The first exposed question of the first program with itself whose read no `keep` covers.
fn hindered_in(
    rt: &impl Abort,
    alloc: Global,
    set: &ProgramSet,
    obstacle: Obstacle,
) -> Option<Question> {
    let paths = paths(alloc, set).expect(rt, "memory");
    let found = hindered_question(alloc, set.draft(), &paths, ITSELF, obstacle);
    drop(paths);
    found.expect(rt, "memory")
}

/// Obstacles, and the first question of the set that moves in a body whose read they keep from
/// being promoted.
const HINDERED: [(Obstacle, &[[usize; 4]]); 3] = [
    (Obstacle::BodyRead, &[[0, 1, 0, 2]]),
    (Obstacle::RangeRead, &[]),
    (Obstacle::UnknownKey, &[]),
];

#[test]
fn what_no_keep_covers_is_found(rt: HostRuntime) -> Result<(), Fail> {
    let set = set_of(rt.alloc(), MOVE_IN_A_BODY)?;
    for &(obstacle, wanted) in HINDERED.iter() {
        assert!(rt; is_first(hindered_in(&rt, rt.alloc(), &set, obstacle), wanted));
    }
    drop(set);
    Ok(())
}

/// Statements of the one program of a set with an `each`, and whether they are ranges.
const RANGES: [(usize, bool); 4] = [(0, true), (1, false), (2, false), (3, false)];

#[test]
fn an_each_is_a_range_and_its_body_is_not(rt: HostRuntime) -> Result<(), Fail> {
    let set = set_of(rt.alloc(), MOVE_IN_A_BODY)?;
    for &(number, wanted) in RANGES.iter() {
        let found = is_range_at(rt.alloc(), set.draft(), 0, number).expect(&rt, "memory");
        assert!(rt; found == wanted, "{number}");
    }
    drop(set);
    Ok(())
}

/// Puts under a computed key of the second column, and under a parameter.
const COMPUTED: &str = "table e 2; program P(a) { put e[1, a + 1] = 0; put e[1, a] = 0; }";

/// Sets, accesses of their first paths, and whether no parameters and numbers tell the key.
const KEYS: [(&str, usize, bool); 4] = [
    (MOVE, 0, true),
    (MOVE, 1, false),
    (COMPUTED, 0, true),
    (COMPUTED, 1, false),
];

/// Whether the key of an access of the first path is unknown.
fn unknown_at(paths: &[Path], number: usize) -> Option<bool> {
    let access = paths.first()?.accesses.as_slice().get(number)?;
    Some(has_unknown_key(access))
}

#[test]
fn a_computed_key_is_unknown(rt: HostRuntime) -> Result<(), Fail> {
    for &(text, number, wanted) in KEYS.iter() {
        let paths = paths_of(rt.alloc(), text)?;
        let unknown = unknown_at(&paths, number);
        drop(paths);
        assert!(rt; unknown == Some(wanted), "{text} {number}");
    }
    Ok(())
}

/// A plan of a caller's own.
fn own(rt: &impl Abort, alloc: Global, pairs: &[Pair]) -> Plan {
    let pairs = Sequence::from_slice(alloc, pairs).expect(rt, "memory");
    Plan { pairs }
}

/// A set materialised for a plan of a caller's own.
fn materialised_set(
    rt: &impl Abort,
    alloc: Global,
    set: &ProgramSet,
    pairs: &[Pair],
) -> ProgramSet {
    let plan = own(rt, alloc, pairs);
    let repaired = materialise(alloc, set, &plan);
    drop(plan);
    repaired.expect(rt, "no fault")
}

type Repaired = Result<ProgramSet, RepairFault>;

/// The set of a text promoted for a plan of a caller's own, or why it is not.
fn promoted(rt: &impl Abort, alloc: Global, text: &str, pairs: &[Pair]) -> Result<Repaired, Fail> {
    let set = set_of(alloc, text)?;
    let plan = own(rt, alloc, pairs);
    let repaired = promote(alloc, &set, &plan);
    drop(plan);
    drop(set);
    Ok(repaired)
}

/// The text of a set, which is let go.
fn printed(rt: &impl Abort, alloc: Global, set: ProgramSet) -> Vec<u8> {
    let text = print(alloc, set.draft());
    drop(set);
    text.expect(rt, "memory")
}

/// The text of a set materialised for a plan of a caller's own.
fn materialised(
    rt: &impl Abort,
    alloc: Global,
    text: &str,
    pairs: &[Pair],
) -> Result<Vec<u8>, Fail> {
    let set = set_of(alloc, text)?;
    let repaired = materialised_set(rt, alloc, &set, pairs);
    drop(set);
    Ok(printed(rt, alloc, repaired))
}

/// A program that reads nothing.
const ECHO: &str = "program Echo(a) {\n  reply a;\n}\n";

const ECHO_TWICE: &[u8] = b"\
table mat_0 1;
table mat_1 1;
program Echo(a) {
  keep mat_0[a];
  keep mat_1[a];
  reply a;
}
";

#[test]
fn a_pair_without_a_question_keeps_its_first_parameter(rt: HostRuntime) -> Result<(), Fail> {
    let twice = materialised(&rt, rt.alloc(), ECHO, &[ITSELF, ITSELF])?;
    assert!(rt; twice.as_slice() == ECHO_TWICE);
    Ok(())
}

#[test]
fn a_pair_without_a_question_promotes_nothing(rt: HostRuntime) -> Result<(), Fail> {
    let repaired = promoted(&rt, rt.alloc(), ECHO, &[ITSELF])?;
    let text = printed(&rt, rt.alloc(), repaired.expect(&rt, "no fault"));
    assert!(rt; text.as_slice() == ECHO.as_bytes());
    Ok(())
}

#[test]
fn a_program_that_lists_rows_keeps_a_cell(rt: HostRuntime) -> Result<(), Fail> {
    let kept = materialised(&rt, rt.alloc(), PAY, &[ITSELF])?;
    assert!(rt; kept.as_slice() == KEPT_PAY.as_bytes());
    Ok(())
}

/// Sets whose reads are not promoted, and why.
const NOT_PROMOTED: [(&str, RepairFault); 3] = [
    (PAY, RepairFault::RangeRead(ITSELF)),
    (MOVE, RepairFault::UnknownKey(ITSELF)),
    (MOVE_IN_A_BODY, RepairFault::BodyRead(ITSELF)),
];

#[test]
fn a_read_of_a_range_or_in_a_body_is_not_promoted(rt: HostRuntime) -> Result<(), Fail> {
    for (text, fault) in NOT_PROMOTED {
        let found = promoted(&rt, rt.alloc(), text, &[ITSELF])?.err();
        assert!(rt; found == Some(fault), "{text}");
    }
    Ok(())
}

const WIDE_FRONT: &str = "\
table t 1;
table mat_0 1;
program P0(v) {
  keep mat_0[v];
";

#[test]
fn sets_that_ask_too_much_are_materialised(rt: HostRuntime) -> Result<(), Fail> {
    let wide = wide_text(rt.alloc(), 2)?;
    let text = materialised(&rt, rt.alloc(), &wide, &[ITSELF])?;
    assert!(rt; text.as_slice().starts_with(WIDE_FRONT.as_bytes()));
    Ok(())
}
