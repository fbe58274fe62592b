//! Worked facts, with what they entail told by hand.

use order_facts::{
    Closed, Fact, Facts, Node, Nodes, check_chain, is_chain, is_plain_step, is_same_node,
};
use std::alloc::{AllocError, Global};
use std::process::Abort;

const KEY: Node = Node::Mine(0);

const ONE: Node = Node::Number(1);

const TWO: Node = Node::Number(2);

const FIVE: Node = Node::Number(5);

const LEAST: Node = Node::Number(i64::MIN);

const GREATEST: Node = Node::Number(i64::MAX);

const A: Node = Node::Theirs(1);

const B: Node = Node::TheirsUnknown(1);

const C: Node = Node::MineUnknown(2);

/// Facts, of each pair that its first node is at most its second.
type Given = &'static [(Node, Node)];

/// Whether the facts are consistent, whether they entail that x is at most y, how many nodes the
/// chain has that was found (0 where there is none or it does not check), and what the sample gives
/// x.
type Answer = (bool, bool, usize, Option<i64>);

fn add_all(facts: &mut Facts, given: &[(Node, Node)]) -> Result<(), AllocError> {
    for (lo, hi) in given {
        facts.add(*lo, *hi)?;
    }
    Ok(())
}

fn facts(rt: &impl Abort, alloc: Global, given: &[(Node, Node)]) -> Facts {
    let mut facts = Facts::new(alloc);
    add_all(&mut facts, given).expect(rt, "memory");
    facts
}

fn chain_len(rt: &impl Abort, facts: &Facts, closed: &Closed, x: Node, y: Node) -> usize {
    match closed.chain(x, y).expect(rt, "memory") {
        Some(chain) if check_chain(facts, &chain) => chain.len(),
        _ => 0,
    }
}

fn sampled(rt: &impl Abort, closed: &Closed, x: Node) -> Option<i64> {
    let sample = closed.sample().expect(rt, "memory")?;
    Some(sample.get(x))
}

fn answer(rt: &impl Abort, facts: &Facts, closed: &Closed, x: Node, y: Node) -> Answer {
    let nodes = chain_len(rt, facts, closed, x, y);
    let number = sampled(rt, closed, x);
    (closed.consistent(), closed.entails(x, y), nodes, number)
}

fn answer_of(rt: &impl Abort, alloc: Global, given: &[(Node, Node)], x: Node, y: Node) -> Answer {
    let facts = facts(rt, alloc, given);
    let closed = facts.close().expect(rt, "memory");
    let answer = answer(rt, &facts, &closed, x, y);
    drop(closed);
    drop(facts);
    answer
}

const FALLING: Given = &[(ONE, TWO), (TWO, ONE)];

const ONLY_FIVE: Given = &[(FIVE, KEY), (KEY, FIVE)];

const ONE_OR_TWO: Given = &[(ONE, KEY), (KEY, TWO)];

const AT_THE_TOP: Given = &[(GREATEST, KEY)];

const AT_THE_BOTTOM: Given = &[(KEY, LEAST)];

const TWO_WAYS: Given = &[(KEY, A), (A, B), (B, C), (KEY, ONE), (FIVE, C)];

/// Facts, two nodes that are asked for, and the answer.
const WORKED: [(Given, Node, Node, Answer); 14] = [
    (FALLING, TWO, ONE, (false, true, 2, None)),
    (FALLING, KEY, A, (false, true, 0, None)),
    (ONLY_FIVE, KEY, FIVE, (true, true, 2, Some(5))),
    (ONLY_FIVE, FIVE, KEY, (true, true, 2, Some(5))),
    (ONE_OR_TWO, KEY, ONE, (true, false, 0, Some(1))),
    (ONE_OR_TWO, ONE, KEY, (true, true, 2, Some(1))),
    (AT_THE_TOP, A, KEY, (true, true, 3, Some(0))),
    (AT_THE_TOP, KEY, GREATEST, (true, true, 2, Some(i64::MAX))),
    (AT_THE_BOTTOM, KEY, B, (true, true, 3, Some(i64::MIN))),
    (TWO_WAYS, KEY, C, (true, true, 4, Some(0))),
    (&[], KEY, KEY, (true, true, 1, Some(0))),
    (&[], KEY, A, (true, false, 0, Some(0))),
    (&[], ONE, FIVE, (true, true, 2, Some(1))),
    (&[], FIVE, ONE, (true, false, 0, Some(5))),
];

#[test]
fn worked_facts(rt: HostRuntime) {
    for (given, x, y, want) in &WORKED {
        let got = answer_of(&rt, rt.alloc(), *given, *x, *y);
        assert!(rt; got == *want, "from {x:?} to {y:?}: {got:?}");
    }
}

fn are_equal(rt: &impl Abort, alloc: Global, given: &[(Node, Node)], x: Node, y: Node) -> bool {
    let facts = facts(rt, alloc, given);
    let closed = facts.close().expect(rt, "memory");
    let are_equal = closed.forces_equal(x, y);
    drop(closed);
    drop(facts);
    are_equal
}

/// Facts, two nodes, and whether the facts force both to be equal.
const EQUAL: [(Given, Node, Node, bool); 6] = [
    (FALLING, KEY, A, true),
    (ONLY_FIVE, KEY, FIVE, true),
    (ONE_OR_TWO, ONE, KEY, false),
    (AT_THE_TOP, KEY, GREATEST, true),
    (AT_THE_TOP, A, KEY, false),
    (&[], KEY, KEY, true),
];

#[test]
fn nodes_are_forced_equal(rt: HostRuntime) {
    for (given, x, y, want) in &EQUAL {
        let got = are_equal(&rt, rt.alloc(), *given, *x, *y);
        assert!(rt; got == *want, "{x:?} and {y:?}: {got}");
    }
}

#[test]
fn chains_are_checked(rt: HostRuntime) {
    let facts = facts(&rt, rt.alloc(), &[(KEY, ONE), (FIVE, C)]);
    assert!(rt; check_chain(&facts, &[KEY, ONE, FIVE, C]));
    assert!(rt; !check_chain(&facts, &[KEY, C]));
    assert!(rt; !check_chain(&facts, &[]));
    drop(facts);
}

/// The same facts in a list.
const IN_A_LIST: [Fact; 2] = [Fact { lo: KEY, hi: ONE }, Fact { lo: FIVE, hi: C }];

#[test]
fn chains_go_by_facts_and_by_numbers(rt: HostRuntime) {
    assert!(rt; is_chain(&IN_A_LIST, &[KEY, ONE, FIVE, C]));
    assert!(rt; !is_chain(&IN_A_LIST, &[KEY, C]));
    assert!(rt; !is_chain(&IN_A_LIST, &[]));
}

/// Of four pairs of nodes, whether there is a step from the first to the second.
fn has_steps(closed: &Closed) -> [bool; 4] {
    [
        closed.has_step(KEY, ONE),
        closed.has_step(ONE, FIVE),
        closed.has_step(KEY, FIVE),
        closed.has_step(ONE, KEY),
    ]
}

#[test]
fn facts_of_a_list_are_closed(rt: HostRuntime) {
    let closed = Closed::of(rt.alloc(), &IN_A_LIST).expect(&rt, "memory");
    assert!(rt; closed.entails(KEY, C) && !closed.entails(ONE, KEY));
    assert!(rt; has_steps(&closed) == [true, true, false, false]);
    drop(closed);
}

#[test]
fn a_sample_is_copied(rt: HostRuntime) {
    let facts = facts(&rt, rt.alloc(), ONLY_FIVE);
    let closed = facts.close().expect(&rt, "memory");
    let sample = closed
        .sample()
        .expect(&rt, "memory")
        .expect(&rt, "a sample");
    let copy = sample.copy().expect(&rt, "memory");
    assert!(rt; copy.get(KEY) == 5 && copy.get(A) == 0);
    drop(closed);
    drop(facts);
}

/// Steps, and whether they need no fact.
const STEPS: [(Node, Node, bool); 6] = [
    (ONE, TWO, true),
    (TWO, TWO, true),
    (LEAST, KEY, true),
    (KEY, GREATEST, true),
    (TWO, ONE, false),
    (KEY, KEY, false),
];

#[test]
fn some_steps_need_no_fact(rt: HostRuntime) {
    for &(a, b, plain) in STEPS.iter() {
        assert!(rt; is_plain_step(a, b) == plain, "from {a:?} to {b:?}");
    }
}

#[test]
fn nodes_are_one_where_kind_and_number_are(rt: HostRuntime) {
    assert!(rt; is_same_node(KEY, KEY));
    assert!(rt; !is_same_node(KEY, A));
    assert!(rt; !is_same_node(ONE, TWO));
}

#[test]
fn nodes_in_a_row_are_those_that_were_given(rt: HostRuntime) {
    let two = Nodes::of_two(KEY, A);
    assert!(rt; Nodes::of_one(TWO).as_slice() == [TWO].as_slice());
    assert!(rt; two.as_slice() == [KEY, A].as_slice());
}

#[test]
fn nodes_in_a_row_are_copied(rt: HostRuntime) {
    let copy = Nodes::from_slice(rt.alloc(), &[KEY, A]).expect(&rt, "memory");
    assert!(rt; copy.as_slice() == [KEY, A].as_slice());
}

#[test]
fn nodes_in_a_row_are_made_of_a_vector(rt: HostRuntime) {
    let nodes = Vec::from_slice(rt.alloc(), &[ONE, B, C]).expect(&rt, "memory");
    assert!(rt; Nodes::from_vec(nodes).as_slice() == [ONE, B, C].as_slice());
}
