//! Which node is joined to which.

use order_facts::{NodeSet, Square};
use prog_paths::{EdgeTables, Gives, Mark};

#[test]
fn a_square_joins_one_way(rt: HostRuntime) {
    let mut square = Square::new(rt.alloc(), 3).expect(&rt, "memory");
    square.raise(0, 2);
    let copy = square.copy().expect(&rt, "memory");
    square.raise(1, 1);
    assert!(rt; copy.size() == 3);
    let joined = [
        copy.get(0, 2),
        copy.get(2, 0),
        copy.get(1, 1),
        square.get(1, 1),
    ];
    assert!(rt; joined == [true, false, false, true]);
}

#[test]
fn a_question_gives_edges_both_ways_and_a_vulnerable_one(rt: HostRuntime) {
    let mut tables = EdgeTables::new(rt.alloc(), 3).expect(&rt, "memory");
    let gives = Gives {
        forward: true,
        backward: true,
        vulnerable: true,
    };
    tables.enter(Mark { x: 0, y: 2, gives });
    let edges = [
        tables.edges.get(0, 2),
        tables.edges.get(2, 0),
        tables.edges.get(0, 1),
    ];
    let vulnerable = [tables.vulnerable.get(0, 2), tables.vulnerable.get(2, 0)];
    assert!(rt; edges == [true, true, false]);
    assert!(rt; vulnerable == [true, false]);
}

#[test]
fn joins_reach_further_node_by_node(rt: HostRuntime) {
    let mut square = Square::new(rt.alloc(), 4).expect(&rt, "memory");
    square.raise(3, 1);
    square.raise(1, 0);
    square.raise(0, 2);
    square.join(1);
    let through_one = [square.get(3, 0), square.get(3, 2)];
    square.join(0);
    let through_both = [square.get(3, 2), square.get(1, 2), square.get(2, 3)];
    assert!(rt; through_one == [true, false]);
    assert!(rt; through_both == [true, true, false]);
}

#[test]
fn a_row_takes_in_another_and_is_walked(rt: HostRuntime) {
    let mut square = Square::new(rt.alloc(), 70).expect(&rt, "memory");
    square.raise(0, 69);
    square.raise(1, 1);
    square.join_row(1, 0);
    let walked = [
        square.next(1, 0),
        square.next(1, 2),
        square.next(0, 0),
        square.next(2, 0),
    ];
    assert!(rt; walked == [Some(1), Some(69), Some(69), None]);
}

#[test]
fn a_row_takes_in_a_set(rt: HostRuntime) {
    let mut square = Square::new(rt.alloc(), 70).expect(&rt, "memory");
    let mut set = NodeSet::new(rt.alloc(), 70).expect(&rt, "memory");
    set.insert(3);
    set.clear();
    set.insert(0);
    set.insert(69);
    square.join_set(1, &set);
    assert!(rt; set.size() == 70);
    let walked = [square.next(1, 0), square.next(1, 1), square.next(0, 0)];
    assert!(rt; walked == [Some(0), Some(69), None]);
}
