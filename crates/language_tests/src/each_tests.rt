//! Runs that list the rows of a range, and go through a block for each of them.

use crate::played::{CELL_1_0, CELL_2_0, CELL_7_1, CELL_7_3, Example, play};
use example_sets::PAY;
use prog_tree::Cell;
use std::test::Fail;

const CELL_3_0: Cell = Cell {
    table: 0,
    first: 3,
    second: 0,
};

const PAID: Example = Example {
    text: PAY,
    program: 0,
    args: &[2],
    rows: &[(CELL_1_0, 5), (CELL_3_0, 7)],
    calls: "\
advance: Scan(Region { table: 0, first_low: 1, first_high: 3, second_low: 0, second_high: 0 })
none: not asked
state: 0 0 [] None
again: None None
rows: Did(Listed(Region { table: 0, first_low: 1, first_high: 3, second_low: 0, second_high: 0 }, 2))
look: [] and 2 others
again: Some([(Cell { table: 0, first: 1, second: 0 }, 5), (Cell { table: 0, first: 3, second: 0 }, 7)]) None
rows: not asked
advance: Did(Put(Cell { table: 0, first: 1, second: 0 }, 7))
advance: Did(Put(Cell { table: 0, first: 3, second: 0 }, 9))
advance: Done(Ready)
state: 3 1 [] Some(Ready)
changes: 1 Some(7) 3 Some(9) ",
};

/// Own changes are listed too.
const OWN: Example = Example {
    text: "\
table t 1;
program Own() { put t[2] = 8; delete t[1]; each k, v in t[1..3] { reply k; reply v; } }
",
    program: 0,
    args: &[],
    rows: &[(CELL_1_0, 5), (CELL_3_0, 7)],
    calls: "\
advance: Did(Put(Cell { table: 0, first: 2, second: 0 }, 8))
advance: Did(Removed(Cell { table: 0, first: 1, second: 0 }))
advance: Scan(Region { table: 0, first_low: 1, first_high: 3, second_low: 0, second_high: 0 })
rows: Did(Listed(Region { table: 0, first_low: 1, first_high: 3, second_low: 0, second_high: 0 }, 2))
look: [Cell { table: 0, first: 1, second: 0 }, Cell { table: 0, first: 2, second: 0 }] and 1 others
again: None None
advance: Done(Ready)
state: 3 1 [2, 8, 3, 7] Some(Ready)",
};

/// What the block changes is not listed any more, but by an `each` inside it.
const GROWN: Example = Example {
    text: "\
table t 1;
program P() { each k, v in t[1..9] { each q, w in t[1..9] { put t[q + k] = w; } } }
",
    program: 0,
    args: &[],
    rows: &[(CELL_1_0, 5), (CELL_2_0, 6)],
    calls: "\
advance: Scan(Region { table: 0, first_low: 1, first_high: 9, second_low: 0, second_high: 0 })
rows: Did(Listed(Region { table: 0, first_low: 1, first_high: 9, second_low: 0, second_high: 0 }, 2))
advance: Scan(Region { table: 0, first_low: 1, first_high: 9, second_low: 0, second_high: 0 })
rows: Did(Listed(Region { table: 0, first_low: 1, first_high: 9, second_low: 0, second_high: 0 }, 2))
advance: Did(Put(Cell { table: 0, first: 2, second: 0 }, 5))
advance: Did(Put(Cell { table: 0, first: 3, second: 0 }, 6))
advance: Scan(Region { table: 0, first_low: 1, first_high: 9, second_low: 0, second_high: 0 })
rows: Did(Listed(Region { table: 0, first_low: 1, first_high: 9, second_low: 0, second_high: 0 }, 3))
advance: Did(Put(Cell { table: 0, first: 3, second: 0 }, 5))
advance: Did(Put(Cell { table: 0, first: 4, second: 0 }, 5))
advance: Did(Put(Cell { table: 0, first: 5, second: 0 }, 6))
advance: Done(Ready)
changes: 2 Some(5) 3 Some(5) 4 Some(5) 5 Some(6) ",
};

/// The key is the last column, and both names end with the block.
const SWEPT: Example = Example {
    text: "\
table e 2;
program Sweep(d) { each k, v in e[d, 0..9] { delete e[d, k]; } let k = d; reply k; }
",
    program: 0,
    args: &[7],
    rows: &[(CELL_7_1, 9), (CELL_7_3, 4)],
    calls: "\
advance: Scan(Region { table: 0, first_low: 7, first_high: 7, second_low: 0, second_high: 9 })
rows: Did(Listed(Region { table: 0, first_low: 7, first_high: 7, second_low: 0, second_high: 9 }, 2))
advance: Did(Removed(Cell { table: 0, first: 7, second: 1 }))
advance: Did(Removed(Cell { table: 0, first: 7, second: 3 }))
advance: Done(Ready)
state: 3 1 [7] Some(Ready)",
};

/// A block that aborts.
const ABORTED: Example = Example {
    text: "\
table t 1;
program Up() { each k, v in t[1..3] { if v < 0 { abort; } put t[k] = v + 1; } }
",
    program: 0,
    args: &[],
    rows: &[(CELL_1_0, 5), (CELL_2_0, -1)],
    calls: "\
advance: Scan(Region { table: 0, first_low: 1, first_high: 3, second_low: 0, second_high: 0 })
rows: Did(Listed(Region { table: 0, first_low: 1, first_high: 3, second_low: 0, second_high: 0 }, 2))
advance: Did(Put(Cell { table: 0, first: 1, second: 0 }, 6))
advance: Done(Aborted(Asked))",
};

/// No row, no turn.
const NO_ROWS: Example = Example {
    text: "table t 1; program None() { each k, v in t[3..1] { delete t[k]; } reply 4; }",
    program: 0,
    args: &[],
    rows: &[],
    calls: "\
advance: Scan(Region { table: 0, first_low: 3, first_high: 1, second_low: 0, second_high: 0 })
rows: Did(Listed(Region { table: 0, first_low: 3, first_high: 1, second_low: 0, second_high: 0 }, 0))
advance: Done(Ready)
state: 1 1 [4] Some(Ready)",
};

#[test]
fn rows_are_listed_once(rt: HostRuntime) -> Result<(), Fail> {
    for example in [&PAID, &OWN, &GROWN, &SWEPT, &ABORTED, &NO_ROWS] {
        play(&rt, rt.alloc(), example)?;
    }
    Ok(())
}
