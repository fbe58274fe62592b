//! Runs step by step: the questions that they ask, and what their readers say.

ghost use Rattle.std.specs.Prelude.{◌≡◌, []};
ghost use Rattle.prog_run.specs.Step.{question_after};

use crate::played::{CELL_1_0, CELL_2_0, CELL_7_1, CELL_7_3, Example, play, shown_begin};
use crate::told::is_told;
use example_sets::{SMALL_BANK, set_of};
use prog_check::ProgramSet;
use prog_run::{Deed, Next, Run};
use prog_tree::{Cell, Region, RowPieces, Sequence};
use std::alloc::{AllocError, Global};
use std::process::Abort;
use std::test::Fail;

const CELL_7_4: Cell = Cell {
    table: 0,
    first: 7,
    second: 4,
};

const AMALGAMATE: Example = Example {
    text: SMALL_BANK,
    program: 3,
    args: &[1, 1],
    rows: &[],
    calls: "\
begin: 2 2 [1, 1]
state: 0 0 [] None
advance: Get(Cell { table: 0, first: 1, second: 0 })
advance: Get(Cell { table: 0, first: 1, second: 0 })
3: Did(Read(Cell { table: 0, first: 1, second: 0 }, Some(3)))
advance: Get(Cell { table: 1, first: 1, second: 0 })
4: Did(Read(Cell { table: 1, first: 1, second: 0 }, Some(4)))
4: not asked
look: Cell { table: 1, first: 1, second: 0 } Some(4)
advance: Did(Put(Cell { table: 0, first: 1, second: 0 }, 0))
advance: Did(Put(Cell { table: 1, first: 1, second: 0 }, 0))
advance: Did(Read(Cell { table: 1, first: 1, second: 0 }, Some(0)))
advance: Did(Put(Cell { table: 1, first: 1, second: 0 }, 7))
advance: Done(Ready)
state: 6 2 [] Some(Ready)
changes: 1 Some(0) 1 Some(7) ",
};

#[test]
fn a_customer_is_amalgamated_with_itself(rt: HostRuntime) -> Result<(), Fail> {
    play(&rt, rt.alloc(), &AMALGAMATE)
}

/// The two-column set.
const OWN: &str = "\
table e 2;
program Own(d) {
  put e[d, 2] = 5;
  delete e[d, 1];
  let n = count e[d, 1..3];
  let s = sum e[d, 1..3];
  reply n;
  reply s;
}
";

const OWN_CHANGES: Example = Example {
    text: OWN,
    program: 0,
    args: &[7],
    rows: &[(CELL_7_1, 9), (CELL_7_3, 4)],
    calls: "\
advance: Did(Put(Cell { table: 0, first: 7, second: 2 }, 5))
advance: Did(Removed(Cell { table: 0, first: 7, second: 1 }))
rows: not asked
advance: Scan(Region { table: 0, first_low: 7, first_high: 7, second_low: 1, second_high: 3 })
none: not asked
rows: Did(Counted(Region { table: 0, first_low: 7, first_high: 7, second_low: 1, second_high: 3 }, 2))
look: [Cell { table: 0, first: 7, second: 1 }, Cell { table: 0, first: 7, second: 2 }] and 1 others
advance: Scan(Region { table: 0, first_low: 7, first_high: 7, second_low: 1, second_high: 3 })
rows: Did(Summed(Region { table: 0, first_low: 7, first_high: 7, second_low: 1, second_high: 3 }, 9))
advance: Done(Ready)
advance: Done(Ready)
state: 4 2 [2, 9] Some(Ready)",
};

#[test]
fn ranges_see_own_changes(rt: HostRuntime) -> Result<(), Fail> {
    play(&rt, rt.alloc(), &OWN_CHANGES)
}

const ROWS_FROM_ELSEWHERE: Example = Example {
    text: OWN,
    program: 0,
    args: &[7],
    rows: &[(CELL_7_1, 9), (CELL_7_4, 1)],
    calls: "\
advance: Did(Put(Cell { table: 0, first: 7, second: 2 }, 5))
advance: Did(Removed(Cell { table: 0, first: 7, second: 1 }))
advance: Scan(Region { table: 0, first_low: 7, first_high: 7, second_low: 1, second_high: 3 })
rows: bad rows
advance: Scan(Region { table: 0, first_low: 7, first_high: 7, second_low: 1, second_high: 3 })
state: 2 0 [] None",
};

#[test]
fn rows_from_elsewhere_are_refused(rt: HostRuntime) -> Result<(), Fail> {
    play(&rt, rt.alloc(), &ROWS_FROM_ELSEWHERE)
}

/// What a run begins with. It is let go.
fn shown_begun(alloc: Global, run: Run<'_>) -> Result<String, AllocError> {
    let shown = shown_begin(alloc, &run);
    drop(run);
    shown
}

/// What a begin comes to.
fn begun(
    alloc: Global,
    set: &ProgramSet,
    program: usize,
    args: &[i64],
) -> Result<String, AllocError> {
    match Run::new(alloc, set, program, args) {
        Ok(run) => shown_begun(alloc, run),
        Err(fault) => fault.to_string(alloc),
    }
}

/// Begins of the two-column set, and what they come to.
const BEGINS: [(usize, &[i64], &str); 4] = [
    (1, &[], "no such program"),
    (0, &[], "wrong arguments"),
    (0, &[7, 8], "wrong arguments"),
    (0, &[7], "1 1 [7]"),
];

fn begin_all(rt: &impl Abort, alloc: Global, set: &ProgramSet) -> Result<(), AllocError> {
    for &(program, args, want) in BEGINS.iter() {
        let begun = begun(alloc, set, program, args)?;
        is_told(rt, "begin", begun.as_str(), want);
    }
    Ok(())
}

#[test]
fn a_begin_wants_a_program_and_its_arguments(rt: HostRuntime) -> Result<(), Fail> {
    let set = set_of(rt.alloc(), OWN)?;
    let begun = begin_all(&rt, rt.alloc(), &set);
    drop(set);
    Ok(begun?)
}

/// The overflow set.
const TOTALS: &str = "\
table t 1;
program Total() { let s = sum t[1..2]; reply s; }
program Maybe(v) { if v < 0 { abort; } else { put t[9] = v; } }
";

/// Looks at one cell.
const LOOKS: &str = "\
table t 1;
program Again(k) { lacks t[k]; keep t[k]; let x = need t[k]; reply x; }
program Large(k) { let x = get t[k] else greatest + 1; insert t[k] = greatest + 1; }
";

const ENDS: &[Example] = &[
    Example {
        text: TOTALS,
        program: 0,
        args: &[],
        rows: &[(CELL_1_0, i64::MAX), (CELL_2_0, 1)],
        calls: "\
advance: Scan(Region { table: 0, first_low: 1, first_high: 2, second_low: 0, second_high: 0 })
rows: Done(Aborted(Overflow))
advance: Done(Aborted(Overflow))
state: 0 1 [] Some(Aborted(Overflow))",
    },
    Example {
        text: TOTALS,
        program: 1,
        args: &[-1],
        rows: &[],
        calls: "\
advance: Done(Aborted(Asked))
none: not asked",
    },
    Example {
        text: TOTALS,
        program: 1,
        args: &[4],
        rows: &[],
        calls: "\
advance: Did(Put(Cell { table: 0, first: 9, second: 0 }, 4))
advance: Done(Ready)",
    },
    Example {
        text: LOOKS,
        program: 0,
        args: &[1],
        rows: &[],
        calls: "\
advance: Get(Cell { table: 0, first: 1, second: 0 })
3: Done(Aborted(Present(Cell { table: 0, first: 1, second: 0 })))",
    },
    Example {
        text: LOOKS,
        program: 0,
        args: &[1],
        rows: &[],
        calls: "\
advance: Get(Cell { table: 0, first: 1, second: 0 })
none: Did(Read(Cell { table: 0, first: 1, second: 0 }, None))
advance: Did(Kept(Cell { table: 0, first: 1, second: 0 }))
advance: Get(Cell { table: 0, first: 1, second: 0 })
none: Done(Aborted(Missing(Cell { table: 0, first: 1, second: 0 })))
look: Cell { table: 0, first: 1, second: 0 } None",
    },
    Example {
        text: LOOKS,
        program: 1,
        args: &[1],
        rows: &[],
        calls: "\
advance: Get(Cell { table: 0, first: 1, second: 0 })
3: Did(Read(Cell { table: 0, first: 1, second: 0 }, Some(3)))
advance: Done(Aborted(Overflow))",
    },
];

#[test]
fn runs_end_so(rt: HostRuntime) -> Result<(), Fail> {
    for example in ENDS {
        play(&rt, rt.alloc(), example)?;
    }
    Ok(())
}

/// The region whose rows a run asks for.
fn asked_for(rt: &impl Abort, run: &mut Run<'_>) -> Region
    ensures { run.new.asked ≡ question_after (Next.Scan result) }
{
    let Next::Scan(region) = run.advance().expect(rt, "memory") else {
        panic!(rt; "no rows are asked for")
    };
    region
}

/// No rows.
fn no_rows(rt: &impl Abort, alloc: Global) -> RowPieces
    ensures { result ≡ [] }
{
    RowPieces::from_list(Sequence::new(alloc)).expect(rt, "memory")
}

/// A run that asks for rows is told that none lie there.
fn take_known(rt: &impl Abort, alloc: Global, run: &mut Run<'_>) {
    let region = asked_for(rt, run);
    let next = run.answer_rows(no_rows(rt, alloc)).expect(rt, "memory");
    assert!(rt; next == Next::Did(Deed::Summed(region, 0)));
}

fn take_known_in(rt: &impl Abort, alloc: Global, set: &ProgramSet) -> Result<(), Fail> {
    let mut run = Run::new(alloc, set, 0, &[])?;
    take_known(rt, alloc, &mut run);
    drop(run);
    Ok(())
}

#[test]
fn rows_that_are_known_to_lie_there_are_taken(rt: HostRuntime) -> Result<(), Fail> {
    let set = set_of(rt.alloc(), TOTALS)?;
    let taken = take_known_in(&rt, rt.alloc(), &set);
    drop(set);
    taken
}
