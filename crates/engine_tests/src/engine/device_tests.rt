//! Runs of a script over devices that are slow, and that fail at each of their calls.

use crate::engine::fakes::{SlowSink, SlowSource};
use example_sets::set_of;
use prog_check::ProgramSet;
use si_engine::{Bytes, InputFault, LineFault, PartFault, Port, Serializability, run_script};
use std::alloc::Global;
use std::process::Abort;
use std::test::Fail;

const NEVER: u64 = u64::MAX;

const SET: &str = "table t 1;
program Look(k) { let x = get t[k] else -1; reply x; }
";

const LOOK: &[u8] = b"begin Look 7
step 0 2
commit 0
begin Look 8
abort 1
vacuum
";

const LOOKED: &[u8] = b"0 begun at 0
0 read t[7] absent
0 ready -1
0 committed 1
1 begun at 1
1 withdrawn
vacuumed 0
order 1
";

type Ended = Result<Serializability, PartFault>;

#[test]
fn ports_are_devices(rt: HostRuntime) -> Result<(), Fail> {
    let set = set_of(rt.alloc(), SET)?;
    let mut sink = Port::new(Vec::new(rt.alloc()));
    let ended = run_script(rt.alloc(), &set, &mut Port::new(LOOK), &mut sink);
    drop(set);
    assert!(rt; ended == Ok(Serializability::Order));
    assert!(rt; sink.into_inner().as_slice() == LOOKED);
    Ok(())
}

/// After how many pulls the source fails, and after how many pushes the sink; how the run has to
/// end, and how many bytes the sink has to have taken.
type Case = (u64, u64, Ended, usize);

fn check_run(rt: &impl Abort, alloc: Global, set: &ProgramSet, case: Case) {
    let (pulls, pushes, ended, taken) = case;
    let mut sink = SlowSink::new(alloc, pushes);
    let found = run_script(alloc, set, &mut SlowSource::new(LOOK, pulls), &mut sink);
    assert!(rt;
        found == ended && sink.bytes.len() == taken && LOOKED.starts_with(&sink.bytes),
        "after {pulls} pulls and {pushes} pushes"
    );
}

// One pull for each byte, and a last one for the end.
fn check_each_pull(rt: &impl Abort, alloc: Global, set: &ProgramSet) {
    for pulls in 0..=LOOK.len() as u64 {
        let ended = Err(PartFault::Input(InputFault::ReadFault));
        check_run(rt, alloc, set, (pulls, NEVER, ended, 0));
    }
}

// Each push takes three bytes.
fn check_each_push(rt: &impl Abort, alloc: Global, set: &ProgramSet) {
    for pushes in 0..34 {
        let ended = Err(PartFault::WriteFault);
        check_run(rt, alloc, set, (NEVER, pushes as u64, ended, 3 * pushes));
    }
}

#[test]
fn slow_devices_change_nothing_and_failing_ones_are_told(rt: HostRuntime) -> Result<(), Fail> {
    let set = set_of(rt.alloc(), SET)?;
    let whole = (NEVER, NEVER, Ok(Serializability::Order), LOOKED.len());
    check_run(&rt, rt.alloc(), &set, whole);
    check_each_pull(&rt, rt.alloc(), &set);
    check_each_push(&rt, rt.alloc(), &set);
    drop(set);
    Ok(())
}

#[test]
fn a_fault_leaves_nothing(rt: HostRuntime) -> Result<(), Fail> {
    let set = set_of(rt.alloc(), SET)?;
    let mut sink = SlowSink::new(rt.alloc(), NEVER);
    let script = b"begin Look 7\nvacuum 1\n".as_slice();
    let ended = run_script(rt.alloc(), &set, &mut Bytes::new(script), &mut sink);
    drop(set);
    assert!(rt; ended == Err(PartFault::Line(LineFault::BadLine { line: 2 })));
    assert!(rt; sink.bytes.is_empty());
    Ok(())
}
