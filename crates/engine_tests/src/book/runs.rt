//! Runs as plain data.

use prog_check::ProgramSet;
use prog_run::{Next, Run};
use std::alloc::Global;
use std::process::Abort;

/// A run of a program, which takes so many steps and has each question for a cell answered alike.
#[derive(Clone, Copy)]
pub struct Ride {
    pub program: usize,
    pub args: &'static [i64],
    pub held: Option<i64>,
    pub steps: usize,
}

fn step(rt: &impl Abort, run: &mut Run<'_>, held: Option<i64>) {
    if let Next::Get(_) = run.advance().expect(rt, "memory") {
        run.answer_get(held).expect(rt, "memory");
    }
}

/// The run.
pub fn run_of<'a>(rt: &impl Abort, alloc: Global, set: &'a ProgramSet, ride: &Ride) -> Run<'a> {
    let mut run = Run::new(alloc, set, ride.program, ride.args).expect(rt, "a run");
    for _ in 0..ride.steps {
        step(rt, &mut run, ride.held);
    }
    run
}
