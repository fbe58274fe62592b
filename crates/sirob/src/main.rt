//! The program `sirob`: hands its arguments and its ports on. It checks, certifies and repairs sets
//! of programs, runs scripts, audits histories, and does jobs on threads.
#![tactic(auto)]

mod command_fault;
mod command_line;
mod commands;
mod input;
mod limits;
mod lines;
mod parts;
mod program;
mod progress;
mod run_command;
mod run_work;
mod sentences;
mod status;

use crate::program::carry_out;
use si_engine::Port;
use std::process::ExitCode;
use std::rt::Env;
use std::{env, io};

fn main(rt: HostRuntime) -> ExitCode {
    let arguments = gather(&rt);
    let mut source = Port::new(rt.reader());
    let mut sink = Port::new(io::writer(&rt));
    let status = carry_out(&rt, &arguments, &mut source, &mut sink);
    status.exit_code()
}

// The words of the command line. The first is the program's name.
fn gather(rt: &(impl Env + AllocGlobal)) -> io::Result<Vec<String>> {
    Ok(env::args(rt)?.collect(rt.alloc())?)
}
