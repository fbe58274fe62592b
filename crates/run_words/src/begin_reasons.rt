//! Why no instance begins, in words.
ghost use Rattle.std.specs.Prelude.{◌≡◌, IfOk, string_bytes};
ghost use Rattle.prog_tree.specs.Tree.{draft_tree};
ghost use Rattle.text_places.specs.Listing.{listed};
ghost use Rattle.run_words.specs.BeginReasons.{begin_reason, full_text, signature, wrong_arguments};

use crate::shared_words::counted;
use fault_words::{program_name, program_params};
use history_book::{BeginFault, MAX_ENDINGS};
use job_list::Job;
use prog_check::ProgramSet;
use prog_tree::Name;
use std::alloc::{AllocError, Global};
use text_places::push_listed;

// Parameters, with commas between them.
fn listed_params(alloc: Global, params: &[Name]) -> Result<String, AllocError>
    ensures { IfOk result (λ text. string_bytes text ≡ listed params.now) }
{
    let mut text = String::new(alloc);
    for parameter in params {
        push_listed(&mut text, parameter.as_str())?;
    }
    Ok(text)
}

// A program with its parameters.
fn signature(alloc: Global, set: &ProgramSet, program: usize) -> Result<String, AllocError>
    ensures { IfOk result (λ text. string_bytes text ≡ signature (draft_tree set.now) program) }
{
    let name = program_name(set, program);
    let params = listed_params(alloc, program_params(set.draft(), program))?;
    format!(in alloc; "{name}({params})")
}

/// That a program takes another number of arguments.
pub fn wrong_arguments(
    alloc: Global,
    set: &ProgramSet,
    program: usize,
    given: usize,
) -> Result<String, AllocError>
    ensures { IfOk result (λ text. string_bytes text
        ≡ wrong_arguments (draft_tree set.now) program given) }
{
    let signature = signature(alloc, set, program)?;
    let params = program_params(set.draft(), program);
    let wanted = counted(alloc, params.len(), "argument")?;
    format!(in alloc; "`{signature}` takes {wanted}, and here it is given {given}")
}

/// Why no instance begins where there are as many as there may be.
pub fn full_words(alloc: Global) -> Result<String, AllocError>
    ensures { IfOk result (λ text. string_bytes text ≡ full_text) }
{
    format!(in alloc; "{MAX_ENDINGS} instances have ended or are under way, the most")
}

/// Why an instance of a job did not begin.
pub fn begin_reason(
    alloc: Global,
    set: &ProgramSet,
    job: &Job,
    fault: BeginFault,
) -> Result<String, AllocError>
    ensures { IfOk result (λ text. string_bytes text
        ≡ begin_reason (draft_tree set.now) job.now fault) }
{
    match fault {
        BeginFault::NoSuchProgram => format!(in alloc; "the set has no such program"),
        BeginFault::WrongArguments => wrong_arguments(alloc, set, job.program, job.args.len()),
        BeginFault::TooOld { .. } | BeginFault::TooNew { .. } => format!(in alloc;
            "no instance can begin at its number of commits"
        ),
        BeginFault::Full => full_words(alloc),
        BeginFault::Memory => format!(in alloc; "memory ran out"),
    }
}
