//! Why a job did not commit, in words.
ghost use Rattle.std.specs.Prelude.{◌≡◌, IfOk, slice_get, string_bytes};
ghost use Rattle.prog_tree.specs.Tree.{draft_tree};
ghost use Rattle.run_words.specs.JobSentences.{argument_text, arguments_text, named_call_text};
ghost use Rattle.run_words.specs.JobSentences.{clash_text, further_arguments, reason_of};
ghost use Rattle.run_words.specs.JobSentences.{sentence_of, tries_text, IsJobSentence};

use crate::begin_reasons::begin_reason;
use crate::limits::MAX_ARGUMENTS;
use crate::shared_words::cause_text;
use fault_words::{cell_text, program_name, program_params};
use job_list::{Job, JobEnd, JobOutcome};
use prog_check::ProgramSet;
use prog_tree::Name;
use std::alloc::{AllocError, Global};
use text_places::{before, push_listed};
use version_store::Clash;

// The argument of a number, with the name of its parameter.
fn argument_text(
    alloc: Global,
    params: &[Name],
    number: usize,
    argument: i64,
) -> Result<String, AllocError>
    ensures { IfOk result (λ text. string_bytes text
        ≡ argument_text (slice_get params.now number) argument) }
{
    match params.get(number) {
        Some(name) => {
            let name = name.as_str();
            format!(in alloc; "{name} = {argument}")
        }
        None => format!(in alloc; "{argument}"),
    }
}

// Arguments of a call, with the names of the parameters.
fn arguments_text(alloc: Global, params: &[Name], args: &[i64]) -> Result<String, AllocError>
    ensures { IfOk result (λ text. string_bytes text ≡ arguments_text params.now args.now) }
{
    let mut text = String::new(alloc);
    for index in 0..args.len() {
        let argument = argument_text(alloc, params, index, args[index])?;
        push_listed(&mut text, &argument)?;
    }
    Ok(text)
}

// That there are more, where there are.
fn further_arguments(count: usize) -> &'static str
    ensures { result.now ≡ further_arguments count }
{
    if count == 0 { "" } else { ", .." }
}

// The call of a job, as `Transfer(from = 3, to = 5, amount = 20)`.
fn named_call(alloc: Global, set: &ProgramSet, job: &Job) -> Result<String, AllocError>
    ensures { IfOk result (λ text. string_bytes text
        ≡ named_call_text (draft_tree set.now) job.now) }
{
    let name = program_name(set, job.program);
    let params = program_params(set.draft(), job.program);
    let args = job.args.as_slice();
    let arguments = arguments_text(alloc, params, before(args, MAX_ARGUMENTS))?;
    let further = further_arguments(args.len().saturating_sub(MAX_ARGUMENTS));
    format!(in alloc; "`{name}({arguments}{further})`")
}

fn tries_text(tries: u64) -> &'static str
    ensures { result.now ≡ tries_text tries }
{
    if tries == 1 { "try" } else { "tries" }
}

// Why no try of a job could commit.
fn clash_reason(
    alloc: Global,
    set: &ProgramSet,
    clash: Clash,
    tries: u64,
) -> Result<String, AllocError>
    ensures { IfOk result (λ text. string_bytes text
        ≡ clash_text (draft_tree set.now) clash tries) }
{
    let tried = tries_text(tries);
    let cell = cell_text(alloc, set, clash.cell)?;
    let commit = clash.number;
    format!(in alloc;
        "{tries} {tried}; at the last one commit {commit} changed or kept {cell} too, unseen by it"
    )
}

// Why a job did not commit; nothing of one that did.
fn reason(
    alloc: Global,
    set: &ProgramSet,
    job: &Job,
    outcome: &JobOutcome,
) -> Result<String, AllocError>
    ensures { IfOk result (λ text. string_bytes text ≡ reason_of (draft_tree set.now) job.now
        outcome.now.job_end outcome.now.clashes) }
{
    match &outcome.job_end {
        JobEnd::Committed { .. } => Ok(String::new(alloc)),
        JobEnd::Aborted(cause) => cause_text(alloc, set, *cause),
        JobEnd::Clashed(clash) => clash_reason(alloc, set, *clash, outcome.clashes),
        JobEnd::Refused(fault) => begin_reason(alloc, set, job, *fault),
    }
}

// The call of a job, and why it did not commit.
fn sentence(
    alloc: Global,
    set: &ProgramSet,
    job: &Job,
    outcome: &JobOutcome,
) -> Result<String, AllocError>
    ensures { IfOk result (λ sentence. string_bytes sentence
        ≡ sentence_of (draft_tree set.now) job.now outcome.now) }
{
    let call = named_call(alloc, set, job)?;
    let reason = reason(alloc, set, job, outcome)?;
    format!(in alloc; "{call}, {reason}")
}

/// The call of the job of a number, and why it did not commit.
pub fn job_sentence(
    alloc: Global,
    set: &ProgramSet,
    jobs: &[Job],
    outcomes: &[JobOutcome],
    number: usize,
) -> Result<String, AllocError>
    ensures { IfOk result (λ sentence. IsJobSentence (draft_tree set.now) jobs.now outcomes.now
        number (string_bytes sentence)) }
{
    match (jobs.get(number), outcomes.get(number)) {
        (Some(job), Some(outcome)) => sentence(alloc, set, job, outcome),
        _ => format!(in alloc; "it did not commit"),
    }
}
