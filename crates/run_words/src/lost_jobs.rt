//! The jobs that did not commit, in words.
ghost use Rattle.std.specs.Prelude.{◌≡◌, ◌++◌, [], ◌∷◌, List, ℕ, IfOk, OnOk};
ghost use Rattle.std.specs.Prelude.{slice_get, string_bytes, take, if◌then◌else◌};
ghost use Rattle.prog_tree.specs.Tree.{draft_tree};
ghost use Rattle.text_places.specs.Listing.{TellsEach};
ghost use Rattle.run_words.specs.JobSpots.{IsFoundJob, IsSpot};
ghost use Rattle.run_words.specs.Limits.{most_told};
ghost use Rattle.run_words.specs.LostJobs.{is_lost_by, more_text, numbers_lost, place_text};
ghost use Rattle.run_words.specs.LostJobs.{IsJobLine, IsJobText, TellsJob, TellsLosses, TellsLost};

use crate::in_input::{Part, whole_line_text};
use crate::job_reasons::job_sentence;
use crate::job_spots::{FRONT, Spot, spot_of};
use crate::limits::MAX_TOLD;
use job_list::{Job, JobOutcome, Way};
use prog_check::ProgramSet;
use std::alloc::{AllocError, Global};
use text_places::{before, visible_text};

// Whether the job of a number ended in a way.
fn is_lost_by(way: Way, outcomes: &[JobOutcome], number: usize) -> bool
    ensures { result ≡ is_lost_by way (slice_get outcomes.now number) }
{
    match outcomes.get(number) {
        Some(outcome) => outcome.job_end.is_in(way),
        None => false,
    }
}

// Adds a number where it is one of those that are looked for.
fn push_if(numbers: &mut Vec<usize>, is_lost: bool, number: usize) -> Result<(), AllocError>
    ensures { OnOk result (numbers.new.items
        ≡ numbers.old.items ++ (if is_lost then number ∷ [] else [])) }
{
    if is_lost {
        numbers.push(number)?;
    }
    Ok(())
}

// The numbers of the jobs that ended so.
fn numbers_lost(alloc: Global, way: Way, outcomes: &[JobOutcome]) -> Result<Vec<usize>, AllocError>
    ensures { IfOk result (λ numbers. numbers.items ≡ numbers_lost way outcomes.now) }
{
    let mut numbers = Vec::new(alloc);
    for number in 0..outcomes.len() {
        let is_lost = is_lost_by(way, outcomes, number);
        push_if(&mut numbers, is_lost, number)?;
    }
    Ok(numbers)
}

/// A list of jobs, as a part of an input, with what came of each.
#[derive(Clone, Copy)]
pub struct ToldJobs<'a> {
    pub part: Part<'a>,
    pub jobs: &'a [Job],
    pub outcomes: &'a [JobOutcome],
}

#[tactic(auto, using(crate::proofs::WholeInput::same_text, crate::proofs::WholeInput::few_lines))]
fn place_text(alloc: Global, part: Part<'_>, spot: Spot) -> Result<String, AllocError>
    requires { IsSpot part.bytes.now spot }
    ensures { IfOk result (λ text. string_bytes text ≡ place_text part.entry spot.place) }
{
    let line = spot.line;
    let whole = whole_line_text(alloc, part, line)?;
    format!(in alloc; "line {line}{whole}")
}

// Where the job of a number stands.
fn job_text(
    alloc: Global,
    part: Part<'_>,
    number: usize,
    spot: Option<Spot>,
) -> Result<String, AllocError>
    requires { IsFoundJob part.bytes.now number spot }
    ensures { IfOk result (λ text. IsJobText part.entry number (string_bytes text)) }
{
    match spot {
        Some(spot) => place_text(alloc, part, spot),
        None => format!(in alloc; "job {number}"),
    }
}

// The line of the job of a number.
fn job_line(
    alloc: Global,
    part: Part<'_>,
    number: usize,
    spot: Option<Spot>,
    sentence: &str,
) -> Result<String, AllocError>
    requires { IsFoundJob part.bytes.now number spot }
    ensures { IfOk result (λ line. IsJobLine part.entry number sentence.now (string_bytes line)) }
{
    let text = job_text(alloc, part, number, spot)?;
    let shown = visible_text(alloc, sentence.as_bytes())?;
    format!(in alloc; "  {text}: {shown}\n")
}

// Adds the lines of jobs.
fn push_jobs(
    alloc: Global,
    set: &ProgramSet,
    told: ToldJobs<'_>,
    numbers: &[usize],
    out: &mut String,
) -> Result<(), AllocError>
    ensures { OnOk result ((lines : List ℕ)
        × TellsEach (TellsJob (draft_tree set.now) told.entry) numbers.now lines
        × (string_bytes out.new ≡ string_bytes out.old ++ lines)) }
{
    let mut last = FRONT;
    for index in 0..numbers.len() {
        let number = numbers[index];
        let spot = spot_of(told.part.bytes, last, number);
        let sentence = job_sentence(alloc, set, told.jobs, told.outcomes, number)?;
        let line = job_line(alloc, told.part, number, spot, &sentence)?;
        out.push_str(&line)?;
        last = spot.unwrap_or(last);
    }
    Ok(())
}

// That there are so many more.
fn more_text(alloc: Global, count: usize) -> Result<String, AllocError>
    ensures { IfOk result (λ text. string_bytes text ≡ more_text count) }
{
    if count == 0 {
        return Ok(String::new(alloc));
    }
    format!(in alloc; "  and {count} more\n")
}

// The lines of the first ones of some jobs.
fn first_lines(
    alloc: Global,
    set: &ProgramSet,
    told: ToldJobs<'_>,
    numbers: &[usize],
) -> Result<String, AllocError>
    ensures { IfOk result (λ lines. TellsEach (TellsJob (draft_tree set.now) told.entry)
        (take most_told numbers.now) (string_bytes lines)) }
{
    let mut lines = String::new(alloc);
    push_jobs(alloc, set, told, before(numbers, MAX_TOLD), &mut lines)?;
    Ok(lines)
}

// The jobs of these numbers, behind a heading.
fn lost_text(
    alloc: Global,
    set: &ProgramSet,
    told: ToldJobs<'_>,
    heading: &str,
    numbers: &[usize],
) -> Result<String, AllocError>
    ensures { IfOk result (λ words. TellsLost (TellsJob (draft_tree set.now) told.entry) heading.now
        numbers.now (string_bytes words)) }
{
    let [_, ..] = numbers else {
        return Ok(String::new(alloc));
    };
    let count = numbers.len();
    let lines = first_lines(alloc, set, told, numbers)?;
    let more = more_text(alloc, count.saturating_sub(MAX_TOLD))?;
    format!(in alloc; "{heading}{count}\n{lines}{more}")
}

// The jobs that ended in a way, behind a heading.
fn jobs_lost(
    alloc: Global,
    set: &ProgramSet,
    told: ToldJobs<'_>,
    way: Way,
    heading: &str,
) -> Result<String, AllocError>
    ensures { IfOk result (λ words. TellsLost (TellsJob (draft_tree set.now) told.entry) heading.now
        (numbers_lost way told.entry.outcomes.now) (string_bytes words)) }
{
    let numbers = numbers_lost(alloc, way, told.outcomes)?;
    lost_text(alloc, set, told, heading, &numbers)
}

/// Which jobs were refused, which aborted and which clashed for good: of each kind how many, and
/// the first eight; nothing where all committed.
pub fn lost_job_words(
    alloc: Global,
    set: &ProgramSet,
    told: ToldJobs<'_>,
) -> Result<String, AllocError>
    ensures { IfOk result (λ words. TellsLosses (TellsJob (draft_tree set.now) told.entry)
        told.entry.outcomes.now (string_bytes words)) }
{
    let refused = jobs_lost(alloc, set, told, Way::Refused, "jobs that were refused: ")?;
    let aborted = jobs_lost(alloc, set, told, Way::Aborted, "jobs that aborted: ")?;
    let clashed = jobs_lost(
        alloc,
        set,
        told,
        Way::Clashed,
        "jobs of which each try clashed: ",
    )?;
    format!(in alloc; "{refused}{aborted}{clashed}")
}
