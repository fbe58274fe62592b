//! What workers tell of jobs.

ghost use Rattle.std.specs.Prelude.{◌≡◌, ◌<◌, ◌∷◌, [], length, IfOk, Some, None, map, flat_map};
ghost use Rattle.std.specs.Prelude.{option_copied};
ghost use Rattle.si_workers.specs.declared.told.ToldOfJob.TheVariants.{Nothing};
ghost use Rattle.si_workers.specs.Gathered.{outcome_in, with_one, AreToldMore};
ghost use Rattle.si_workers.specs.Told.{AreTold};

use job_list::{Job, JobOutcome};
use job_worker::Done;
use std::alloc::{AllocError, Global};
use std::marker::Model;

/// What was told of one job.
#[derive(Debug, Drop)]
pub enum ToldOfJob {
    /// Nothing.
    Nothing,
    /// One outcome.
    Once(JobOutcome),
    /// More than one.
    Often,
}

impl ToldOfJob {
    // One more outcome was told.
    fn add(&mut self, outcome: JobOutcome)
        ensures { self.new ≡ with_one self.old outcome }
    {
        let told = match self {
            ToldOfJob::Nothing => ToldOfJob::Once(outcome),
            ToldOfJob::Once(_) | ToldOfJob::Often => ToldOfJob::Often,
        };
        *self = told;
    }
}

/// A job, and what was told of it. Contracts see its outcome where there is exactly one.
#[derive(Debug, Drop)]
pub struct Tiding<'j> {
    pub job: &'j Job,
    told: ToldOfJob,
}

impl<'j> Model for Tiding<'j> {
    ghost use Rattle.std.specs.Prelude.{Option};
    ghost use Rattle.job_list.specs.declared.job.Job.{Job};
    ghost use Rattle.job_list.specs.declared.job.JobOutcome.{JobOutcome};
    ghost use Rattle.si_workers.specs.Gathered.{outcome_in};

    ghost Value = { Job × Option JobOutcome };

    ghost view = { λ t. (t.job.now, outcome_in t.told) };
}

impl<'j> Tiding<'j> {
    // A job with what was told of it.
    fn of(job: &'j Job, told: ToldOfJob) -> Self
        ensures { result ≡ (job.now, outcome_in told) }
    {
        Tiding { job, told }
    }

    /// Its outcome, where there is exactly one.
    pub fn outcome(&self) -> Option<&JobOutcome>
        ensures { option_copied result ≡ self.now.1 }
    {
        match &self.told {
            ToldOfJob::Once(outcome) => Some(outcome),
            ToldOfJob::Nothing | ToldOfJob::Often => None,
        }
    }

    /// The same by value.
    pub fn into_outcome(self) -> Option<JobOutcome>
        ensures { result ≡ self.entry.1 }
    {
        let Tiding { job: _, told } = self;
        match told {
            ToldOfJob::Once(outcome) => Some(outcome),
            ToldOfJob::Nothing | ToldOfJob::Often => None,
        }
    }
}

// Nothing was told of jobs yet.
fn nothing_told(alloc: Global, jobs: &[Job]) -> Result<Vec<ToldOfJob>, AllocError>
    ensures { IfOk result (λ told. told.items ≡ map (λ job. Nothing) jobs.now) }
{
    let mut told = Vec::with_capacity(alloc, jobs.len())?;
    for _job in jobs {
        told.push(ToldOfJob::Nothing)?;
    }
    Ok(told)
}

// One more report came in. One of no job goes.
fn tell(told: &mut Vec<ToldOfJob>, job: usize, outcome: JobOutcome)
    ensures { AreToldMore told.old.items told.new.items ((job, outcome) ∷ []) }
{
    if job < told.len() {
        told[job].add(outcome);
    }
}

// The reports of a worker came in.
fn tell_all(told: &mut Vec<ToldOfJob>, reports: Vec<(usize, JobOutcome)>)
    ensures { AreToldMore told.old.items told.new.items reports.items }
{
    for report in reports {
        let (job, outcome) = report;
        tell(told, job, outcome);
    }
}

// All that workers tell came in.
fn all_told(alloc: Global, jobs: &[Job], done: Vec<Done>) -> Result<Vec<ToldOfJob>, AllocError>
    ensures { IfOk result (λ told. AreToldMore (map (λ job. Nothing) jobs.now) told.items
        (flat_map (λ one. one.reports.items) done.items)) }
{
    let mut told = nothing_told(alloc, jobs)?;
    for one in done {
        let Done { reports, .. } = one;
        tell_all(&mut told, reports);
    }
    Ok(told)
}

// Each job with what was told of it.
fn tidings(alloc: Global, jobs: &[Job], told: Vec<ToldOfJob>) -> Result<Vec<Tiding<'_>>, AllocError>
    requires { length jobs.now ≡ length told.items }
    ensures jobs { IfOk result (λ tidings. map (λ t. t.0) tidings.items ≡ jobs.now) }
    ensures told { IfOk result (λ tidings.
        map (λ t. t.1) tidings.items ≡ map outcome_in told.items) }
{
    let mut tidings = Vec::with_capacity(alloc, told.len())?;
    for one in told {
        let job = &jobs[tidings.len()];
        tidings.push(Tiding::of(job, one))?;
    }
    Ok(tidings)
}

/// What the workers tell of each job.
pub fn gather(alloc: Global, jobs: &[Job], done: Vec<Done>) -> Result<Vec<Tiding<'_>>, AllocError>
    ensures { IfOk result (λ told.
        AreTold jobs.now (flat_map (λ one. one.reports.items) done.items) told.items) }
{
    let told = all_told(alloc, jobs, done)?;
    let gathered = tidings(alloc, jobs, told)?;
    Ok(gathered)
}
