//! Lists of jobs.
ghost use Rattle.std.specs.Prelude.{◌≡◌, ◌≤◌, ◌+◌, ◌↔◌, true, false, IfOk, IfErr, IsErrOf};
ghost use Rattle.prog_tree.specs.Tree.{draft_tree};
ghost use Rattle.si_engine.specs.Sources.{ForInput};
ghost use Rattle.si_engine.specs.Sayings.{IsPart, IsPartFault};
ghost use Rattle.job_list.specs.JobLines.{jobs_of};

use crate::job::Job;
use prog_check::ProgramSet;
use si_engine::{InputFault, ItemList, MAX_READS, PartFault, Source, read_part};
use std::alloc::Global;

/// The opening rows and the jobs of a list of jobs.
pub type JobList = ItemList<Job>;

/// Reads all of a source as a list of jobs for a set, or finds its first fault. Behind an error the
/// source may have been read in part.
pub fn read_jobs<S: Source>(
    alloc: Global,
    set: &ProgramSet,
    source: &mut S,
) -> Result<JobList, PartFault>
    ensures list { IfOk result (λ list. ForInput (S.left source.old) (λ part.
        IsPart (jobs_of (draft_tree set.now) part) part list)) }
    ensures fault { IfErr result (λ fault. S.has_failed source.new ≡ false
        → ForInput (S.left source.old) (λ part.
        IsPartFault (jobs_of (draft_tree set.now) part) part fault)) }
    ensures unread { S.has_failed source.new ≡ true
        ↔ IsErrOf result (PartFault.Input InputFault.ReadFault) }
    ensures reads { S.pulls source.new ≤ S.pulls source.old + MAX_READS }
{
    read_part(alloc, set, source)
}
