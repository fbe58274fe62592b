//! The analysis of a set.
ghost use Rattle.std.specs.Prelude.{◌≡◌, IfOk, MatchResult, OnOk, Err};
ghost use Rattle.prog_tree.specs.Tree.{draft_tree};
ghost use Rattle.prog_check.specs.Paths.{paths_of};
ghost use Rattle.prog_paths.specs.Few.{AreFew};
ghost use Rattle.si_repair.specs.declared.fault.AnalyseFault as AnalyseFault;
ghost use Rattle.prog_paths.specs.StaticGraph.{IsDangerous};
ghost use Rattle.dep_graph.specs.Danger.{IsLeastDanger};
ghost use Rattle.si_repair.specs.Certificates.{AreLevels};
ghost use Rattle.si_repair.specs.Findings.{AsksFew, AsksTooMany, IsRightFinding};

use crate::certificate::{certificate_of, levels_of};
use crate::entries::{entries_of, entries_of_par};
use crate::fault::AnalyseFault;
use crate::finding::Finding;
use conflict_pairs::{ClassTable, class_table, class_table_par};
use dep_graph::{Danger, Graph};
use prog_check::ProgramSet;
use prog_paths::paths;
use std::alloc::{AllocError, Global};
use std::thread::Threads;

// The levels of the nodes of a table, or its least dangerous structure.
fn levels_or_danger(
    alloc: Global,
    table: &ClassTable<'_>,
) -> Result<Result<Vec<u32>, Danger>, AllocError>
    requires { AreFew table.now.paths }
    ensures { IfOk result (λ found. MatchResult found
        (λ levels. AreLevels table.now.paths levels.items × ¬ IsDangerous table.now.paths)
        (IsLeastDanger table.now.paths)) }
{
    let graph = Graph::of_classes(alloc, table)?;
    match graph.danger()? {
        Some(danger) => Ok(Err(danger)),
        None => Ok(Ok(levels_of(alloc, &graph)?)),
    }
}

/// The certificate that a set is robust, or its least dangerous structure.
pub fn certify(alloc: Global, set: &ProgramSet) -> Result<Finding, AnalyseFault>
    ensures finding { IfOk result
        (λ finding. IsRightFinding (paths_of (draft_tree set.now)) finding) }
    ensures in_bounds { OnOk result (AsksFew (draft_tree set.now)) }
    ensures too_large { result ≡ Err AnalyseFault.TooLarge → AsksTooMany (draft_tree set.now) }
{
    let paths = paths(alloc, set)?;
    let table = class_table(alloc, &paths)?;
    let levels = match levels_or_danger(alloc, &table)? {
        Ok(levels) => levels,
        Err(danger) => return Ok(Finding::Refused(danger)),
    };
    let entries = entries_of(alloc, &table)?;
    let certificate = certificate_of(alloc, &paths, entries, levels)?;
    Ok(Finding::Robust(certificate))
}

/// As `certify`; where there are many questions, several threads answer them.
pub fn certify_par(
    rt: &(impl Threads + Sync),
    alloc: Global,
    set: &ProgramSet,
) -> Result<Finding, AnalyseFault>
    ensures finding { IfOk result
        (λ finding. IsRightFinding (paths_of (draft_tree set.now)) finding) }
    ensures in_bounds { OnOk result (AsksFew (draft_tree set.now)) }
    ensures too_large { result ≡ Err AnalyseFault.TooLarge → AsksTooMany (draft_tree set.now) }
{
    let paths = paths(alloc, set)?;
    let table = class_table_par(rt, alloc, &paths)?;
    let levels = match levels_or_danger(alloc, &table)? {
        Ok(levels) => levels,
        Err(danger) => return Ok(Finding::Refused(danger)),
    };
    let entries = entries_of_par(rt, alloc, &table)?;
    let certificate = certificate_of(alloc, &paths, entries, levels)?;
    Ok(Finding::Robust(certificate))
}
