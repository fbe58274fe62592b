//! The plan of a set.
ghost use Rattle.std.specs.Prelude.{◌≡◌, All, IfOk, OnOk, Err};
ghost use Rattle.prog_tree.specs.Tree.{draft_tree};
ghost use Rattle.prog_check.specs.Paths.{paths_of};
ghost use Rattle.repair_laws.specs.Plans.{IsPlan, IsEnough};
ghost use Rattle.si_repair.specs.declared.fault.AnalyseFault as AnalyseFault;
ghost use Rattle.si_repair.specs.Findings.{AsksFew, AsksTooMany};
ghost use Rattle.si_repair.specs.Repairing.{IsInRange};

use crate::fault::AnalyseFault;
use crate::plans::Plan;
use crate::plans::choosing::choose;
use crate::plans::closing::closing_triples;
use conflict_pairs::class_table;
use dep_graph::Graph;
use prog_check::ProgramSet;
use prog_paths::paths;
use prog_tree::Sequence;
use std::alloc::Global;

/// The pairs of programs that a repair keeps apart. All pairs are taken in order. One is left out
/// where nothing is dangerous with those chosen before it and all behind it struck.
pub fn plan(alloc: Global, set: &ProgramSet) -> Result<Plan, AnalyseFault>
    ensures plan { IfOk result (λ plan. IsPlan (paths_of (draft_tree set.now)) plan.pairs) }
    ensures enough { IfOk result (λ plan. IsEnough (paths_of (draft_tree set.now)) plan.pairs) }
    ensures in_range { IfOk result (λ plan. All (IsInRange (draft_tree set.now)) plan.pairs) }
    ensures in_bounds { OnOk result (AsksFew (draft_tree set.now)) }
    ensures too_large { result ≡ Err AnalyseFault.TooLarge → AsksTooMany (draft_tree set.now) }
{
    let paths = paths(alloc, set)?;
    let table = class_table(alloc, &paths)?;
    let graph = Graph::of_classes(alloc, &table)?;
    let programs = set.draft().programs.len();
    let triples = closing_triples(alloc, &paths, &graph, programs)?;
    let chosen = choose(alloc, programs, triples)?;
    Ok(Plan {
        pairs: Sequence::from_vec(chosen),
    })
}
