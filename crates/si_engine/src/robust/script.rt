//! Runs of scripts over robust sets.
ghost use Rattle.std.specs.Prelude.{◌≤◌, ◌+◌};
ghost use Rattle.prog_tree.specs.Tree.{draft_tree};
ghost use Rattle.si_engine.specs.Runs.{IsRobustScriptRun};

use crate::input::part_fault::PartFault;
use crate::input::source::Source;
use crate::limits::MAX_READS;
use crate::output::finding::Serializability;
use crate::output::sink::Sink;
use crate::run::run_script_before;
use crate::witness::Witness;
use robust_cert::RobustSet;
use std::alloc::Global;

/// As `run_script_before`, on a set that a certificate was accepted for: the last line is an order.
pub fn run_robust_script_before<S: Source, K: Sink, W: Witness>(
    alloc: Global,
    set: &RobustSet,
    source: &mut S,
    sink: &mut K,
    witness: &mut W,
) -> Result<Serializability, PartFault>
    ensures run { IsRobustScriptRun (draft_tree set.now)
        (S.left source.old) (S.has_failed source.new)
        (K.has_failed sink.new) (K.taken sink.old) (K.taken sink.new) result }
    ensures reads { S.pulls source.new ≤ S.pulls source.old + MAX_READS }
{
    run_script_before(alloc, set.set(), source, sink, witness)
}
