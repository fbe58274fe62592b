//! Sets that can run under snapshot isolation without a cycle.
ghost use Rattle.std.specs.Prelude.{◌≡◌};
ghost use Rattle.prog_tree.specs.Tree.{draft_tree};
ghost use Rattle.prog_check.specs.Paths.{paths_of};
ghost use Rattle.prog_paths.specs.StaticGraph.{IsDangerous};

use prog_check::ProgramSet;
use std::marker::Model;

/// A set for which a certificate was accepted, so that it has no dangerous structure.
#[derive(Debug, Drop)]
pub struct RobustSet {
    set: ProgramSet,
}

impl Model for RobustSet {
    ghost use Rattle.prog_tree.specs.declared.program.Draft.{Draft};
    ghost use Rattle.prog_tree.specs.Tree.{draft_tree};
    ghost use Rattle.prog_tree.specs.contracts.stmt.Stmt as stmt;
    ghost use Rattle.prog_check.specs.Paths.{paths_of};
    ghost use Rattle.prog_paths.specs.StaticGraph.{IsDangerous};
    ghost use Rattle.std.specs.Coded.{codes};

    ghost Value = { Draft };

    ghost coded = { Prim.hlevel (codes, stmt.the_row.coded) };

    ghost view = { λ r. r.set };

    ghost invariant = { λ r. IsDangerous (paths_of (draft_tree r.set)) → ⊥ };
}

impl RobustSet {
    /// The set that a certificate was accepted for.
    pub(crate) fn accepted(set: ProgramSet) -> Self
        requires { ¬ IsDangerous (paths_of (draft_tree set)) }
        ensures { result ≡ set }
    {
        RobustSet { set }
    }

    pub fn set(&self) -> &ProgramSet
        ensures same { result.now ≡ self.now }
        ensures safe { ¬ IsDangerous (paths_of (draft_tree self.now)) }
    {
        &self.set
    }
}
