//! Laws of the static graph of a set and its lawful histories, each the contract of a function that
//! does nothing.

ghost use Rattle.std.specs.Prelude.{ℕ, List};
ghost use Rattle.prog_tree.specs.Syntax.{DraftTree};
ghost use Rattle.prog_tree.specs.Table.{TableState, HasI64Rows};
ghost use Rattle.prog_check.specs.Sound.{IsSound};
ghost use Rattle.history_book.specs.History.{Instance, IsLawful, state_after};
ghost use Rattle.si_engine.specs.Robustness.{LawOfCycles, LawOfInserts, LawOfNodes, LawOfSafeSets};
ghost use Rattle.si_engine.specs.Robustness.{LawOfLastSteps, LawOfSingleInserts, LawOfStaticEdges};
ghost use Rattle.si_engine.specs.Robustness.{LawOfVulnerableEdges};
ghost use Rattle.si_engine.specs.Runs.{LawOfWrittenOrders};

/// From opening rows of i64, the states of a lawful history have rows of i64.
pub fn states_have_i64_rows()
    ensures { (set : DraftTree) → (opening : TableState) → (h : List Instance) → IsSound set →
        IsLawful set opening h → HasI64Rows opening → (n : ℕ) →
        HasI64Rows (state_after set opening h n) }
{}

/// Each committed instance follows a node under an assignment with its arguments. The cells that
/// this gives to the accesses that change or keep are cells that the instance changed or kept.
pub fn instances_follow_nodes()
    ensures { LawOfNodes }
{}

/// A row of a grow table is inserted at most once: it is there after that commit, and not before.
pub fn grow_tables_gain_each_row_once()
    ensures there { LawOfInserts }
    ensures once { LawOfSingleInserts }
{}

/// Each dependency has a question of its static edge whose two accesses meet, each at some time
/// under the assignment that its instance follows.
pub fn dependencies_are_static_edges()
    ensures { LawOfStaticEdges }
{}

/// A read-write dependency between concurrent instances is a vulnerable edge: what covers it would
/// be a cell that both changed or kept.
pub fn concurrent_dependencies_are_vulnerable()
    ensures { LawOfVulnerableEdges }
{}

/// The last two steps of a cycle, the second of which goes to its least commit, are read-write
/// dependencies between concurrent instances: each missed a change of the next one.
pub fn cycles_end_in_two_missed_changes()
    ensures { LawOfLastSteps }
{}

/// A cycle of dependencies shows a dangerous structure: where there is none, there is no cycle.
pub fn cycles_are_dangerous()
    ensures { LawOfCycles }
{}

/// So a set without a dangerous structure has no lawful history with a cycle of dependencies.
pub fn safe_sets_have_no_cycle()
    ensures { LawOfSafeSets }
{}

/// Where a run of a script ends in an order, what it wrote is what `run_robust` promises of its
/// outcome: the machine's replies and rows, and an order along which the instances that committed,
/// one after another, give the same replies and leave the same rows.
pub fn written_orders_are_serial()
    ensures { LawOfWrittenOrders }
{}
