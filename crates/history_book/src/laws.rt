//! Laws of histories, each the contract of a function that does nothing.

ghost use Rattle.std.specs.Prelude.{◌≡◌, ◌+◌, ◌≤◌, ℕ, All, Bool, true, List, [], length, map, Some};
ghost use Rattle.prog_tree.specs.declared.cell.Cell.{Cell};
ghost use Rattle.prog_tree.specs.ChangeSet.{ChangeSet, changed};
ghost use Rattle.prog_tree.specs.Syntax.{DraftTree};
ghost use Rattle.prog_tree.specs.Table.{TableState, IsTableState};
ghost use Rattle.version_store.specs.Clash.{IsClash};
ghost use Rattle.history_book.specs.Audit.{AreRightBehind, IsWrongAt};
ghost use Rattle.history_book.specs.Dependencies.{depends};
ghost use Rattle.history_book.specs.History.{Instance, commits_of, evaluation, state_after};
ghost use Rattle.history_book.specs.History.{nth_instance, IsLawful, StartsBelow, NamesCommit};
ghost use Rattle.serial_orders.specs.Orders.{IsCycle, IsForward, IsReduced, IsUpTo, least_order};
ghost use Rattle.serial_orders.specs.Reasons.{IsReason};
ghost use Rattle.history_book.specs.Serial.{is_each_once, Fits, RunsTheSame};
ghost use Rattle.history_book.specs.Traced.{traces_of};
ghost use Rattle.history_book.specs.TrueBook.{IsTrueRow};
ghost use Rattle.history_book.specs.View.{history_of};
ghost use Rattle.history_book.specs.declared.audit.RowFault.{RowFault};
ghost use Rattle.history_book.specs.declared.instances.row.HistoryRow.{HistoryRow};
ghost use Rattle.serial_orders.specs.declared.reason.OrderReason.{OrderReason};

/// Where each instance sees only earlier commits, what was committed is what the instances write on
/// the states that they see, and each commit leads to the next state.
pub fn commits_are_what_the_instances_write()
    ensures commits { (set : DraftTree) → (opening : TableState) → (h : List Instance) →
        StartsBelow h
        → commits_of set opening h ≡ map (λ i. (evaluation set opening h i).changes) h }
    ensures next { (set : DraftTree) → (opening : TableState) → (h : List Instance) →
        StartsBelow h → (n : ℕ) → (i : Instance) → nth_instance h (n + 1) ≡ Some i →
        state_after set opening h (n + 1)
        ≡ changed (state_after set opening h n) (evaluation set opening h i).changes.cells }
    ensures ordered { (set : DraftTree) → (opening : TableState) → (h : List Instance) → (n : ℕ) →
        IsTableState opening → IsTableState (state_after set opening h n) }
{}

/// A clash names a commit above the start that changes or keeps the cell too.
#[tactic(auto, using(crate::proofs::ClashLaws::names_commit))]
pub fn clashes_name_a_commit()
    ensures { (ws : List ChangeSet) → (start : ℕ) → (w : ChangeSet) →
        (cell : Cell) → (number : ℕ) →
        IsClash ws start w (Some (cell, number)) → NamesCommit ws start cell number }
{}

/// The pairs of a test that follow by steps from others can be left out: the least order is the
/// same, and a cycle of what is left is a cycle of the whole.
pub fn least_orders_of_reduced_relations()
    ensures order { (n : ℕ) → (reduced before : ℕ → ℕ → Bool) → IsReduced n reduced before →
        least_order reduced n ≡ least_order before n }
    ensures cycles { (n : ℕ) → (reduced before : ℕ → ℕ → Bool) → IsReduced n reduced before →
        (numbers : List ℕ) → IsCycle reduced numbers → IsCycle before numbers }
{}

/// Where there is a least order, there is no cycle.
pub fn orders_are_of_relations_without_a_cycle()
    ensures { (n : ℕ) → (before : ℕ → ℕ → Bool) →
        ((i j : ℕ) → before i j ≡ true → IsUpTo n j) →
        (order numbers : List ℕ) → least_order before n ≡ Some order → IsCycle before numbers → ⊥ }
{}

/// The least order of a lawful history's dependencies is an equivalent serial order, and where
/// there is one, the dependencies have no cycle.
pub fn least_orders_fit()
    ensures fits { (set : DraftTree) → (opening : TableState) → (h : List Instance) →
        IsLawful set opening h → IsTableState opening → (order : List ℕ) →
        least_order (depends set opening h) (length h) ≡ Some order → Fits set opening h order }
    ensures acyclic { (set : DraftTree) → (opening : TableState) → (h : List Instance) →
        IsLawful set opening h → (order numbers : List ℕ) →
        least_order (depends set opening h) (length h) ≡ Some order →
        IsCycle (depends set opening h) numbers → ⊥ }
{}

/// In an order in which none has to stand before an earlier one, a serial run repeats the history:
/// each instance does all that it did, and its looks find the same.
pub fn forward_orders_run_the_same()
    ensures same { (set : DraftTree) → (opening : TableState) → (h : List Instance) →
        IsLawful set opening h → IsTableState opening → (order : List ℕ) →
        is_each_once (length h) order ≡ true → IsForward (depends set opening h) order →
        RunsTheSame set opening h order opening }
    ensures fits { (set : DraftTree) → (opening : TableState) → (h : List Instance) →
        IsLawful set opening h → IsTableState opening → (order : List ℕ) →
        is_each_once (length h) order ≡ true → IsForward (depends set opening h) order →
        Fits set opening h order }
{}

/// Only an instance of the history depends on another, or has another depend on it.
pub fn dependencies_are_of_instances()
    ensures { (set : DraftTree) → (opening : TableState) → (h : List Instance) → (i j : ℕ) →
        depends set opening h i j ≡ true → IsUpTo (length h) i × IsUpTo (length h) j }
{}

/// Each reason why one commit has to stand before another is one for a dependency between them.
pub fn reasons_are_of_dependencies()
    ensures { (set : DraftTree) → (opening : TableState) → (h : List Instance) → (i j : ℕ) →
        (reason : OrderReason) → IsReason (traces_of set opening h) i j reason →
        depends set opening h i j ≡ true }
{}

/// No row is wrong just where the rows' history is lawful and their replies are those of their
/// evaluations.
pub fn lawful_rows_are_right()
    ensures lawful { (set : DraftTree) → (opening : TableState) → (rows : List HistoryRow) →
        AreRightBehind set opening [] rows → IsLawful set opening (history_of rows) }
    ensures replies { (set : DraftTree) → (opening : TableState) → (rows : List HistoryRow) →
        AreRightBehind set opening [] rows → All (IsTrueRow set opening (history_of rows)) rows }
    ensures right { (set : DraftTree) → (opening : TableState) → (rows : List HistoryRow) →
        IsLawful set opening (history_of rows) →
        All (IsTrueRow set opening (history_of rows)) rows → AreRightBehind set opening [] rows }
    ensures wrong { (set : DraftTree) → (opening : TableState) → (rows : List HistoryRow) →
        (number : ℕ) → (fault : RowFault) →
        AreRightBehind set opening [] rows → IsWrongAt set opening rows number fault → ⊥ }
{}
