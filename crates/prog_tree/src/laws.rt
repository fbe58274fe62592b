//! Laws of the definitions, each the contract of a function that does nothing.

ghost use Rattle.std.specs.Prelude.{◌≡◌, ◌↔◌, ℤ, List, All, IsTrue};
ghost use Rattle.prog_tree.specs.declared.cell.Cell.{Cell};
ghost use Rattle.prog_tree.specs.declared.table.TableDecl.{TableDecl};
ghost use Rattle.prog_tree.specs.ChangeSet.{ChangedCells, HasI64Changes, changed};
ghost use Rattle.prog_tree.specs.Evaluation.{eval};
ghost use Rattle.prog_tree.specs.Literals.{HasI64Literals};
ghost use Rattle.prog_tree.specs.LookedAt.{has_looked};
ghost use Rattle.prog_tree.specs.Number.{IsI64, is_i64};
ghost use Rattle.prog_tree.specs.Syntax.{ProgramTree};
ghost use Rattle.prog_tree.specs.Table.{IsI64Cell, TableState, IsTableState, HasI64Rows, row_at};
ghost use Rattle.prog_tree.specs.Table.{with_row, without_row};

/// On two states that have the same at each cell that a program looks at, it does the same.
#[tactic(auto, using(crate::proofs::LookLaws::by_looks))]
pub fn evaluations_depend_on_looks()
    ensures { (tables : List TableDecl) → (program : ProgramTree) → (args : List ℤ) →
        (m n : TableState) → IsTableState m → IsTableState n →
        ((c : Cell) → IsTrue (has_looked (eval tables program args m) c) →
        row_at n c ≡ row_at m c) →
        eval tables program args n ≡ eval tables program args m }
{}

/// Edits keep the cell order, in which a state is what it has at each cell.
pub fn table_states_stay_in_order()
    ensures written { (m : TableState) → (c : Cell) → (v : ℤ) →
        IsTableState m → IsTableState (with_row m c v) }
    ensures removed { (m : TableState) → (c : Cell) →
        IsTableState m → IsTableState (without_row m c) }
    ensures changed { (m : TableState) → (changes : ChangedCells) →
        IsTableState m → IsTableState (changed m changes) }
    ensures same { (m n : TableState) → IsTableState m → IsTableState n →
        ((c : Cell) → row_at m c ≡ row_at n c) → m ≡ n }
{}

/// The test of i64 tells which numbers are.
#[tactic(auto, using(crate::proofs::NumberLaws::i64_is_tested))]
pub fn i64_is_tested()
    ensures { (z : ℤ) → IsTrue (is_i64 z) ↔ IsI64 z }
{}

/// Edits by numbers of i64 keep a state whose numbers are.
pub fn table_states_stay_i64()
    ensures written { (m : TableState) → (c : Cell) → (v : ℤ) → IsI64Cell c → IsI64 v →
        HasI64Rows m → HasI64Rows (with_row m c v) }
    ensures removed { (m : TableState) → (c : Cell) → HasI64Rows m → HasI64Rows (without_row m c) }
    ensures changed { (m : TableState) → (changes : ChangedCells) → HasI64Changes changes →
        HasI64Rows m → HasI64Rows (changed m changes) }
{}

/// From arguments and rows of i64, a program whose literals are i64 writes i64.
pub fn evaluations_write_i64()
    ensures { (tables : List TableDecl) → (program : ProgramTree) → (args : List ℤ) →
        (m : TableState) → HasI64Literals program → All IsI64 args → HasI64Rows m →
        HasI64Changes (eval tables program args m).changes.cells }
{}
