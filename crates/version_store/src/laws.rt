//! Laws of the definitions, each the contract of a function that does nothing.

ghost use Rattle.std.specs.Prelude.{◌≡◌, ◌↔◌, ℕ, List, Option};
ghost use Rattle.prog_tree.specs.declared.cell.Cell.{Cell};
ghost use Rattle.prog_tree.specs.ChangeSet.{ChangeSet};
ghost use Rattle.prog_tree.specs.Table.{TableState, IsTableState};
ghost use Rattle.version_store.specs.Clash.{IsClash, clash_of};
ghost use Rattle.version_store.specs.StandsFor.{AreCommits, chain_of, trimmed};
ghost use Rattle.version_store.specs.Versions.{retained, versions_at};

/// The search over the touched cells, from the least on, finds the clash, and nothing else is one.
pub fn clashes_are_found()
    ensures { (ws : List ChangeSet) → (start : ℕ) → (changes : ChangeSet) →
        (clash : Option (Cell × ℕ)) →
        IsClash ws start changes clash ↔ (clash ≡ clash_of ws start changes) }
{}

/// Of each cell a vacuum leaves just the retained versions.
pub fn retained_versions_stay()
    ensures { (opening : TableState) → (ws : List ChangeSet) → (f : ℕ) → (c : Cell) →
        IsTableState opening → AreCommits ws →
        versions_at c (retained opening ws f) ≡ (trimmed f (chain_of opening ws c)).versions }
{}
