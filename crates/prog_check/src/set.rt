//! Checked sets.
ghost use Rattle.std.specs.Prelude.{◌≡◌, ◌<◌, None, map, length, unwrap_or, IfSome, IfOk, OnOk};
ghost use Rattle.prog_tree.specs.Numbering.{number_of};
ghost use Rattle.prog_tree.specs.Tree.{draft_tree};
ghost use Rattle.prog_check.specs.Faults.{table_names, program_names, first_fault};
ghost use Rattle.prog_check.specs.Names.{place_among};
ghost use Rattle.prog_check.specs.Sets.{Finds};
ghost use Rattle.prog_check.specs.Sound.{IsSound};

use crate::fault::CheckFault;
use crate::heads::{check_programs, check_tables};
use crate::literals::read_literals;
use crate::names::Names;
use crate::tables::Tables;
use prog_tree::Draft;
use std::alloc::{AllocError, Global};
use std::marker::Model;

/// A set of tables and programs without a fault. Contracts see its draft.
#[derive(Debug, Drop)]
pub struct ProgramSet {
    draft: Draft,
    tables: Names,
    programs: Names,
}

impl Model for ProgramSet {
    ghost use Rattle.prog_tree.specs.declared.program.Draft.{Draft};
    ghost use Rattle.prog_tree.specs.Tree.{draft_tree};
    ghost use Rattle.prog_tree.specs.contracts.stmt.Stmt as stmt;
    ghost use Rattle.prog_check.specs.Sets.{IsChecked};
    ghost use Rattle.std.specs.Coded.{codes};

    ghost Value = { Draft };

    ghost coded = { Prim.hlevel (codes, stmt.the_row.coded) };

    ghost view = { λ s. s.draft };

    ghost invariant = { λ s. IsChecked (draft_tree s.draft) s.tables s.programs };
}

/// The set of a draft, or the draft's first fault.
pub fn check(alloc: Global, draft: Draft) -> Result<ProgramSet, CheckFault>
    ensures found { Finds (λ set. set ≡ draft) result (first_fault (draft_tree draft)) }
    ensures sound { OnOk result (IsSound (draft_tree draft)) }
{
    read_literals(&draft);
    let tables = check_tables(alloc, &draft.tables)?;
    let programs = check_programs(alloc, &Tables::new(&draft.tables, &tables), &draft.programs)?;
    Ok(ProgramSet {
        draft,
        tables,
        programs,
    })
}

impl ProgramSet {
    pub fn draft(&self) -> &Draft
        ensures same { result.now ≡ self.now }
        ensures faultless { first_fault (draft_tree self.now) ≡ None }
        ensures sound { IsSound (draft_tree self.now) }
    {
        &self.draft
    }

    /// The number of the table of a name, in constant time.
    pub fn table_number(&self, name: &str) -> Option<usize>
        ensures place { result ≡ place_among (table_names (draft_tree self.now)) name.now }
        ensures number { unwrap_or result (length self.now.tables.items)
            ≡ number_of self.now.tables.items name.now }
        ensures within { IfSome result (λ n. n < length self.now.tables.items) }
    {
        self.tables.number(name)
    }

    /// The number of the program of a name, in constant time.
    pub fn program_number(&self, name: &str) -> Option<usize>
        ensures place { result ≡ place_among (program_names (draft_tree self.now)) name.now }
        ensures within { IfSome result (λ n. n < length self.now.programs.items) }
    {
        self.programs.number(name)
    }

    pub fn copy(&self) -> Result<Self, AllocError>
        ensures { IfOk result (λ copy. draft_tree copy ≡ draft_tree self.now) }
    {
        Ok(ProgramSet {
            draft: self.draft.copy()?,
            tables: self.tables.copy()?,
            programs: self.programs.copy()?,
        })
    }
}
