//! Ways through a program as far as they have come.
ghost use Rattle.std.specs.Prelude.{◌≡◌, ◌<◌, ◌++◌, map, IfOk, OnOk};
ghost use Rattle.prog_tree.specs.Tree.{stmt_tree};
ghost use Rattle.prog_paths.specs.Kinds.{access_with};
ghost use Rattle.prog_paths.specs.Trails.{past, with_choice};

use crate::limits::MAX_UNKNOWNS;
use crate::path::columns::{Columns, columns_of};
use crate::path::kinds::{kinds, table_used};
use prog_check::{Access, Accesses, Choices, Kind, ProgramSet};
use prog_tree::{Name, Sequence, Stmt};
use std::alloc::{AllocError, Global};

/// The choices and the accesses of a way so far, and the number of its next unknown.
#[derive(Drop)]
pub struct Trail {
    pub choices: Choices,
    pub accesses: Accesses,
    pub unknown: usize,
}

impl Trail {
    fn copied(&self, alloc: Global) -> Result<Trail, AllocError>
        ensures { IfOk result (λ copy. copy ≡ self.now) }
    {
        Ok(Trail {
            choices: Sequence::from_slice(alloc, self.choices.as_slice())?,
            accesses: Sequence::from_slice(alloc, self.accesses.as_slice())?,
            unknown: self.unknown,
        })
    }

    /// The trail that takes the first block of a branch, or the second.
    pub fn with_choice(self, first: bool) -> Result<Trail, AllocError>
        ensures { IfOk result (λ trail. trail ≡ with_choice first self) }
    {
        let mut trail = self;
        trail.choices.push(first)?;
        Ok(trail)
    }

    /// A copy of the trail that takes the first block of a branch, or the second.
    pub fn copied_with_choice(&self, alloc: Global, first: bool) -> Result<Trail, AllocError>
        ensures { IfOk result (λ trail. trail ≡ with_choice first self.now) }
    {
        let copy = self.copied(alloc)?;
        copy.with_choice(first)
    }
}

// Adds an access of each kind.
fn add_accesses(
    accesses: &mut Accesses,
    table: usize,
    columns: Columns,
    sure: bool,
    place: usize,
    kinds: &[Kind],
) -> Result<(), AllocError>
    ensures { OnOk result (accesses.new
        ≡ accesses.old ++ map (access_with table columns sure place) kinds.now) }
{
    for kind in kinds {
        accesses.push(Access {
            kind: *kind,
            table,
            first: columns.first,
            second: columns.second,
            place,
            sure,
        })?;
    }
    Ok(())
}

/// Goes past a statement of this number itself, without its blocks. It isn't sure in the body of an
/// `each`.
pub fn pass(
    set: &ProgramSet,
    params: &[Name],
    sure: bool,
    number: usize,
    stmt: &Stmt,
    trail: &mut Trail,
) -> Result<(), AllocError>
    requires { trail.old.unknown < MAX_UNKNOWNS }
    ensures { OnOk result (trail.new
        ≡ past set.now.tables.items params.now sure number (stmt_tree stmt.now) trail.old) }
{
    let Some(columns) = columns_of(params, trail.unknown, stmt) else {
        return Ok(());
    };
    let (table, grow) = table_used(set, stmt);
    let kinds = kinds(grow, stmt);
    add_accesses(&mut trail.accesses, table, columns, sure, number, kinds)?;
    trail.unknown = columns.next;
    Ok(())
}
