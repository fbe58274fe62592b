//! Programs, and the draft of a set of them.

ghost use Rattle.std.specs.Prelude.{◌≡◌, ◌↔◌, IfOk, IsTrue, map};
ghost use Rattle.prog_tree.specs.Tree.{program_tree, draft_tree};

use crate::name::{Name, copy_names, same_names};
use crate::stmt::Block;
use crate::table::{TableDecl, copy_tables, same_tables};
use std::alloc::{AllocError, Global};

/// A program: its parameters and its body.
#[derive(Debug, Drop)]
pub struct Program {
    pub name: Name,
    pub params: Vec<Name>,
    pub body: Block,
}

impl Program {
    /// Another program that means the same.
    pub fn copy(&self) -> Result<Self, AllocError>
        ensures { IfOk result (λ program. program_tree program ≡ program_tree self.now) }
    {
        Ok(Program {
            name: self.name.copy()?,
            params: copy_names(*self.params.allocator(), &self.params)?,
            body: self.body.copy()?,
        })
    }

    /// Whether both have the same name, the same parameters and the same body.
    pub fn is_same(&self, other: &Program) -> bool
        ensures { IsTrue result ↔ (program_tree self.now ≡ program_tree other.now) }
    {
        self.name.is_same(&other.name)
            && same_names(&self.params, &other.params)
            && self.body.is_same(&other.body)
    }
}

/// The tables and the programs of a text, in their order. Nothing of it is checked.
#[derive(Debug, Drop)]
pub struct Draft {
    pub tables: Vec<TableDecl>,
    pub programs: Vec<Program>,
}

fn copy_programs(alloc: Global, programs: &[Program]) -> Result<Vec<Program>, AllocError>
    ensures { IfOk result (λ copies.
        map program_tree copies.items ≡ map program_tree programs.now) }
{
    let mut copies = Vec::with_capacity(alloc, programs.len())?;
    for program in programs {
        copies.push(program.copy()?)?;
    }
    Ok(copies)
}

fn same_programs(programs: &[Program], others: &[Program]) -> bool
    ensures { IsTrue result ↔ (map program_tree programs.now ≡ map program_tree others.now) }
{
    if programs.len() != others.len() {
        return false;
    }
    for (program, other) in programs.iter().zip(others) {
        if !program.is_same(other) {
            return false;
        }
    }
    true
}

impl Draft {
    /// Another draft that means the same.
    pub fn copy(&self) -> Result<Self, AllocError>
        ensures { IfOk result (λ draft. draft_tree draft ≡ draft_tree self.now) }
    {
        Ok(Draft {
            tables: copy_tables(*self.tables.allocator(), &self.tables)?,
            programs: copy_programs(*self.programs.allocator(), &self.programs)?,
        })
    }

    /// Whether both have the same tables and the same programs, in the same order.
    pub fn is_same(&self, other: &Draft) -> bool
        ensures { IsTrue result ↔ (draft_tree self.now ≡ draft_tree other.now) }
    {
        same_tables(&self.tables, &other.tables) && same_programs(&self.programs, &other.programs)
    }
}
