//! Tables as a set declares them.

ghost use Rattle.std.specs.Prelude.{◌≡◌, ◌↔◌, IfOk, IsTrue};

use crate::name::Name;
use std::alloc::{AllocError, Global};

/// How many key columns a table has.
#[derive(Clone, Copy, Debug, PartialEq, Eq)]
pub enum Arity {
    One,
    Two,
}

/// The declaration of a table. A `grow` table is changed by `insert` alone.
#[derive(Debug, Drop)]
pub struct TableDecl {
    pub name: Name,
    pub arity: Arity,
    pub grow: bool,
}

impl TableDecl {
    /// Another declaration of the same.
    pub fn copy(&self) -> Result<Self, AllocError>
        ensures { IfOk result (λ table. table ≡ self.now) }
    {
        Ok(TableDecl {
            name: self.name.copy()?,
            arity: self.arity,
            grow: self.grow,
        })
    }

    /// Whether both declare the same.
    pub fn is_same(&self, other: &TableDecl) -> bool
        ensures { IsTrue result ↔ (self.now ≡ other.now) }
    {
        self.name.is_same(&other.name) && self.arity == other.arity && self.grow == other.grow
    }
}

/// Copies of tables, in their order.
pub fn copy_tables(alloc: Global, tables: &[TableDecl]) -> Result<Vec<TableDecl>, AllocError>
    ensures { IfOk result (λ copies. copies.items ≡ tables.now) }
{
    let mut copies = Vec::with_capacity(alloc, tables.len())?;
    for table in tables {
        copies.push(table.copy()?)?;
    }
    Ok(copies)
}

/// Whether both lists declare the same tables, in the same order.
pub fn same_tables(tables: &[TableDecl], others: &[TableDecl]) -> bool
    ensures { IsTrue result ↔ (tables.now ≡ others.now) }
{
    if tables.len() != others.len() {
        return false;
    }
    for (table, other) in tables.iter().zip(others) {
        if !table.is_same(other) {
            return false;
        }
    }
    true
}
