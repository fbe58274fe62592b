//! Statements, and blocks of them.

ghost use Rattle.std.specs.Prelude.{◌≡◌, ◌↔◌, IfOk, IsTrue};
ghost use Rattle.prog_tree.specs.Evaluation.{cell_of, region_of};
ghost use Rattle.prog_tree.specs.Syntax.{Fork, Loop};
ghost use Rattle.prog_tree.specs.Tree.{key_tree, range_tree, listing_tree, test_tree};
ghost use Rattle.prog_tree.specs.Tree.{stmt_tree, block_tree};

use crate::cell::{Cell, Region};
use crate::env::Env;
use crate::expr::{Expr, Test};
use crate::name::Name;
use crate::stmt_copy::{
    copy_bind, copy_count, copy_delete, copy_get, copy_insert, copy_keep, copy_lacks, copy_need,
    copy_put, copy_reply, copy_sum,
};
use crate::stmt_same::{
    same_bind, same_count, same_delete, same_get, same_insert, same_keep, same_lacks, same_need,
    same_put, same_reply, same_sum,
};
use std::alloc::{AllocError, Global};

/// The key of a cell: an expression for each key column.
#[derive(Debug, Drop)]
pub enum Key {
    One(Expr),
    Two(Expr, Expr),
}

impl Key {
    /// The cell of a table that has this key, or `None` where a result lies outside i64.
    pub fn cell(&self, table: usize, env: &Env) -> Option<Cell>
        ensures { result ≡ cell_of table (key_tree self.now) env.now }
    {
        let (first, second) = match self {
            Key::One(first) => (first.value(env)?, 0),
            Key::Two(first, second) => (first.value(env)?, second.value(env)?),
        };
        Some(Cell {
            table,
            first,
            second,
        })
    }

    /// Another key that means the same.
    pub fn copy(&self, alloc: Global) -> Result<Self, AllocError>
        ensures { IfOk result (λ key. key_tree key ≡ key_tree self.now) }
    {
        Ok(match self {
            Key::One(first) => Key::One(first.copy(alloc)?),
            Key::Two(first, second) => Key::Two(first.copy(alloc)?, second.copy(alloc)?),
        })
    }

    /// Whether both mean the same.
    pub(crate) fn is_same(&self, other: &Key) -> bool
        ensures { IsTrue result ↔ (key_tree self.now ≡ key_tree other.now) }
    {
        match (self, other) {
            (Key::One(a), Key::One(b)) => a.is_same(b),
            (Key::Two(a, b), Key::Two(c, d)) => a.is_same(c) && b.is_same(d),
            _ => false,
        }
    }
}

/// Both ends of the last key column, which belong to the range. In a table of two columns the first
/// is fixed.
#[derive(Debug, Drop)]
pub enum Range {
    One { low: Expr, high: Expr },
    Two { first: Expr, low: Expr, high: Expr },
}

impl Range {
    /// The region of a table that the range is, or `None` where a result lies outside i64.
    pub fn region(&self, table: usize, env: &Env) -> Option<Region>
        ensures { result ≡ region_of table (range_tree self.now) env.now }
    {
        match self {
            Range::One { low, high } => Some(Region {
                table,
                first_low: low.value(env)?,
                first_high: high.value(env)?,
                second_low: 0,
                second_high: 0,
            }),
            Range::Two { first, low, high } => {
                let first = first.value(env)?;
                Some(Region {
                    table,
                    first_low: first,
                    first_high: first,
                    second_low: low.value(env)?,
                    second_high: high.value(env)?,
                })
            }
        }
    }

    pub(crate) fn copy(&self, alloc: Global) -> Result<Self, AllocError>
        ensures { IfOk result (λ range. range_tree range ≡ range_tree self.now) }
    {
        Ok(match self {
            Range::One { low, high } => Range::One {
                low: low.copy(alloc)?,
                high: high.copy(alloc)?,
            },
            Range::Two { first, low, high } => Range::Two {
                first: first.copy(alloc)?,
                low: low.copy(alloc)?,
                high: high.copy(alloc)?,
            },
        })
    }

    /// Whether both mean the same.
    pub(crate) fn is_same(&self, other: &Range) -> bool
        ensures { IsTrue result ↔ (range_tree self.now ≡ range_tree other.now) }
    {
        match (self, other) {
            (Range::One { low, high }, Range::One { low: l, high: h }) => {
                low.is_same(l) && high.is_same(h)
            }
            (
                Range::Two { first, low, high },
                Range::Two {
                    first: f,
                    low: l,
                    high: h,
                },
            ) => { first.is_same(f) && low.is_same(l) && high.is_same(h) }
            _ => false,
        }
    }
}

/// The head of an `each`: the names of a row's last key column and of its value, and the range
/// whose rows it lists.
#[derive(Debug, Drop)]
pub struct Listing {
    pub key: Name,
    pub value: Name,
    pub table: Name,
    pub range: Range,
}

impl Listing {
    pub(crate) fn copy(&self, alloc: Global) -> Result<Self, AllocError>
        ensures { IfOk result (λ listing. listing_tree listing ≡ listing_tree self.now) }
    {
        Ok(Listing {
            key: self.key.copy()?,
            value: self.value.copy()?,
            table: self.table.copy()?,
            range: self.range.copy(alloc)?,
        })
    }

    /// Whether both mean the same.
    pub(crate) fn is_same(&self, other: &Listing) -> bool
        ensures { IsTrue result ↔ (listing_tree self.now ≡ listing_tree other.now) }
    {
        self.key.is_same(&other.key)
            && self.value.is_same(&other.value)
            && self.table.is_same(&other.table)
            && self.range.is_same(&other.range)
    }
}

/// A statement.
#[derive(Debug, Drop)]
#[cycle(tree)]
pub enum Stmt {
    /// `let name = value;`
    Bind {
        name: Name,
        value: Expr,
    },
    /// `let name = get table[key] else otherwise;`
    Get {
        name: Name,
        table: Name,
        key: Key,
        otherwise: Expr,
    },
    /// `let name = need table[key];`
    Need {
        name: Name,
        table: Name,
        key: Key,
    },
    /// `let name = count table[range];`
    Count {
        name: Name,
        table: Name,
        range: Range,
    },
    /// `let name = sum table[range];`
    Sum {
        name: Name,
        table: Name,
        range: Range,
    },
    /// `lacks table[key];`
    Lacks {
        table: Name,
        key: Key,
    },
    /// `put table[key] = value;`
    Put {
        table: Name,
        key: Key,
        value: Expr,
    },
    /// `insert table[key] = value;`
    Insert {
        table: Name,
        key: Key,
        value: Expr,
    },
    /// `delete table[key];`
    Delete {
        table: Name,
        key: Key,
    },
    /// `keep table[key];`
    Keep {
        table: Name,
        key: Key,
    },
    /// `if test { then } else { otherwise }`
    Branch {
        test: Test,
        then: Block,
        otherwise: Block,
    },
    /// `each key, value in table[range] { body }`
    Each {
        listing: Listing,
        body: Block,
    },
    /// `reply value;`
    Reply {
        value: Expr,
    },
    /// `abort;`
    Abort,
}

impl Stmt {
    /// Another statement that means the same.
    #[cycle(copies)]
    pub fn copy(&self, alloc: Global) -> Result<Self, AllocError>
        ensures { IfOk result (λ stmt. stmt_tree stmt ≡ stmt_tree self.now) }
    {
        match self {
            Stmt::Bind { name, value } => copy_bind(alloc, name, value),
            Stmt::Get {
                name,
                table,
                key,
                otherwise,
            } => copy_get(alloc, name, table, key, otherwise),
            Stmt::Need { name, table, key } => copy_need(alloc, name, table, key),
            Stmt::Count { name, table, range } => copy_count(alloc, name, table, range),
            Stmt::Sum { name, table, range } => copy_sum(alloc, name, table, range),
            Stmt::Lacks { table, key } => copy_lacks(alloc, table, key),
            Stmt::Put { table, key, value } => copy_put(alloc, table, key, value),
            Stmt::Insert { table, key, value } => copy_insert(alloc, table, key, value),
            Stmt::Delete { table, key } => copy_delete(alloc, table, key),
            Stmt::Keep { table, key } => copy_keep(alloc, table, key),
            Stmt::Branch {
                test,
                then,
                otherwise,
            } => Ok(Stmt::Branch {
                test: test.copy()?,
                then: then.copy()?,
                otherwise: otherwise.copy()?,
            }),
            Stmt::Each { listing, body } => Ok(Stmt::Each {
                listing: listing.copy(alloc)?,
                body: body.copy()?,
            }),
            Stmt::Reply { value } => copy_reply(alloc, value),
            Stmt::Abort => Ok(Stmt::Abort),
        }
    }

    /// Whether both mean the same.
    #[cycle(compares)]
    pub(crate) fn is_same(&self, other: &Stmt) -> bool
        ensures { IsTrue result ↔ (stmt_tree self.now ≡ stmt_tree other.now) }
    {
        match other {
            Stmt::Bind { name, value } => same_bind(self, name, value),
            Stmt::Get {
                name,
                table,
                key,
                otherwise,
            } => same_get(self, name, table, key, otherwise),
            Stmt::Need { name, table, key } => same_need(self, name, table, key),
            Stmt::Count { name, table, range } => same_count(self, name, table, range),
            Stmt::Sum { name, table, range } => same_sum(self, name, table, range),
            Stmt::Lacks { table, key } => same_lacks(self, table, key),
            Stmt::Put { table, key, value } => same_put(self, table, key, value),
            Stmt::Insert { table, key, value } => same_insert(self, table, key, value),
            Stmt::Delete { table, key } => same_delete(self, table, key),
            Stmt::Keep { table, key } => same_keep(self, table, key),
            Stmt::Branch {
                test,
                then,
                otherwise,
            } => same_branch(self, test, then, otherwise),
            Stmt::Each { listing, body } => same_each(self, listing, body),
            Stmt::Reply { value } => same_reply(self, value),
            Stmt::Abort => matches!(self, Stmt::Abort),
        }
    }
}

// What a statement with blocks is compared with; those without are in stmt_same.rt

#[cycle(compares)]
#[tactic(auto, using(crate::proofs::TreeLemmas::is_fork))]
fn same_branch(stmt: &Stmt, test: &Test, then: &Block, otherwise: &Block) -> bool
    ensures { IsTrue result ↔ (stmt_tree stmt.now ≡
        Fork (test_tree test.now) (block_tree then.now) (block_tree otherwise.now)) }
{
    match stmt {
        Stmt::Branch {
            test: t,
            then: a,
            otherwise: b,
        } => t.is_same(test) && a.is_same(then) && b.is_same(otherwise),
        _ => false,
    }
}

#[cycle(compares)]
#[tactic(auto, using(crate::proofs::TreeLemmas::is_loop))]
fn same_each(stmt: &Stmt, listing: &Listing, body: &Block) -> bool
    ensures { IsTrue result ↔ (stmt_tree stmt.now ≡
        Loop (listing_tree listing.now) (block_tree body.now)) }
{
    match stmt {
        Stmt::Each {
            listing: l,
            body: b,
        } => l.is_same(listing) && b.is_same(body),
        _ => false,
    }
}

/// The statements of a block.
#[derive(Debug, Drop)]
#[cycle(tree)]
pub struct Block {
    pub stmts: Vec<Stmt>,
}

impl Block {
    /// Another block that means the same.
    #[cycle(copies)]
    pub fn copy(&self) -> Result<Self, AllocError>
        ensures { IfOk result (λ block. block_tree block ≡ block_tree self.now) }
    {
        let alloc = *self.stmts.allocator();
        let mut copies = Vec::with_capacity(alloc, self.stmts.len())?;
        for stmt in &self.stmts {
            copies.push(stmt.copy(alloc)?)?;
        }
        Ok(Block { stmts: copies })
    }

    /// Whether both have the same statements.
    #[cycle(compares)]
    #[tactic(auto, using(crate::proofs::TreeLemmas::same_length))]
    pub(crate) fn is_same(&self, other: &Block) -> bool
        ensures { IsTrue result ↔ (block_tree self.now ≡ block_tree other.now) }
    {
        if self.stmts.len() != other.stmts.len() {
            return false;
        }
        for (stmt, same) in self.stmts.iter().zip(&other.stmts) {
            if !stmt.is_same(same) {
                return false;
            }
        }
        true
    }
}
