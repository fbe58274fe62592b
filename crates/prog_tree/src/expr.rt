//! Expressions and tests, and what they come to.

ghost use Rattle.std.specs.Prelude.{◌≡◌, ◌↔◌, IfOk, IsTrue, map};
ghost use Rattle.prog_tree.specs.Tree.{expr_tree, relation_sign, comparison_tree, clause_tree};
ghost use Rattle.prog_tree.specs.Tree.{test_tree};
ghost use Rattle.prog_tree.specs.Value.{value_of, relates, comparison_holds, all_hold, holds_of};

use crate::env::Env;
use crate::name::Name;
use std::alloc::{AllocError, Global};

/// An expression over i64 values.
#[derive(Debug, Drop)]
pub enum Expr {
    Literal(i64),
    Name(Name),
    Plus(Box<Expr>, Box<Expr>),
    Minus(Box<Expr>, Box<Expr>),
    Times(Box<Expr>, Box<Expr>),
}

impl Expr {
    /// The exact value, or `None` where a result lies outside i64 (or a name has no value).
    pub fn value(&self, env: &Env) -> Option<i64>
        ensures { result ≡ value_of (expr_tree self.now) env.now }
    {
        match self {
            Expr::Literal(n) => Some(*n),
            Expr::Name(name) => env.get(name),
            Expr::Plus(left, right) => left.value(env)?.checked_add(right.value(env)?),
            Expr::Minus(left, right) => left.value(env)?.checked_sub(right.value(env)?),
            Expr::Times(left, right) => left.value(env)?.checked_mul(right.value(env)?),
        }
    }

    /// Another expression that means the same.
    pub fn copy(&self, alloc: Global) -> Result<Self, AllocError>
        ensures { IfOk result (λ expr. expr_tree expr ≡ expr_tree self.now) }
    {
        Ok(match self {
            Expr::Literal(n) => Expr::Literal(*n),
            Expr::Name(name) => Expr::Name(name.copy()?),
            Expr::Plus(left, right) => {
                Expr::Plus(
                    Box::new(alloc, left.copy(alloc)?)?,
                    Box::new(alloc, right.copy(alloc)?)?,
                )
            }
            Expr::Minus(left, right) => {
                Expr::Minus(
                    Box::new(alloc, left.copy(alloc)?)?,
                    Box::new(alloc, right.copy(alloc)?)?,
                )
            }
            Expr::Times(left, right) => {
                Expr::Times(
                    Box::new(alloc, left.copy(alloc)?)?,
                    Box::new(alloc, right.copy(alloc)?)?,
                )
            }
        })
    }

    /// Whether both mean the same.
    pub(crate) fn is_same(&self, other: &Expr) -> bool
        ensures { IsTrue result ↔ (expr_tree self.now ≡ expr_tree other.now) }
    {
        match (self, other) {
            (Expr::Literal(n), Expr::Literal(m)) => n == m,
            (Expr::Name(a), Expr::Name(b)) => a.is_same(b),
            (Expr::Plus(a, b), Expr::Plus(c, d)) => a.is_same(c) && b.is_same(d),
            (Expr::Minus(a, b), Expr::Minus(c, d)) => a.is_same(c) && b.is_same(d),
            (Expr::Times(a, b), Expr::Times(c, d)) => a.is_same(c) && b.is_same(d),
            _ => false,
        }
    }
}

/// The sign of a comparison.
#[derive(Clone, Copy, Debug, PartialEq, Eq)]
pub enum Relation {
    Less,
    LessEqual,
    Greater,
    GreaterEqual,
    Equal,
    NotEqual,
}

impl Relation {
    // Whether two values stand in the relation.
    fn holds(self, left: i64, right: i64) -> bool
        ensures { result ≡ relates (relation_sign self) left right }
    {
        match self {
            Relation::Less => left < right,
            Relation::LessEqual => left <= right,
            Relation::Greater => left > right,
            Relation::GreaterEqual => left >= right,
            Relation::Equal => left == right,
            Relation::NotEqual => left != right,
        }
    }
}

/// A comparison of two expressions, which a `not` negates.
#[derive(Debug, Drop)]
pub struct Comparison {
    pub negated: bool,
    pub left: Expr,
    pub relation: Relation,
    pub right: Expr,
}

impl Comparison {
    // Whether it holds, or `None` where a result lies outside i64.
    fn holds(&self, env: &Env) -> Option<bool>
        ensures { result ≡ comparison_holds (comparison_tree self.now) env.now }
    {
        let left = self.left.value(env)?;
        let right = self.right.value(env)?;
        let holds = self.relation.holds(left, right);
        Some(if self.negated { !holds } else { holds })
    }

    pub(crate) fn copy(&self, alloc: Global) -> Result<Self, AllocError>
        ensures { IfOk result (λ comparison.
            comparison_tree comparison ≡ comparison_tree self.now) }
    {
        Ok(Comparison {
            negated: self.negated,
            left: self.left.copy(alloc)?,
            relation: self.relation,
            right: self.right.copy(alloc)?,
        })
    }

    /// Whether both mean the same.
    pub(crate) fn is_same(&self, other: &Comparison) -> bool
        ensures { IsTrue result ↔ (comparison_tree self.now ≡ comparison_tree other.now) }
    {
        self.negated == other.negated
            && self.relation == other.relation
            && self.left.is_same(&other.left)
            && self.right.is_same(&other.right)
    }
}

/// Comparisons that are joined by `and`.
#[derive(Debug, Drop)]
pub struct Clause {
    pub all: Vec<Comparison>,
}

impl Clause {
    // Whether all comparisons hold, or `None` where a result lies outside i64.
    fn holds(&self, env: &Env) -> Option<bool>
        ensures { result ≡ all_hold (clause_tree self.now) env.now }
    {
        let mut holds = true;
        for comparison in &self.all {
            holds &= comparison.holds(env)?;
        }
        Some(holds)
    }

    pub(crate) fn copy(&self) -> Result<Self, AllocError>
        ensures { IfOk result (λ clause. clause_tree clause ≡ clause_tree self.now) }
    {
        let alloc = *self.all.allocator();
        let mut copies = Vec::with_capacity(alloc, self.all.len())?;
        for comparison in &self.all {
            copies.push(comparison.copy(alloc)?)?;
        }
        Ok(Clause { all: copies })
    }

    /// Whether both have the same comparisons.
    pub(crate) fn is_same(&self, other: &Clause) -> bool
        ensures { IsTrue result ↔ (clause_tree self.now ≡ clause_tree other.now) }
    {
        if self.all.len() != other.all.len() {
            return false;
        }
        for (comparison, same) in self.all.iter().zip(&other.all) {
            if !comparison.is_same(same) {
                return false;
            }
        }
        true
    }
}

/// A test: clauses that are joined by `or`.
#[derive(Debug, Drop)]
pub struct Test {
    pub any: Vec<Clause>,
}

impl Test {
    /// Whether some clause holds, or `None` where a result lies outside i64. All comparisons are
    /// made.
    pub fn holds(&self, env: &Env) -> Option<bool>
        ensures { result ≡ holds_of (test_tree self.now) env.now }
    {
        let mut holds = false;
        for clause in &self.any {
            holds |= clause.holds(env)?;
        }
        Some(holds)
    }

    /// Another test that means the same.
    pub fn copy(&self) -> Result<Self, AllocError>
        ensures { IfOk result (λ test. test_tree test ≡ test_tree self.now) }
    {
        let mut copies = Vec::with_capacity(*self.any.allocator(), self.any.len())?;
        for clause in &self.any {
            copies.push(clause.copy()?)?;
        }
        Ok(Test { any: copies })
    }

    /// Whether both have the same clauses.
    pub(crate) fn is_same(&self, other: &Test) -> bool
        ensures { IsTrue result ↔ (test_tree self.now ≡ test_tree other.now) }
    {
        if self.any.len() != other.any.len() {
            return false;
        }
        for (clause, same) in self.any.iter().zip(&other.any) {
            if !clause.is_same(same) {
                return false;
            }
        }
        true
    }
}
