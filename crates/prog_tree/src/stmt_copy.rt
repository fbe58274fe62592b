//! The copies of statements without blocks, a function for each kind.

ghost use Rattle.std.specs.Prelude.{IfOk};
ghost use Rattle.prog_tree.specs.Syntax as s;
ghost use Rattle.prog_tree.specs.Tree.{IsPlain, expr_tree, key_tree, range_tree};

use crate::expr::Expr;
use crate::name::Name;
use crate::stmt::{Key, Range, Stmt};
use std::alloc::{AllocError, Global};

pub(crate) fn copy_bind(alloc: Global, name: &Name, value: &Expr) -> Result<Stmt, AllocError>
    ensures { IfOk result (λ stmt. IsPlain stmt (s.Bind name.now (expr_tree value.now))) }
{
    Ok(Stmt::Bind {
        name: name.copy()?,
        value: value.copy(alloc)?,
    })
}

pub(crate) fn copy_get(
    alloc: Global,
    name: &Name,
    table: &Name,
    key: &Key,
    otherwise: &Expr,
) -> Result<Stmt, AllocError>
    ensures { IfOk result (λ stmt. IsPlain stmt
        (s.Get name.now table.now (key_tree key.now) (expr_tree otherwise.now))) }
{
    Ok(Stmt::Get {
        name: name.copy()?,
        table: table.copy()?,
        key: key.copy(alloc)?,
        otherwise: otherwise.copy(alloc)?,
    })
}

pub(crate) fn copy_need(
    alloc: Global,
    name: &Name,
    table: &Name,
    key: &Key,
) -> Result<Stmt, AllocError>
    ensures { IfOk result (λ stmt. IsPlain stmt
        (s.Need name.now table.now (key_tree key.now))) }
{
    Ok(Stmt::Need {
        name: name.copy()?,
        table: table.copy()?,
        key: key.copy(alloc)?,
    })
}

pub(crate) fn copy_count(
    alloc: Global,
    name: &Name,
    table: &Name,
    range: &Range,
) -> Result<Stmt, AllocError>
    ensures { IfOk result (λ stmt. IsPlain stmt
        (s.Count name.now table.now (range_tree range.now))) }
{
    Ok(Stmt::Count {
        name: name.copy()?,
        table: table.copy()?,
        range: range.copy(alloc)?,
    })
}

pub(crate) fn copy_sum(
    alloc: Global,
    name: &Name,
    table: &Name,
    range: &Range,
) -> Result<Stmt, AllocError>
    ensures { IfOk result (λ stmt. IsPlain stmt
        (s.Sum name.now table.now (range_tree range.now))) }
{
    Ok(Stmt::Sum {
        name: name.copy()?,
        table: table.copy()?,
        range: range.copy(alloc)?,
    })
}

pub(crate) fn copy_lacks(alloc: Global, table: &Name, key: &Key) -> Result<Stmt, AllocError>
    ensures { IfOk result (λ stmt. IsPlain stmt (s.Lacks table.now (key_tree key.now))) }
{
    Ok(Stmt::Lacks {
        table: table.copy()?,
        key: key.copy(alloc)?,
    })
}

pub(crate) fn copy_put(
    alloc: Global,
    table: &Name,
    key: &Key,
    value: &Expr,
) -> Result<Stmt, AllocError>
    ensures { IfOk result (λ stmt. IsPlain stmt
        (s.Put table.now (key_tree key.now) (expr_tree value.now))) }
{
    Ok(Stmt::Put {
        table: table.copy()?,
        key: key.copy(alloc)?,
        value: value.copy(alloc)?,
    })
}

pub(crate) fn copy_insert(
    alloc: Global,
    table: &Name,
    key: &Key,
    value: &Expr,
) -> Result<Stmt, AllocError>
    ensures { IfOk result (λ stmt. IsPlain stmt
        (s.Insert table.now (key_tree key.now) (expr_tree value.now))) }
{
    Ok(Stmt::Insert {
        table: table.copy()?,
        key: key.copy(alloc)?,
        value: value.copy(alloc)?,
    })
}

pub(crate) fn copy_delete(alloc: Global, table: &Name, key: &Key) -> Result<Stmt, AllocError>
    ensures { IfOk result (λ stmt. IsPlain stmt (s.Delete table.now (key_tree key.now))) }
{
    Ok(Stmt::Delete {
        table: table.copy()?,
        key: key.copy(alloc)?,
    })
}

pub(crate) fn copy_keep(alloc: Global, table: &Name, key: &Key) -> Result<Stmt, AllocError>
    ensures { IfOk result (λ stmt. IsPlain stmt (s.Keep table.now (key_tree key.now))) }
{
    Ok(Stmt::Keep {
        table: table.copy()?,
        key: key.copy(alloc)?,
    })
}

pub(crate) fn copy_reply(alloc: Global, value: &Expr) -> Result<Stmt, AllocError>
    ensures { IfOk result (λ stmt. IsPlain stmt (s.Reply (expr_tree value.now))) }
{
    Ok(Stmt::Reply {
        value: value.copy(alloc)?,
    })
}
