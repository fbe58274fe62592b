//! What a statement without blocks is compared with, a function for each kind.

ghost use Rattle.std.specs.Prelude.{◌↔◌, IsTrue};
ghost use Rattle.prog_tree.specs.Syntax as s;
ghost use Rattle.prog_tree.specs.Tree.{IsPlain, expr_tree, key_tree, range_tree};

use crate::expr::Expr;
use crate::name::Name;
use crate::stmt::{Key, Range, Stmt};

pub(crate) fn same_bind(stmt: &Stmt, name: &Name, value: &Expr) -> bool
    ensures { IsTrue result ↔ IsPlain stmt.now (s.Bind name.now (expr_tree value.now)) }
{
    match stmt {
        Stmt::Bind { name: x, value: v } => name.is_same(x) && value.is_same(v),
        _ => false,
    }
}

pub(crate) fn same_get(stmt: &Stmt, name: &Name, table: &Name, key: &Key, otherwise: &Expr) -> bool
    ensures { IsTrue result ↔
        IsPlain stmt.now (s.Get name.now table.now (key_tree key.now) (expr_tree otherwise.now)) }
{
    match stmt {
        Stmt::Get {
            name: x,
            table: t,
            key: k,
            otherwise: v,
        } => name.is_same(x) && table.is_same(t) && key.is_same(k) && otherwise.is_same(v),
        _ => false,
    }
}

pub(crate) fn same_need(stmt: &Stmt, name: &Name, table: &Name, key: &Key) -> bool
    ensures { IsTrue result ↔ IsPlain stmt.now (s.Need name.now table.now (key_tree key.now)) }
{
    match stmt {
        Stmt::Need {
            name: x,
            table: t,
            key: k,
        } => name.is_same(x) && table.is_same(t) && key.is_same(k),
        _ => false,
    }
}

pub(crate) fn same_count(stmt: &Stmt, name: &Name, table: &Name, range: &Range) -> bool
    ensures { IsTrue result ↔
        IsPlain stmt.now (s.Count name.now table.now (range_tree range.now)) }
{
    match stmt {
        Stmt::Count {
            name: x,
            table: t,
            range: r,
        } => name.is_same(x) && table.is_same(t) && range.is_same(r),
        _ => false,
    }
}

pub(crate) fn same_sum(stmt: &Stmt, name: &Name, table: &Name, range: &Range) -> bool
    ensures { IsTrue result ↔
        IsPlain stmt.now (s.Sum name.now table.now (range_tree range.now)) }
{
    match stmt {
        Stmt::Sum {
            name: x,
            table: t,
            range: r,
        } => name.is_same(x) && table.is_same(t) && range.is_same(r),
        _ => false,
    }
}

pub(crate) fn same_lacks(stmt: &Stmt, table: &Name, key: &Key) -> bool
    ensures { IsTrue result ↔ IsPlain stmt.now (s.Lacks table.now (key_tree key.now)) }
{
    match stmt {
        Stmt::Lacks { table: t, key: k } => table.is_same(t) && key.is_same(k),
        _ => false,
    }
}

pub(crate) fn same_put(stmt: &Stmt, table: &Name, key: &Key, value: &Expr) -> bool
    ensures { IsTrue result ↔
        IsPlain stmt.now (s.Put table.now (key_tree key.now) (expr_tree value.now)) }
{
    match stmt {
        Stmt::Put {
            table: t,
            key: k,
            value: v,
        } => table.is_same(t) && key.is_same(k) && value.is_same(v),
        _ => false,
    }
}

pub(crate) fn same_insert(stmt: &Stmt, table: &Name, key: &Key, value: &Expr) -> bool
    ensures { IsTrue result ↔
        IsPlain stmt.now (s.Insert table.now (key_tree key.now) (expr_tree value.now)) }
{
    match stmt {
        Stmt::Insert {
            table: t,
            key: k,
            value: v,
        } => table.is_same(t) && key.is_same(k) && value.is_same(v),
        _ => false,
    }
}

pub(crate) fn same_delete(stmt: &Stmt, table: &Name, key: &Key) -> bool
    ensures { IsTrue result ↔ IsPlain stmt.now (s.Delete table.now (key_tree key.now)) }
{
    match stmt {
        Stmt::Delete { table: t, key: k } => table.is_same(t) && key.is_same(k),
        _ => false,
    }
}

pub(crate) fn same_keep(stmt: &Stmt, table: &Name, key: &Key) -> bool
    ensures { IsTrue result ↔ IsPlain stmt.now (s.Keep table.now (key_tree key.now)) }
{
    match stmt {
        Stmt::Keep { table: t, key: k } => table.is_same(t) && key.is_same(k),
        _ => false,
    }
}

pub(crate) fn same_reply(stmt: &Stmt, value: &Expr) -> bool
    ensures { IsTrue result ↔ IsPlain stmt.now (s.Reply (expr_tree value.now)) }
{
    match stmt {
        Stmt::Reply { value: v } => value.is_same(v),
        _ => false,
    }
}
