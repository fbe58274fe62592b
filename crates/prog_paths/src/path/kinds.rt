//! What a statement does to its table.
ghost use Rattle.std.specs.Prelude.{◌≡◌};
ghost use Rattle.prog_tree.specs.Numbering.{number_of};
ghost use Rattle.prog_tree.specs.Tree.{stmt_tree};
ghost use Rattle.prog_check.specs.Accesses.{grows_used, number_used};
ghost use Rattle.prog_check.specs.Tables.{declaration, grows};
ghost use Rattle.prog_check.specs.Uses.{used_table_by};
ghost use Rattle.prog_paths.specs.Trails.{kinds_by};

use prog_check::{Kind, ProgramSet, table_use};
use prog_tree::{Name, Stmt};

/// The kinds of a statement's accesses in a row, two at most.
pub fn kinds(grow: bool, stmt: &Stmt) -> &'static [Kind]
    ensures { result.now ≡ kinds_by grow (stmt_tree stmt.now) }
{
    match stmt {
        Stmt::Get { .. } | Stmt::Count { .. } | Stmt::Sum { .. } | Stmt::Each { .. } => {
            &[Kind::Reads]
        }
        Stmt::Need { .. } if grow => &[Kind::Sees],
        Stmt::Need { .. } => &[Kind::Reads],
        Stmt::Lacks { .. } if grow => &[Kind::Lacks],
        Stmt::Lacks { .. } => &[Kind::Reads],
        Stmt::Put { .. } | Stmt::Delete { .. } => &[Kind::Writes],
        Stmt::Insert { .. } if grow => &[Kind::Adds],
        Stmt::Insert { .. } => &[Kind::Reads, Kind::Writes],
        Stmt::Keep { .. } => &[Kind::Keeps],
        Stmt::Bind { .. } | Stmt::Branch { .. } | Stmt::Reply { .. } | Stmt::Abort => &[],
    }
}

// The number of the table of a name, and whether it grows.
fn table_at(set: &ProgramSet, name: &Name) -> (usize, bool)
    ensures number { result.0 ≡ number_of set.now.tables.items name.now }
    ensures grow { result.1 ≡ grows (declaration set.now.tables.items name.now) }
{
    let tables = set.draft().tables.as_slice();
    match set.table_number(name.as_str()) {
        Some(number) => (number, tables[number].grow),
        None => (tables.len(), false),
    }
}

/// The number of the table that a statement uses, and whether it grows.
pub fn table_used(set: &ProgramSet, stmt: &Stmt) -> (usize, bool)
    ensures number { result.0
        ≡ number_used set.now.tables.items (used_table_by (stmt_tree stmt.now)) }
    ensures grow { result.1
        ≡ grows_used set.now.tables.items (used_table_by (stmt_tree stmt.now)) }
{
    match table_use(stmt) {
        Some((name, _)) => table_at(set, name),
        None => (0, false),
    }
}
