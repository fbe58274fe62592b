//! The statements of the store, with all evaluated that comes before their looks.
ghost use Rattle.std.specs.Prelude.{◌≡◌, true, Some, option_map};
ghost use Rattle.prog_tree.specs.Numbering.{number_of};
ghost use Rattle.prog_tree.specs.Evaluation.{cell_of};
ghost use Rattle.prog_tree.specs.Tree.{expr_tree, key_tree, range_tree, stmt_tree};
ghost use Rattle.prog_run.specs.Cursor.{is_store_stmt};
ghost use Rattle.prog_run.specs.Looks.{question_of};
ghost use Rattle.prog_run.specs.Task.{CellUseTree, AskedTree, TaskTree, asked_tree, task_tree};
ghost use Rattle.prog_run.specs.Task.{cell_use_tree, region_use_tree};
ghost use Rattle.prog_run.specs.Task.{task_at, task_in, task_of_stmt, task_with};
ghost use Rattle.prog_run.specs.Step.{next_asking};
ghost use Rattle.prog_run.specs.View.{asked_region};

use crate::next::Next;
use prog_check::ProgramSet;
use prog_tree::{Block, Cell, Env, Expr, Key, Listing, Name, Range, Region, Stmt};

/// What a statement does with what its cell holds.
#[derive(Clone, Copy, Debug)]
pub enum CellUse<'a> {
    /// Binds its value, or another one where it is absent.
    Get { name: &'a Name, otherwise: &'a Expr },
    /// Binds its value, and ends the run where it is absent.
    Need { name: &'a Name },
    /// Ends the run where it is present.
    Lacks,
    /// Sets it to this value, and ends the run where it is present.
    Insert { value: i64 },
}

/// What a statement does with the rows of its region.
#[derive(Clone, Copy, Debug)]
pub enum RegionUse<'a> {
    /// Binds their number.
    Count {
        name: &'a Name,
    },
    /// Binds the total of their values.
    Sum {
        name: &'a Name,
    },
    /// Makes a turn for each.
    List {
        listing: &'a Listing,
        body: &'a Block,
    },
}

/// A question, and what its statement does with the answer.
#[derive(Clone, Copy, Debug)]
pub enum Asked<'a> {
    OfCell {
        cell: Cell,
        usage: CellUse<'a>,
    },
    OfRegion {
        region: Region,
        usage: RegionUse<'a>,
    },
}

/// What a statement is to do.
#[derive(Clone, Copy, Debug)]
pub enum Task<'a> {
    Ask(Asked<'a>),
    Put { cell: Cell, value: i64 },
    Remove { cell: Cell },
    Keep { cell: Cell },
}

impl Asked<'_> {
    /// What the run answers to its caller.
    pub fn next(self) -> Next
        ensures { result ≡ next_asking self.entry }
    {
        match self {
            Asked::OfCell { cell, .. } => Next::Get(cell),
            Asked::OfRegion { region, .. } => Next::Scan(region),
        }
    }

    /// The region whose rows are asked for, if any are.
    pub fn region(self) -> Option<Region>
        ensures { result ≡ asked_region (Some (question_of (asked_tree self.entry))) }
    {
        match self {
            Asked::OfCell { .. } => None,
            Asked::OfRegion { region, .. } => Some(region),
        }
    }
}

// The number of the table of a name, or how many tables there are where it is none's.
fn table_number(set: &ProgramSet, name: &Name) -> usize
    ensures { result ≡ number_of set.now.tables.items name.now }
{
    set.table_number(name.as_str())
        .unwrap_or(set.draft().tables.len())
}

fn cell_at(set: &ProgramSet, table: &Name, key: &Key, env: &Env) -> Option<Cell>
    ensures { result
        ≡ cell_of (number_of set.now.tables.items table.now) (key_tree key.now) env.now }
{
    key.cell(table_number(set, table), env)
}

// A look at the cell of a key.
fn look_at<'a>(
    set: &ProgramSet,
    table: &Name,
    key: &Key,
    env: &Env,
    usage: CellUse<'a>,
) -> Option<Task<'a>>
    ensures { option_map task_tree result
        ≡ task_at set.now.tables.items table.now (key_tree key.now) env.now
        (λ cell. Some (TaskTree.Ask (AskedTree.OfCell cell (cell_use_tree usage.entry)))) }
{
    let cell = cell_at(set, table, key, env)?;
    Some(Task::Ask(Asked::OfCell { cell, usage }))
}

// A look at the cell of a key, which an insert sets to a value.
fn insert_at<'a>(
    set: &ProgramSet,
    table: &Name,
    key: &Key,
    value: &Expr,
    env: &Env,
) -> Option<Task<'a>>
    ensures { option_map task_tree result
        ≡ task_with set.now.tables.items table.now (key_tree key.now) (expr_tree value.now) env.now
        (λ cell v. TaskTree.Ask (AskedTree.OfCell cell (CellUseTree.Insert v))) }
{
    let cell = cell_at(set, table, key, env)?;
    let usage = CellUse::Insert {
        value: value.value(env)?,
    };
    Some(Task::Ask(Asked::OfCell { cell, usage }))
}

// The cell of a key, and the value that a put sets it to.
fn put_at<'a>(
    set: &ProgramSet,
    table: &Name,
    key: &Key,
    value: &Expr,
    env: &Env,
) -> Option<Task<'a>>
    ensures { option_map task_tree result
        ≡ task_with set.now.tables.items table.now (key_tree key.now) (expr_tree value.now) env.now
        (λ cell v. TaskTree.Put cell v) }
{
    let cell = cell_at(set, table, key, env)?;
    let value = value.value(env)?;
    Some(Task::Put { cell, value })
}

// A look at the rows of a range.
fn look_in<'a>(
    set: &ProgramSet,
    table: &Name,
    range: &Range,
    env: &Env,
    usage: RegionUse<'a>,
) -> Option<Task<'a>>
    ensures { option_map task_tree result
        ≡ task_in set.now.tables.items table.now (range_tree range.now) env.now
        (λ region. Some (TaskTree.Ask
        (AskedTree.OfRegion region (region_use_tree usage.entry)))) }
{
    let region = range.region(table_number(set, table), env)?;
    Some(Task::Ask(Asked::OfRegion { region, usage }))
}

/// What a statement of the store is to do, or nothing where a result lies outside i64.
pub fn task_of<'a>(set: &ProgramSet, stmt: &'a Stmt, env: &Env) -> Option<Task<'a>>
    requires { is_store_stmt (stmt_tree stmt.now) ≡ true }
    ensures { option_map task_tree result
        ≡ task_of_stmt set.now.tables.items (stmt_tree stmt.now) env.now }
{
    match stmt {
        Stmt::Get {
            name,
            table,
            key,
            otherwise,
        } => look_at(set, table, key, env, CellUse::Get { name, otherwise }),
        Stmt::Need { name, table, key } => look_at(set, table, key, env, CellUse::Need { name }),
        Stmt::Lacks { table, key } => look_at(set, table, key, env, CellUse::Lacks),
        Stmt::Insert { table, key, value } => insert_at(set, table, key, value, env),
        Stmt::Count { name, table, range } => {
            look_in(set, table, range, env, RegionUse::Count { name })
        }
        Stmt::Sum { name, table, range } => {
            look_in(set, table, range, env, RegionUse::Sum { name })
        }
        Stmt::Put { table, key, value } => put_at(set, table, key, value, env),
        Stmt::Delete { table, key } => {
            let cell = cell_at(set, table, key, env)?;
            Some(Task::Remove { cell })
        }
        Stmt::Keep { table, key } => {
            let cell = cell_at(set, table, key, env)?;
            Some(Task::Keep { cell })
        }
        Stmt::Each { listing, body } => {
            let usage = RegionUse::List { listing, body };
            look_in(set, &listing.table, &listing.range, env, usage)
        }
        Stmt::Bind { .. } | Stmt::Branch { .. } | Stmt::Reply { .. } | Stmt::Abort => {
            unreachable!()
        }
    }
}
