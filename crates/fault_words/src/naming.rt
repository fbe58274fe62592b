//! What the tables, programs and cells of a set are called.
ghost use Rattle.std.specs.Prelude.{◌≡◌, IfOk, map, string_bytes};
ghost use Rattle.prog_check.specs.Faults.{program_names, table_names};
ghost use Rattle.prog_tree.specs.Tree.{draft_tree};
ghost use Rattle.fault_words.specs.Naming.{cell_text, cell_with, end_text, only_range};
ghost use Rattle.fault_words.specs.Naming.{program_name, program_params, range_text, region_text};
ghost use Rattle.fault_words.specs.Naming.{region_with, second_range};

use prog_check::ProgramSet;
use prog_tree::{Arity, Cell, Draft, Name, Region};
use std::alloc::{AllocError, Global};

/// The names of the tables.
pub fn table_names(alloc: Global, draft: &Draft) -> Result<Vec<&str>, AllocError>
    ensures { IfOk result (λ names. map (λ name. name.now) names.items
        ≡ table_names (draft_tree draft.now)) }
{
    let mut names = Vec::new(alloc);
    for table in &draft.tables {
        names.push(table.name.as_str())?;
    }
    Ok(names)
}

/// The names of the programs.
pub fn program_names(alloc: Global, draft: &Draft) -> Result<Vec<&str>, AllocError>
    ensures { IfOk result (λ names. map (λ name. name.now) names.items
        ≡ program_names (draft_tree draft.now)) }
{
    let mut names = Vec::new(alloc);
    for program in &draft.programs {
        names.push(program.name.as_str())?;
    }
    Ok(names)
}

/// The name of the program of a number; empty where there is none.
pub fn program_name(set: &ProgramSet, program: usize) -> &str
    ensures { result.now ≡ program_name (draft_tree set.now) program }
{
    match set.draft().programs.get(program) {
        Some(program) => program.name.as_str(),
        None => "",
    }
}

/// The parameters of the program of a number; none where there is none.
pub fn program_params(draft: &Draft, program: usize) -> &[Name]
    ensures { result.now ≡ program_params (draft_tree draft.now) program }
{
    match draft.programs.get(program) {
        Some(program) => program.params.as_slice(),
        None => &[],
    }
}

// A table's name with the key columns of a cell.
fn cell_with(
    alloc: Global,
    name: &str,
    arity: Arity,
    first: i64,
    second: i64,
) -> Result<String, AllocError>
    ensures { IfOk result (λ text. string_bytes text ≡ cell_with name.now arity first second) }
{
    match arity {
        Arity::One => format!(in alloc; "`{name}[{first}]`"),
        Arity::Two => format!(in alloc; "`{name}[{first}, {second}]`"),
    }
}

/// A cell as a statement names it.
pub fn cell_text(alloc: Global, set: &ProgramSet, cell: Cell) -> Result<String, AllocError>
    ensures { IfOk result (λ text. string_bytes text ≡ cell_text (draft_tree set.now) cell) }
{
    let Some(table) = set.draft().tables.get(cell.table) else {
        return format!(in alloc; "a cell");
    };
    cell_with(
        alloc,
        table.name.as_str(),
        table.arity,
        cell.first,
        cell.second,
    )
}

// An end of a range as a statement names it.
fn end_text(alloc: Global, end: i64) -> Result<String, AllocError>
    ensures { IfOk result (λ text. string_bytes text ≡ end_text end) }
{
    match end {
        i64::MIN => format!(in alloc; "least"),
        i64::MAX => format!(in alloc; "greatest"),
        _ => format!(in alloc; "{end}"),
    }
}

// Both ends of a range.
fn range_text(alloc: Global, low: i64, high: i64) -> Result<String, AllocError>
    ensures { IfOk result (λ text. string_bytes text ≡ range_text low high) }
{
    let low = end_text(alloc, low)?;
    let high = end_text(alloc, high)?;
    format!(in alloc; "{low}..{high}")
}

// A table's name with the range of its only key column.
fn only_range(alloc: Global, name: &str, low: i64, high: i64) -> Result<String, AllocError>
    ensures { IfOk result (λ text. string_bytes text ≡ only_range name.now low high) }
{
    let range = range_text(alloc, low, high)?;
    format!(in alloc; "`{name}[{range}]`")
}

// A table's name with its first key column and the range of its second.
fn second_range(
    alloc: Global,
    name: &str,
    first: i64,
    low: i64,
    high: i64,
) -> Result<String, AllocError>
    ensures { IfOk result (λ text. string_bytes text ≡ second_range name.now first low high) }
{
    let range = range_text(alloc, low, high)?;
    format!(in alloc; "`{name}[{first}, {range}]`")
}

// A table's name with the range of its last key column.
fn region_with(
    alloc: Global,
    name: &str,
    arity: Arity,
    region: Region,
) -> Result<String, AllocError>
    ensures { IfOk result (λ text. string_bytes text ≡ region_with name.now arity region) }
{
    match arity {
        Arity::One => only_range(alloc, name, region.first_low, region.first_high),
        Arity::Two => {
            let first = region.first_low;
            second_range(alloc, name, first, region.second_low, region.second_high)
        }
    }
}

/// A region as a statement names it.
pub fn region_text(alloc: Global, set: &ProgramSet, region: Region) -> Result<String, AllocError>
    ensures { IfOk result (λ text. string_bytes text ≡ region_text (draft_tree set.now) region) }
{
    let Some(table) = set.draft().tables.get(region.table) else {
        return format!(in alloc; "a range");
    };
    region_with(alloc, table.name.as_str(), table.arity, region)
}
