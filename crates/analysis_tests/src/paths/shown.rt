//! Paths as texts, one line for each.

use prog_paths::{Access, Column, Path};
use std::alloc::{AllocError, Global};

/// A column of one term as that term, and another by both ends.
fn show_column(text: &mut String, column: &Column) -> Result<(), AllocError> {
    if column.low == column.high {
        write!(text, "{:?}", column.low)?;
    } else {
        write!(text, "{:?}..{:?}", column.low, column.high)?;
    }
    Ok(())
}

fn show_access(text: &mut String, access: &Access) -> Result<(), AllocError> {
    write!(text, " {:?} {}[", access.kind, access.table)?;
    show_column(text, &access.first)?;
    if let Some(second) = &access.second {
        text.push_str(", ")?;
        show_column(text, second)?;
    }
    write!(text, "] {}", access.place)?;
    if !access.sure {
        text.push_str(" in a body")?;
    }
    text.push_str(";")
}

/// The path's program, its choices, and its accesses by kind, table, key and place, and whether they
/// stand in a body.
pub fn shown_path(alloc: Global, path: &Path) -> Result<String, AllocError> {
    let mut text = format!(in alloc; "{} {:?}:", path.program, path.choices.as_slice())?;
    for access in path.accesses.as_slice() {
        show_access(&mut text, access)?;
    }
    Ok(text)
}

/// Each path on a line.
pub fn shown(alloc: Global, paths: &[Path]) -> Result<String, AllocError> {
    let mut text = String::new(alloc);
    for path in paths {
        text.push_str(shown_path(alloc, path)?.as_str())?;
        text.push_str("\n")?;
    }
    Ok(text)
}
