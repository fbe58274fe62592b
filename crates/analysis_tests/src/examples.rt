//! Texts that several rooms take, and the committing paths of texts.

ghost use Rattle.std.specs.Prelude.{All, IsTrue};
ghost use Rattle.prog_paths.specs.Questions.{ChangesSingleCells};

use conflict_pairs::changes_single_cells;
use example_sets::set_of;
use prog_paths::{Path, paths};
use robust_cert::Certificate;
use std::alloc::{AllocError, Global};
use std::test::Fail;

/// Two programs that read what the other writes.
pub const SKEW: &str = "\
table t 1;
program Left() { let a = get t[1] else 0; let b = get t[2] else 0; put t[1] = a + b; }
program Right() { let a = get t[1] else 0; let b = get t[2] else 0; put t[2] = a + b; }
";

/// The certificate of the set that adds to each row of a range and keeps a cell.
pub const KEPT_PAYS: &str =
    "{\"bodies\":[1],\"entries\":[[\"cover\",0,1,0,2,0,0,[[[\"n\",0]],[[\"n\",0]]]]],\
    \"levels\":[1],\"version\":2}";

/// The certificate of the report set with a cell that a post and a report keep.
pub const KEPT_REPORTS: &str =
    "{\"entries\":[[\"cover\",2,2,0,2,0,0,[[[\"m\",0],[\"t\",0]],[[\"t\",0],[\"m\",0]]]]],\
    \"levels\":[3,3,3],\"version\":1}";

/// How many reasons a certificate keeps.
pub fn reason_count(certificate: &Certificate) -> usize {
    let (_, reasons) = certificate.entries.parts();
    reasons.len()
}

/// Five branches, and these pairs of a read and a write.
fn push_wide_body(text: &mut String, pairs: usize) -> Result<(), AllocError> {
    text.push_str("if v < 0 { } if v < 0 { } if v < 0 { } if v < 0 { } if v < 0 { } ")?;
    for pair in 0..pairs {
        write!(text, "let a{pair} = get t[v] else 0; put t[v] = v; ")?;
    }
    Ok(())
}

fn push_wide_programs(text: &mut String, pairs: usize) -> Result<(), AllocError> {
    for number in 0..16 {
        write!(text, "program P{number}(v) {{ ")?;
        push_wide_body(text, pairs)?;
        text.push_str("}\n")?;
    }
    Ok(())
}

/// Sixteen programs with five branches and some pairs of a read and a write each.
pub fn wide_text(alloc: Global, pairs: usize) -> Result<String, AllocError> {
    let mut text = String::from_str(alloc, "table t 1;\n")?;
    push_wide_programs(&mut text, pairs)?;
    Ok(text)
}

/// The committing paths of a text.
pub fn paths_of(alloc: Global, text: &str) -> Result<Vec<Path>, Fail> {
    let set = set_of(alloc, text)?;
    let paths = paths(alloc, &set);
    drop(set);
    Ok(paths?)
}

/// The committing paths of a wide text.
pub fn wide_paths(alloc: Global, pairs: usize) -> Result<Vec<Path>, Fail> {
    let text = wide_text(alloc, pairs)?;
    paths_of(alloc, text.as_str())
}

/// Whether each path changes single cells, which tables ask of paths.
pub fn change_single_cells(paths: &[Path]) -> bool
    ensures { IsTrue result → All ChangesSingleCells paths.now }
{
    paths.iter().all(|path| changes_single_cells(path))
}
