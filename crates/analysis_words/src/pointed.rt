//! Accesses pointed at in the text of a set.
ghost use Rattle.std.specs.Prelude.{IfNone, IfOk, IfSome, string_bytes};
ghost use Rattle.analysis_words.specs.Nodes.{seen, HasNoAccess};
ghost use Rattle.analysis_words.specs.Refusing.{PointsAtAccess};

use crate::shown::{Shown, access_place};
use std::alloc::{AllocError, Global};
use text_places::point_out;

/// Says a sentence of an access of a node, where its statement begins; nothing where it is not
/// found.
pub fn point_at_access(
    alloc: Global,
    shown: Shown<'_>,
    node: usize,
    access: usize,
    sentence: &str,
) -> Result<Option<String>, AllocError>
    ensures said { IfOk result (λ said. IfSome said (λ words. PointsAtAccess (seen shown.entry) node
        access sentence.now (string_bytes words))) }
    ensures none { IfOk result (λ said. IfNone said (HasNoAccess (seen shown.entry) node access)) }
{
    let Some(place) = access_place(shown, node, access) else {
        return Ok(None);
    };
    let words = point_out(alloc, shown.text.bytes(), place, sentence)?;
    Ok(Some(words))
}
