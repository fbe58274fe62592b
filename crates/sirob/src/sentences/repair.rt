//! What is said to people of repairs.

use crate::sentences::kept::Kept;
use crate::sentences::kept_input::KeptInput;
use analysis_words::repair_words;
use std::alloc::{AllocError, Global};

/// What a repair has put into the set of an input.
pub fn repair_sentence(
    alloc: Global,
    kept: &Kept,
    promoting: bool,
) -> Result<Option<String>, AllocError> {
    let (Some(set), Some(repair)) = (&kept.set, &kept.repair) else {
        return Ok(None);
    };
    let text = KeptInput::of(&kept.input).text;
    let pairs = repair.plan.pairs.as_slice();
    repair_words(alloc, text, set, &repair.repaired, pairs, promoting)
}
