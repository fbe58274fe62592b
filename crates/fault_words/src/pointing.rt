//! A sentence with the place that it is said of.
ghost use Rattle.std.specs.Prelude.{◌≡◌, IfOk, map, string_bytes};
ghost use Rattle.text_places.specs.Quotes.{pointed_out, visible};
ghost use Rattle.fault_words.specs.Pointing.{PointsAt};

use std::alloc::{AllocError, Global};
use text_places::{point_out, visible_text};

/// Says a sentence of a place in one line, as `point_out` does.
pub fn point_at(
    alloc: Global,
    text: &[u8],
    place: usize,
    sentence: &str,
) -> Result<String, AllocError>
    ensures points { IfOk result (λ words. PointsAt text.now place (string_bytes words)) }
    ensures said { IfOk result (λ words. string_bytes words
        ≡ pointed_out text.now place (map visible sentence.now)) }
{
    let shown = visible_text(alloc, sentence.as_bytes())?;
    point_out(alloc, text, place, &shown)
}
