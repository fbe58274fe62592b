//! The tails of entries' texts. A reason's is written once, and copied for each entry that has it.

ghost use Rattle.std.specs.Prelude.{◌≡◌, ◌++◌, ◌<◌, All, IfOk, OnOk, length, string_bytes};
ghost use Rattle.robust_cert.specs.Ranges.{IsSmall, ChainFits};
ghost use Rattle.robust_cert.specs.Json.{ReasonFits};
ghost use Rattle.robust_cert.specs.Parts.{apart_tail_text, cover_tail_text, tail_text, AreTailsOf};
ghost use Rattle.robust_cert.specs.Sharing.{reason_at};

use crate::chain::Chain;
use crate::entries::Reason;
use crate::text::part::{JsonPart, push_list};
use crate::text::writing::push_before;
use std::alloc::{AllocError, Global};

fn push_apart_tail(text: &mut String, chain: &Chain) -> Result<(), AllocError>
    ensures text { OnOk result
        (string_bytes text.new ≡ string_bytes text.old ++ apart_tail_text chain.now) }
    ensures fits { OnOk result (ChainFits chain.now) }
{
    text.push_str(",")?;
    chain.push(text)?;
    text.push_str("]")
}

fn push_cover_tail(
    text: &mut String,
    mine: u32,
    theirs: u32,
    chains: &[Chain],
) -> Result<(), AllocError>
    ensures text { OnOk result (string_bytes text.new
        ≡ string_bytes text.old ++ cover_tail_text mine theirs chains.now) }
    ensures fits { OnOk result (IsSmall mine × IsSmall theirs × All ChainFits chains.now) }
{
    text.push_str(",")?;
    push_before(text, mine, ",")?;
    push_before(text, theirs, ",")?;
    push_list(text, chains)?;
    text.push_str("]")
}

/// Adds what stands behind the question of an entry with this reason.
pub(crate) fn push_tail(text: &mut String, reason: &Reason) -> Result<(), AllocError>
    ensures text { OnOk result
        (string_bytes text.new ≡ string_bytes text.old ++ tail_text reason.now) }
    ensures fits { OnOk result (ReasonFits reason.now) }
{
    match reason {
        Reason::Apart(chain) => push_apart_tail(text, chain),
        Reason::Cover {
            mine,
            theirs,
            chains,
        } => push_cover_tail(text, *mine, *theirs, chains.as_slice()),
    }
}

fn tail_of(alloc: Global, reason: &Reason) -> Result<String, AllocError>
    ensures text { IfOk result (λ tail. string_bytes tail ≡ tail_text reason.now) }
    ensures fits { IfOk result (λ _. ReasonFits reason.now) }
{
    let mut tail = String::new(alloc);
    push_tail(&mut tail, reason)?;
    Ok(tail)
}

/// The tails of all reasons.
pub(crate) fn tails_of(alloc: Global, reasons: &[Reason]) -> Result<Vec<String>, AllocError>
    ensures { IfOk result (λ tails. AreTailsOf reasons.now tails.items) }
{
    let mut tails = Vec::with_capacity(alloc, reasons.len())?;
    for reason in reasons {
        tails.push(tail_of(alloc, reason)?)?;
    }
    Ok(tails)
}

/// The tail of the reason of a number.
pub(crate) fn tail_at<'t>(reasons: &[Reason], tails: &'t [String], n: usize) -> &'t str
    requires tails { AreTailsOf reasons.now tails.now }
    requires within { n < length reasons.now }
    ensures text { result.now ≡ tail_text (reason_at reasons.now n) }
    ensures fits { ReasonFits (reason_at reasons.now n) }
{
    tails[n].as_str()
}
