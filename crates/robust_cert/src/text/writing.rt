//! From a certificate to text.

ghost use Rattle.std.specs.Prelude.{◌≡◌, ◌++◌, ◌==◌, All, IfOk, OnOk, codes, decimal, string_bytes};
ghost use Rattle.std.specs.List.{list_all};
ghost use Rattle.robust_cert.specs.Ranges.{IsSmall};
ghost use Rattle.robust_cert.specs.Json.{node_data, entry_data, has_no_bodies, certificate_text};
ghost use Rattle.robust_cert.specs.Json.{QuestionFits, EntryFits, Appends};
ghost use Rattle.robust_cert.specs.Reading.{IsTextOf};
ghost use Rattle.robust_cert.specs.Parts.{first_text, head_text, second_text};
ghost use Rattle.robust_cert.specs.Pieces.{first_entry_text, other_entries_text, next_entries_text};
ghost use Rattle.robust_cert.specs.Pieces.{bodies_text, opening_text, version_text, levels_text};
ghost use Rattle.robust_cert.specs.Pieces.{closing_text};
ghost use Rattle.robust_cert.specs.Sharing.{entry_with, entries_told, HasReason};

use crate::certificate::{Certificate, EntryQuestion};
use crate::entries::{Reason, Told};
use crate::text::part::push_list;
use crate::text::pieces::CertificateText;
use crate::text::tails::push_tail;
use itoa::{Buffer, Integer};
use order_facts::Node;
use std::alloc::{AllocError, Global};

/// Adds the digits of a number, behind a sign where it is negative.
pub(crate) fn push_number<I: Integer>(text: &mut String, number: I) -> Result<(), AllocError>
    ensures { OnOk result (string_bytes text.new ≡ string_bytes text.old ++ I.text number) }
{
    let mut digits = Buffer::new();
    text.push_str(digits.format(number))
}

/// Adds a number, and a piece behind it.
pub(crate) fn push_before<I: Integer>(
    text: &mut String,
    number: I,
    piece: &str,
) -> Result<(), AllocError>
    ensures { OnOk result
        (string_bytes text.new ≡ string_bytes text.old ++ (I.text number ++ piece.now)) }
{
    push_number(text, number)?;
    text.push_str(piece)
}

// Adds the letter of a node, with what stands round it, and its number.
fn push_lettered<I: Integer>(text: &mut String, letter: &str, number: I) -> Result<(), AllocError>
    ensures { OnOk result (string_bytes text.new
        ≡ string_bytes text.old ++ (letter.now ++ (I.text number ++ codes "]"))) }
{
    text.push_str(letter)?;
    push_before(text, number, "]")
}

/// Adds the text of a node.
pub(crate) fn push_node(text: &mut String, node: Node) -> Result<(), AllocError>
    ensures { OnOk result (Appends text.old text.new (node_data node)) }
{
    match node {
        Node::Mine(index) => push_lettered(text, "[\"m\",", index),
        Node::MineUnknown(index) => push_lettered(text, "[\"u\",", index),
        Node::Theirs(index) => push_lettered(text, "[\"t\",", index),
        Node::TheirsUnknown(index) => push_lettered(text, "[\"v\",", index),
        Node::Number(number) => push_lettered(text, "[\"n\",", number),
    }
}

// Adds the kind of an entry, with what stands round it, and the numbers of the first access.
fn push_kind(text: &mut String, kind: &str, question: EntryQuestion) -> Result<(), AllocError>
    ensures { OnOk result
        (string_bytes text.new ≡ string_bytes text.old ++ (kind.now ++ first_text question)) }
{
    text.push_str(kind)?;
    push_before(text, question.x, ",")?;
    push_before(text, question.a, ",")
}

// Adds the numbers of the second access.
fn push_second_access(text: &mut String, question: EntryQuestion) -> Result<(), AllocError>
    ensures text { OnOk result
        (string_bytes text.new ≡ string_bytes text.old ++ second_text question) }
    ensures fits { QuestionFits question }
{
    push_before(text, question.y, ",")?;
    push_number(text, question.b)
}

// Adds the kind of an entry and the first access of its question.
fn push_head(text: &mut String, question: EntryQuestion, reason: &Reason) -> Result<(), AllocError>
    ensures { OnOk result
        (string_bytes text.new ≡ string_bytes text.old ++ head_text question reason.now) }
{
    match reason {
        Reason::Apart(_) => push_kind(text, "[\"apart\",", question),
        Reason::Cover { .. } => push_kind(text, "[\"cover\",", question),
    }
}

// Adds an entry that stands behind none.
fn push_entry(text: &mut String, question: EntryQuestion, reason: &Reason) -> Result<(), AllocError>
    ensures text { OnOk result
        (Appends text.old text.new (entry_data (entry_with question reason.now))) }
    ensures fits { OnOk result (EntryFits (entry_with question reason.now)) }
{
    push_head(text, question, reason)?;
    push_second_access(text, question)?;
    push_tail(text, reason)
}

/// Adds the bracket before the entries, and the first of them, and gives the others.
pub(crate) fn push_first_entry<'t>(
    text: &mut String,
    told: &'t [Told],
    reasons: &[Reason],
) -> Result<&'t [Told], AllocError>
    requires { All (HasReason reasons.now) told.now }
    ensures text { OnOk result (string_bytes text.new ≡ string_bytes text.old
        ++ (codes "[" ++ first_entry_text (entries_told reasons.now told.now))) }
    ensures others { IfOk result (λ others. next_entries_text (entries_told reasons.now others.now)
        ≡ other_entries_text (entries_told reasons.now told.now)) }
    ensures within { IfOk result (λ others. All (HasReason reasons.now) others.now) }
{
    text.push_str("[")?;
    let Some((first, others)) = told.split_first() else {
        return Ok(told);
    };
    let number = first.reason as usize;
    push_entry(text, first.question, &reasons[number])?;
    Ok(others)
}

fn are_zeros(numbers: &[u32]) -> bool
    ensures { result ≡ list_all (λ n. n == 0) numbers.now }
{
    numbers.iter().all(|number| *number == 0)
}

fn has_no_bodies(certificate: &Certificate) -> bool
    ensures { result ≡ has_no_bodies certificate.now }
{
    certificate.bodies.len() == certificate.levels.len() && are_zeros(certificate.bodies.as_slice())
}

// Adds the counts of accesses in bodies, and the name of the entries behind them.
fn push_bodies(text: &mut String, bodies: &[u32]) -> Result<(), AllocError>
    ensures text { OnOk result
        (string_bytes text.new ≡ string_bytes text.old ++ bodies_text bodies.now) }
    ensures fits { OnOk result (All IsSmall bodies.now) }
{
    text.push_str("{\"bodies\":")?;
    push_list(text, bodies)?;
    text.push_str(",\"entries\":")
}

/// Adds what stands before the list of entries.
pub(crate) fn push_opening(text: &mut String, certificate: &Certificate) -> Result<(), AllocError>
    ensures text { OnOk result
        (string_bytes text.new ≡ string_bytes text.old ++ opening_text certificate.now) }
    ensures fits { OnOk result (All IsSmall certificate.now.bodies) }
{
    if has_no_bodies(certificate) {
        text.push_str("{\"entries\":")
    } else {
        push_bodies(text, certificate.bodies.as_slice())
    }
}

// Adds the end of the list of entries, and what stands behind it up to the version.
fn push_levels(text: &mut String, levels: &[u32]) -> Result<(), AllocError>
    ensures text { OnOk result
        (string_bytes text.new ≡ string_bytes text.old ++ levels_text levels.now) }
    ensures fits { OnOk result (All IsSmall levels.now) }
{
    text.push_str("]")?;
    text.push_str(",\"levels\":")?;
    push_list(text, levels)
}

fn version_text(certificate: &Certificate) -> &'static str
    ensures { result.now ≡ version_text certificate.now }
{
    if has_no_bodies(certificate) {
        ",\"version\":1}"
    } else {
        ",\"version\":2}"
    }
}

/// What stands behind the last entry.
pub(crate) fn closing_of(alloc: Global, certificate: &Certificate) -> Result<String, AllocError>
    ensures text { IfOk result (λ text. string_bytes text ≡ closing_text certificate.now) }
    ensures fits { IfOk result (λ _. All IsSmall certificate.now.levels) }
{
    let mut text = String::new(alloc);
    push_levels(&mut text, certificate.levels.as_slice())?;
    text.push_str(version_text(certificate))?;
    Ok(text)
}

// So many bytes the text of an entry has about.
const ENTRY_BYTES: usize = 72;

/// The text of a certificate.
pub fn to_json(alloc: Global, certificate: &Certificate) -> Result<String, AllocError>
    ensures text { IfOk result (λ text. string_bytes text ≡ certificate_text certificate.now) }

    // So `from_json` reads it as this certificate.
    ensures reads_back { IfOk result (λ text. IsTextOf certificate.now (string_bytes text)) }
{
    let room = certificate.entries.len().saturating_mul(ENTRY_BYTES);
    let mut text = String::with_capacity(alloc, room)?;
    let mut pieces = CertificateText::of(alloc, certificate)?;
    text.push_str(pieces.piece())?;
    while pieces.has_more() {
        pieces.advance();
        text.push_str(pieces.piece())?;
    }
    Ok(text)
}
