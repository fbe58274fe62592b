//! The faults of a certificate in words.
ghost use Rattle.std.specs.Prelude.{◌≡◌, IfNone, IfOk, IfSome, string_bytes};
ghost use Rattle.robust_cert.specs.Reading.{IsTextOf};
ghost use Rattle.analysis_words.specs.Nodes.{seen, sight_of};
ghost use Rattle.analysis_words.specs.Saying.{along_text, asked_in, body_size_at, broken_rule};
ghost use Rattle.analysis_words.specs.Saying.{count_text, counts_text, entry_of, first_mistold};
ghost use Rattle.analysis_words.specs.Saying.{front_of, is_told, json_words, mistold_text};
ghost use Rattle.analysis_words.specs.Saying.{IsAskedText, IsNoCertificate, IsOfFault};
ghost use Rattle.analysis_words.specs.Saying.{IsQuestionText, IsSaidOf};

use crate::levels::{level_list, number_at};
use crate::shown::{Shown, access_text, node_name};
use crate::shown_set::ShownSet;
use prog_check::{Path, ProgramSet};
use prog_paths::MAX_QUESTIONS;
use robust_cert::{CertFault, Certificate, EntryQuestion, JsonFault, body_size, from_json};
use std::alloc::{AllocError, Global};

// The question of an entry.
fn asked_in(certificate: &Certificate, entry: usize) -> Option<EntryQuestion>
    ensures { result ≡ asked_in certificate.now entry }
{
    if entry < certificate.entries.len() {
        Some(certificate.entries.question(entry))
    } else {
        None
    }
}

// Both accesses of a question, if there is one.
fn question_text(
    alloc: Global,
    shown: Shown<'_>,
    question: Option<EntryQuestion>,
) -> Result<String, AllocError>
    ensures { IfOk result (λ words.
        IsQuestionText (seen shown.entry) question (string_bytes words)) }
{
    let Some(asked) = question else {
        return format!(in alloc; "its question");
    };
    let mine = access_text(alloc, shown, asked.x as usize, asked.a as usize)?;
    let theirs = access_text(alloc, shown, asked.y as usize, asked.b as usize)?;
    format!(in alloc; "{mine} against {theirs}")
}

// Whether the number that is told of a path is that of its accesses in bodies.
fn is_told(told: u32, path: &Path) -> bool
    ensures { result ≡ is_told (told, path.now) }
{
    told as usize == body_size(path)
}

// The first node of which another number is told than it has.
fn first_mistold(bodies: &[u32], paths: &[Path]) -> usize
    ensures { result ≡ first_mistold bodies.now paths.now }
{
    bodies
        .iter()
        .zip(paths)
        .take_while(|(told, path)| is_told(**told, path))
        .count()
}

// How many accesses of a node stand in bodies.
fn body_size_at(shown: Shown<'_>, node: usize) -> usize
    ensures { result ≡ body_size_at shown.entry.paths.now node }
{
    match shown.paths.get(node) {
        Some(path) => body_size(path),
        None => 0,
    }
}

// How many accesses of a node stand in bodies, by a certificate and by the paths.
fn mistold_text(
    alloc: Global,
    shown: Shown<'_>,
    certificate: &Certificate,
    node: usize,
) -> Result<String, AllocError>
    ensures { IfOk result (λ text. string_bytes text
        ≡ mistold_text (seen shown.entry) certificate.now node) }
{
    let told = number_at(certificate.bodies.as_slice(), node);
    let name = node_name(alloc, shown, node)?;
    let size = body_size_at(shown, node);
    format!(in alloc; "bodies: {told} of {name}, which has {size}; ")
}

// How many of something there are, where there has to be one for each node.
fn count_text(alloc: Global, what: &str, count: usize, nodes: usize) -> Result<String, AllocError>
    ensures { IfOk result (λ text. string_bytes text ≡ count_text what.now count nodes) }
{
    format!(in alloc; "{what}: {count}, nodes: {nodes}; ")
}

// The counts that are not those of the nodes.
fn counts_text(
    alloc: Global,
    shown: Shown<'_>,
    certificate: &Certificate,
) -> Result<String, AllocError>
    ensures { IfOk result (λ text. string_bytes text
        ≡ counts_text (seen shown.entry) certificate.now) }
{
    let nodes = shown.paths.len();
    let levels = certificate.levels.len();
    if levels != nodes {
        return count_text(alloc, "levels", levels, nodes);
    }
    let bodies = certificate.bodies.len();
    if bodies != nodes {
        return count_text(alloc, "bodies", bodies, nodes);
    }
    let node = first_mistold(certificate.bodies.as_slice(), shown.paths);
    mistold_text(alloc, shown, certificate, node)
}

// The levels of nodes that edges join.
fn along_text(
    alloc: Global,
    shown: Shown<'_>,
    certificate: &Certificate,
    nodes: &[usize],
) -> Result<String, AllocError>
    ensures { IfOk result (λ text. string_bytes text
        ≡ along_text (seen shown.entry) certificate.now nodes.now) }
{
    let levels = level_list(alloc, shown, certificate, nodes)?;
    format!(in alloc; "levels {levels}: ")
}

// What the words of a fault begin with.
fn front_of(
    alloc: Global,
    shown: Shown<'_>,
    certificate: &Certificate,
    fault: CertFault,
) -> Result<String, AllocError>
    ensures { IfOk result (λ front. string_bytes front
        ≡ front_of (seen shown.entry) certificate.now fault) }
{
    match fault {
        CertFault::NoSuchEntry(entry)
        | CertFault::EntryOrder(entry)
        | CertFault::BadCover(entry)
        | CertFault::BadChain(entry) => format!(in alloc; "entry {entry}: "),
        CertFault::LevelFalls(x, y) => along_text(alloc, shown, certificate, &[x, y]),
        CertFault::Dangerous(x, y, z) => along_text(alloc, shown, certificate, &[x, y, z]),
        CertFault::PathCount => counts_text(alloc, shown, certificate),
        CertFault::TooLarge => format!(in alloc;
            "more than {MAX_QUESTIONS} pairs of accesses would have to be compared"
        ),
        CertFault::Memory => format!(in alloc; "memory ran out"),
    }
}

// What does not hold of an entry, or of the levels.
fn broken_rule(fault: CertFault) -> &'static str
    ensures { result.now ≡ broken_rule fault }
{
    match fault {
        CertFault::PathCount => {
            "a certificate has for each node, which is a way through a program that commits, a level \
            and how many of its accesses stand in the body of an `each`: none of any in version 1"
        }
        CertFault::NoSuchEntry(_) => "these two ask nothing of one another",
        CertFault::EntryOrder(_) => {
            "entries stand in the order of their nodes and accesses, and this one does not"
        }
        CertFault::BadCover(_) => {
            "a cover is of a read that may miss a write, by two changes of one table, with two chains a key column; \
            what stands in the body of an `each` covers nothing"
        }
        CertFault::BadChain(_) => {
            "a chain is none, or runs elsewhere; each step has to follow from where the two meet"
        }
        CertFault::LevelFalls(..) =>
            "along an edge that no entry takes away the level may not fall",
        CertFault::Dangerous(..) => "over two vulnerable edges in a row the level has to rise",
        CertFault::TooLarge | CertFault::Memory => "",
    }
}

// The entry that a fault is about.
fn entry_of(fault: CertFault) -> Option<usize>
    ensures { result ≡ entry_of fault }
{
    match fault {
        CertFault::NoSuchEntry(entry)
        | CertFault::EntryOrder(entry)
        | CertFault::BadCover(entry)
        | CertFault::BadChain(entry) => Some(entry),
        CertFault::LevelFalls(..)
        | CertFault::Dangerous(..)
        | CertFault::PathCount
        | CertFault::TooLarge
        | CertFault::Memory => None,
    }
}

// The question of the entry that a fault is about, before what does not hold of it.
fn asked_text(
    alloc: Global,
    shown: Shown<'_>,
    certificate: &Certificate,
    fault: CertFault,
) -> Result<String, AllocError>
    ensures { IfOk result (λ words. IsAskedText (seen shown.entry) certificate.now (entry_of fault)
        (string_bytes words)) }
{
    let Some(entry) = entry_of(fault) else {
        return Ok(String::new(alloc));
    };
    let question = question_text(alloc, shown, asked_in(certificate, entry))?;
    format!(in alloc; "{question}: ")
}

// A fault of a certificate of a set whose nodes are these.
fn sentence(
    alloc: Global,
    shown: Shown<'_>,
    certificate: &Certificate,
    fault: CertFault,
) -> Result<String, AllocError>
    ensures { IfOk result (λ words. IsOfFault (seen shown.entry) certificate.now fault
        (string_bytes words)) }
{
    let front = front_of(alloc, shown, certificate, fault)?;
    let asked = asked_text(alloc, shown, certificate, fault)?;
    let rule = broken_rule(fault);
    format!(in alloc; "{front}{asked}{rule}\n")
}

// The certificate that a part is; nothing where it is none.
fn certificate_of(alloc: Global, part: &[u8]) -> Result<Option<Certificate>, AllocError>
    ensures found { IfOk result (λ found. IfSome found (λ certificate.
        IsTextOf certificate part.now)) }
    ensures none { IfOk result (λ found. IfNone found (IsNoCertificate part.now)) }
{
    match from_json(alloc, part) {
        Ok(certificate) => Ok(Some(certificate)),
        Err(JsonFault::Memory) => Err(AllocError),
        Err(_) => Ok(None),
    }
}

/// What a fault of the certificate in a part means, of a set and its text; nothing where the part
/// is no certificate.
pub fn certificate_words(
    alloc: Global,
    text: &[u8],
    set: &ProgramSet,
    part: &[u8],
    fault: CertFault,
) -> Result<Option<String>, AllocError>
    ensures said { IfOk result (λ said. IfSome said (λ words. IsSaidOf
        (sight_of text.now set.now) part.now fault (string_bytes words))) }
    ensures none { IfOk result (λ said. IfNone said (IsNoCertificate part.now)) }
{
    let Some(certificate) = certificate_of(alloc, part)? else {
        return Ok(None);
    };
    let whole = ShownSet::new(alloc, text, set)?;
    let shown = whole.shown();
    let words = sentence(alloc, shown, &certificate, fault)?;
    Ok(Some(words))
}

/// Why a part is no certificate.
pub fn json_words(fault: JsonFault) -> &'static str
    ensures { result.now ≡ json_words fault }
{
    match fault {
        JsonFault::NotJson => "the second part is no JSON, in which a certificate is written\n",
        JsonFault::WrongShape =>
            "a certificate is an object with just `entries`, `levels` and `version`, and of version 2 `bodies` too\n",
        JsonFault::WrongVersion => "the version of the certificate is neither 1 nor 2\n",
        JsonFault::Memory => "memory ran out\n",
    }
}
