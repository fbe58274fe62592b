//! The faults of a text in words.
ghost use Rattle.std.specs.Prelude.{◌≡◌, true, IfOk, option_map, string_bytes};
ghost use Rattle.text_places.specs.Reading.{without_comments};
ghost use Rattle.fault_words.specs.Pointing.{begins_anew, is_end, is_unended, may_lack_semicolon};
ghost use Rattle.fault_words.specs.Pointing.{BeginsBy, PointsAtFault, PointsAtToken};
ghost use Rattle.fault_words.specs.Pointing.{TellsOpenBlock};

use crate::expected::{listed_words, possible};
use crate::open_blocks::open_words;
use crate::ordinals::ordinal;
use crate::pointing::point_at;
use crate::scope::goes_on;
use crate::slips::{Around, Slip, slip_of, slip_words, tokens_around};
use prog_text::{
    MAX_BRACKETS, MAX_NAME_BYTES, MAX_OPERATORS, MAX_TEXT_BYTES, TextFault, beginning_of,
};
use std::alloc::{AllocError, Global};
use text_places::{
    as_text, before, behind, column, first_token, first_word, last_end, line_at, line_number,
    point_out, without_comments,
};

// A byte as people are told of it.
fn byte_text(alloc: Global, bytes: &[u8]) -> Result<String, AllocError> {
    match bytes {
        [byte @ (..=32 | 127..), ..] => format!(in alloc; "the byte {byte}"),
        _ => {
            let token = as_text(first_token(bytes));
            format!(in alloc; "`{token}`")
        }
    }
}

// What is wrong with a byte of another language.
fn foreign_byte(byte: u8) -> Option<&'static str> {
    match byte {
        b'.' => Some("a single `.` is no sign; the ends of a range stand around `..`"),
        b'!' => {
            Some("a single `!` is no sign; unequal is `!=`, and `not` turns a comparison round")
        }
        b'&' => Some("no word, number or sign begins with `&`; both is `and`"),
        b'|' => Some("no word, number or sign begins with `|`; one of two is `or`"),
        b'/' => Some("no word, number or sign begins with `/`; nothing is divided here"),
        b'"' | b'\'' => Some("there are no strings; keys and values are whole numbers"),
        _ => None,
    }
}

// What is wrong with a sign that is none, where more can be said than that it is none.
fn foreign_sign(rest: &[u8]) -> Option<&'static str> {
    match rest {
        [b'%', b'%', b'\r'] | [b'%', b'%', b'\r', b'\n', ..] => Some(
            "a carriage return stands behind this `%%`; the line between two parts is `%%` alone",
        ),
        [byte, ..] => foreign_byte(*byte),
        [] => None,
    }
}

// That a byte begins nothing.
fn no_beginning(alloc: Global, rest: &[u8]) -> Result<String, AllocError> {
    let byte = byte_text(alloc, rest)?;
    format!(in alloc; "no word, number or sign begins with {byte}")
}

// What is wrong with a sign that is none.
fn unknown_sign(alloc: Global, rest: &[u8]) -> Result<String, AllocError> {
    match foreign_sign(rest) {
        Some(words) => format!(in alloc; "{words}"),
        None => no_beginning(alloc, rest),
    }
}

const COMMENTS: [&str; 3] = ["//", "/*", "--"];

// With what a comment of another language begins in a line.
fn foreign_comment(line: &str) -> Option<&'static str> {
    COMMENTS.iter().find(|sign| line.contains(**sign)).copied()
}

fn unknown_byte(alloc: Global, text: &[u8], place: usize) -> Result<String, AllocError> {
    let rest = behind(text, place);
    let column = column(text, place);
    let line = as_text(before(line_at(text, place), column.saturating_add(1)));
    match foreign_comment(line) {
        Some(sign) => format!(in alloc; "a comment begins with `#`, and not with `{sign}`"),
        None => unknown_sign(alloc, rest),
    }
}

fn is_number(token: &str) -> bool {
    matches!(token.as_bytes(), [b'0'..=b'9', ..])
}

// That a token cannot stand at a place, and what is known to be able to.
fn misplaced_words(alloc: Global, token: &str, known: &str) -> Result<String, AllocError> {
    if is_number(token) && known.starts_with("a number") {
        return format!(in alloc; "a table has 1 or 2 key columns, and not {token}");
    }
    if known.is_empty() {
        return format!(in alloc; "`{token}` cannot stand here");
    }
    format!(in alloc; "`{token}` cannot stand here; what could is {known}")
}

// The same, where these could stand.
fn misplaced(alloc: Global, token: &str, could: &[&str]) -> Result<String, AllocError> {
    let known = listed_words(alloc, could)?;
    misplaced_words(alloc, token, &known)
}

// What is said of a slip where no block is open, or where another slip is meant.
fn open_block_words(
    alloc: Global,
    text: &[u8],
    plain: &[u8],
    place: usize,
    around: Around<'_>,
) -> Result<String, AllocError>
    requires { plain.now ≡ without_comments text.now }
{
    match open_words(alloc, text, plain, place)? {
        Some(words) => Ok(words),
        None => slip_words(alloc, Slip::OpenBlock, around),
    }
}

// What stands at a place and around it, in words that newcomers need, or what could stand there.
fn unexpected_words(
    alloc: Global,
    text: &[u8],
    plain: &[u8],
    place: usize,
    around: Around<'_>,
) -> Result<String, AllocError>
    requires { plain.now ≡ without_comments text.now }
{
    match slip_of(around) {
        Some(Slip::OpenBlock) => open_block_words(alloc, text, plain, place, around),
        Some(slip) => slip_words(alloc, slip, around),
        None => misplaced(alloc, around.token, around.could),
    }
}

// Whether a byte ends a statement, or a block begins or ends with it.
fn is_end(byte: u8) -> bool
    ensures { result ≡ is_end byte }
{
    !goes_on(byte) || byte == b'}'
}

fn is_unended(bytes: &[u8]) -> bool
    ensures { result ≡ is_unended bytes.now }
{
    match bytes {
        [] => true,
        [.., last] => !is_end(*last),
    }
}

fn begins_anew(bytes: &[u8]) -> bool
    ensures { result ≡ begins_anew bytes.now }
{
    first_token(bytes) == b"}".as_slice() || !first_word(bytes).is_empty()
}

fn may_lack_semicolon(plain: &[u8], end: usize, place: usize) -> bool
    ensures { result ≡ may_lack_semicolon plain.now end place }
{
    is_unended(before(plain, end)) && begins_anew(behind(plain, place))
}

// Whether a `;` is missing before a place of a text without comments, where the token before ends:
// one could stand there, and the token opens another line or statement.
fn lacks_semicolon(plain: &[u8], end: usize, place: usize, could: &[&str], is_first: bool) -> bool
    ensures { result ≡ true → may_lack_semicolon plain.now end place ≡ true }
{
    if !may_lack_semicolon(plain, end, place) {
        return false;
    }
    let token = first_token(behind(plain, place));
    could.contains(&";") && (is_first || token == b"}".as_slice() || beginning_of(token).is_some())
}

fn unexpected(alloc: Global, text: &[u8], place: usize) -> Result<String, AllocError>
    ensures { IfOk result (λ words. PointsAtToken text.now place (string_bytes words)) }
{
    let plain = without_comments(alloc, text)?;
    let end = last_end(&plain, place);
    let could = possible(alloc, before(text, place))?;
    let is_first = line_number(text, end) != line_number(text, place);
    if lacks_semicolon(&plain, end, place, &could, is_first) {
        return point_out(alloc, text, end, "a `;` is missing here");
    }
    let around = tokens_around(&plain, end, place, &could);
    let sentence = unexpected_words(alloc, text, &plain, place, around)?;
    point_at(alloc, text, place, &sentence)
}

// What could follow, where that is known.
fn could_follow(alloc: Global, text: &[u8]) -> Result<String, AllocError> {
    let could = possible(alloc, text)?;
    let known = listed_words(alloc, &could)?;
    if known.is_empty() {
        return Ok(known);
    }
    format!(in alloc; "; what could follow is {known}")
}

// That a text ends too early, where this is said of an open block, and this could follow.
fn end_sentence(alloc: Global, said: Option<&str>, more: &str) -> Result<String, AllocError>
    ensures { IfOk result (λ sentence.
        BeginsBy (option_map (λ first. first.now) said.entry) (string_bytes sentence)) }
{
    match said {
        Some(first) => format!(in alloc; "{first}{more}"),
        None => format!(in alloc; "the text ends inside a table or a program{more}"),
    }
}

fn too_early(alloc: Global, text: &[u8], place: usize) -> Result<String, AllocError>
    ensures { IfOk result (λ words. TellsOpenBlock text.now place (string_bytes words)) }
{
    let more = could_follow(alloc, text)?;
    let plain = without_comments(alloc, text)?;
    let said = open_words(alloc, text, &plain, place)?;
    let sentence = end_sentence(alloc, said.as_deref(), &more)?;
    point_at(alloc, text, place, &sentence)
}

// That a statement has an operator too many.
fn too_many_operators(alloc: Global) -> Result<String, AllocError> {
    let number = ordinal(alloc, MAX_OPERATORS + 1)?;
    format!(in alloc;
        "the {number} `+`, `-` or `*` of this statement, which may have {MAX_OPERATORS}; bind a part before"
    )
}

// That a bracket stands inside too many others.
fn too_many_brackets(alloc: Global) -> Result<String, AllocError> {
    let number = ordinal(alloc, MAX_BRACKETS + 1)?;
    format!(in alloc;
        "this opens a {number} bracket inside {MAX_BRACKETS} others, the most there may be"
    )
}

fn too_deep(alloc: Global, text: &[u8], place: usize) -> Result<String, AllocError> {
    match behind(text, place) {
        [b'+' | b'-' | b'*', ..] => too_many_operators(alloc),
        _ => too_many_brackets(alloc),
    }
}

fn out_of_range(alloc: Global) -> Result<String, AllocError> {
    let greatest = i64::MAX;
    format!(in alloc;
        "a number above {greatest}, the greatest there is (`greatest`); the least is `least`"
    )
}

fn name_too_long(alloc: Global) -> Result<String, AllocError> {
    format!(in alloc; "a name of more than {MAX_NAME_BYTES} characters, the most a name may have")
}

fn too_long(alloc: Global) -> Result<String, AllocError> {
    format!(in alloc;
        "here the text has {MAX_TEXT_BYTES} bytes, the most there may be, and it goes on"
    )
}

/// What a fault of a text means, where it stands, and what could stand there.
pub fn text_words(alloc: Global, text: &[u8], fault: TextFault) -> Result<String, AllocError>
    ensures { IfOk result (λ words. PointsAtFault text.now fault (string_bytes words)) }
{
    match fault {
        TextFault::NotAscii { place } => point_at(
            alloc,
            text,
            place,
            "a byte that is not ASCII; a text has only ASCII, in its comments too",
        ),
        TextFault::UnknownByte { place } => {
            point_at(alloc, text, place, &unknown_byte(alloc, text, place)?)
        }
        TextFault::UnexpectedToken { place } => unexpected(alloc, text, place),
        TextFault::UnexpectedEnd { place } => too_early(alloc, text, place),
        TextFault::NumberOutOfRange { place } => {
            point_at(alloc, text, place, &out_of_range(alloc)?)
        }
        TextFault::NameTooLong { place } => point_at(alloc, text, place, &name_too_long(alloc)?),
        TextFault::TooDeep { place } => {
            point_at(alloc, text, place, &too_deep(alloc, text, place)?)
        }
        TextFault::TooLong { place } => point_at(alloc, text, place, &too_long(alloc)?),
        TextFault::Memory => format!(in alloc; "memory ran out"),
    }
}
