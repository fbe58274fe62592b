//! The parts of the input.
ghost use Rattle.std.specs.Prelude.{◌≡◌, ◌<◌, ◌≤◌, ◌+◌, ◌↔◌, false, [], ◌∷◌, IsOk, IfOk, IfErr};
ghost use Rattle.std.specs.Prelude.{IsErrOf, IfSome, IfNone, MatchOption, ℕ, ◌≢◌, length};
ghost use Rattle.std.specs.Prelude.{slice_index, take, drop};
ghost use Rattle.sirob.specs.Parts.{full_lines_of, parts_of};

use memchr::memchr;
use run_words::begins_separator;
use std::fmt;

/// The input hasn't the parts that are asked for.
#[derive(Clone, Copy, Debug, PartialEq, Eq)]
pub enum SplitFault {
    MissingPart,
    ExtraPart,
}

impl fmt::Display for SplitFault {
    ghost use Rattle.std.specs.Prelude.{Some};
    ghost use Rattle.sirob.specs.Faults.{split_fault_text};

    ghost output = { λ fault. Some (split_fault_text fault) };

    fn fmt<W: fmt::Write>(&self, f: &mut fmt::Formatter<W>) -> fmt::Result {
        match self {
            SplitFault::MissingPart => f.write_str("I1"),
            SplitFault::ExtraPart => f.write_str("I2"),
        }
    }
}

/// The input, where no line of it is `%%`.
pub fn one_part(input: &[u8]) -> Result<&[u8], SplitFault>
    ensures part { IfOk result (λ text. parts_of input.now ≡ text.now ∷ []) }
    ensures extra { IsErrOf result SplitFault.ExtraPart ↔ (1 < length (parts_of input.now)) }
    ensures kinds { IfErr result (λ fault. fault ≡ SplitFault.ExtraPart) }
{
    let first = first_part(input);
    if first.behind.is_some() {
        return Err(SplitFault::ExtraPart);
    }
    Ok(first.part)
}

/// The two parts of the input.
#[derive(Clone, Copy)]
pub struct Parts<'a> {
    pub text: &'a [u8],
    pub rest: &'a [u8],
}

/// The input, divided at its one line `%%`. The line feed before that line belongs to the text.
pub fn two_parts(input: &[u8]) -> Result<Parts<'_>, SplitFault>
    ensures ok { IsOk result ↔ (length (parts_of input.now) ≡ 2) }
    ensures parts { IfOk result (λ p. parts_of input.now ≡ p.text.now ∷ p.rest.now ∷ []) }
    ensures within { IfOk result (λ p. length p.rest.now ≤ length input.now) }
    ensures missing { IsErrOf result SplitFault.MissingPart ↔ (length (parts_of input.now) ≡ 1) }
    ensures extra { IsErrOf result SplitFault.ExtraPart ↔ (2 < length (parts_of input.now)) }
{
    let first = first_part(input);
    let Some(rest) = first.behind else {
        return Err(SplitFault::MissingPart);
    };
    let second = first_part(rest);
    if second.behind.is_some() {
        return Err(SplitFault::ExtraPart);
    }
    Ok(Parts {
        text: first.part,
        rest: second.part,
    })
}

// The part up to the first separator, and what stands behind it, where there is one.
#[derive(Clone, Copy)]
struct FirstPart<'a> {
    part: &'a [u8],
    behind: Option<&'a [u8]>,
}

// Whether some byte is `%`. Without one no line is `%%`.
fn has_percent(bytes: &[u8]) -> bool
    ensures { result ≡ false → (k : ℕ) → k < length bytes.now → slice_index bytes.now k ≢ 37 }
{
    memchr(b'%', bytes).is_some()
}

fn first_part(bytes: &[u8]) -> FirstPart<'_>
    ensures within { length result.part.now ≤ length bytes.now }
    ensures behind_within { IfSome result.behind (λ behind. length behind.now ≤ length bytes.now) }
    ensures parts { MatchOption result.behind (parts_of bytes.now ≡ result.part.now ∷ [])
        (λ behind. parts_of bytes.now ≡ result.part.now ∷ parts_of behind.now) }
{
    if !has_percent(bytes) {
        return FirstPart {
            part: bytes,
            behind: None,
        };
    }
    let mut at = 0;
    while at < bytes.len() {
        let rest = &bytes[at..];
        let line = first_line(rest);
        let next = at + line.len();
        if begins_separator(line) {
            return FirstPart {
                part: &bytes[..at],
                behind: Some(&bytes[next..]),
            };
        }
        at = next;
    }
    FirstPart {
        part: bytes,
        behind: None,
    }
}

// The first line, with its line feed.
fn first_line(bytes: &[u8]) -> &[u8]
    requires { 0 < length bytes.now }
    ensures some { 0 < length result.now }
    ensures within { length result.now ≤ length bytes.now }
    ensures front { result.now ≡ take (length result.now) bytes.now }
    ensures first { full_lines_of bytes.now ≡ result.now ∷ full_lines_of
        (drop (length result.now) bytes.now) }
{
    match first_feed(bytes) {
        Some(at) => &bytes[..at + 1],
        None => bytes,
    }
}

// Where the first line feed stands.
fn first_feed(bytes: &[u8]) -> Option<usize>
    ensures within { IfSome result (λ at. at < length bytes.now) }
    ensures found { IfSome result (λ at. slice_index bytes.now at ≡ 10) }
    ensures before { IfSome result (λ at. (k : ℕ) → k < at → slice_index bytes.now k ≢ 10) }
    ensures none { IfNone result ((k : ℕ) → k < length bytes.now → slice_index bytes.now k ≢ 10) }
{
    memchr(b'\n', bytes)
}
