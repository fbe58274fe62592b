//! From text to a certificate.

ghost use Rattle.std.specs.Prelude.{◌≡◌, ◌≢◌, ◌⊎◌, ◌++◌, [], codes, Some, IfSome, IfOk, IfErr, Ok};
ghost use Rattle.std.specs.Prelude.{Err, IsTrue};
ghost use Rattle.serde_json.specs.View.{view};
ghost use Rattle.robust_cert.specs.declared.certificate.Certificate.{Certificate};
ghost use Rattle.robust_cert.specs.declared.fault.JsonFault.{JsonFault};
ghost use Rattle.robust_cert.specs.Json.{IsValueOf};
ghost use Rattle.robust_cert.specs.Pieces.{text_left};
ghost use Rattle.robust_cert.specs.Reading.{ReadsAs, IsTextOf, IsFaultOf, HasFault, Answers};
ghost use Rattle.robust_cert.specs.Reading.{version_of, number_of};

use crate::certificate::Certificate;
use crate::fault::{JsonFault, Untaken};
use crate::text::compact::compact_candidate;
use crate::text::pieces::CertificateText;
use crate::text::version::TextVersion;
use crate::text::whole::{certificate_of, object_of};
use serde_json::Value;
use std::alloc::{AllocError, Global};

const LINE_FEED: &[u8] = b"\n";

fn value_of(alloc: Global, bytes: &[u8]) -> Result<Value, JsonFault>
    ensures ok { IfOk result (λ value. ReadsAs bytes.now (view value)) }
    ensures fault { IfErr result (λ fault. fault ≢ JsonFault.Memory → HasFault bytes.now fault) }
{
    match Value::from_slice(alloc, bytes) {
        Ok(value) => Ok(value),
        Err(error) if error.is_memory() => Err(JsonFault::Memory),
        Err(_) => Err(JsonFault::NotJson),
    }
}

fn version_in(value: &Value) -> Result<TextVersion, JsonFault>
    ensures ok { IfOk result (λ version. version_of (view value.now) ≡ Some (number_of version)) }
    ensures fault { IfErr result (IsFaultOf (view value.now)) }
{
    let version = value.get("version").ok_or(JsonFault::WrongShape)?;
    if version.as_u64() == Some(1) {
        return Ok(TextVersion::First);
    }
    if version.as_u64() == Some(2) {
        return Ok(TextVersion::Second);
    }
    if version.is_u64() || version.is_i64() {
        return Err(JsonFault::WrongVersion);
    }
    Err(JsonFault::WrongShape)
}

fn certificate_in(alloc: Global, value: Value) -> Result<Certificate, JsonFault>
    ensures ok { IfOk result (λ certificate. IsValueOf certificate (view value)) }
    ensures fault { IfErr result (λ fault. fault ≢ JsonFault.Memory
        → IsFaultOf (view value) fault) }
{
    let version = version_in(&value)?;
    let members = object_of(value).ok_or(JsonFault::WrongShape)?;
    Ok(certificate_of(alloc, version, members)?)
}

// The certificate that the bytes are, by the reader of JSON.
fn from_any_json(alloc: Global, bytes: &[u8]) -> Result<Certificate, JsonFault>
    ensures ok { IfOk result (λ certificate. IsTextOf certificate bytes.now) }
    ensures fault { IfErr result (λ fault. fault ≢ JsonFault.Memory → HasFault bytes.now fault) }
    ensures taken { (c : Certificate) → IsTextOf c bytes.now → Answers result (Ok c) }
    ensures refused { (fault : JsonFault) → HasFault bytes.now fault → Answers result (Err fault) }
{
    let value = value_of(alloc, bytes)?;
    certificate_in(alloc, value)
}

// What stands behind a piece, where the bytes begin with it.
fn behind_piece<'b>(bytes: &'b [u8], piece: &[u8]) -> Option<&'b [u8]>
    ensures { IfSome result (λ rest. bytes.now ≡ piece.now ++ rest.now) }
{
    if piece.len() > bytes.len() {
        return None;
    }
    let (front, rest) = bytes.split_at(piece.len());
    if front == piece { Some(rest) } else { None }
}

// Whether no more than a line feed is left.
fn is_end(rest: &[u8]) -> bool
    ensures { IsTrue result → (rest.now ≡ []) ⊎ (rest.now ≡ codes "\n") }
{
    if rest.is_empty() {
        return true;
    }
    rest == LINE_FEED
}

// Whether the bytes are a text that is given in pieces, or that and a line feed.
fn is_line_of(text: &mut CertificateText<'_>, bytes: &[u8]) -> bool
    ensures { IsTrue result → (bytes.now ≡ text_left text.old)
        ⊎ (bytes.now ≡ text_left text.old ++ codes "\n") }
{
    let Some(first) = behind_piece(bytes, text.piece().as_bytes()) else {
        return false;
    };
    let mut rest = first;
    while text.has_more() {
        text.advance();
        let Some(behind) = behind_piece(rest, text.piece().as_bytes()) else {
            return false;
        };
        rest = behind;
    }
    is_end(rest)
}

// Whether the bytes are what `to_json` writes of a certificate.
fn is_text_of(alloc: Global, certificate: &Certificate, bytes: &[u8]) -> Result<bool, AllocError>
    ensures { IfOk result (λ is. IsTrue is → IsTextOf certificate.now bytes.now) }
{
    let mut text = CertificateText::of(alloc, certificate)?;
    Ok(is_line_of(&mut text, bytes))
}

// The certificate of which the bytes are the text, as `to_json` writes it.
fn from_compact(alloc: Global, bytes: &[u8]) -> Result<Certificate, Untaken>
    ensures { IfOk result (λ certificate. IsTextOf certificate bytes.now) }
{
    let candidate = compact_candidate(alloc, bytes)?;
    let is_text = is_text_of(alloc, &candidate, bytes)?;
    if is_text {
        Ok(candidate)
    } else {
        Err(Untaken::Misshapen)
    }
}

/// The certificate that the bytes are.
pub fn from_json(alloc: Global, bytes: &[u8]) -> Result<Certificate, JsonFault>
    ensures ok { IfOk result (λ certificate. IsTextOf certificate bytes.now) }
    ensures fault { IfErr result (λ fault. fault ≢ JsonFault.Memory → HasFault bytes.now fault) }

    // Each text of a certificate is taken, what `to_json` writes among them, and each fault is
    // told, unless memory is wanting.
    ensures taken { (c : Certificate) → IsTextOf c bytes.now → Answers result (Ok c) }
    ensures refused { (fault : JsonFault) → HasFault bytes.now fault → Answers result (Err fault) }
{
    match from_compact(alloc, bytes) {
        Ok(certificate) => Ok(certificate),
        Err(Untaken::Memory) => Err(JsonFault::Memory),
        Err(Untaken::Misshapen) => from_any_json(alloc, bytes),
    }
}
