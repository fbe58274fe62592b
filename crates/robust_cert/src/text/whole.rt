//! A whole JSON value as a certificate.

ghost use Rattle.std.specs.Prelude.{◌≡◌, ◌≢◌, IfOk, IfSome, IfNone, Some, Err, length, replicate};
ghost use Rattle.serde_json.specs.Data.{Data, Num, Items, Members, unsigned, array, object, member};
ghost use Rattle.serde_json.specs.View.{view, items_view, members_view};
ghost use Rattle.robust_cert.specs.declared.certificate.Certificate.{Certificate};
ghost use Rattle.robust_cert.specs.Json.{IsValueOf, members_data};
ghost use Rattle.robust_cert.specs.Reading.{version_of, number_of, IsShared, IsNotShared};

use crate::certificate::Certificate;
use crate::entries::Entries;
use crate::fault::Untaken;
use crate::text::part::list_of;
use crate::text::shape::entries_of;
use crate::text::version::TextVersion;
use prog_tree::Sequence;
use serde_json::{Map, Value};
use std::alloc::{AllocError, Global};

// The first of the members, if it has this name.
fn take_member(members: &mut Map<String, Value>, name: &str) -> Option<Value>
    ensures some { IfSome result (λ value. members_view members.old.entries
        ≡ member name.now (view value) (members_view members.new.entries)) }
    ensures none { IfNone result ((d : Data) (rest : Members)
        → members_view members.old.entries ≢ member name.now d rest) }
{
    let (first, value) = members.pop_first()?;
    if first.as_str() == name {
        Some(value)
    } else {
        None
    }
}

// The values of `entries` and `levels`, if the members are those two and a version.
fn parts_of(mut members: Map<String, Value>) -> Option<(Value, Value)>
    ensures some { IfSome result (λ p. (version : Num)
        → version_of (object (members_view members.entries)) ≡ Some version
        → members_view members.entries ≡ members_data (view p.0) (view p.1) version) }
    ensures none { IfNone result ((entries levels : Data) (version : Num)
        → members_view members.entries ≢ members_data entries levels version) }
{
    let entries = take_member(&mut members, "entries")?;
    let levels = take_member(&mut members, "levels")?;
    let _version = take_member(&mut members, "version")?;
    if !members.is_empty() {
        return None;
    }
    Some((entries, levels))
}

// The entries and the levels, if the members are those two and a version.
fn shared_of(
    alloc: Global,
    members: Map<String, Value>,
) -> Result<(Entries, Sequence<u32>), Untaken>
    ensures ok { IfOk result (λ p. IsShared p.0 p.1 (members_view members.entries)) }
    ensures misshapen { result ≡ Err Untaken.Misshapen
        → IsNotShared (members_view members.entries) }
{
    let (entries, levels) = parts_of(members).ok_or(Untaken::Misshapen)?;
    let entries = array_of(entries).ok_or(Untaken::Misshapen)?;
    let entries = entries_of(alloc, entries)?;
    let levels = list_of(alloc, &levels)?;
    Ok((entries, levels))
}

/// One zero for each level.
pub fn no_bodies(alloc: Global, levels: &Sequence<u32>) -> Result<Sequence<u32>, AllocError>
    ensures { IfOk result (λ bodies. bodies ≡ replicate (length levels.now) 0) }
{
    let zeros = vec![in alloc; 0; levels.len()]?;
    Ok(Sequence::from_vec(zeros))
}

fn first_of(alloc: Global, members: Map<String, Value>) -> Result<Certificate, Untaken>
    requires { version_of (object (members_view members.entries)) ≡ Some (unsigned 1) }
    ensures ok { IfOk result (λ c. IsValueOf c (object (members_view members.entries))) }
    ensures misshapen { result ≡ Err Untaken.Misshapen
        → (c : Certificate) → ¬ IsValueOf c (object (members_view members.entries)) }
{
    let (entries, levels) = shared_of(alloc, members)?;
    let bodies = no_bodies(alloc, &levels)?;
    Ok(Certificate {
        entries,
        levels,
        bodies,
    })
}

fn second_of(alloc: Global, mut members: Map<String, Value>) -> Result<Certificate, Untaken>
    requires { version_of (object (members_view members.entries)) ≡ Some (unsigned 2) }
    ensures ok { IfOk result (λ c. IsValueOf c (object (members_view members.entries))) }
    ensures misshapen { result ≡ Err Untaken.Misshapen
        → (c : Certificate) → ¬ IsValueOf c (object (members_view members.entries)) }
{
    let bodies = take_member(&mut members, "bodies").ok_or(Untaken::Misshapen)?;
    let bodies = list_of(alloc, &bodies)?;
    let (entries, levels) = shared_of(alloc, members)?;
    Ok(Certificate {
        entries,
        levels,
        bodies,
    })
}

/// The certificate of which these are the members, where the version is known.
pub fn certificate_of(
    alloc: Global,
    version: TextVersion,
    members: Map<String, Value>,
) -> Result<Certificate, Untaken>
    requires { version_of (object (members_view members.entries)) ≡ Some (number_of version) }
    ensures ok { IfOk result (λ c. IsValueOf c (object (members_view members.entries))) }
    ensures misshapen { result ≡ Err Untaken.Misshapen
        → (c : Certificate) → ¬ IsValueOf c (object (members_view members.entries)) }
{
    match version {
        TextVersion::First => first_of(alloc, members),
        TextVersion::Second => second_of(alloc, members),
    }
}

// The items of a list.
fn array_of(value: Value) -> Option<Vec<Value>>
    ensures some { IfSome result (λ items. view value ≡ array (items_view items.items)) }
    ensures none { IfNone result ((ds : Items) → view value ≢ array ds) }
{
    match value {
        Value::Array(items) => Some(items),
        _other => None,
    }
}

/// The members of an object.
pub fn object_of(value: Value) -> Option<Map<String, Value>>
    ensures some { IfSome result (λ members. view value ≡ object (members_view members.entries)) }
    ensures none { IfNone result ((ms : Members) → view value ≢ object ms) }
{
    match value {
        Value::Object(members) => Some(members),
        _other => None,
    }
}
