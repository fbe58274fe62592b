//! The parts of a certificate's text that stand in lists, and these lists.

ghost use Rattle.std.specs.Prelude.{◌≡◌, ◌≢◌, List, All, Err, IfOk, OnOk};
ghost use Rattle.serde_json.specs.Data.{Data};
ghost use Rattle.serde_json.specs.View.{view};
ghost use Rattle.robust_cert.specs.Ranges.{IsSmall, NodeFits, ChainFits};
ghost use Rattle.robust_cert.specs.Json.{whole_data, node_data, chain_data, list_data, Appends};

use crate::chain::Chain;
use crate::fault::Untaken;
use crate::text::compact::TextCursor;
use crate::text::shape::{node_of, small_of};
use crate::text::writing::{push_node, push_number};
use order_facts::Node;
use prog_tree::Sequence;
use serde_json::Value;
use std::alloc::{AllocError, Global};

/// A part of a certificate's text.
pub(crate) trait JsonPart: Drop {
    /// Its JSON value.
    ghost json: { Self → Data };

    /// Its numbers are in their ranges.
    ghost fits: { Self → Type 0 };

    /// What has to be known of it before it is written.
    ghost can_push: { Self → Type 0 } = { λ _. Unit {0} };

    /// Adds its text.
    fn push(&self, text: &mut String) -> Result<(), AllocError>
        requires { can_push self.now }
        ensures text { OnOk result (Appends text.old text.new (json self.now)) }
        ensures fits { OnOk result (fits self.now) };

    /// The part of a JSON value.
    fn from_value(alloc: Global, value: &Value) -> Result<Self, Untaken>
        ensures ok { IfOk result (λ part. fits part × (view value.now ≡ json part)) }
        ensures misshapen { result ≡ Err Untaken.Misshapen
            → (part : Self) → fits part → view value.now ≢ json part };

    /// The part that comes next in the very text that `push` adds. Nothing is promised of it.
    fn read(cursor: &mut TextCursor<'_>) -> Result<Self, Untaken>;
}

impl JsonPart for u32 {
    ghost json = { whole_data };

    ghost fits = { IsSmall };

    fn push(&self, text: &mut String) -> Result<(), AllocError> {
        push_number(text, *self)
    }

    fn from_value(_: Global, value: &Value) -> Result<Self, Untaken> {
        small_of(value).ok_or(Untaken::Misshapen)
    }

    fn read(cursor: &mut TextCursor<'_>) -> Result<Self, Untaken> {
        cursor.small()
    }
}

impl JsonPart for Node {
    ghost json = { node_data };

    ghost fits = { NodeFits };

    ghost can_push = { NodeFits };

    fn push(&self, text: &mut String) -> Result<(), AllocError> {
        push_node(text, *self)
    }

    fn from_value(_: Global, value: &Value) -> Result<Self, Untaken> {
        node_of(value).ok_or(Untaken::Misshapen)
    }

    fn read(cursor: &mut TextCursor<'_>) -> Result<Self, Untaken> {
        cursor.node()
    }
}

impl JsonPart for Chain {
    ghost json = { chain_data };

    ghost fits = { ChainFits };

    fn push(&self, text: &mut String) -> Result<(), AllocError> {
        push_list(text, self.as_slice())
    }

    fn from_value(alloc: Global, value: &Value) -> Result<Self, Untaken> {
        let nodes = list_of::<Node>(alloc, value)?;
        match Chain::from_vec(nodes.into_vec()) {
            Some(chain) => Ok(chain),
            None => unreachable!(),
        }
    }

    fn read(cursor: &mut TextCursor<'_>) -> Result<Self, Untaken> {
        cursor.chain()
    }
}

/// Adds the text of a list.
pub(crate) fn push_list<T: JsonPart>(text: &mut String, parts: &[T]) -> Result<(), AllocError>
    requires { All T.can_push parts.now }
    ensures text { OnOk result (Appends text.old text.new (list_data T.json parts.now)) }
    ensures fits { OnOk result (All T.fits parts.now) }
{
    let [first, others @ ..] = parts else {
        return text.push_str("[]");
    };
    text.push_str("[")?;
    first.push(text)?;
    for part in others {
        text.push_str(",")?;
        part.push(text)?;
    }
    text.push_str("]")
}

/// The list of a JSON value.
pub(crate) fn list_of<T: JsonPart>(alloc: Global, value: &Value) -> Result<Sequence<T>, Untaken>
    ensures ok { IfOk result (λ parts. All T.fits parts
        × (view value.now ≡ list_data T.json parts)) }
    ensures misshapen { result ≡ Err Untaken.Misshapen
        → (parts : List T) → All T.fits parts → view value.now ≢ list_data T.json parts }
{
    let Value::Array(items) = value else {
        return Err(Untaken::Misshapen);
    };
    let mut parts = Vec::with_capacity(alloc, items.len())?;
    for item in items {
        parts.push(T::from_value(alloc, item)?)?;
    }
    Ok(Sequence::from_vec(parts))
}
