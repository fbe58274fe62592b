//! From the parts of a JSON value to the parts of a certificate.

ghost use Rattle.std.specs.Prelude.{◌≡◌, ◌≢◌, ◌^◌, codes, ℕ, ℤ, List, All, Some, Err, IfOk, IfSome};
ghost use Rattle.std.specs.Prelude.{IfNone, IsTrue, ◌↔◌, FitsSigned};
ghost use Rattle.std.specs.Int.{w64};
ghost use Rattle.serde_json.specs.Data.{Data, number, string, array, item, no_items};
ghost use Rattle.serde_json.specs.Find.{of_integer};
ghost use Rattle.serde_json.specs.View.{view, items_view};
ghost use Rattle.order_facts.specs.declared.steps.Node.{Node};
ghost use Rattle.robust_cert.specs.declared.certificate.EntryQuestion.{EntryQuestion};
ghost use Rattle.robust_cert.specs.declared.entries.Reason.{Reason};
ghost use Rattle.robust_cert.specs.Ranges.{IsSmall, NodeFits, ChainFits};
ghost use Rattle.robust_cert.specs.Json.{whole_data, node_data, QuestionFits, list_data};
ghost use Rattle.robust_cert.specs.Json.{entry_data, ReasonFits, EntryFits, apart_items};
ghost use Rattle.robust_cert.specs.Json.{cover_items, AreNumbersOf, IsWordedAs};
ghost use Rattle.robust_cert.specs.Sharing.{Entry, entry_with};

use crate::certificate::EntryQuestion;
use crate::chain::Chain;
use crate::entries::{Entries, Reason};
use crate::fault::Untaken;
use crate::text::part::{JsonPart, list_of};
use order_facts::Node;
use serde_json::Value;
use std::alloc::Global;

/// A whole number below 2^32.
pub fn small_of(value: &Value) -> Option<u32>
    ensures some { IfSome result (λ n. view value.now ≡ whole_data n) }
    ensures none { IfNone result ((n : ℕ) → IsSmall n → view value.now ≢ whole_data n) }
{
    u32::try_from(value.as_u64()?).ok()
}

fn index_of(value: &Value) -> Option<usize>
    ensures some { IfSome result (λ n. IsSmall n × (view value.now ≡ whole_data n)) }
    ensures none { IfNone result ((n : ℕ) → IsSmall n → view value.now ≢ whole_data n) }
{
    let index = small_of(value)?;
    Some(index as usize)
}

fn integer_of(value: &Value) -> Option<i64>
    ensures some { IfSome result (λ k. view value.now ≡ number (of_integer k)) }
    ensures none { IfNone result ((k : ℤ) → FitsSigned w64 k
        → view value.now ≢ number (of_integer k)) }
{
    value.as_i64()
}

/// A node, which is a letter and a number.
pub fn node_of(value: &Value) -> Option<Node>
    ensures some { IfSome result (λ node. NodeFits node × (view value.now ≡ node_data node)) }
    ensures none { IfNone result ((node : Node) → NodeFits node → view value.now ≢ node_data node) }
{
    let [letter, number] = value.as_array()?.as_slice() else {
        return None;
    };
    match letter.as_str()? {
        "m" => Some(Node::Mine(index_of(number)?)),
        "u" => Some(Node::MineUnknown(index_of(number)?)),
        "t" => Some(Node::Theirs(index_of(number)?)),
        "v" => Some(Node::TheirsUnknown(index_of(number)?)),
        "n" => Some(Node::Number(integer_of(number)?)),
        _ => None,
    }
}

fn question_of(x: &Value, a: &Value, y: &Value, b: &Value) -> Option<EntryQuestion>
    ensures some { IfSome result (λ q. QuestionFits q
        × AreNumbersOf q (view x.now) (view a.now) (view y.now) (view b.now)) }
    ensures none { IfNone result ((q : EntryQuestion) → QuestionFits q
        → ¬ AreNumbersOf q (view x.now) (view a.now) (view y.now) (view b.now)) }
{
    Some(EntryQuestion {
        x: small_of(x)?,
        a: small_of(a)?,
        y: small_of(y)?,
        b: small_of(b)?,
    })
}

fn apart_of(alloc: Global, items: &[Value]) -> Result<Reason, Untaken>
    ensures ok { IfOk result (λ reason. ReasonFits reason
        × IsWordedAs reason (string (codes "apart")) (items_view items.now)) }
    ensures misshapen { result ≡ Err Untaken.Misshapen
        → (chain : List Node) → ChainFits chain → items_view items.now ≢ apart_items chain }
{
    let [chain] = items else {
        return Err(Untaken::Misshapen);
    };
    let chain = Chain::from_value(alloc, chain)?;
    Ok(Reason::Apart(chain))
}

fn cover_of(alloc: Global, items: &[Value]) -> Result<Reason, Untaken>
    ensures ok { IfOk result (λ reason. ReasonFits reason
        × IsWordedAs reason (string (codes "cover")) (items_view items.now)) }
    ensures misshapen { result ≡ Err Untaken.Misshapen
        → (m t : ℕ) (cs : List (List Node)) → IsSmall m → IsSmall t → All ChainFits cs
        → items_view items.now ≢ cover_items m t cs }
{
    let [mine, theirs, chains] = items else {
        return Err(Untaken::Misshapen);
    };
    let (Some(mine), Some(theirs)) = (small_of(mine), small_of(theirs)) else {
        return Err(Untaken::Misshapen);
    };
    let chains = list_of(alloc, chains)?;
    Ok(Reason::Cover {
        mine,
        theirs,
        chains,
    })
}

fn is_text(value: &Value, text: &str) -> bool
    ensures { IsTrue result ↔ (view value.now ≡ string text.now) }
{
    value.as_str() == Some(text)
}

fn reason_of(alloc: Global, kind: &Value, items: &[Value]) -> Result<Reason, Untaken>
    ensures ok { IfOk result (λ reason. ReasonFits reason
        × IsWordedAs reason (view kind.now) (items_view items.now)) }
    ensures misshapen { result ≡ Err Untaken.Misshapen
        → (reason : Reason) → ReasonFits reason
        → ¬ IsWordedAs reason (view kind.now) (items_view items.now) }
{
    if is_text(kind, "apart") {
        apart_of(alloc, items)
    } else if is_text(kind, "cover") {
        cover_of(alloc, items)
    } else {
        Err(Untaken::Misshapen)
    }
}

// The question of an entry, and its reason.
fn entry_of(alloc: Global, value: &Value) -> Result<(EntryQuestion, Reason), Untaken>
    ensures ok { IfOk result (λ p. EntryFits (entry_with p.0 p.1)
        × (view value.now ≡ entry_data (entry_with p.0 p.1))) }
    ensures misshapen { result ≡ Err Untaken.Misshapen
        → (entry : Entry) → EntryFits entry → view value.now ≢ entry_data entry }
{
    let Value::Array(items) = value else {
        return Err(Untaken::Misshapen);
    };
    let [kind, x, a, y, b, others @ ..] = items.as_slice() else {
        return Err(Untaken::Misshapen);
    };
    let Some(question) = question_of(x, a, y, b) else {
        return Err(Untaken::Misshapen);
    };
    let reason = reason_of(alloc, kind, others)?;
    Ok((question, reason))
}

/// The entries of a certificate. Each value is dropped once it is taken, while it is still in the
/// cache.
pub fn entries_of(alloc: Global, items: Vec<Value>) -> Result<Entries, Untaken>
    ensures ok { IfOk result (λ entries. All EntryFits entries
        × (array (items_view items.items) ≡ list_data entry_data entries)) }
    ensures misshapen { result ≡ Err Untaken.Misshapen
        → (entries : List Entry) → All EntryFits entries
        → array (items_view items.items) ≢ list_data entry_data entries }
{
    let mut entries = Entries::new(alloc);
    for item in items {
        let (question, reason) = entry_of(alloc, &item)?;
        entries.push(question, reason)?;
    }
    Ok(entries)
}
