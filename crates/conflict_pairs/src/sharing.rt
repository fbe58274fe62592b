//! Verdicts that serve several pairs are kept once.
ghost use Rattle.std.specs.Prelude.{◌≡◌, All, IsTrue, IfSome};
ghost use Rattle.prog_paths.specs.StaticGraph.{IsAccessOf};
ghost use Rattle.conflict_pairs.specs.Alike.{HasAccess, IsAsked, IsJudgedAt};
ghost use Rattle.conflict_pairs.specs.Interning.{IsServed};
ghost use Rattle.conflict_pairs.specs.Pairing.{IsAskedBetween};
ghost use Rattle.conflict_pairs.specs.Sharing.{AreAlikeSides, AreServedSoFar};

use crate::alike::are_alike;
use crate::chain::Chain;
use crate::hashes::{access_hash, mix};
use crate::pairing::{PlacePair, question_of};
use crate::verdicts::Verdict;
use prog_check::{Access, Path};
use prog_paths::{Placed, Question};

fn are_same_chains(chains: &[Chain], others: &[Chain]) -> bool
    ensures { IsTrue result → chains.now ≡ others.now }
{
    if chains.len() != others.len() {
        return false;
    }
    for (chain, other) in chains.iter().zip(others) {
        if !chain.is_same(other.as_slice()) {
            return false;
        }
    }
    true
}

// Whether two verdicts are the same. Those that are exposed are not compared.
fn is_same(one: &Verdict, other: &Verdict) -> bool
    ensures { IsTrue result → one.now ≡ other.now }
{
    match (one, other) {
        (Verdict::Apart(chain), Verdict::Apart(other)) => chain.is_same(other.as_slice()),
        (
            Verdict::Covered {
                mine,
                theirs,
                chains,
            },
            Verdict::Covered {
                mine: m,
                theirs: t,
                chains: c,
            },
        ) => *mine == *m && *theirs == *t && are_same_chains(chains.as_slice(), c.as_slice()),
        _ => false,
    }
}

/// The access of a number on the path of a node.
pub fn access_at(paths: &[Path], node: usize, number: usize) -> &Access
    requires { HasAccess paths.now node number }
    ensures { IsAccessOf paths.now node number result.now }
{
    &paths[node].accesses.as_slice()[number]
}

// Whether the accesses of two questions are alike, side by side.
fn are_alike_sides(paths: &[Path], one: &Question, other: &Question) -> bool
    requires one { IsAsked paths.now one.now }
    requires other { IsAsked paths.now other.now }
    ensures { IsTrue result → AreAlikeSides paths.now one.now other.now }
{
    are_alike(
        access_at(paths, one.x, one.a),
        access_at(paths, other.x, other.a),
    ) && are_alike(
        access_at(paths, one.y, one.b),
        access_at(paths, other.y, other.b),
    )
}

/// The hash by which the verdict on a question is remembered: an exposed one by the accesses.
pub fn hash_on(paths: &[Path], question: &Question, found: &Verdict) -> usize
    requires { IsAsked paths.now question.now }
{
    if found.is_exposed() {
        let mine = access_at(paths, question.x, question.a);
        let theirs = access_at(paths, question.y, question.b);
        return mix(access_hash(mine), access_hash(theirs));
    }
    found.hash()
}

// Whether the verdict that is kept for another question is one on a question too: it is the same
// as the one that was found, or both are exposed, and the accesses are alike.
fn is_shared(
    paths: &[Path],
    question: &Question,
    found: &Verdict,
    other: &Question,
    kept: &Verdict,
) -> bool
    requires question { IsAsked paths.now question.now }
    requires found { IsJudgedAt paths.now question.now found.now }
    requires other { IsAsked paths.now other.now }
    requires kept { IsJudgedAt paths.now other.now kept.now }
    ensures { IsTrue result → IsJudgedAt paths.now question.now kept.now }
{
    if found.is_exposed() && kept.is_exposed() {
        return are_alike_sides(paths, question, other);
    }
    is_same(found, kept)
}

/// The number that the earlier pair at this place has, where the verdict of that number is one on a
/// question too.
pub fn number_before(
    paths: &[Path],
    places: &[Placed],
    question: &Question,
    found: &Verdict,
    before: &[PlacePair],
    numbers: &[u32],
    values: &[Verdict],
    place: usize,
) -> Option<u32>
    requires question { IsAsked paths.now question.now }
    requires found { IsJudgedAt paths.now question.now found.now }
    requires before { All (IsAskedBetween paths.now places.now) before.now }
    requires judged { AreServedSoFar paths.now places.now values.now before.now numbers.now }
    ensures { IfSome result (λ n. IsServed (IsJudgedAt paths.now) values.now question.now n) }
{
    if place >= before.len() {
        return None;
    }
    let number = numbers[place];
    let other = question_of(places, before[place]);
    if is_shared(paths, question, found, &other, &values[number as usize]) {
        Some(number)
    } else {
        None
    }
}
