//! Triples that close a structure neither of whose pairs is in the plan.
ghost use Rattle.std.specs.Prelude.{◌≡◌, ◌↔◌, IfOk, IsTrue};
ghost use Rattle.repair_laws.specs.Striking.{IsPairBefore};
ghost use Rattle.si_repair.specs.Planning.{IsAtTurn, IsOpenAtTurn, AreWithout};

use crate::plans::closing::ProgramTriple;
use repair_laws::Pair;
use std::alloc::{AllocError, Global};

// Whether the first pair stands before the second.
fn is_before(pair: Pair, other: Pair) -> bool
    ensures { IsTrue result ↔ IsPairBefore pair other }
{
    pair.from < other.from || (pair.from == other.from && pair.to < other.to)
}

fn is_same(pair: Pair, other: Pair) -> bool
    ensures { IsTrue result ↔ (pair ≡ other) }
{
    pair.from == other.from && pair.to == other.to
}

// Whether both pairs of a triple stand at this one or before it.
fn is_at_turn(triple: ProgramTriple, turn: Pair) -> bool
    ensures { IsTrue result ↔ IsAtTurn turn triple }
{
    !is_before(turn, triple.first_pair()) && !is_before(turn, triple.second_pair())
}

/// Whether a triple is left whose pairs both stand at this one or before it.
pub fn is_open_at(triples: &[ProgramTriple], turn: Pair) -> bool
    ensures { IsTrue result ↔ IsOpenAtTurn triples.now turn }
{
    triples.iter().any(|triple| is_at_turn(*triple, turn))
}

/// The triples that don't have the pair.
pub fn triples_without(
    alloc: Global,
    triples: &[ProgramTriple],
    pair: Pair,
) -> Result<Vec<ProgramTriple>, AllocError>
    ensures { IfOk result (λ left. AreWithout triples.now pair left.items) }
{
    let mut left = Vec::new(alloc);
    for triple in triples {
        if !is_same(triple.first_pair(), pair) && !is_same(triple.second_pair(), pair) {
            left.push(*triple)?;
        }
    }
    Ok(left)
}
