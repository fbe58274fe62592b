//! The reasons that verdicts give. There are few different ones, so verdicts share them.
ghost use Rattle.std.specs.Prelude.{◌≡◌, All, IsTrue, IfOk};
ghost use Rattle.si_repair.specs.Certificates.{reason_of, Gives, AreGiven, TightFits, VerdictFits};

use crate::certificate::as_u32;
use conflict_pairs::{Interned, Interner, Verdict, intern_all};
use order_facts::Nodes;
use prog_tree::Sequence;
use robust_cert::{Chain, Reason};
use std::alloc::{AllocError, Global};

// A chain as a certificate has it.
fn copy_of(alloc: Global, chain: &conflict_pairs::Chain) -> Result<Chain, AllocError>
    requires { TightFits chain.now }
    ensures { IfOk result (λ copy. copy ≡ chain.now) }
{
    let copy = Nodes::from_slice(alloc, chain.as_slice())?;
    match Chain::from_nodes(copy) {
        Some(chain) => Ok(chain),
        None => unreachable!(),
    }
}

fn copies_of(alloc: Global, chains: &[conflict_pairs::Chain]) -> Result<Sequence<Chain>, AllocError>
    requires { All TightFits chains.now }
    ensures { IfOk result (λ copies. copies ≡ chains.now) }
{
    let mut copies = Vec::with_capacity(alloc, chains.len())?;
    for chain in chains {
        copies.push(copy_of(alloc, chain)?)?;
    }
    Ok(Sequence::from_vec(copies))
}

// The reason that a verdict gives. An exposed question has no entry, so one reason that is never
// told stands for those of all exposed verdicts.
fn reason_of(alloc: Global, verdict: &Verdict) -> Result<Reason, AllocError>
    requires { VerdictFits verdict.now }
    ensures { IfOk result (λ reason. reason ≡ reason_of verdict.now) }
{
    match verdict {
        Verdict::Apart(chain) => Ok(Reason::Apart(copy_of(alloc, chain)?)),
        Verdict::Covered {
            mine,
            theirs,
            chains,
        } => Ok(Reason::Cover {
            mine: as_u32(*mine),
            theirs: as_u32(*theirs),
            chains: copies_of(alloc, chains.as_slice())?,
        }),
        Verdict::Exposed(_) => Ok(Reason::Cover {
            mine: 0,
            theirs: 0,
            chains: Sequence::new(alloc),
        }),
    }
}

fn are_same_chains(chains: &[Chain], others: &[conflict_pairs::Chain]) -> bool
    ensures { IsTrue result → chains.now ≡ others.now }
{
    if chains.len() != others.len() {
        return false;
    }
    for (chain, other) in chains.iter().zip(others) {
        if !other.is_same(chain.as_slice()) {
            return false;
        }
    }
    true
}

// Whether a reason is the one that a verdict gives.
fn is_given(reason: &Reason, verdict: &Verdict) -> bool
    ensures { IsTrue result → reason.now ≡ reason_of verdict.now }
{
    match (reason, verdict) {
        (Reason::Apart(chain), Verdict::Apart(other)) => other.is_same(chain.as_slice()),
        (
            Reason::Cover {
                mine,
                theirs,
                chains,
            },
            Verdict::Covered {
                mine: m,
                theirs: t,
                chains: c,
            },
        ) => {
            *mine as usize == *m
                && *theirs as usize == *t
                && are_same_chains(chains.as_slice(), c.as_slice())
        }
        (
            Reason::Cover {
                mine,
                theirs,
                chains,
            },
            Verdict::Exposed(_),
        ) => *mine == 0 && *theirs == 0 && chains.is_empty(),
        _ => false,
    }
}

// Makes the reasons that verdicts give.
#[derive(Drop)]
struct Reasoning;

impl Interner for Reasoning {
    type Key = Verdict;

    type Value = Reason;

    ghost takes = { λ reasoning verdict. VerdictFits verdict };

    ghost is_sound = { λ reasoning reason. Unit };

    ghost serves = { λ reasoning verdict reason. Gives verdict reason };

    fn hash(&self, verdict: &Verdict) -> usize {
        verdict.hash()
    }

    fn is_served(&self, verdict: &Verdict, reason: &Reason) -> bool {
        is_given(reason, verdict)
    }

    fn make(&self, alloc: Global, verdict: &Verdict) -> Result<Reason, AllocError> {
        reason_of(alloc, verdict)
    }
}

/// The reasons that some verdicts give.
pub fn reasons_of(alloc: Global, verdicts: &[Verdict]) -> Result<Interned<Reason>, AllocError>
    requires { All VerdictFits verdicts.now }
    ensures { IfOk result (λ given.
        AreGiven verdicts.now given.values.items given.numbers.items) }
{
    intern_all(alloc, &Reasoning, verdicts)
}
