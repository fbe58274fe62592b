//! What is said of a question.
ghost use Rattle.std.specs.Prelude.{◌≡◌};
ghost use Rattle.conflict_pairs.specs.Verdicts.{can_meet, is_exposed};

use crate::chain::Chain;
use crate::hashes::{mix, node_hash};
use order_facts::Sample;
use prog_tree::Sequence;

// The hash of a chain: of its first two nodes.
fn chain_hash(chain: &Chain) -> usize {
    match chain.as_slice() {
        [] => 0,
        [only] => node_hash(*only),
        [first, second, ..] => mix(node_hash(*first), node_hash(*second)),
    }
}

// The hash of some chains: of the first and the last.
fn chains_hash(chains: &[Chain]) -> usize {
    match chains {
        [] => 0,
        [only] => chain_hash(only),
        [first, .., last] => mix(chain_hash(first), chain_hash(last)),
    }
}

/// What the facts of a question say.
#[derive(Drop)]
pub enum Verdict {
    /// The two accesses never meet: the chain runs from a number to a smaller one.
    Apart(Chain),
    /// Wherever they meet, `mine` of the first path and `theirs` of the second change or keep one
    /// cell. The chains say so, column by column: mine to theirs, then theirs to mine.
    Covered {
        mine: usize,
        theirs: usize,
        chains: Sequence<Chain>,
    },
    /// They meet under the sample; where the first may miss what the second changes, no pair of
    /// accesses covers them.
    Exposed(Sample),
}

impl Verdict {
    /// Whether it says that the two accesses can meet.
    pub fn can_meet(&self) -> bool
        ensures { result ≡ can_meet self.now }
    {
        !matches!(self, Verdict::Apart(_))
    }

    /// Whether it says that the question is exposed.
    pub fn is_exposed(&self) -> bool
        ensures { result ≡ is_exposed self.now }
    {
        matches!(self, Verdict::Exposed(_))
    }

    /// The same number for verdicts that show the same, mostly another for others. Nothing is
    /// promised of it, as `Interner::hash` is free: a bad one costs time and memory alone.
    pub fn hash(&self) -> usize {
        match self {
            Verdict::Apart(chain) => chain_hash(chain),
            Verdict::Covered {
                mine,
                theirs,
                chains,
            } => mix(mix(*mine, *theirs), chains_hash(chains.as_slice())),
            Verdict::Exposed(_) => 0,
        }
    }
}
