//! What verdicts say.

use crate::dangers::{Place, is_sampled};
use conflict_pairs::{Chain, Verdict};
use order_facts::{Node, Sample};

/// What a verdict says.
#[derive(Clone, Copy)]
pub enum Said {
    /// The nodes of the chain that keeps the accesses apart.
    Apart(&'static [Node]),
    /// The accesses that cover, by number, and the nodes that the chains join, there and back.
    Covered((usize, usize), (Node, Node)),
    /// The sample's numbers of three parameters of each side, mine before theirs.
    Exposed([i64; 6]),
}

/// The places of a question's two accesses, and what its verdict says.
pub type Judged = (Place, Place, Said);

/// Exposed where all parameters are 0.
pub const EXPOSED: Said = Said::Exposed([0; 6]);

fn is_apart(chain: &Chain, wanted: &Said) -> bool {
    match wanted {
        Said::Apart(nodes) => chain.is_same(*nodes),
        _ => false,
    }
}

/// Whether the chains lead from the first node to the second, and back.
fn lead_both_ways(chains: &[Chain], nodes: (Node, Node)) -> bool {
    let [there, back] = chains else {
        return false;
    };
    let (mine, theirs) = nodes;
    there.is_same(&[mine, theirs]) && back.is_same(&[theirs, mine])
}

fn is_covered(by: (usize, usize), chains: &[Chain], wanted: &Said) -> bool {
    match wanted {
        Said::Covered(accesses, nodes) => by == *accesses && lead_both_ways(chains, *nodes),
        _ => false,
    }
}

fn is_exposed(sample: &Sample, wanted: &Said) -> bool {
    match wanted {
        Said::Exposed(numbers) => is_sampled(sample, numbers),
        _ => false,
    }
}

/// Whether a verdict says this.
pub fn is_said(verdict: &Verdict, wanted: &Said) -> bool {
    match verdict {
        Verdict::Apart(chain) => is_apart(chain, wanted),
        Verdict::Covered {
            mine,
            theirs,
            chains,
        } => is_covered((*mine, *theirs), chains.as_slice(), wanted),
        Verdict::Exposed(sample) => is_exposed(sample, wanted),
    }
}
