//! Chains by the facts of a question.
ghost use Rattle.std.specs.Prelude.{◌≡◌, ◌↔◌, length, IsTrue, IfSome, IfNone};
ghost use Rattle.order_facts.specs.Chain.{IsChain, RunsBetween};
ghost use Rattle.prog_paths.specs.Shown.{Falls, Runs};
ghost use Rattle.robust_cert.specs.Flaws.{facts_between, RunsDown};

use order_facts::{Node, is_chain};
use prog_check::Access;
use prog_paths::question_facts;

/// The two accesses of a question.
#[derive(Clone, Copy)]
pub struct AskedPair<'a> {
    pub mine: &'a Access,
    pub theirs: &'a Access,
}

// Whether the nodes are a chain of the question's facts.
fn is_chain_of(asked: AskedPair<'_>, chain: &[Node]) -> bool
    ensures { IsTrue result ↔ IsChain (facts_between asked.entry) chain.now }
{
    let facts = question_facts(asked.mine, asked.theirs);
    is_chain(facts.as_slice(), chain)
}

// The first node and the last.
fn ends(chain: &[Node]) -> Option<(Node, Node)>
    ensures some { IfSome result (λ ends. RunsBetween ends.0 ends.1 chain.now) }
    ensures none { IfNone result (length chain.now ≡ 0) }
{
    Some((*chain.first()?, *chain.last()?))
}

fn runs_down(chain: &[Node]) -> bool
    ensures { IsTrue result ↔ RunsDown chain.now }
{
    match ends(chain) {
        Some((Node::Number(first), Node::Number(last))) => last < first,
        _ => false,
    }
}

fn runs_between(from: Node, to: Node, chain: &[Node]) -> bool
    ensures { IsTrue result ↔ RunsBetween from to chain.now }
{
    match ends(chain) {
        Some((first, last)) => first == from && last == to,
        None => false,
    }
}

/// Whether a chain runs from a number to a smaller one.
pub fn falls(asked: AskedPair<'_>, chain: &[Node]) -> bool
    ensures { IsTrue result ↔ Falls (facts_between asked.entry) chain.now }
{
    runs_down(chain) && is_chain_of(asked, chain)
}

/// Whether a chain runs from one node to another.
pub fn runs(asked: AskedPair<'_>, from: Node, to: Node, chain: &[Node]) -> bool
    ensures { IsTrue result ↔ Runs (facts_between asked.entry) from to chain.now }
{
    runs_between(from, to, chain) && is_chain_of(asked, chain)
}
