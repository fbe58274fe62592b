//! Whether an entry says of its question what holds.
ghost use Rattle.std.specs.Prelude.{◌≡◌, ◌↔◌, ◌*◌, ℕ, length, IsTrue, OnOk, IfErr, IfSome, IfNone};
ghost use Rattle.prog_check.specs.declared.path.Access.{Access};
ghost use Rattle.prog_paths.specs.StaticGraph.{IsAccessOf};
ghost use Rattle.prog_paths.specs.Questions.{IsQuestion};
ghost use Rattle.prog_paths.specs.Kinds.{option_items};
ghost use Rattle.prog_paths.specs.Facts.{mine_node, their_node};
ghost use Rattle.prog_paths.specs.Shown.{Runs, key_pairs, ShowEqual};
ghost use Rattle.robust_cert.specs.Accepted.{numbers_told, IsFitting, ChainsHold};
ghost use Rattle.robust_cert.specs.Sharing.{entry_with};
ghost use Rattle.robust_cert.specs.Telling.{question_with};
ghost use Rattle.robust_cert.specs.Flaws.{facts_between, IsAskedPair, CoversWith, IsFlawOf};

use crate::certificate::EntryQuestion;
use crate::chain::Chain;
use crate::checking::by_facts::{AskedPair, falls, runs};
use crate::checking::numbers::AskedNumbers;
use crate::entries::Reason;
use order_facts::Node;
use prog_check::{Access, Path, Term};
use prog_paths::{Placed, asks, asks_read_write, may_cover, mine_node, second_terms, their_node};

/// What an entry is wrong in.
#[derive(Clone, Copy)]
pub enum EntryFlaw {
    Cover,
    Chain,
}

fn access_at(paths: &[Path], node: usize, number: usize) -> Option<&Access>
    ensures some { IfSome result (λ access. IsAccessOf paths.now node number access.now) }
    ensures none { IfNone result ((access : Access) → ¬ IsAccessOf paths.now node number access) }
{
    paths.get(node)?.accesses.as_slice().get(number)
}

/// The two accesses of a question, if the paths ask it.
pub fn asked_pair(paths: &[Path], question: AskedNumbers) -> Option<AskedPair<'_>>
    ensures some { IfSome result (λ pair.
        IsAskedPair paths.now (question_with question) pair.mine.now pair.theirs.now) }
    ensures none { IfNone result (¬ IsQuestion paths.now (question_with question)) }
{
    let mine = access_at(paths, question.x, question.a)?;
    let theirs = access_at(paths, question.y, question.b)?;
    let first = Placed {
        node: question.x,
        number: question.a,
        access: *mine,
    };
    let second = Placed {
        node: question.y,
        number: question.b,
        access: *theirs,
    };
    if asks(&first, &second) {
        Some(AskedPair { mine, theirs })
    } else {
        None
    }
}

// Whether a chain runs from a term of the first access to one of the second, and another back.
fn run_both(asked: AskedPair<'_>, mine: Term, theirs: Term, there: &[Node], back: &[Node]) -> bool
    ensures { IsTrue result
        ↔ (Runs (facts_between asked.entry) (mine_node mine) (their_node theirs) there.now
        × Runs (facts_between asked.entry) (their_node theirs) (mine_node mine) back.now) }
{
    let mine = mine_node(mine);
    let theirs = their_node(theirs);
    runs(asked, mine, theirs, there) && runs(asked, theirs, mine, back)
}

fn show_second(asked: AskedPair<'_>, terms: Option<(Term, Term)>, chains: &[Chain]) -> bool
    ensures { IsTrue result
        ↔ ShowEqual (facts_between asked.entry) (option_items terms) chains.now }
{
    match (terms, chains) {
        (None, []) => true,
        (Some((mine, theirs)), [there, back]) => {
            run_both(asked, mine, theirs, there.as_slice(), back.as_slice())
        }
        _ => false,
    }
}

// Whether the chains show the two cells equal, column by column.
fn show_equal(asked: AskedPair<'_>, mine: &Access, theirs: &Access, chains: &[Chain]) -> bool
    ensures { IsTrue result
        ↔ ShowEqual (facts_between asked.entry) (key_pairs mine.now theirs.now) chains.now }
{
    let [there, back, others @ ..] = chains else {
        return false;
    };
    run_both(
        asked,
        mine.first.low,
        theirs.first.low,
        there.as_slice(),
        back.as_slice(),
    ) && show_second(asked, second_terms(mine.second, theirs.second), others)
}

fn column_count(mine: &Access, theirs: &Access) -> usize
    ensures { result ≡ length (key_pairs mine.now theirs.now) }
{
    if mine.second.is_some() || theirs.second.is_some() {
        2
    } else {
        1
    }
}

// The two accesses that a cover names, if they may cover the question and have so many chains.
fn covers_with<'a>(
    paths: &'a [Path],
    question: AskedNumbers,
    asked: AskedPair<'_>,
    cover: (usize, usize),
    count: usize,
) -> Option<(&'a Access, &'a Access)>
    requires { IsAskedPair paths.now (question_with question) asked.mine.now asked.theirs.now }
    ensures some { IfSome result (λ pair. CoversWith paths.now (question_with question)
        cover.0 cover.1 count pair.0.now pair.1.now) }
    ensures none { IfNone result ((of_mine of_theirs : Access) → ¬ CoversWith paths.now
        (question_with question) cover.0 cover.1 count of_mine of_theirs) }
{
    let mine = access_at(paths, question.x, cover.0)?;
    let theirs = access_at(paths, question.y, cover.1)?;
    if asks_read_write(asked.mine.kind, asked.theirs.kind)
        && may_cover(mine)
        && may_cover(theirs)
        && mine.table == theirs.table
        && count == 2 * column_count(mine, theirs)
    {
        Some((mine, theirs))
    } else {
        None
    }
}

/// Whether the reason of a question, which asks of two accesses, says what holds.
pub fn check_reason(
    paths: &[Path],
    question: EntryQuestion,
    asked: AskedPair<'_>,
    reason: &Reason,
) -> Result<(), EntryFlaw>
    requires { IsAskedPair paths.now (numbers_told question) asked.mine.now asked.theirs.now }
    ensures fitting { OnOk result (IsFitting paths.now (entry_with question reason.now)) }
    ensures chains { OnOk result (ChainsHold paths.now (entry_with question reason.now)) }
    ensures flaw { IfErr result
        (λ flaw. IsFlawOf paths.now (entry_with question reason.now) flaw) }
{
    match reason {
        Reason::Apart(chain) => {
            if falls(asked, chain.as_slice()) {
                Ok(())
            } else {
                Err(EntryFlaw::Chain)
            }
        }
        Reason::Cover {
            mine,
            theirs,
            chains,
        } => {
            let question = AskedNumbers::from(question);
            let cover = (*mine as usize, *theirs as usize);
            let Some((mine, theirs)) = covers_with(paths, question, asked, cover, chains.len())
            else {
                return Err(EntryFlaw::Cover);
            };
            if show_equal(asked, mine, theirs, chains.as_slice()) {
                Ok(())
            } else {
                Err(EntryFlaw::Chain)
            }
        }
    }
}
