//! The verdict on a question.
ghost use Rattle.std.specs.Prelude.{◌≡◌, ◌↔◌, ℕ, Some, slice_get, All, IfOk, OnOk, IfSome, IfNone};
ghost use Rattle.std.specs.Prelude.{IsOk, IsTrue};
ghost use Rattle.order_facts.specs.Chain.{IsConsistent};
ghost use Rattle.prog_paths.specs.Facts.{question_facts};
ghost use Rattle.prog_check.specs.declared.path.Access.{Access};
ghost use Rattle.prog_paths.specs.Questions.{IsQuestion, ChangesSingleCells, two, between};
ghost use Rattle.prog_paths.specs.Shown.{CoversAt};
ghost use Rattle.conflict_pairs.specs.Verdicts.{HasFall, NumbersFall, IsShortest, IsRight};
ghost use Rattle.conflict_pairs.specs.Verdicts.{TellsExposed};
ghost use Rattle.conflict_pairs.specs.declared.verdicts.Verdict.{Verdict};
ghost use Rattle.conflict_pairs.specs.Alike.{IsAsked, IsJudgedAt, IsOnAsked};
ghost use Rattle.conflict_pairs.specs.Interning.{IsServed};
ghost use Rattle.conflict_pairs.specs.Pairing.{IsAskedBetween};
ghost use Rattle.conflict_pairs.specs.Sharing.{AreServedSoFar, ArePairsJudged, IsOnPair};
ghost use Rattle.conflict_pairs.specs.Search.{ShowEqualAt, IsCoverFound, IsNoCover};
ghost use Rattle.conflict_pairs.specs.Search.{IsLeftOpen, IsUncovered, IsJudged};

use crate::apart::{contradiction, number_fall};
use crate::chain::Chain;
use crate::cover::cover_chains;
use crate::interning::{Interned, Slots, place_number, push_numbered};
use crate::pairing::{PlacePair, question_of};
use crate::sharing::{hash_on, number_before};
use crate::verdicts::Verdict;
use order_facts::Closed;
use prog_check::{Access, Kind, Path};
use prog_paths::{Placed, Question, asks_read_write, closed_facts, least_cover};
use prog_tree::Sequence;
use std::alloc::{AllocError, Global};

// The least pair that covers, where one is looked for: for a possible read-write dependency.
fn cover(
    closed: &Closed,
    mine: Kind,
    theirs: Kind,
    xs: &[Access],
    ys: &[Access],
) -> Option<(usize, usize)>
    ensures some { IfSome result
        (λ c. IsCoverFound closed.now mine theirs xs.now ys.now c.0 c.1) }
    ensures none { IfNone result (IsNoCover closed.now mine theirs xs.now ys.now) }
{
    if closed.consistent() && asks_read_write(mine, theirs) {
        least_cover(closed, xs, ys)
    } else {
        None
    }
}

// The chains of a pair that covers.
fn chains_at(
    alloc: Global,
    closed: &Closed,
    xs: &[Access],
    ys: &[Access],
    m: usize,
    t: usize,
) -> Result<Sequence<Chain>, AllocError>
    requires consistent { IsConsistent closed.now }
    requires covers { CoversAt closed.now xs.now ys.now m t }
    ensures equal { IfOk result (λ chains. ShowEqualAt closed.now xs.now ys.now m t chains) }
    ensures shortest { IfOk result (λ chains. All (IsShortest closed.now) chains) }
{
    let mine = xs[m];
    let theirs = ys[t];
    cover_chains(alloc, closed, &mine, &theirs)
}

// What is said of a question that nothing covers.
fn uncovered_verdict(closed: &Closed, mine: &Access, theirs: &Access) -> Result<Verdict, AllocError>
    requires { closed.now ≡ question_facts mine.now theirs.now }
    ensures { IfOk result (λ verdict. IsUncovered closed.now verdict) }
{
    if !closed.consistent() {
        return Ok(Verdict::Apart(contradiction(closed, mine, theirs)?));
    }
    match closed.sample()? {
        Some(sample) => Ok(Verdict::Exposed(sample)),
        None => unreachable!(),
    }
}

// What the closed facts say of the question of two accesses of two paths.
fn verdict_by_closed(
    alloc: Global,
    xs: &[Access],
    ys: &[Access],
    mine: &Access,
    theirs: &Access,
) -> Result<Verdict, AllocError>
    ensures { IfOk result (λ verdict. IsJudged xs.now ys.now mine.now theirs.now verdict) }
{
    let closed = closed_facts(alloc, mine, theirs)?;
    if let Some((m, t)) = cover(&closed, mine.kind, theirs.kind, xs, ys) {
        let chains = chains_at(alloc, &closed, xs, ys, m, t)?;
        return Ok(Verdict::Covered {
            mine: m,
            theirs: t,
            chains,
        });
    }
    uncovered_verdict(&closed, mine, theirs)
}

// What the facts say of the question of two accesses of two paths, at once where two of its
// numbers fall.
fn verdict_by_facts(
    alloc: Global,
    xs: &[Access],
    ys: &[Access],
    mine: &Access,
    theirs: &Access,
) -> Result<Verdict, AllocError>
    ensures judged { IfOk result
        (λ verdict. IsJudged xs.now ys.now mine.now theirs.now verdict) }
    ensures at_once { HasFall (question_facts mine.now theirs.now) → IsOk result }
{
    match number_fall(mine, theirs) {
        Some(chain) => Ok(Verdict::Apart(chain)),
        None => verdict_by_closed(alloc, xs, ys, mine, theirs),
    }
}

/// What the facts say of the question of access `a` of one path against access `b` of another.
/// Where two numbers of a column fall it takes no memory.
pub fn verdict(alloc: Global, x: &Path, a: usize, y: &Path, b: usize) -> Result<Verdict, AllocError>
    requires question { IsQuestion (two x.now y.now) (between a b) }
    requires single_x { ChangesSingleCells x.now }
    requires single_y { ChangesSingleCells y.now }
    ensures right { IfOk result
        (λ verdict. IsRight (two x.now y.now) (between a b) verdict) }
    ensures at_once { NumbersFall (two x.now y.now) (between a b) → IsOk result }
{
    let xs = x.accesses.as_slice();
    let ys = y.accesses.as_slice();
    verdict_by_facts(alloc, xs, ys, &xs[a], &ys[b])
}

// Whether the closed facts of two accesses can be met, and nothing in their lists covers.
fn is_left_open_by_closed(
    alloc: Global,
    xs: &[Access],
    ys: &[Access],
    mine: &Access,
    theirs: &Access,
) -> Result<bool, AllocError>
    ensures { IfOk result (λ told. IsTrue told ↔ IsLeftOpen xs.now ys.now mine.now theirs.now) }
{
    let closed = closed_facts(alloc, mine, theirs)?;
    if !closed.consistent() {
        return Ok(false);
    }
    Ok(cover(&closed, mine.kind, theirs.kind, xs, ys).is_none())
}

// Whether the facts of two accesses can be met, and nothing in their lists covers, at once where
// two numbers of a column fall.
fn is_left_open_by_facts(
    alloc: Global,
    xs: &[Access],
    ys: &[Access],
    mine: &Access,
    theirs: &Access,
) -> Result<bool, AllocError>
    ensures told { IfOk result
        (λ told. IsTrue told ↔ IsLeftOpen xs.now ys.now mine.now theirs.now) }
    ensures at_once { HasFall (question_facts mine.now theirs.now) → IsOk result }
{
    match number_fall(mine, theirs) {
        Some(_) => Ok(false),
        None => is_left_open_by_closed(alloc, xs, ys, mine, theirs),
    }
}

/// Whether the question of access `a` of one path against access `b` of another is exposed: what
/// its verdict says, without chains and sample. Where two numbers of a column fall it takes no
/// memory.
pub fn is_exposed_question(
    alloc: Global,
    x: &Path,
    a: usize,
    y: &Path,
    b: usize,
) -> Result<bool, AllocError>
    requires question { IsQuestion (two x.now y.now) (between a b) }
    requires single_x { ChangesSingleCells x.now }
    requires single_y { ChangesSingleCells y.now }
    ensures exposed { IfOk result
        (λ exposed. TellsExposed (two x.now y.now) (between a b) exposed) }
    ensures at_once { NumbersFall (two x.now y.now) (between a b) → IsOk result }
{
    let xs = x.accesses.as_slice();
    let ys = y.accesses.as_slice();
    is_left_open_by_facts(alloc, xs, ys, &xs[a], &ys[b])
}

// What the facts say of a question of the paths.
fn verdict_of(alloc: Global, paths: &[Path], question: &Question) -> Result<Verdict, AllocError>
    requires { IsAsked paths.now question.now }
    ensures { IfOk result (λ verdict. IsJudgedAt paths.now question.now verdict) }
{
    let xs = paths[question.x].accesses.as_slice();
    let ys = paths[question.y].accesses.as_slice();
    verdict_by_facts(alloc, xs, ys, &xs[question.a], &ys[question.b])
}

// So many pairs have one verdict at least, mostly.
const PAIRS_OF_A_VERDICT: usize = 8;

// The number of a verdict on the question of a pair: that of an earlier pair, where its place is
// remembered and its verdict is one on this pair too, or the number of a new one.
fn number_of_pair(
    alloc: Global,
    paths: &[Path],
    places: &[Placed],
    before: &[PlacePair],
    numbers: &[u32],
    pair: PlacePair,
    slots: &mut Slots,
    values: &mut Vec<Verdict>,
) -> Result<u32, AllocError>
    requires before { All (IsAskedBetween paths.now places.now) before.now }
    requires judged { AreServedSoFar paths.now places.now values.old.items before.now numbers.now }
    requires pair { IsAskedBetween paths.now places.now pair }
    requires sound { All (IsOnAsked paths.now) values.old.items }
    ensures sound { OnOk result (All (IsOnAsked paths.now) values.new.items) }
    ensures served { IfOk result
        (λ n. IsServed (IsOnPair paths.now places.now) values.new.items pair n) }
    ensures keeps { OnOk result ((k : ℕ) (v : Verdict)
        → slice_get values.old.items k ≡ Some v → slice_get values.new.items k ≡ Some v) }
{
    let question = question_of(places, pair);
    let found = verdict_of(alloc, paths, &question)?;
    let hash = hash_on(paths, &question, &found);
    let place = slots.get(hash) as usize;
    if let Some(known) = number_before(
        paths, places, &question, &found, before, numbers, values, place,
    ) {
        return Ok(known);
    }
    slots.set(hash, place_number(before.len()));
    push_numbered(values, found)
}

/// The verdicts on the questions of some pairs of accesses, and for each pair the number of its
/// own. There are few different ones, so a verdict is kept only where the slots remember no pair
/// whose verdict serves.
pub fn verdicts_of(
    alloc: Global,
    paths: &[Path],
    places: &[Placed],
    pairs: &[PlacePair],
) -> Result<Interned<Verdict>, AllocError>
    requires { All (IsAskedBetween paths.now places.now) pairs.now }
    ensures { IfOk result (λ judged. ArePairsJudged paths.now places.now pairs.now
        judged.values.items judged.numbers.items) }
{
    let mut slots = Slots::for_keys(alloc, pairs.len() / PAIRS_OF_A_VERDICT)?;
    let mut values = Vec::new(alloc);
    let mut numbers = Vec::with_capacity(alloc, pairs.len())?;
    for (k, pair) in pairs.iter().enumerate() {
        let before = &pairs[..k];
        let number = number_of_pair(
            alloc,
            paths,
            places,
            before,
            &numbers,
            *pair,
            &mut slots,
            &mut values,
        )?;
        numbers.push_reserved(number);
    }
    Ok(Interned { values, numbers })
}
