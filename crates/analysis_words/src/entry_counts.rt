//! The entries of a certificate, counted in one walk, in parts that several threads walk where
//! there are many.
ghost use Rattle.std.specs.Prelude.{◌≡◌, ◌==◌, ◌&&◌, ◌+◌, ◌<◌, [], ℕ, Option, All, IfOk, OnOk};
ghost use Rattle.std.specs.Prelude.{option_map, slice_get};
ghost use Rattle.prog_paths.specs.StaticGraph.{Precedes};
ghost use Rattle.robust_cert.specs.Sharing.{entries_told, reason_at, HasReason};
ghost use Rattle.analysis_words.specs.Counts.{count_at, count_or_zero, is_apart, is_in_cover};
ghost use Rattle.analysis_words.specs.Counts.{most_count, number_in, one_if, AddsCounts};
ghost use Rattle.analysis_words.specs.Counts.{AreCountsInParts, AreCountsOf};
ghost use Rattle.analysis_words.specs.Counts.{CountsCovers, IsMost, IsMostAmong, IsSumOf};

use conflict_pairs::EQUAL_PARTS;
use prog_check::Path;
use rayon::prelude::*;
use robust_cert::{Entries, EntryQuestion, MIN_ENTRIES_OF_THREADS, Reason, Told};
use std::alloc::{AllocError, Global};
use std::thread::Threads;

/// An access of a node, and in how many covers it is one of the two.
#[derive(Clone, Copy)]
pub struct Covering {
    pub node: usize,
    pub access: usize,
    pub count: u64,
}

/// How many entries have which reason.
#[derive(Drop)]
pub struct EntryCounts {
    /// Of so many questions the two accesses never meet.
    pub apart: usize,
    // For each access of each node, in how many covers it is one of the two.
    covers: Vec<Vec<u64>>,
}

// Whether questions with this reason never meet.
fn is_apart(reason: &Reason) -> bool
    ensures { result ≡ is_apart reason.now }
{
    matches!(reason, Reason::Apart(_))
}

// The reason of an entry.
fn reason_of<'r>(told: &Told, reasons: &'r [Reason]) -> &'r Reason
    requires { HasReason reasons.now told.now }
    ensures { result.now ≡ reason_at reasons.now told.now.reason }
{
    &reasons[told.reason as usize]
}

// For each access of each node the number 0.
fn no_covers(alloc: Global, nodes: &[Path]) -> Result<Vec<Vec<u64>>, AllocError>
    ensures { IfOk result (λ covers. CountsCovers nodes.now [] covers.items) }
{
    let mut covers = Vec::with_capacity(alloc, nodes.len())?;
    for node in nodes {
        covers.push(vec![in alloc; 0; node.accesses.len()]?)?;
    }
    Ok(covers)
}

// Notes one cover more of an access. More than memory can hold are answered as want of it.
fn note_access(covers: &mut Vec<Vec<u64>>, node: usize, access: usize) -> Result<(), AllocError>
    ensures { OnOk result (AddsCounts (λ x a. one_if (node == x && access == a))
        covers.old.items covers.new.items) }
{
    if node >= covers.len() || access >= covers[node].len() {
        return Ok(());
    }
    let Some(count) = covers[node][access].checked_add(1) else {
        return Err(AllocError);
    };
    covers[node][access] = count;
    Ok(())
}

// Notes one cover more of the two accesses of a reason, if it is one.
fn note_cover(
    covers: &mut Vec<Vec<u64>>,
    question: EntryQuestion,
    reason: &Reason,
) -> Result<(), AllocError>
    ensures { OnOk result (AddsCounts
        (λ x a. one_if (is_in_cover x a question reason.now))
        covers.old.items covers.new.items) }
{
    let Reason::Cover { mine, theirs, .. } = reason else {
        return Ok(());
    };
    note_access(covers, question.x as usize, *mine as usize)?;
    if question.x != question.y || *mine != *theirs {
        note_access(covers, question.y as usize, *theirs as usize)?;
    }
    Ok(())
}

fn count_of(covering: Option<Covering>) -> u64
    ensures { result ≡ most_count covering }
{
    match covering {
        Some(covering) => covering.count,
        None => 0,
    }
}

// The first access of a node with the most covers, if it has more than the most before it.
fn most_of_node(node: usize, covers: &[u64], before: Option<Covering>) -> Option<Covering>
    ensures { (count : (x a : ℕ) → Option ℕ) → ((a : ℕ) → count node a ≡ slice_get covers.now a)
        → IsMostAmong count (λ x a. Precedes x a node 0) before
        → IsMostAmong count (λ x a. Precedes x a (node + 1) 0) result }
{
    let mut most = before;
    for (access, count) in covers.iter().enumerate() {
        if *count > count_of(most) {
            most = Some(Covering {
                node,
                access,
                count: *count,
            });
        }
    }
    most
}

// Adds counts to those of the same accesses. More than memory can hold are answered as want of it.
fn add_counts(all: &mut Vec<u64>, more: &[u64]) -> Result<(), AllocError>
    ensures { OnOk result ((a : ℕ) → slice_get all.new.items a
        ≡ option_map (λ n. n + count_or_zero more.now a) (slice_get all.old.items a)) }
{
    for (access, count) in more.iter().enumerate() {
        if access < all.len() {
            let Some(sum) = all[access].checked_add(*count) else {
                return Err(AllocError);
            };
            all[access] = sum;
        }
    }
    Ok(())
}

// Adds the covers of some entries to those of others.
fn add_covers(all: &mut Vec<Vec<u64>>, more: &[Vec<u64>]) -> Result<(), AllocError>
    ensures { OnOk result (AddsCounts (number_in more.now) all.old.items all.new.items) }
{
    for (node, counts) in more.iter().enumerate() {
        if node < all.len() {
            add_counts(&mut all[node], counts)?;
        }
    }
    Ok(())
}

// How many entries a part has, of so many.
fn part_len(entries: usize) -> usize
    ensures { 0 < result }
{
    (entries / EQUAL_PARTS).max(MIN_ENTRIES_OF_THREADS)
}

// Counts some entries.
fn count(
    alloc: Global,
    nodes: &[Path],
    told: &[Told],
    reasons: &[Reason],
) -> Result<EntryCounts, AllocError>
    requires { All (HasReason reasons.now) told.now }
    ensures { IfOk result (AreCountsOf nodes.now (entries_told reasons.now told.now)) }
{
    let mut covers = no_covers(alloc, nodes)?;
    let mut apart = 0;
    for next in told {
        let reason = reason_of(next, reasons);
        if is_apart(reason) {
            apart += 1;
        }
        note_cover(&mut covers, next.question, reason)?;
    }
    Ok(EntryCounts { apart, covers })
}

// Counts some entries, in parts that threads of their own count where there are many.
fn count_parts(
    rt: &(impl Threads + Sync),
    alloc: Global,
    nodes: &[Path],
    told: &[Told],
    reasons: &[Reason],
) -> Result<Vec<EntryCounts>, AllocError>
    requires { All (HasReason reasons.now) told.now }
    ensures { IfOk result
        (AreCountsInParts nodes.now (entries_told reasons.now told.now)) }
{
    told.par_chunks(part_len(told.len()))
        .map(
            |part: &[Told]| -> Result<EntryCounts, AllocError>
                requires { All (HasReason reasons.now) part.now }
                ensures { IfOk result
                    (AreCountsOf nodes.entry.now (entries_told reasons.entry.now part.now)) }
            { count(alloc, nodes, part, reasons) },
        )
        .collect::<Result<Vec<EntryCounts>, AllocError>>(rt, alloc)?
}

impl EntryCounts {
    /// Counts the entries of a certificate of these nodes.
    pub fn of(
        rt: &(impl Threads + Sync),
        alloc: Global,
        nodes: &[Path],
        entries: &Entries,
    ) -> Result<Self, AllocError>
        ensures { IfOk result (AreCountsOf nodes.now entries.now) }
    {
        let (told, reasons) = entries.parts();
        let parts = count_parts(rt, alloc, nodes, told, reasons)?;
        EntryCounts::of_all(alloc, nodes, &parts)
    }

    // The counts of all parts.
    fn of_all(alloc: Global, nodes: &[Path], parts: &[EntryCounts]) -> Result<Self, AllocError>
        ensures { IfOk result (IsSumOf nodes.now parts.now) }
    {
        let mut counts = EntryCounts {
            apart: 0,
            covers: no_covers(alloc, nodes)?,
        };
        for part in parts {
            counts.add(part)?;
        }
        Ok(counts)
    }

    // Adds the counts of other entries. More than memory can hold are answered as want of it.
    fn add(&mut self, part: &EntryCounts) -> Result<(), AllocError>
        ensures apart { OnOk result (self.new.apart ≡ self.old.apart + part.now.apart) }
        ensures covers { OnOk result (AddsCounts (number_in part.now.covers.items)
            self.old.covers.items self.new.covers.items) }
    {
        let Some(apart) = self.apart.checked_add(part.apart) else {
            return Err(AllocError);
        };
        self.apart = apart;
        add_covers(&mut self.covers, &part.covers)?;
        Ok(())
    }

    /// The first access that is one of the two of most covers; none where there is no cover.
    pub fn most_covering(&self) -> Option<Covering>
        ensures { IsMost (count_at self.now.covers.items) result }
    {
        let mut most = None;
        for (node, of_node) in self.covers.iter().enumerate() {
            most = most_of_node(node, of_node, most);
        }
        most
    }
}
