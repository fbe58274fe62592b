//! All questions of a list of paths, answered by several threads.
ghost use Rattle.std.specs.Prelude.{◌≡◌, ◌↔◌, ◌+◌, ◌++◌, ◌<◌, length, map, All, IfOk, OnOk, Err};
ghost use Rattle.conflict_pairs.specs.declared.fault.PairFault as PairFault;
ghost use Rattle.prog_paths.specs.Questions.{ChangesSingleCells, questions_of};
ghost use Rattle.prog_paths.specs.Limits.{most_questions};
ghost use Rattle.conflict_pairs.specs.Pairing.{IsAskedBetween};
ghost use Rattle.conflict_pairs.specs.Sharing.{ArePairsJudged, verdicts_in, numbers_in};
ghost use Rattle.conflict_pairs.specs.Table.{StandsFor};

use crate::classed::class_table_par;
use crate::fault::PairFault;
use crate::interning::Interned;
use crate::judge::verdicts_of;
use crate::limits::{EQUAL_PARTS, MAX_VALUES, MIN_QUESTIONS_OF_THREADS};
use crate::pairing::PlacePair;
use crate::table::PairTable;
use crate::verdicts::Verdict;
use prog_check::Path;
use prog_paths::Placed;
use rayon::prelude::*;
use std::alloc::{AllocError, Global};
use std::thread::Threads;

// How many questions a part has, of so many.
fn part_len(questions: usize) -> usize
    ensures { 0 < result }
{
    if questions < MIN_QUESTIONS_OF_THREADS {
        MIN_QUESTIONS_OF_THREADS
    } else {
        questions / EQUAL_PARTS
    }
}

// The verdicts on the questions of some pairs of accesses, and for each pair the number of its
// own, in parts that threads of their own make where there are many.
fn parts_of(
    rt: &(impl Threads + Sync),
    alloc: Global,
    paths: &[Path],
    places: &[Placed],
    pairs: &[PlacePair],
) -> Result<Vec<Interned<Verdict>>, AllocError>
    requires { All (IsAskedBetween paths.now places.now) pairs.now }
    ensures { IfOk result (λ parts. ArePairsJudged paths.now places.now pairs.now
        (verdicts_in parts.items) (numbers_in 0 parts.items)) }
{
    pairs
        .par_chunks(part_len(pairs.len()))
        .map(
            |chunk: &[PlacePair]| -> Result<Interned<Verdict>, AllocError>
                requires { All (IsAskedBetween paths.now places.now) chunk.now }
                ensures { IfOk result (λ part. ArePairsJudged paths.entry.now places.entry.now
                    chunk.now part.values.items part.numbers.items) }
            { verdicts_of(alloc, paths, places, chunk) },
        )
        .collect::<Result<Vec<Interned<Verdict>>, AllocError>>(rt, alloc)?
}

// The number that a verdict of a part has among those of all, of which so many stand before the
// part. One that 32 bits can't say is answered as want of memory.
fn number_behind(before: usize, number: u32) -> Result<u32, AllocError>
    ensures { IfOk result (λ behind. behind ≡ before + number) }
{
    let Some(behind) = before.checked_add(number as usize) else {
        return Err(AllocError);
    };
    if behind >= MAX_VALUES {
        return Err(AllocError);
    }
    Ok(behind as u32)
}

// Adds the numbers of a part, of whose verdicts so many stand before.
fn push_numbers(numbers: &mut Vec<u32>, before: usize, of_part: &[u32]) -> Result<(), AllocError>
    ensures { OnOk result (numbers.new.items
        ≡ numbers.old.items ++ map (λ n. before + n) of_part.now) }
{
    for number in of_part {
        let behind = number_behind(before, *number)?;
        numbers.push(behind)?;
    }
    Ok(())
}

// How many verdicts all parts have, for the room that these take.
fn verdict_count(parts: &[Interned<Verdict>]) -> usize {
    let mut count: usize = 0;
    for part in parts {
        count = count.saturating_add(part.values.len());
    }
    count
}

// The verdicts of all parts, one part after the other, and for each of so many pairs the number of
// its own.
fn all_verdicts(
    alloc: Global,
    count: usize,
    parts: Vec<Interned<Verdict>>,
) -> Result<Interned<Verdict>, AllocError>
    ensures verdicts { IfOk result (λ all. all.values.items ≡ verdicts_in parts.items) }
    ensures numbers { IfOk result (λ all. all.numbers.items ≡ numbers_in 0 parts.items) }
{
    let mut values = Vec::with_capacity(alloc, verdict_count(&parts))?;
    let mut numbers = Vec::with_capacity(alloc, count)?;
    for mut part in parts {
        push_numbers(&mut numbers, values.len(), &part.numbers)?;
        values.append(&mut part.values)?;
    }
    Ok(Interned { values, numbers })
}

/// The verdicts on the questions of some pairs of accesses, and for each pair the number of its
/// own, by several threads where there are many.
pub fn verdicts_par(
    rt: &(impl Threads + Sync),
    alloc: Global,
    paths: &[Path],
    places: &[Placed],
    pairs: &[PlacePair],
) -> Result<Interned<Verdict>, AllocError>
    requires { All (IsAskedBetween paths.now places.now) pairs.now }
    ensures { IfOk result (λ judged. ArePairsJudged paths.now places.now pairs.now
        judged.values.items judged.numbers.items) }
{
    let parts = parts_of(rt, alloc, paths, places, pairs)?;
    all_verdicts(alloc, pairs.len(), parts)
}

/// All questions of the paths in order, with their verdicts, as `pairs` gives them, by several
/// threads where there are many. They are counted before any memory is taken.
pub fn pairs_par<'a>(
    rt: &(impl Threads + Sync),
    alloc: Global,
    paths: &'a [Path],
) -> Result<PairTable<'a>, PairFault>
    requires single { All ChangesSingleCells paths.now }
    ensures table { IfOk result (λ table. StandsFor table paths.now) }
    ensures too_large { (result ≡ Err PairFault.TooLarge)
        ↔ (most_questions < length (questions_of paths.now)) }
{
    let table = class_table_par(rt, alloc, paths)?;
    let listed = table.listed(alloc)?;
    Ok(listed)
}
