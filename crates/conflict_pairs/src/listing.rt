//! All questions of a list of paths, one by one.
ghost use Rattle.std.specs.Prelude.{◌≡◌, ◌↔◌, ◌+◌, ◌<◌, ◌≤◌, ◌^◌, ℕ, length, All, IfOk, Err};
ghost use Rattle.std.specs.Prelude.{vec_len, vec_capacity};
ghost use Rattle.conflict_pairs.specs.declared.fault.PairFault as PairFault;
ghost use Rattle.prog_paths.specs.Places.{IsAt};
ghost use Rattle.prog_paths.specs.Questions.{ChangesSingleCells, asked_among, questions_of};
ghost use Rattle.prog_paths.specs.Limits.{most_questions};
ghost use Rattle.conflict_pairs.specs.Classed.{AreClassesJudged};
ghost use Rattle.conflict_pairs.specs.ClassPairs.{IsInRow};
ghost use Rattle.conflict_pairs.specs.Listed.{AddsQuestions, AreChangersOf, AreQuestionsListed};
ghost use Rattle.conflict_pairs.specs.Listed.{HasClass, IsEntered, SpreadsRow};
ghost use Rattle.conflict_pairs.specs.Pairing.{StandsAt};
ghost use Rattle.conflict_pairs.specs.Table.{StandsFor};

use crate::class_pairs::{ClassPairs, Row};
use crate::classed::class_table;
use crate::classes::{AccessClasses, number_of};
use crate::fault::PairFault;
use crate::interning::{Interned, number_at};
use crate::pairing::PlacePair;
use crate::table::PairTable;
use crate::verdicts::Verdict;
use prog_check::Path;
use prog_paths::{Changers, Placed, asks};
use std::alloc::{AllocError, Global};

/// Questions by the numbers of their accesses among all, and for each the number of its verdict.
#[derive(Drop)]
pub struct Listed {
    pub pairs: Vec<PlacePair>,
    pub numbers: Vec<u32>,
}

// Enters the number of the verdict on each pair of a row under the class of its second access.
fn spread(
    classes: &AccessClasses,
    pairs: &[PlacePair],
    of_pairs: &[u32],
    row: Row,
    answers: &mut Vec<u32>,
)
    requires pairs { row.end ≤ length pairs.now }
    requires one_each { length of_pairs.now ≡ length pairs.now }
    requires classes { (j : ℕ) → IsInRow row j
        → HasClass classes.now pairs.now answers.old.items j }
    ensures spread { SpreadsRow classes.now pairs.now of_pairs.now row answers.new.items }
    ensures size { length answers.new.items ≡ length answers.old.items }
{
    for k in row.start..row.end {
        let class = number_at(&classes.numbers, pairs[k].second);
        answers[class as usize] = of_pairs[k];
    }
}

// Adds what the access of a number asks of each, with the numbers of the verdicts, which are those
// of the classes.
fn push_questions(
    classes: &AccessClasses,
    number: usize,
    seconds: &[Placed],
    answers: &[u32],
    listed: &mut Listed,
)
    requires few { length classes.now.places.items ≤ 2 ^ 32 }
    requires number { number < length classes.now.places.items }
    requires seconds { All (StandsAt classes.now.starts.items classes.now.places.items)
        seconds.now }
    requires classes { (n : ℕ) → n < length classes.now.places.items
        → IsEntered classes.now answers.now n }
    requires room_of_pairs { vec_len listed.old.pairs + length seconds.now
        ≤ vec_capacity listed.old.pairs }
    requires room_of_numbers { vec_len listed.old.numbers + length seconds.now
        ≤ vec_capacity listed.old.numbers }
    ensures { AddsQuestions classes.now number answers.now listed.old listed.new seconds.now }
{
    let first = &classes.places[number];
    for second in seconds {
        if asks(first, second) {
            let other = number_of(classes, second);
            let class = classes.numbers[other];
            listed.pairs.push_reserved(PlacePair::new(number, other));
            listed.numbers.push_reserved(number_at(answers, class));
        }
    }
}

/// What some of the accesses ask of all, with the numbers of the verdicts, by those of the pairs of
/// classes.
pub fn listed_of(
    alloc: Global,
    paths: &[Path],
    classes: &AccessClasses,
    asked: &ClassPairs,
    judged: &Interned<Verdict>,
    changers: &Changers,
    firsts: &[Placed],
) -> Result<Listed, AllocError>
    requires judged { AreClassesJudged paths.now classes.now asked.now judged.now }
    requires changers { AreChangersOf classes.now.places.items changers.now }
    requires firsts { All (λ p. IsAt paths.now p) firsts.now }
    ensures { IfOk result (λ listed. AreQuestionsListed paths.now judged.now.values.items
        classes.now.places.items listed (asked_among firsts.now classes.now.places.items)) }
{
    let mut listed = Listed {
        pairs: Vec::new(alloc),
        numbers: Vec::new(alloc),
    };
    let mut answers = vec![in alloc; 0; asked.rows.len()]?;
    for first in firsts {
        let number = number_of(classes, first);
        let seconds = changers.of_table(first.access.table);
        listed.pairs.reserve(seconds.len())?;
        listed.numbers.reserve(seconds.len())?;
        let row = asked.rows[classes.numbers[number] as usize];
        spread(classes, &asked.pairs, &judged.numbers, row, &mut answers);
        push_questions(classes, number, seconds, &answers, &mut listed);
    }
    Ok(listed)
}

/// All questions of the paths in order, with their verdicts. They are counted before any memory is
/// taken.
pub fn pairs(alloc: Global, paths: &[Path]) -> Result<PairTable<'_>, PairFault>
    requires single { All ChangesSingleCells paths.now }
    ensures table { IfOk result (λ table. StandsFor table paths.now) }
    ensures too_large { (result ≡ Err PairFault.TooLarge)
        ↔ (most_questions < length (questions_of paths.now)) }
{
    let classed = class_table(alloc, paths)?;
    let table = classed.listed(alloc)?;
    Ok(table)
}
