//! What is told of all questions of a list of paths, class by class.
ghost use Rattle.std.specs.Prelude.{◌≡◌, ◌↔◌, ◌<◌, [], length, All, IfOk, Err, IsTrue};
ghost use Rattle.std.specs.Prelude.{Some, slice_get};
ghost use Rattle.prog_paths.specs.Places.{IsAt};
ghost use Rattle.prog_paths.specs.Questions.{ChangesSingleCells, asked_among, questions_of};
ghost use Rattle.prog_paths.specs.Limits.{most_questions};
ghost use Rattle.conflict_pairs.specs.Classed.{AnswersAll, AreClassesJudged, ClassAnswer};
ghost use Rattle.conflict_pairs.specs.Classed.{IsListedOf, table_of};
ghost use Rattle.conflict_pairs.specs.Classes.{AreClassesOf};
ghost use Rattle.conflict_pairs.specs.ClassPairs.{AreClassPairs};
ghost use Rattle.conflict_pairs.specs.Listed.{AreChangersOf, AreJudged, entries_in};
ghost use Rattle.conflict_pairs.specs.Table.{IsOnQuestion, StandsFor};
ghost use Rattle.conflict_pairs.specs.declared.fault.PairFault as PairFault;

use crate::class_pairs::{ClassPairs, class_pairs};
use crate::classes::{AccessClasses, classes_of, nodes_like};
use crate::fault::PairFault;
use crate::interning::Interned;
use crate::judge::verdicts_of;
use crate::listing::{Listed, listed_of};
use crate::parallel::verdicts_par;
use crate::table::{PairTable, TablePart};
use crate::verdicts::Verdict;
use prog_check::{Kind, Path};
use prog_paths::{Changers, MAX_QUESTIONS, Placed, question_count};
use std::alloc::{AllocError, Global};
use std::marker::Model;
use std::thread::Threads;

/// What is told of all questions of a list of paths. Many accesses are alike, so it is told once
/// for each two classes of them.
#[derive(Drop)]
pub struct ClassTable<'a> {
    paths: &'a [Path],
    classes: AccessClasses,
    asked: ClassPairs,
    // The verdicts on the pairs, and for each the number of its own.
    judged: Interned<Verdict>,
}

impl<'a> Model for ClassTable<'a> {
    ghost use Rattle.conflict_pairs.specs.Classed.{AreClassesJudged, Classed, classed_by};

    ghost Value = { Classed };

    ghost view = { λ t. classed_by t.paths.now t.classes t.asked t.judged };

    ghost invariant = { λ t. AreClassesJudged t.paths.now t.classes t.asked t.judged };
}

// The classes of the accesses of some paths, and which ask something of each other. The questions
// are counted before any memory is taken.
fn asked_classes(alloc: Global, paths: &[Path]) -> Result<(AccessClasses, ClassPairs), PairFault>
    ensures classes { IfOk result (λ told. AreClassesOf paths.now told.0) }
    ensures pairs { IfOk result (λ told. AreClassPairs paths.now told.0 told.1) }
    ensures too_large { (result ≡ Err PairFault.TooLarge)
        ↔ (most_questions < length (questions_of paths.now)) }
{
    if question_count(paths) > MAX_QUESTIONS {
        return Err(PairFault::TooLarge);
    }
    let classes = classes_of(alloc, paths)?;
    let asked = class_pairs(alloc, paths, &classes)?;
    Ok((classes, asked))
}

/// What is told of all questions of some paths. They are counted before any memory is taken.
pub fn class_table(alloc: Global, paths: &[Path]) -> Result<ClassTable<'_>, PairFault>
    requires single { All ChangesSingleCells paths.now }
    ensures paths { IfOk result (λ table. table.paths ≡ paths.now) }
    ensures too_large { (result ≡ Err PairFault.TooLarge)
        ↔ (most_questions < length (questions_of paths.now)) }
{
    let (classes, asked) = asked_classes(alloc, paths)?;
    let judged = verdicts_of(alloc, paths, &classes.places, &asked.pairs)?;
    Ok(ClassTable {
        paths,
        classes,
        asked,
        judged,
    })
}

/// What is told of all questions of some paths, as `class_table` tells it, by several threads where
/// there is much to judge.
pub fn class_table_par<'a>(
    rt: &(impl Threads + Sync),
    alloc: Global,
    paths: &'a [Path],
) -> Result<ClassTable<'a>, PairFault>
    requires single { All ChangesSingleCells paths.now }
    ensures paths { IfOk result (λ table. table.paths ≡ paths.now) }
    ensures too_large { (result ≡ Err PairFault.TooLarge)
        ↔ (most_questions < length (questions_of paths.now)) }
{
    let (classes, asked) = asked_classes(alloc, paths)?;
    let judged = verdicts_par(rt, alloc, paths, &classes.places, &asked.pairs)?;
    Ok(ClassTable {
        paths,
        classes,
        asked,
        judged,
    })
}

impl<'a> ClassTable<'a> {
    /// The paths, each of whose questions it answers.
    pub fn paths(&self) -> &'a [Path]
        ensures paths { result.now ≡ self.now.paths }
        ensures all { AnswersAll self.now }
    {
        self.paths
    }

    /// The accesses of the paths, one by one.
    pub fn places(&self) -> &[Placed]
        ensures places { result.now ≡ self.now.places }
        ensures stand { All (λ p. IsAt self.now.paths p) result.now }
        ensures all { asked_among result.now result.now ≡ questions_of self.now.paths }
    {
        self.classes.places.as_slice()
    }

    /// The verdicts that are told, each maybe that of several pairs of classes.
    pub fn verdicts(&self) -> &[Verdict]
        ensures verdicts { result.now ≡ self.now.verdicts }
        ensures right { All (IsOnQuestion self.now.paths) result.now }
    {
        self.judged.values.as_slice()
    }

    /// How many pairs of classes there are.
    pub fn len(&self) -> usize
        ensures { result ≡ length self.now.answers }
    {
        self.asked.pairs.len()
    }

    pub fn is_empty(&self) -> bool
        ensures { IsTrue result ↔ (self.now.answers ≡ []) }
    {
        self.len() == 0
    }

    /// The kinds of the accesses of the pair of a number.
    pub fn kinds(&self, n: usize) -> (Kind, Kind)
        requires { n < length self.now.answers }
        ensures { (e : ClassAnswer) → slice_get self.now.answers n ≡ Some e
            → (result.0 ≡ e.mine) × (result.1 ≡ e.theirs) }
    {
        let pair = self.asked.pairs[n];
        let first = &self.classes.places[pair.first as usize];
        let second = &self.classes.places[pair.second as usize];
        (first.access.kind, second.access.kind)
    }

    /// The nodes that have an access of the first class of the pair of a number.
    pub fn first_nodes(&self, n: usize) -> &[usize]
        requires { n < length self.now.answers }
        ensures { (e : ClassAnswer) → slice_get self.now.answers n ≡ Some e
            → result.now ≡ e.firsts }
    {
        nodes_like(&self.classes, self.asked.pairs[n].first)
    }

    /// The nodes that have an access of the second class of the pair of a number.
    pub fn second_nodes(&self, n: usize) -> &[usize]
        requires { n < length self.now.answers }
        ensures { (e : ClassAnswer) → slice_get self.now.answers n ≡ Some e
            → result.now ≡ e.seconds }
    {
        nodes_like(&self.classes, self.asked.pairs[n].second)
    }

    /// The verdict on each access of the first class of the pair of a number against each of the
    /// second.
    pub fn verdict(&self, n: usize) -> &Verdict
        requires { n < length self.now.answers }
        ensures { (e : ClassAnswer) → slice_get self.now.answers n ≡ Some e
            → result.now ≡ e.verdict }
    {
        &self.judged.values[self.judged.numbers[n] as usize]
    }

    /// The accesses that change a table, by table: `listed_of` takes them, so that they are sorted
    /// once for all parts.
    pub fn changers(&self, alloc: Global) -> Result<Changers, AllocError>
        ensures { IfOk result (AreChangersOf self.now.places) }
    {
        Changers::of(alloc, self.places())
    }

    /// What some of the accesses ask.
    pub fn listed_of(
        &self,
        alloc: Global,
        changers: &Changers,
        firsts: &[Placed],
    ) -> Result<Listed, AllocError>
        requires changers { AreChangersOf self.now.places changers.now }
        requires firsts { All (λ p. IsAt self.now.paths p) firsts.now }
        ensures listed { IfOk result (IsListedOf self.now) }
        ensures judged { IfOk result (λ listed. AreJudged self.now.paths
            (entries_in self.now.places self.now.verdicts listed)
            (asked_among firsts.now self.now.places)) }
    {
        let (classes, asked, judged) = (&self.classes, &self.asked, &self.judged);
        listed_of(alloc, self.paths, classes, asked, judged, changers, firsts)
    }

    /// The part of the table of all questions that has what is listed.
    pub fn part<'t>(&'t self, listed: &'t Listed) -> TablePart<'t>
        requires { IsListedOf self.now listed.now }
        ensures { result ≡ table_of self.now listed.now }
    {
        TablePart::of(self, listed)
    }

    /// All questions of the paths in order, with their verdicts.
    pub fn listed(self, alloc: Global) -> Result<PairTable<'a>, AllocError>
        ensures { IfOk result (λ table. StandsFor table self.entry.paths) }
    {
        let changers = self.changers(alloc)?;
        let listed = self.listed_of(alloc, &changers, self.places())?;
        Ok(PairTable::of(self, listed))
    }
}
