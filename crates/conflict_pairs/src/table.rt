//! The table of all questions with their verdicts, and parts of it.
ghost use Rattle.std.specs.Prelude.{◌≡◌, ◌<◌, ◌↔◌, [], IsTrue, Some, length, slice_get};
ghost use Rattle.conflict_pairs.specs.Classed.{IsListedOf, table_of};
ghost use Rattle.conflict_pairs.specs.Table.{Judged};

use crate::classed::ClassTable;
use crate::listing::Listed;
use crate::pairing::question_of;
use crate::verdicts::Verdict;
use prog_paths::Question;
use std::marker::Model;

/// Some of the questions of a list of paths in order, with their verdicts: a part of the table of
/// all.
#[derive(Drop)]
pub struct TablePart<'t> {
    classes: &'t ClassTable<'t>,
    listed: &'t Listed,
}

impl<'t> Model for TablePart<'t> {
    ghost use Rattle.conflict_pairs.specs.Classed.{IsListedOf, table_of};
    ghost use Rattle.conflict_pairs.specs.Table.{Table};

    ghost Value = { Table };

    ghost view = { λ t. table_of t.classes.now t.listed.now };

    ghost invariant = { λ t. IsListedOf t.classes.now t.listed.now };
}

impl<'t> TablePart<'t> {
    /// The part of what is listed.
    pub(crate) fn of(classes: &'t ClassTable<'t>, listed: &'t Listed) -> Self
        requires { IsListedOf classes.now listed.now }
        ensures { result ≡ table_of classes.now listed.now }
    {
        TablePart { classes, listed }
    }

    /// How many questions there are.
    pub fn len(&self) -> usize
        ensures { result ≡ length self.now.entries }
    {
        self.listed.pairs.len()
    }

    pub fn is_empty(&self) -> bool
        ensures { IsTrue result ↔ (self.now.entries ≡ []) }
    {
        self.len() == 0
    }

    /// The question of a number.
    #[inline]
    pub fn question(&self, n: usize) -> Question
        requires { n < length self.now.entries }
        ensures { (e : Judged) → slice_get self.now.entries n ≡ Some e → result ≡ e.question }
    {
        question_of(self.classes.places(), self.listed.pairs[n])
    }

    /// Which of the verdicts the question of a number has.
    #[inline]
    pub fn verdict_number(&self, n: usize) -> usize
        requires { n < length self.now.entries }
        ensures within { result < length self.now.verdicts }
        ensures verdict { (e : Judged) → slice_get self.now.entries n ≡ Some e
            → slice_get self.now.verdicts result ≡ Some e.verdict }
    {
        self.listed.numbers[n] as usize
    }

    /// The verdict on the question of a number.
    #[inline]
    pub fn verdict(&self, n: usize) -> &'t Verdict
        requires { n < length self.now.entries }
        ensures { (e : Judged) → slice_get self.now.entries n ≡ Some e → result.now ≡ e.verdict }
    {
        let verdicts = self.classes.verdicts();
        &verdicts[self.verdict_number(n)]
    }
}

/// All questions of a list of paths in order, with their verdicts.
#[derive(Drop)]
pub struct PairTable<'a> {
    // What is told class by class: the accesses and the verdicts are there.
    classes: ClassTable<'a>,
    listed: Listed,
}

impl<'a> Model for PairTable<'a> {
    ghost use Rattle.conflict_pairs.specs.Classed.{IsListedOf, table_of};
    ghost use Rattle.conflict_pairs.specs.Table.{Table};

    ghost Value = { Table };

    ghost view = { λ t. table_of t.classes t.listed };

    ghost invariant = { λ t. IsListedOf t.classes t.listed };
}

impl<'a> PairTable<'a> {
    /// The table of the questions that are listed, with the verdicts of the class table.
    pub(crate) fn of(classes: ClassTable<'a>, listed: Listed) -> Self
        requires { IsListedOf classes listed }
        ensures { result ≡ table_of classes.entry listed }
    {
        PairTable { classes, listed }
    }

    /// What is told class by class of the paths whose questions it lists.
    pub fn classes(&self) -> &ClassTable<'a>
        ensures { result.now.paths ≡ self.now.paths }
    {
        &self.classes
    }

    // The whole as a part.
    fn whole(&self) -> TablePart<'_>
        ensures { result ≡ self.now }
    {
        self.classes.part(&self.listed)
    }

    /// How many nodes there are: one for each path.
    pub fn nodes(&self) -> usize
        ensures { result ≡ length self.now.paths }
    {
        self.classes.paths().len()
    }

    /// How many questions there are.
    pub fn len(&self) -> usize
        ensures { result ≡ length self.now.entries }
    {
        self.whole().len()
    }

    pub fn is_empty(&self) -> bool
        ensures { IsTrue result ↔ (self.now.entries ≡ []) }
    {
        self.whole().is_empty()
    }

    /// The question of a number.
    pub fn question(&self, n: usize) -> Question
        requires { n < length self.now.entries }
        ensures { (e : Judged) → slice_get self.now.entries n ≡ Some e → result ≡ e.question }
    {
        self.whole().question(n)
    }

    /// The verdicts that questions have, each maybe that of several.
    pub fn verdicts(&self) -> &[Verdict]
        ensures { result.now ≡ self.now.verdicts }
    {
        self.classes.verdicts()
    }

    /// Which of the verdicts the question of a number has.
    pub fn verdict_number(&self, n: usize) -> usize
        requires { n < length self.now.entries }
        ensures within { result < length self.now.verdicts }
        ensures verdict { (e : Judged) → slice_get self.now.entries n ≡ Some e
            → slice_get self.now.verdicts result ≡ Some e.verdict }
    {
        self.whole().verdict_number(n)
    }

    /// The verdict on the question of a number.
    pub fn verdict(&self, n: usize) -> &Verdict
        requires { n < length self.now.entries }
        ensures { (e : Judged) → slice_get self.now.entries n ≡ Some e → result.now ≡ e.verdict }
    {
        self.whole().verdict(n)
    }
}
