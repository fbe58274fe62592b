//! Equivalent serial orders, by running them.

ghost use Rattle.std.specs.Prelude.{◌≡◌, ◌↔◌, ◌<◌, ◌≤◌, ℕ, All, [], ◌∷◌, ◌++◌, List, true, false};
ghost use Rattle.std.specs.Prelude.{length, map, Some, IfOk, IfErr, OnOk, MatchOption, IsTrue};
ghost use Rattle.std.specs.List.{list_all, range_with_len};
ghost use Rattle.prog_tree.specs.Tree.{draft_tree};
ghost use Rattle.history_book.specs.AnyFit.{IsAnyFitFault, most_ordered};
ghost use Rattle.history_book.specs.Audit.{taken_up};
ghost use Rattle.history_book.specs.History.{IsCalled, nth_instance};
ghost use Rattle.serial_orders.specs.Orders.{is_one_of};
ghost use Rattle.history_book.specs.Repeats.{IsSameAgain, begun_again};
ghost use Rattle.history_book.specs.Serial.{is_each_once};
ghost use Rattle.history_book.specs.TrueBook.{IsTrueRow};
ghost use Rattle.history_book.specs.View.{FitsBook, history_of, instance_of, state_in};
ghost use Rattle.history_book.specs.View.{most_endings, most_begins};

use crate::book::{Book, is_ready};
use crate::instances::row::{HistoryRow, same_numbers};
use crate::limits::MAX_ORDERED;
use prog_tree::Rows;
use std::alloc::{AllocError, Global};
use std::error::Error;
use std::fmt;

/// Why no equivalent serial order was looked for.
#[derive(Clone, Copy, Debug, PartialEq, Eq)]
pub enum AnyFitFault {
    /// There are more than six commits.
    TooMany,
    /// There was no memory for it.
    Memory,
}

impl From<AllocError> for AnyFitFault {
    ghost use Rattle.std.specs.Prelude.{◌≡◌};
    ghost use Rattle.history_book.specs.declared.orders.fits.AnyFitFault.TheVariants.{Memory};

    ghost from_gives = { λ _ e. e ≡ Memory };

    fn from(_: AllocError) -> Self {
        AnyFitFault::Memory
    }
}

impl fmt::Display for AnyFitFault {
    ghost use Rattle.std.specs.Prelude.{Some};
    ghost use Rattle.history_book.specs.Texts.{any_fit_fault_text};

    ghost output = { λ fault. Some (any_fit_fault_text fault) };

    fn fmt<W: fmt::Write>(&self, f: &mut fmt::Formatter<W>) -> fmt::Result {
        match self {
            AnyFitFault::TooMany => f.write_str("too many"),
            AnyFitFault::Memory => f.write_str("memory"),
        }
    }
}

impl Error for AnyFitFault {}

// Marks a number, where it is one of those from 1 on that have a mark.
fn mark(marks: &mut [bool], number: usize)
    ensures len { length marks.new ≡ length marks.old }
    ensures marked { (numbers : List ℕ) →
        marks.old ≡ map (is_one_of numbers) (range_with_len 1 (length marks.old)) →
        marks.new ≡ map (is_one_of (numbers ++ number ∷ [])) (range_with_len 1 (length marks.old)) }
{
    if number == 0 {
        return;
    }
    if number > marks.len() {
        return;
    }
    marks[number - 1] = true;
}

// Which of the numbers from 1 to n stand in a list.
fn marks(alloc: Global, n: usize, order: &[usize]) -> Result<Vec<bool>, AllocError>
    ensures { IfOk result (λ marks. marks.items ≡ map (is_one_of order.now) (range_with_len 1 n)) }
{
    let mut marks = vec![in alloc; false; n]?;
    for number in order {
        mark(&mut marks, *number);
    }
    Ok(marks)
}

fn all_marked(marks: &[bool]) -> bool
    ensures { result ≡ list_all (λ mark. mark) marks.now }
{
    marks.iter().all(|mark| *mark)
}

fn is_one_of(numbers: &[usize], number: usize) -> bool
    ensures { result ≡ is_one_of numbers.now number }
{
    numbers.iter().any(|other| *other == number)
}

// Whether each number from 1 to n stands in a list, once.
fn is_each_once(alloc: Global, n: usize, order: &[usize]) -> Result<bool, AllocError>
    ensures once { IfOk result (λ once. once ≡ is_each_once n order.now) }
    ensures within { IfOk result (λ once. once ≡ true →
        All (λ number. (1 ≤ number) × (number ≤ n)) order.now) }
{
    if order.len() != n {
        return Ok(false);
    }
    let marks = marks(alloc, n, order)?;
    Ok(all_marked(&marks))
}

impl<'a> Book<'a> {
    // The row of the same instance, begun as the newest.
    fn row_again(&self, row: &HistoryRow) -> Result<HistoryRow, AllocError>
        ensures row { IfOk result (λ again. again ≡ begun_again self.now row.now) }
        ensures above { IfOk result (λ again. self.now.floor ≤ again.start) }
        ensures within { IfOk result (λ again. again.start ≤ length self.now.rows) }
    {
        Ok(HistoryRow {
            program: row.program,
            args: row.args.copy()?,
            start: self.commits(),
            replies: row.replies.copy()?,
        })
    }

    // Runs the instance of a row on the newest state, and commits it where it is ready with the
    // row's replies.
    fn repeat(&mut self, row: &HistoryRow) -> Result<bool, AllocError>
        requires called { IsCalled (draft_tree self.old.set) (instance_of row.now) }
        requires none { self.old.active ≡ [] }
        requires room { length self.old.endings < most_endings }
        requires more { self.old.begun < most_begins }
        ensures same { IfOk result (λ same. IsTrue same ↔ IsSameAgain self.old row.now) }
        ensures taken { IfOk result (λ same. same ≡ true →
            self.new ≡ taken_up self.old (begun_again self.old row.now)) }
    {
        let row = self.row_again(row)?;
        let run = self.replay(&row)?;
        if !is_ready(&run) {
            return Ok(false);
        }
        if !same_numbers(run.replies(), row.replies.as_slice()) {
            return Ok(false);
        }
        self.take_up(row, &run)?;
        Ok(true)
    }

    // The row of a commit that there is.
    fn known_row(&self, number: usize) -> &HistoryRow
        requires first { 1 ≤ number }
        requires last { number ≤ length self.now.rows }
        ensures found { nth_instance (history_of self.now.rows) number
            ≡ Some (instance_of result.now) }
        ensures is_true { IsTrueRow (draft_tree self.now.set) self.now.opening
            (history_of self.now.rows) result.now }
        ensures few { length self.now.rows ≤ most_endings }
    {
        &self.rows[number - 1]
    }

    // Whether a list of commit numbers is an equivalent serial order, where `newest` has the rows
    // after all commits.
    fn fits_rows(&self, order: &[usize], newest: &Rows) -> Result<bool, AllocError>
        requires { newest.now ≡ state_in self.now (length self.now.rows) }
        ensures { IfOk result (λ fits. IsTrue fits ↔ FitsBook self.now order.now) }
    {
        if !is_each_once(self.alloc, self.rows.len(), order)? {
            return Ok(false);
        }
        let mut serial = Book::open(self.alloc, self.set, self.opening.copy()?)?;
        for number in order {
            let row = self.known_row(*number);
            if !serial.repeat(row)? {
                return Ok(false);
            }
        }
        let rows = serial.table()?;
        Ok(rows.is_same(newest))
    }

    /// Whether a list of commit numbers is an equivalent serial order; any list may be asked for.
    pub fn fits(&self, order: &[usize]) -> Result<bool, AllocError>
        ensures { IfOk result (λ fits. IsTrue fits ↔ FitsBook self.now order.now) }
    {
        let newest = self.table()?;
        self.fits_rows(order, &newest)
    }

    // Places commit numbers behind those that are placed until the order fits, if some order does.
    #[cycle(placing)]
    fn complete(&self, placed: &mut Vec<usize>, newest: &Rows) -> Result<bool, AllocError>
        requires room { length placed.old.items ≤ length self.now.rows }
        requires newest { newest.now ≡ state_in self.now (length self.now.rows) }
        ensures found { IfOk result (λ found. found ≡ true →
            FitsBook self.now placed.new.items) }
        ensures none { IfOk result (λ found. found ≡ false → (rest : List ℕ) →
            FitsBook self.now (placed.old.items ++ rest) → ⊥) }
        ensures same { IfOk result (λ found. found ≡ false →
            placed.new.items ≡ placed.old.items) }
    {
        if placed.len() == self.rows.len() {
            let fits = self.fits_rows(placed, newest)?;
            return Ok(fits);
        }
        for before in 0..self.rows.len() {
            if self.place(before + 1, placed, newest)? {
                return Ok(true);
            }
        }
        Ok(false)
    }

    // Places a commit number and goes on behind it, unless it is placed already.
    #[cycle(placing)]
    fn place(
        &self,
        number: usize,
        placed: &mut Vec<usize>,
        newest: &Rows,
    ) -> Result<bool, AllocError>
        requires room { length placed.old.items < length self.now.rows }
        requires newest { newest.now ≡ state_in self.now (length self.now.rows) }
        ensures found { IfOk result (λ found. found ≡ true →
            FitsBook self.now placed.new.items) }
        ensures none { IfOk result (λ found. found ≡ false → (rest : List ℕ) →
            FitsBook self.now (placed.old.items ++ number ∷ rest) → ⊥) }
        ensures same { IfOk result (λ found. found ≡ false →
            placed.new.items ≡ placed.old.items) }
    {
        if is_one_of(placed, number) {
            return Ok(false);
        }
        placed.push(number)?;
        if self.complete(placed, newest)? {
            return Ok(true);
        }
        placed.pop();
        Ok(false)
    }

    /// An equivalent serial order, or none where no order is one. Of several it may be any.
    pub fn any_fit(&self) -> Result<Option<Vec<usize>>, AnyFitFault>
        ensures few { OnOk result (length self.now.rows ≤ most_ordered) }
        ensures order { IfOk result (λ found. MatchOption found
            ((order : List ℕ) → FitsBook self.now order → ⊥)
            (λ order. FitsBook self.now order.items)) }
        ensures refused { IfErr result (IsAnyFitFault (length self.now.rows)) }
    {
        if self.rows.len() > MAX_ORDERED {
            return Err(AnyFitFault::TooMany);
        }
        let newest = self.table()?;
        let mut placed = Vec::new(self.alloc);
        if self.complete(&mut placed, &newest)? {
            Ok(Some(placed))
        } else {
            Ok(None)
        }
    }
}
