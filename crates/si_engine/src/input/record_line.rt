//! Lines of a list of records.
ghost use Rattle.std.specs.Prelude.{◌≡◌, ◌≤◌, length, not, IfOk};
ghost use Rattle.std.specs.List.{prefix_len, before_first, after_first};
ghost use Rattle.prog_tree.specs.Tree.{draft_tree};
ghost use Rattle.si_engine.specs.Records.{is_at, is_gives, outcome_of, record_of, record_row_of};
ghost use Rattle.si_engine.specs.LineFaults.{Reads};

use crate::input::line_fault::LineFault;
use crate::input::line_words::LineWord;
use crate::input::lines::cut_around;
use crate::input::list_item::ListItem;
use crate::input::names::program_number;
use crate::input::number::{numbers, unsigned};
use history_book::HistoryRow;
use prog_check::ProgramSet;
use prog_tree::Sequence;
use std::alloc::{AllocError, Global};

// The words behind `at`: how many commits the instance saw, and what it replied.
#[derive(Drop)]
pub struct RecordOutcome {
    start: u64,
    replies: Sequence<i64>,
}

// The words behind the program.
#[derive(Drop)]
pub struct RecordWords {
    args: Sequence<i64>,
    outcome: RecordOutcome,
}

fn is_at(word: &LineWord<'_>) -> bool
    ensures { result ≡ is_at word.now }
{
    word.is(b"at")
}

fn is_gives(word: &LineWord<'_>) -> bool
    ensures { result ≡ is_gives word.now }
{
    word.is(b"gives")
}

// How many words stand before the first `at`.
fn args_len(words: &[LineWord<'_>]) -> usize
    ensures value { result ≡ prefix_len (λ word. not (is_at word)) words.now }
    ensures within { result ≤ length words.now }
{
    words.iter().take_while(|word| !is_at(word)).count()
}

// The outcome, if the words are START gives REPLY*.
fn read_outcome(alloc: Global, words: &[LineWord<'_>]) -> Result<Option<RecordOutcome>, AllocError>
    ensures { IfOk result (λ found. found ≡ outcome_of words.now) }
{
    let [start, sign, replies @ ..] = words else {
        return Ok(None);
    };
    if !is_gives(sign) {
        return Ok(None);
    }
    let Some(start) = unsigned(start.as_bytes()) else {
        return Ok(None);
    };
    let Some(replies) = numbers(alloc, replies)? else {
        return Ok(None);
    };
    Ok(Some(RecordOutcome { start, replies }))
}

// The words before the first `at`, and those behind it; none if there is no `at`.
fn cut_at<'w, 'a>(words: &'w [LineWord<'a>]) -> (&'w [LineWord<'a>], &'w [LineWord<'a>])
    ensures first { result.0.now ≡ before_first is_at words.now }
    ensures rest { result.1.now ≡ after_first is_at words.now }
{
    let len = args_len(words);
    cut_around(words, len)
}

// The record, if the words are ARG* at START gives REPLY*.
fn read_record(alloc: Global, words: &[LineWord<'_>]) -> Result<Option<RecordWords>, AllocError>
    ensures { IfOk result (λ found. found ≡ record_of words.now) }
{
    let (args, behind) = cut_at(words);
    let Some(args) = numbers(alloc, args)? else {
        return Ok(None);
    };
    let Some(outcome) = read_outcome(alloc, behind)? else {
        return Ok(None);
    };
    Ok(Some(RecordWords { args, outcome }))
}

// The committed instance that the words behind `record` are, or the line's fault.
#[tactic(auto, unfolding(crate::specs::Records::record_row_of))]
fn record_row(
    alloc: Global,
    set: &ProgramSet,
    line: usize,
    words: &[LineWord<'_>],
) -> Result<HistoryRow, LineFault>
    ensures { Reads (λ row. row) result (record_row_of (draft_tree set.now) line words.now) }
{
    let [name, words @ ..] = words else {
        return Err(LineFault::BadLine { line });
    };
    let RecordWords { args, outcome } = read_record(alloc, words)?.ok_or(LineFault::BadLine {
        line,
    })?;
    let RecordOutcome { start, replies } = outcome;
    let program = program_number(set, name.as_bytes()).ok_or(LineFault::UnknownName { line })?;
    Ok(HistoryRow {
        program,
        args,
        start,
        replies,
    })
}

impl ListItem for HistoryRow {
    ghost use Rattle.std.specs.Prelude.{codes};
    ghost use Rattle.si_engine.specs.Records.{record_row_of};

    ghost keyword = { codes "record" };

    ghost item_of = { record_row_of };

    fn item_word() -> &'static [u8] {
        b"record".as_slice()
    }

    fn read(
        alloc: Global,
        set: &ProgramSet,
        line: usize,
        words: &[LineWord<'_>],
    ) -> Result<Self, LineFault> {
        record_row(alloc, set, line, words)
    }
}
