//! Lines of a script as commands.
ghost use Rattle.std.specs.Prelude.{◌≡◌, Ok};
ghost use Rattle.prog_tree.specs.Tree.{draft_tree};
ghost use Rattle.si_engine.specs.Commands.{row_command, instance_number, one_instance, steps_of};
ghost use Rattle.si_engine.specs.Commands.{program_call, begin_command, begin_at_command};
ghost use Rattle.si_engine.specs.Commands.{step_command, commit_command, abort_command};
ghost use Rattle.si_engine.specs.Commands.{vacuum_command, command_of, line_command};
ghost use Rattle.si_engine.specs.LineFaults.{Reads};
ghost use Rattle.si_engine.specs.Lines.{words_of};

use crate::event::Event;
use crate::input::line_fault::LineFault;
use crate::input::line_words::{LineWord, first_word, line_words};
use crate::input::lines::is_skipped;
use crate::input::names::program_number;
use crate::input::number::{number_between, numbers, unsigned};
use crate::input::row_line::{RowLine, row_line};
use crate::limits::{MAX_INSTANCE, MAX_STEPS};
use prog_check::ProgramSet;
use prog_tree::Sequence;
use std::alloc::Global;

// A program and its arguments.
#[derive(Drop)]
pub struct ProgramCall {
    program: usize,
    args: Sequence<i64>,
}

/// What a line says.
#[derive(Drop)]
pub enum Command {
    /// An empty line or a comment.
    Skip,
    /// An opening row.
    Row(RowLine),
    Event(Event),
    /// So many steps of an instance.
    Steps { instance: usize, times: usize },
}

#[tactic(auto, unfolding(crate::specs::Commands::row_command))]
fn row(set: &ProgramSet, line: usize, words: &[LineWord<'_>]) -> Result<Command, LineFault>
    ensures { result ≡ row_command (draft_tree set.now) line words.now }
{
    let row = row_line(set, line, words)?;
    Ok(Command::Row(row))
}

// A program by its name, and its arguments.
#[tactic(auto, unfolding(crate::specs::Commands::program_call))]
fn read_call(
    alloc: Global,
    set: &ProgramSet,
    line: usize,
    words: &[LineWord<'_>],
) -> Result<ProgramCall, LineFault>
    ensures { Reads (λ call. call) result (program_call (draft_tree set.now) line words.now) }
{
    let [name, args @ ..] = words else {
        return Err(LineFault::BadLine { line });
    };
    let args = numbers(alloc, args)?.ok_or(LineFault::BadLine { line })?;
    let program = program_number(set, name.as_bytes()).ok_or(LineFault::UnknownName { line })?;
    Ok(ProgramCall { program, args })
}

#[tactic(auto, unfolding(crate::specs::Commands::begin_command))]
fn begin(
    alloc: Global,
    set: &ProgramSet,
    line: usize,
    words: &[LineWord<'_>],
) -> Result<Command, LineFault>
    ensures { Reads (λ command. command) result
        (begin_command (draft_tree set.now) line words.now) }
{
    let ProgramCall { program, args } = read_call(alloc, set, line, words)?;
    Ok(Command::Event(Event::Begin { program, args }))
}

#[tactic(auto, unfolding(crate::specs::Commands::begin_at_command))]
fn begin_at(
    alloc: Global,
    set: &ProgramSet,
    line: usize,
    words: &[LineWord<'_>],
) -> Result<Command, LineFault>
    ensures { Reads (λ command. command) result
        (begin_at_command (draft_tree set.now) line words.now) }
{
    let [start, call @ ..] = words else {
        return Err(LineFault::BadLine { line });
    };
    let start = unsigned(start.as_bytes()).ok_or(LineFault::BadLine { line })?;
    let ProgramCall { program, args } = read_call(alloc, set, line, call)?;
    let event = Event::BeginAt {
        start,
        program,
        args,
    };
    Ok(Command::Event(event))
}

// The number of an instance.
fn instance(word: &[u8]) -> Option<usize>
    ensures { result ≡ instance_number word.now }
{
    number_between(0, MAX_INSTANCE, word)
}

fn steps(number: &[u8], times: &[u8]) -> Option<Command>
    ensures { result ≡ steps_of number.now times.now }
{
    let instance = instance(number)?;
    let times = number_between(1, MAX_STEPS, times)?;
    Some(Command::Steps { instance, times })
}

// The steps of the words behind `step`: an instance, and maybe how many.
#[tactic(auto, unfolding(crate::specs::Commands::step_command))]
fn step(line: usize, words: &[u8]) -> Result<Command, LineFault>
    ensures { result ≡ step_command line (words_of words.now) }
{
    let Some((word, rest)) = first_word(words) else {
        return Err(LineFault::BadLine { line });
    };
    let Some((times, rest)) = first_word(rest) else {
        let instance = instance(word).ok_or(LineFault::BadLine { line })?;
        return Ok(Command::Steps { instance, times: 1 });
    };
    if first_word(rest).is_some() {
        return Err(LineFault::BadLine { line });
    }
    steps(word, times).ok_or(LineFault::BadLine { line })
}

// The instance that a line names, and nothing else.
#[tactic(auto, unfolding(crate::specs::Commands::one_instance))]
fn one_instance(line: usize, words: &[u8]) -> Result<usize, LineFault>
    ensures { result ≡ one_instance line (words_of words.now) }
{
    let Some((word, rest)) = first_word(words) else {
        return Err(LineFault::BadLine { line });
    };
    if first_word(rest).is_some() {
        return Err(LineFault::BadLine { line });
    }
    instance(word).ok_or(LineFault::BadLine { line })
}

#[tactic(auto, unfolding(crate::specs::Commands::commit_command))]
fn commit(line: usize, words: &[u8]) -> Result<Command, LineFault>
    ensures { result ≡ commit_command line (words_of words.now) }
{
    let instance = one_instance(line, words)?;
    Ok(Command::Event(Event::Commit(instance)))
}

#[tactic(auto, unfolding(crate::specs::Commands::abort_command))]
fn abort(line: usize, words: &[u8]) -> Result<Command, LineFault>
    ensures { result ≡ abort_command line (words_of words.now) }
{
    let instance = one_instance(line, words)?;
    Ok(Command::Event(Event::Abort(instance)))
}

#[tactic(auto, unfolding(crate::specs::Commands::vacuum_command))]
fn vacuum(line: usize, words: &[u8]) -> Result<Command, LineFault>
    ensures { result ≡ vacuum_command line (words_of words.now) }
{
    match first_word(words) {
        None => Ok(Command::Event(Event::Vacuum)),
        Some(_) => Err(LineFault::BadLine { line }),
    }
}

#[tactic(auto, unfolding(crate::specs::Commands::command_of))]
fn words_command(
    alloc: Global,
    set: &ProgramSet,
    line: usize,
    bytes: &[u8],
) -> Result<Command, LineFault>
    ensures { Reads (λ command. command) result
        (command_of (draft_tree set.now) line (words_of bytes.now)) }
{
    let Some((first, words)) = first_word(bytes) else {
        return Err(LineFault::BadLine { line });
    };
    let first = LineWord::new(first);
    if first.is(b"row") {
        row(set, line, line_words(alloc, words)?.as_slice())
    } else if first.is(b"begin") {
        begin(alloc, set, line, line_words(alloc, words)?.as_slice())
    } else if first.is(b"begin-at") {
        begin_at(alloc, set, line, line_words(alloc, words)?.as_slice())
    } else if first.is(b"step") {
        step(line, words)
    } else if first.is(b"commit") {
        commit(line, words)
    } else if first.is(b"abort") {
        abort(line, words)
    } else if first.is(b"vacuum") {
        vacuum(line, words)
    } else {
        Err(LineFault::BadLine { line })
    }
}

/// What the line of this number says, or its fault.
#[tactic(auto, unfolding(crate::specs::Commands::line_command))]
pub fn line_command(
    alloc: Global,
    set: &ProgramSet,
    line: usize,
    bytes: &[u8],
) -> Result<Command, LineFault>
    ensures { Reads (λ command. command) result (line_command (draft_tree set.now) line bytes.now) }
{
    if is_skipped(bytes) {
        return Ok(Command::Skip);
    }
    words_command(alloc, set, line, bytes)
}
