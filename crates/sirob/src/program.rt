//! The program, from the words of its command line to its status.
ghost use Rattle.std.specs.Prelude.{◌≡◌, ◌≤◌, ◌+◌, [], true, map, string_bytes, IfOk, IfErr};
ghost use Rattle.std.specs.IoError.{error_kind};
ghost use Rattle.clap.specs.Words.{kind_of};
ghost use Rattle.sirob.specs.Output.{IsReply, WritesWithStatus, memory_line};
ghost use Rattle.sirob.specs.Program.{is_text, NameNoMode, IsModeless, IsWordless, IsEnd};
ghost use Rattle.si_engine.specs.Writing.{IsJust};

use crate::command_line::{Mode, read_words};
use crate::lines::{MEMORY_LINE, write_last};
use crate::progress::Watched;
use crate::run_command::run_command;
use crate::run_work::run_work;
use crate::status::Status;
use clap::Error;
use clap::error::ErrorKind;
use si_engine::{MAX_READS, Sink, Source};
use std::alloc::Global;
use std::io;
use std::rt::Clock;
use std::sync::Wait;
use std::thread::Threads;

/// Does what the arguments ask for, from a source to a sink. What is wrong with the arguments goes
/// to the standard error.
pub fn carry_out<S: Source, K: Sink>(
    rt: &(impl AllocGlobal + Eprint + Clock + Watched + Threads + Wait + Sync),
    arguments: &io::Result<Vec<String>>,
    source: &mut S,
    sink: &mut K,
) -> Status
    ensures words { IfOk arguments.now (λ words. WritesWithStatus
        (IsEnd (map string_bytes words.items) (S.left source.old) (S.has_failed source.new))
        (K.has_failed sink.new) (K.taken sink.old) (K.taken sink.new) result) }
    ensures none { IfErr arguments.now (λ error. WritesWithStatus (IsWordless (error_kind error))
        (K.has_failed sink.new) (K.taken sink.old) (K.taken sink.new) result) }
    ensures reads { S.pulls source.new ≤ S.pulls source.old + MAX_READS }
    ensures refused { IfOk arguments.now (λ words.
        NameNoMode (map string_bytes words.items) → source.new ≡ source.old) }
    ensures unread { IfErr arguments.now (λ error. source.new ≡ source.old) }
{
    match arguments {
        Ok(words) => follow(rt, words.as_slice(), source, sink),
        Err(error) => refuse_arguments(rt, error, sink),
    }
}

// Does what a mode asks for.
fn run_mode<S: Source, K: Sink>(
    rt: &(impl AllocGlobal + Eprint + Clock + Watched + Threads + Wait + Sync),
    mode: Mode,
    source: &mut S,
    sink: &mut K,
) -> Status
    ensures reply { WritesWithStatus (IsReply mode (S.left source.old) (S.has_failed source.new))
        (K.has_failed sink.new) (K.taken sink.old) (K.taken sink.new) result }
    ensures reads { S.pulls source.new ≤ S.pulls source.old + MAX_READS }
{
    match mode {
        Mode::Check
        | Mode::Certify
        | Mode::Verify
        | Mode::Repair { .. }
        | Mode::Run { .. }
        | Mode::Audit => run_command(rt, mode, source, sink),
        Mode::Work { workers } => run_work(rt, workers, source, sink),
    }
}

// Does what words ask for. Nothing is read for words that are mistaken or ask for a text.
fn follow<S: Source, K: Sink>(
    rt: &(impl AllocGlobal + Eprint + Clock + Watched + Threads + Wait + Sync),
    words: &[String],
    source: &mut S,
    sink: &mut K,
) -> Status
    ensures end { WritesWithStatus (IsEnd (map string_bytes words.now) (S.left source.old)
        (S.has_failed source.new))
        (K.has_failed sink.new) (K.taken sink.old) (K.taken sink.new) result }
    ensures reads { S.pulls source.new ≤ S.pulls source.old + MAX_READS }
    ensures unread { NameNoMode (map string_bytes words.now) → source.new ≡ source.old }
{
    match read_words(rt.alloc(), words) {
        Ok(mode) => run_mode(rt, mode, source, sink),
        Err(error) => refuse_words(rt, &error, sink),
    }
}

// Shows the text that words ask for, or tells what is wrong with them.
fn refuse_words<K: Sink>(rt: &(impl AllocGlobal + Eprint), error: &Error, sink: &mut K) -> Status
    ensures { WritesWithStatus (IsModeless (kind_of error.now))
        (K.has_failed sink.new) (K.taken sink.old) (K.taken sink.new) result }
{
    if error.kind() == ErrorKind::OutOfMemory {
        return tell_memory(sink);
    }
    if error.use_stderr() {
        let _ = rt.eprint(error);
        return tell_nothing(sink);
    }
    show(rt.alloc(), error, sink)
}

fn show<K: Sink>(alloc: Global, error: &Error, sink: &mut K) -> Status
    requires { is_text (kind_of error.now) ≡ true }
    ensures { WritesWithStatus (IsModeless (kind_of error.now))
        (K.has_failed sink.new) (K.taken sink.old) (K.taken sink.new) result }
{
    match error.to_string(alloc) {
        Ok(text) => write_last(sink, text.as_bytes(), Status::Done),
        Err(_) => tell_memory(sink),
    }
}

// Tells that an argument is no text, or that memory ran out.
fn refuse_arguments<K: Sink>(rt: &impl Eprint, error: &io::Error, sink: &mut K) -> Status
    ensures { WritesWithStatus (IsWordless (error_kind error.now))
        (K.has_failed sink.new) (K.taken sink.old) (K.taken sink.new) result }
{
    if error.kind() == io::ErrorKind::OutOfMemory {
        return tell_memory(sink);
    }
    let _ = rt.eprintln("error: an argument is not UTF-8");
    tell_nothing(sink)
}

fn tell_memory<K: Sink>(sink: &mut K) -> Status
    ensures { WritesWithStatus (IsJust memory_line Status.Memory)
        (K.has_failed sink.new) (K.taken sink.old) (K.taken sink.new) result }
{
    write_last(sink, MEMORY_LINE, Status::Memory)
}

// Nothing is for the standard output.
fn tell_nothing<K: Sink>(sink: &mut K) -> Status
    ensures { WritesWithStatus (IsJust [] Status.Faulty)
        (K.has_failed sink.new) (K.taken sink.old) (K.taken sink.new) result }
{
    write_last(sink, b"", Status::Faulty)
}
