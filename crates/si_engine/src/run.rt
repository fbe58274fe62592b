//! Runs of scripts: from the bytes of a script to the lines of its replies, its rows and the end.
ghost use Rattle.std.specs.Prelude.{◌≡◌, ◌≤◌, ◌+◌, [], string_bytes, ◌++◌, OnErr, OnOk};
ghost use Rattle.prog_tree.specs.Tree.{draft_tree};
ghost use Rattle.prog_check.specs.Paths.{paths_of};
ghost use Rattle.prog_paths.specs.StaticGraph.{IsDangerous};
ghost use Rattle.si_engine.specs.Events.{next_event};
ghost use Rattle.si_engine.specs.Machine.{machine_after, machine_step};
ghost use Rattle.si_engine.specs.Printed.{reply_line};
ghost use Rattle.si_engine.specs.Runs.{event_lines, MakesLines, MakesRun, IsSafeReply};
ghost use Rattle.si_engine.specs.Runs.{IsScriptRun, IsRobustScriptRun};
ghost use Rattle.si_engine.specs.View.{StaysOver};
ghost use Rattle.si_engine.specs.Writing.{WritesSoFar};

use crate::engine::Engine;
use crate::input::events::{Events, NextEvent};
use crate::input::part_fault::PartFault;
use crate::input::script::{Script, read_script};
use crate::input::source::Source;
use crate::limits::MAX_READS;
use crate::output::finding::{Serializability, push_findings_before};
use crate::output::printed::push_reply_line;
use crate::output::sink::{Sink, write_or, write_when_long};
use crate::robust::run::read_history;
use crate::witness::{NoWitness, Witness, let_go};
use prog_check::ProgramSet;
use prog_tree::Draft;
use std::alloc::{AllocError, Global};

// Hands the next event to the engine, and writes the line of its reply. Where memory runs out, no
// part of it is written.
fn answer_next<W: Witness>(
    engine: &mut Engine<'_>,
    set: &Draft,
    next: NextEvent<'_>,
    out: &mut String,
    witness: &mut W,
) -> Result<(), AllocError>
    ensures over { StaysOver engine.old engine.new }
    ensures answer { OnOk result (let event = next_event next.entry in
        let step = machine_step (draft_tree engine.old.set) engine.old.opening event
        engine.old.machine in (engine.new.machine ≡ step.1) × (string_bytes out.new
        ≡ string_bytes out.old ++ reply_line set.now.tables.items event step.0)) }
    ensures err { OnErr result (string_bytes out.new ≡ string_bytes out.old) }
{
    let event = next.event();
    let reply = engine.apply(event)?;
    witness.answered(event, &reply, engine.book());
    push_reply_line(out, &set.tables, event, &reply)
}

// Hands the events to the engine, and writes the line of each reply, many lines at a time. The
// last ones wait.
fn run_events<K: Sink, W: Witness>(
    engine: &mut Engine<'_>,
    set: &Draft,
    events: &Events,
    out: &mut String,
    sink: &mut K,
    witness: &mut W,
) -> Result<(), PartFault>
    requires { engine.old.set ≡ set.now }
    ensures over { StaysOver engine.old engine.new }
    ensures after { OnOk result (engine.new.machine ≡ machine_after
        (draft_tree set.now) engine.old.opening events.now engine.old.machine) }
    ensures lines { WritesSoFar
        (MakesLines (event_lines (draft_tree set.now) engine.old.opening events.now
        engine.old.machine) (string_bytes out.old))
        (string_bytes out.new) (K.has_failed sink.new) (K.taken sink.old) (K.taken sink.new)
        result }
{
    if sink.failed() {
        return Err(PartFault::WriteFault);
    }
    let mut rest = events.reader();
    while let Some(next) = rest.next() {
        write_when_long(out, sink)?;
        answer_next(engine, set, next, out, witness)?;
    }
    Ok(())
}

// Runs a script: makes its lines, and the last line. Where memory runs out, some first lines before
// that were made.
fn make_lines<K: Sink, W: Witness>(
    alloc: Global,
    set: &ProgramSet,
    script: Script,
    out: &mut String,
    sink: &mut K,
    witness: &mut W,
) -> Result<Serializability, PartFault>
    ensures { WritesSoFar (MakesRun (draft_tree set.now) script (string_bytes out.old))
        (string_bytes out.new) (K.has_failed sink.new) (K.taken sink.old) (K.taken sink.new)
        result }
{
    let Script { rows, events } = script;
    let draft = set.draft();
    let mut engine = Engine::open(alloc, set, rows)?;
    run_events(&mut engine, draft, &events, out, sink, witness)?;
    let book = engine.book();
    read_history(book);
    let ended = push_findings_before(book, out, witness);
    let last = witness.is_last();
    let_go(engine, last);
    let_go(events, last);
    Ok(ended?)
}

// Reads all of a source as a script, runs it, and makes its lines.
fn run_source<S: Source, K: Sink, W: Witness>(
    alloc: Global,
    set: &ProgramSet,
    source: &mut S,
    out: &mut String,
    sink: &mut K,
    witness: &mut W,
) -> Result<Serializability, PartFault>
    requires { string_bytes out.old ≡ [] }
    ensures run { WritesSoFar
        (IsSafeReply (draft_tree set.now) (S.left source.old) (S.has_failed source.new))
        (string_bytes out.new) (K.has_failed sink.new) (K.taken sink.old) (K.taken sink.new)
        result }
    ensures reads { S.pulls source.new ≤ S.pulls source.old + MAX_READS }
{
    let script = read_script(alloc, set, source)?;
    make_lines(alloc, set, script, out, sink, witness)
}

/// As `run_script`, before a witness, which is told each reply and the cycle.
pub fn run_script_before<S: Source, K: Sink, W: Witness>(
    alloc: Global,
    set: &ProgramSet,
    source: &mut S,
    sink: &mut K,
    witness: &mut W,
) -> Result<Serializability, PartFault>
    ensures run { IsScriptRun (draft_tree set.now) (S.left source.old) (S.has_failed source.new)
        (K.has_failed sink.new) (K.taken sink.old) (K.taken sink.new) result }
    ensures safe { ¬ IsDangerous (paths_of (draft_tree set.now)) → IsRobustScriptRun
        (draft_tree set.now) (S.left source.old) (S.has_failed source.new)
        (K.has_failed sink.new) (K.taken sink.old) (K.taken sink.new) result }
    ensures reads { S.pulls source.new ≤ S.pulls source.old + MAX_READS }
{
    let mut lines = String::new(alloc);
    let ended = run_source(alloc, set, source, &mut lines, sink, witness);
    if sink.failed() {
        return Err(PartFault::WriteFault);
    }
    write_or(sink, lines.as_bytes(), ended, Err(PartFault::WriteFault))
}

/// Reads all of a source as a script, and runs it on a set. A sink gets a line for each event, one
/// for each row, and the last line; nothing at a fault of the script, and some first lines, but not
/// the last, where memory ran out.
pub fn run_script<S: Source, K: Sink>(
    alloc: Global,
    set: &ProgramSet,
    source: &mut S,
    sink: &mut K,
) -> Result<Serializability, PartFault>
    ensures run { IsScriptRun (draft_tree set.now) (S.left source.old) (S.has_failed source.new)
        (K.has_failed sink.new) (K.taken sink.old) (K.taken sink.new) result }
    ensures reads { S.pulls source.new ≤ S.pulls source.old + MAX_READS }
{
    run_script_before(alloc, set, source, sink, &mut NoWitness)
}
