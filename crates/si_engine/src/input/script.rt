//! Scripts.
ghost use Rattle.std.specs.Prelude.{◌≡◌, ◌≤◌, ◌+◌, ◌↔◌, ◌++◌, ◌∷◌, [], true, false, None, Some};
ghost use Rattle.std.specs.Prelude.{OnOk, IfOk, IfErr, IsErrOf, replicate};
ghost use Rattle.prog_tree.specs.Tree.{draft_tree};
ghost use Rattle.si_engine.specs.Sources.{ForInput};
ghost use Rattle.si_engine.specs.LineFaults.{IsFault};
ghost use Rattle.si_engine.specs.Script.{room_fault, order_fault, with_row_of, events_in, IsScript};
ghost use Rattle.si_engine.specs.Script.{IsScriptFault};

use crate::event::Event;
use crate::input::command::{Command, line_command};
use crate::input::events::Events;
use crate::input::from_lines::{FromLines, read_part};
use crate::input::line_fault::LineFault;
use crate::input::part_fault::PartFault;
use crate::input::row_line::add_row;
use crate::input::source::{InputFault, Source};
use crate::limits::{MAX_EVENTS, MAX_READS};
use prog_check::ProgramSet;
use prog_tree::Rows;
use std::alloc::{AllocError, Global};

/// The opening rows and the events of a script.
#[derive(Drop)]
pub struct Script {
    pub rows: Rows,
    pub events: Events,
}

impl Script {
    // Whether there is room for so many events more.
    fn check_room(&self, line: usize, more: usize) -> Result<(), LineFault>
        ensures placed { OnOk result (room_fault line self.now.events more ≡ None) }
        ensures fault { IfErr result (λ fault. room_fault line self.now.events more ≡ Some fault) }
    {
        if self.events.len().saturating_add(more) > MAX_EVENTS {
            return Err(LineFault::TooManyEvents { line });
        }
        Ok(())
    }

    fn add_event(&mut self, line: usize, event: Event) -> Result<(), LineFault>
        ensures placed { OnOk result (room_fault line self.old.events 1 ≡ None) }
        ensures rows { OnOk result (self.new.rows ≡ self.old.rows) }
        ensures events { OnOk result (self.new.events ≡ self.old.events ++ event ∷ []) }
        ensures fault { IfErr result (λ fault. IsFault fault (room_fault line self.old.events 1)) }
    {
        self.check_room(line, 1)?;
        self.events.push(event)?;
        Ok(())
    }

    fn push_steps(&mut self, instance: usize, times: usize) -> Result<(), AllocError>
        ensures rows { OnOk result (self.new.rows ≡ self.old.rows) }
        ensures events { OnOk result
            (self.new.events ≡ self.old.events ++ replicate times (Event.Step instance)) }
    {
        for _turn in 0..times {
            self.events.push(Event::Step(instance))?;
        }
        Ok(())
    }

    fn add_steps(&mut self, line: usize, instance: usize, times: usize) -> Result<(), LineFault>
        ensures placed { OnOk result (room_fault line self.old.events times ≡ None) }
        ensures rows { OnOk result (self.new.rows ≡ self.old.rows) }
        ensures events { OnOk result
            (self.new.events ≡ self.old.events ++ replicate times (Event.Step instance)) }
        ensures fault { IfErr result
            (λ fault. IsFault fault (room_fault line self.old.events times)) }
    {
        self.check_room(line, times)?;
        self.push_steps(instance, times)?;
        Ok(())
    }

    // Behind an error the script is of no use.
    fn add_command(&mut self, line: usize, command: Command) -> Result<(), LineFault>
        ensures placed { OnOk result
            (order_fault line self.old.rows self.old.events command ≡ None) }
        ensures rows { OnOk result (self.new.rows ≡ with_row_of self.old.rows command) }
        ensures events { OnOk result (self.new.events ≡ self.old.events ++ events_in command) }
        ensures fault { IfErr result
            (λ fault. IsFault fault (order_fault line self.old.rows self.old.events command)) }
    {
        match command {
            Command::Skip => {}
            Command::Row(row) => add_row(&mut self.rows, line, !self.events.is_empty(), row)?,
            Command::Event(event) => self.add_event(line, event)?,
            Command::Steps { instance, times } => self.add_steps(line, instance, times)?,
        }
        Ok(())
    }
}

impl FromLines for Script {
    ghost use Rattle.si_engine.specs.Commands.{line_command};
    ghost use Rattle.si_engine.specs.Script.{fault_behind, script_with};

    type Saying = Command;

    ghost says = { line_command };

    ghost wrong = { fault_behind };

    ghost whole = { script_with };

    fn none(alloc: Global) -> Self {
        Script {
            rows: Rows::new(alloc),
            events: Events::new(alloc),
        }
    }

    fn read_line(
        alloc: Global,
        set: &ProgramSet,
        line: usize,
        bytes: &[u8],
    ) -> Result<Command, LineFault> {
        line_command(alloc, set, line, bytes)
    }

    fn add(&mut self, line: usize, command: Command) -> Result<(), LineFault> {
        self.add_command(line, command)
    }
}

/// Reads all of a source as a script for a set, or finds its first fault. Behind an error the
/// source may have been read in part.
pub fn read_script<S: Source>(
    alloc: Global,
    set: &ProgramSet,
    source: &mut S,
) -> Result<Script, PartFault>
    ensures script { IfOk result (λ script.
        ForInput (S.left source.old) (λ part. IsScript (draft_tree set.now) part script)) }
    ensures fault { IfErr result (λ fault. S.has_failed source.new ≡ false
        → ForInput (S.left source.old) (λ part. IsScriptFault (draft_tree set.now) part fault)) }
    ensures unread { S.has_failed source.new ≡ true
        ↔ IsErrOf result (PartFault.Input InputFault.ReadFault) }
    ensures reads { S.pulls source.new ≤ S.pulls source.old + MAX_READS }
{
    read_part(alloc, set, source)
}
