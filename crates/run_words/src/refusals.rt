//! Which lines of a script do nothing, as its run goes.
ghost use Rattle.std.specs.Prelude.{◌≡◌, ◌≢◌, ◌<◌, ◌↔◌, ◌⊎◌, [], true, false, None, IfSome, IsOk};
ghost use Rattle.std.specs.Prelude.{IsTrue, OnOk, length, vec_len};
ghost use Rattle.run_words.specs.ToldLines.{does_nothing, is_lost, is_of_none, is_refusal};
ghost use Rattle.run_words.specs.ToldLines.{names_no_instance, refuses, refuses_begin};
ghost use Rattle.run_words.specs.ToldLines.{refuses_instance, refuses_number, told_lines};
ghost use Rattle.run_words.specs.ToldLines.{CountsOneMore, FollowsNoMore, IsOneMore, TellsNoMore};
ghost use Rattle.run_words.specs.ToldLines.{TellsNothing, TellsOneMore};

use crate::begin_numbers::{BeginNumbers, Vacuums};
use crate::event_lines::EventLines;
use crate::limits::MAX_TOLD;
use history_book::Book;
use si_engine::{Event, Reply};
use std::alloc::{AllocError, Global};

/// Why an event does nothing.
#[derive(Clone, Copy, Debug, PartialEq, Eq)]
pub enum EventRefusal {
    WrongArguments { program: usize, given: usize },
    /// A begin at a number at which none is possible.
    OtherNumber { start: u64, numbers: BeginNumbers },
    Full,
    NoInstance(usize),
    NotReady(usize),
    Ended(usize),
}

/// A line that does nothing.
#[derive(Clone, Copy)]
pub struct Refused {
    pub line: usize,
    pub refusal: EventRefusal,
}

/// The lines of a script that do nothing, as the run of it tells them: some first ones, and how
/// many more there are.
#[derive(Drop)]
pub struct Refusals {
    // How many events were looked at.
    events: usize,
    lines: EventLines,
    vacuums: Vacuums,
    told: Vec<Refused>,
    // The last line that was added, told or not.
    last: usize,
    is_begin_refused: bool,
    // Lines that name an instance which does not begin.
    pub(crate) following: usize,
    pub(crate) more: usize,
    // Memory ran out for them.
    is_lost: bool,
}

fn refusal_of_instance(instance: usize, reply: &Reply) -> Option<EventRefusal>
    ensures none { is_refusal reply.now ≡ false → result ≡ None }
    ensures some { refuses_instance reply.now ≡ true → result ≢ None }
    ensures other { names_no_instance reply.now ≡ false
        → IfSome result (λ refusal. is_of_none refusal ≡ false) }
{
    match reply {
        Reply::NoSuchInstance => Some(EventRefusal::NoInstance(instance)),
        Reply::NotReady => Some(EventRefusal::NotReady(instance)),
        Reply::Ended => Some(EventRefusal::Ended(instance)),
        _ => None,
    }
}

fn refusal_of_begin(program: usize, given: usize, reply: &Reply) -> Option<EventRefusal>
    ensures none { is_refusal reply.now ≡ false → result ≡ None }
    ensures some { refuses_begin reply.now ≡ true → result ≢ None }
    ensures other { IfSome result (λ refusal. is_of_none refusal ≡ false) }
{
    match reply {
        Reply::WrongArguments => Some(EventRefusal::WrongArguments { program, given }),
        Reply::Full => Some(EventRefusal::Full),
        _ => None,
    }
}

// Why an event that was answered by this does nothing, but for a begin at another number.
fn refusal_of(event: &Event, reply: &Reply) -> Option<EventRefusal>
    ensures none { is_refusal reply.now ≡ false → result ≡ None }
    ensures some { refuses event.now reply.now ≡ true → result ≢ None }
    ensures other { names_no_instance reply.now ≡ false
        → IfSome result (λ refusal. is_of_none refusal ≡ false) }
{
    match event {
        Event::Begin { program, args } | Event::BeginAt { program, args, .. } => {
            refusal_of_begin(*program, args.len(), reply)
        }
        Event::Step(instance) | Event::Commit(instance) | Event::Abort(instance) => {
            refusal_of_instance(*instance, reply)
        }
        Event::Vacuum => None,
    }
}

// The number at which an event asks an instance to begin, where none can begin there.
fn refused_start(event: &Event, reply: &Reply) -> Option<u64>
    ensures none { is_refusal reply.now ≡ false → result ≡ None }
    ensures some { refuses_number event.now reply.now ≡ true → result ≢ None }
{
    match (event, reply) {
        (Event::BeginAt { start, .. }, Reply::TooOld { .. } | Reply::TooNew { .. }) => Some(*start),
        _ => None,
    }
}

impl Refusals {
    /// Of no event yet.
    pub fn new(alloc: Global) -> Self
        ensures { TellsNothing result }
    {
        Refusals {
            events: 0,
            lines: EventLines::new(),
            vacuums: Vacuums::new(),
            told: Vec::new(alloc),
            last: 0,
            is_begin_refused: false,
            following: 0,
            more: 0,
            is_lost: false,
        }
    }

    // Tells or counts a line, unless it is the last one again; the first one is told.
    fn add(&mut self, line: usize, refusal: EventRefusal) -> Result<(), AllocError>
        ensures more { OnOk result (IsOneMore self.old.told.items self.new.told.items) }
        ensures some { OnOk result (0 < vec_len self.new.told) }
        ensures last { OnOk result (self.new.last ≡ line) }
        ensures counted { OnOk result (CountsOneMore self.old self.new) }
        ensures following { is_of_none refusal ≡ false
            → OnOk result (FollowsNoMore self.old self.new) }
        ensures held { is_lost self.new ≡ is_lost self.old }
    {
        let is_first = self.told.is_empty();
        if line == self.last && !is_first {
            return Ok(());
        }
        self.last = line;
        match refusal {
            EventRefusal::NoInstance(_) if self.is_begin_refused && !is_first => {
                self.following = self.following.saturating_add(1);
                return Ok(());
            }
            EventRefusal::WrongArguments { .. }
            | EventRefusal::OtherNumber { .. }
            | EventRefusal::Full => {
                self.is_begin_refused = true;
            }
            _ => {}
        }
        if self.told.len() >= MAX_TOLD {
            self.more = self.more.saturating_add(1);
            return Ok(());
        }
        self.told.push(Refused { line, refusal })?;
        Ok(())
    }

    // Adds the line of the event of a number.
    fn add_event(
        &mut self,
        part: &[u8],
        number: usize,
        refusal: EventRefusal,
    ) -> Result<(), AllocError>
        ensures more { OnOk result (IsOneMore self.old.told.items self.new.told.items) }
        ensures some { OnOk result (0 < vec_len self.new.told) }
        ensures counted { OnOk result (CountsOneMore self.old self.new) }
        ensures following { is_of_none refusal ≡ false
            → OnOk result (FollowsNoMore self.old self.new) }
        ensures held { is_lost self.new ≡ is_lost self.old }
    {
        let line = self.lines.line_of(part, number);
        self.add(line, refusal)?;
        Ok(())
    }

    // Adds the line of an event that does nothing.
    fn note(
        &mut self,
        part: &[u8],
        number: usize,
        event: &Event,
        reply: &Reply,
        book: &Book<'_>,
    ) -> Result<(), AllocError>
        ensures stays { is_refusal reply.now ≡ false → IsOk result × (self.new ≡ self.old) }
        ensures more { OnOk result (IsOneMore self.old.told.items self.new.told.items) }
        ensures some { does_nothing event.now reply.now ≡ true
            → OnOk result (0 < vec_len self.new.told) }
        ensures counted { OnOk result (CountsOneMore self.old self.new) }
        ensures following { names_no_instance reply.now ≡ false
            → OnOk result (FollowsNoMore self.old self.new) }
        ensures held { is_lost self.new ≡ is_lost self.old }
    {
        if let Some(start) = refused_start(event, reply) {
            let numbers = self.vacuums.numbers(part, book);
            return self.add_event(part, number, EventRefusal::OtherNumber { start, numbers });
        }
        match refusal_of(event, reply) {
            Some(refusal) => self.add_event(part, number, refusal),
            None => Ok(()),
        }
    }

    /// The lines that are told; none where memory ran out for them.
    pub(crate) fn told_lines(&self) -> &[Refused]
        ensures { result.now ≡ told_lines self.now }
    {
        if self.is_lost {
            &[]
        } else {
            self.told.as_slice()
        }
    }

    /// Whether no line is told.
    pub fn is_empty(&self) -> bool
        ensures { IsTrue result ↔ (told_lines self.now ≡ []) }
    {
        self.told_lines().is_empty()
    }

    /// Looks at the next event of the script that a part is, with its reply and the book behind it.
    pub fn look(&mut self, part: &[u8], event: &Event, reply: &Reply, book: &Book<'_>)
        ensures stays { is_refusal reply.now ≡ false → TellsNoMore self.old self.new }
        ensures more { TellsOneMore self.old self.new }
        ensures counted { CountsOneMore self.old self.new ⊎ (is_lost self.new ≡ true) }
        ensures following { names_no_instance reply.now ≡ false → is_lost self.new ≡ false
            → FollowsNoMore self.old self.new }
        ensures some { does_nothing event.now reply.now ≡ true → is_lost self.new ≡ false
            → 0 < length (told_lines self.new) }
    {
        let number = self.events;
        self.events = number.saturating_add(1);
        if let Event::Vacuum = event {
            self.vacuums.look(book, number);
            return;
        }
        if !self.is_lost && self.note(part, number, event, reply, book).is_err() {
            self.is_lost = true;
        }
    }
}
