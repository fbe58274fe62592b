//! An engine, driven by events. Where memory is refused an event is sent again: so
//! `tests/refused-calls`, which has each request refused in turn, shows that the same replies come.

use example_sets::set_of;
use prog_check::ProgramSet;
use prog_tree::{Rows, Sequence};
use si_engine::{Engine, Event, Reply};
use std::alloc::{AllocError, Global};
use std::process::Abort;
use std::test::Fail;

const REGISTERS: &str = "table t 1;
program Look(k) { let x = get t[k] else -1; reply x; }
program Set(k, v) { put t[k] = v; }
program Pay(k, v) { put t[k] = 5; each i, x in t[1..9] { put t[i] = x + v; } }
";

const LOOK: usize = 0;

const SET: usize = 1;

const PAY: usize = 2;

const NO_PROGRAM: usize = 3;

/// An event as plain data.
#[derive(Clone, Copy)]
enum Sent {
    Begin(usize, &'static [i64]),
    Step(usize),
    Commit(usize),
    Abort(usize),
    Vacuum,
}

fn begin(alloc: Global, program: usize, args: &[i64]) -> Result<Event, AllocError> {
    let args = Sequence::from_slice(alloc, args)?;
    Ok(Event::Begin { program, args })
}

fn event_of(alloc: Global, sent: &Sent) -> Result<Event, AllocError> {
    match *sent {
        Sent::Begin(program, args) => begin(alloc, program, args),
        Sent::Step(number) => Ok(Event::Step(number)),
        Sent::Commit(number) => Ok(Event::Commit(number)),
        Sent::Abort(number) => Ok(Event::Abort(number)),
        Sent::Vacuum => Ok(Event::Vacuum),
    }
}

// What an engine replies, asked again where memory was refused.
fn reply_to(rt: &impl Abort, engine: &mut Engine<'_>, event: &Event) -> Reply {
    match engine.apply(event) {
        Ok(reply) => reply,
        Err(AllocError) => engine.apply(event).expect(rt, "refused again"),
    }
}

// Hands an event to the engine, which has to reply as wanted.
fn send(
    rt: &impl Abort,
    alloc: Global,
    engine: &mut Engine<'_>,
    sent: &Sent,
    wanted: &str,
) -> Result<(), AllocError> {
    let event = event_of(alloc, sent)?;
    let reply = reply_to(rt, engine, &event);
    let told = format!(in alloc; "{reply:?}")?;
    assert!(rt; told.as_str() == wanted, "{told}");
    Ok(())
}

fn send_all(
    rt: &impl Abort,
    alloc: Global,
    engine: &mut Engine<'_>,
    events: &[(Sent, &str)],
) -> Result<(), AllocError> {
    for (sent, wanted) in events {
        send(rt, alloc, engine, sent, wanted)?;
    }
    Ok(())
}

/// Events with the replies that they have to have, and what the engine has to come to: commits,
/// endings and rows.
type Case = (&'static [(Sent, &'static str)], (u64, usize, usize));

fn counts(engine: &Engine<'_>) -> Result<(u64, usize, usize), AllocError> {
    let rows = engine.table()?.len();
    let book = engine.book();
    Ok((book.commits(), book.endings().len(), rows))
}

fn check_engine(
    rt: &impl Abort,
    alloc: Global,
    engine: &mut Engine<'_>,
    (events, wanted): Case,
) -> Result<(), AllocError> {
    send_all(rt, alloc, engine, events)?;
    let counts = counts(engine)?;
    assert!(rt; counts == wanted);
    Ok(())
}

fn check_case(
    rt: &impl Abort,
    alloc: Global,
    set: &ProgramSet,
    case: Case,
) -> Result<(), AllocError> {
    let mut engine = Engine::open(alloc, set, Rows::new(alloc))?;
    let checked = check_engine(rt, alloc, &mut engine, case);
    drop(engine);
    checked
}

fn check_cases(rt: &impl Abort, alloc: Global, set: &ProgramSet) -> Result<(), AllocError> {
    for case in CASES {
        check_case(rt, alloc, set, case)?;
    }
    Ok(())
}

/// Begins are refused before they are numbered.
const BEGINS: &[(Sent, &str)] = &[
    (Sent::Begin(NO_PROGRAM, &[7]), "NoSuchProgram"),
    (Sent::Begin(LOOK, &[]), "WrongArguments"),
    (Sent::Begin(LOOK, &[7]), "Begun { instance: 0, start: 0 }"),
    (Sent::Begin(SET, &[7, 5]), "Begun { instance: 1, start: 0 }"),
];

/// A commit is in the book and in the table.
const COMMIT: &[(Sent, &str)] = &[
    (Sent::Begin(SET, &[7, 5]), "Begun { instance: 0, start: 0 }"),
    (Sent::Commit(0), "NotReady"),
    (Sent::Step(0), PUT),
    (Sent::Step(0), "Ready(Sequence { items: [] })"),
    (Sent::Commit(0), "Committed(1)"),
    (Sent::Step(0), "Ended"),
];

/// An abort withdraws, and a vacuum counts.
const ABORT: &[(Sent, &str)] = &[
    (Sent::Begin(LOOK, &[7]), "Begun { instance: 0, start: 0 }"),
    (Sent::Abort(0), "Withdrawn"),
    (Sent::Abort(0), "Ended"),
    (Sent::Abort(1), "NoSuchInstance"),
    (Sent::Vacuum, "Vacuumed(0)"),
];

const PUT: &str = "Did(Put(Cell { table: 0, first: 7, second: 0 }, 5))";

const CLASHED: &str = "Clashed(Clash { cell: Cell { table: 0, first: 7, second: 0 }, number: 1 })";

const READ: &str = "Did(Read(Cell { table: 0, first: 7, second: 0 }, Some(5)))";

/// The second of two that set a cell clashes; who begins behind the first sees what it set.
const CLASH: &[(Sent, &str)] = &[
    (Sent::Begin(SET, &[7, 5]), "Begun { instance: 0, start: 0 }"),
    (Sent::Begin(SET, &[7, 5]), "Begun { instance: 1, start: 0 }"),
    (Sent::Step(0), PUT),
    (Sent::Step(1), PUT),
    (Sent::Step(1), "Ready(Sequence { items: [] })"),
    (Sent::Step(0), "Ready(Sequence { items: [] })"),
    (Sent::Commit(0), "Committed(1)"),
    (Sent::Commit(1), CLASHED),
    (Sent::Begin(LOOK, &[7]), "Begun { instance: 2, start: 1 }"),
    (Sent::Step(2), READ),
    (Sent::Step(2), "Ready(Sequence { items: [5] })"),
    (Sent::Commit(2), "Committed(2)"),
];

const LISTED: &str = "Did(Listed(Region { table: 0, first_low: 1, first_high: 9, second_low: 0, \
second_high: 0 }, 1))";

const PAID: &str = "Did(Put(Cell { table: 0, first: 7, second: 0 }, 7))";

/// An `each` lists the row that its instance has put, and its turn is a step of its own.
const EACH: &[(Sent, &str)] = &[
    (Sent::Begin(PAY, &[7, 2]), "Begun { instance: 0, start: 0 }"),
    (Sent::Step(0), PUT),
    (Sent::Step(0), LISTED),
    (Sent::Step(0), PAID),
    (Sent::Step(0), "Ready(Sequence { items: [] })"),
    (Sent::Commit(0), "Committed(1)"),
];

const CASES: [Case; 5] = [
    (BEGINS, (0, 0, 0)),
    (COMMIT, (1, 1, 1)),
    (ABORT, (0, 0, 0)),
    (CLASH, (2, 3, 1)),
    (EACH, (1, 1, 1)),
];

// A request of the test's own that is refused is an error of the test.
#[test]
fn events_are_replied_to(rt: HostRuntime) -> Result<(), Fail> {
    let set = set_of(rt.alloc(), REGISTERS)?;
    let checked = check_cases(&rt, rt.alloc(), &set);
    drop(set);
    Ok(checked?)
}
