//! The events of a script, most of which are kept in eight bytes.

use prog_tree::Sequence;
use si_engine::{Event, EventReader, Events};
use std::process::Abort;
use std::test::Fail;

// The greatest instance that eight bytes have room for.
const GREATEST: usize = 4_294_967_295;

// The least that they have no room for.
const PAST_GREATEST: usize = 4_294_967_296;

// What an event is, and its instance or how many arguments it has.
fn told(event: &Event) -> (&'static str, usize) {
    match event {
        Event::Begin { args, .. } => ("begin", args.len()),
        Event::BeginAt { args, .. } => ("begin-at", args.len()),
        Event::Step(instance) => ("step", *instance),
        Event::Commit(instance) => ("commit", *instance),
        Event::Abort(instance) => ("abort", *instance),
        Event::Vacuum => ("vacuum", 0),
    }
}

fn check_next(rt: &impl Abort, reader: &mut EventReader<'_>, wanted: &(&str, usize)) {
    let next = reader.next().expect(rt, "an event");
    let told = told(next.event());
    drop(next);
    assert!(rt; told == *wanted);
}

fn check_all(rt: &impl Abort, events: &Events, wanted: &[(&str, usize)]) {
    assert!(rt; (events.len(), events.is_empty()) == (wanted.len(), wanted.is_empty()));
    let mut reader = events.reader();
    for wanted in wanted {
        check_next(rt, &mut reader, wanted);
    }
    assert!(rt; reader.next().is_none());
}

#[test]
fn events_come_in_the_order_of_pushes(rt: HostRuntime) -> Result<(), Fail> {
    let mut events = Events::new(rt.alloc());
    check_all(&rt, &events, &[]);
    let args = Sequence::from_slice(rt.alloc(), &[4, -4])?;
    events.push(Event::Step(GREATEST))?;
    events.push(Event::Step(PAST_GREATEST))?;
    events.push(Event::Begin { program: 1, args })?;
    events.push(Event::Vacuum)?;
    events.push(Event::Abort(PAST_GREATEST))?;
    let wanted = [
        ("step", GREATEST),
        ("step", PAST_GREATEST),
        ("begin", 2),
        ("vacuum", 0),
        ("abort", PAST_GREATEST),
    ];
    check_all(&rt, &events, &wanted);
    drop(events);
    Ok(())
}
