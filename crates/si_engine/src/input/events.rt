//! Events in eight bytes each.
ghost use Rattle.std.specs.Prelude.{◌≡◌, [], ◌∷◌, ◌++◌, length, Some, OnOk, OnErr, IfSome};
ghost use Rattle.std.specs.Prelude.{MatchOption, IsSome, IsTrue, ◌↔◌};
ghost use Rattle.si_engine.specs.Events.{next_event, said_by, HasItem};

use crate::event::Event;
use prog_tree::Sequence;
use std::alloc::{AllocError, Global};
use std::marker::Model;

// An event in eight bytes, or the next of those that are kept whole.
#[derive(Clone, Copy)]
pub enum Item {
    Step(u32),
    Commit(u32),
    Abort(u32),
    Vacuum,
    Kept,
}

impl Item {
    // An event as an item that says it, where there is one.
    fn of(event: &Event) -> Option<Item>
        ensures said { IfSome result (λ item. said_by item ≡ Some event.now) }
        ensures short { IsSome result ↔ HasItem event.now }
    {
        match event {
            Event::Step(instance) => u32::try_from(*instance).ok().map(Item::Step),
            Event::Commit(instance) => u32::try_from(*instance).ok().map(Item::Commit),
            Event::Abort(instance) => u32::try_from(*instance).ok().map(Item::Abort),
            Event::Vacuum => Some(Item::Vacuum),
            Event::Begin { .. } | Event::BeginAt { .. } => None,
        }
    }

    // The event that an item says.
    fn said(self) -> Option<Event>
        ensures { result ≡ said_by self }
    {
        match self {
            Item::Step(instance) => Some(Event::Step(instance as usize)),
            Item::Commit(instance) => Some(Event::Commit(instance as usize)),
            Item::Abort(instance) => Some(Event::Abort(instance as usize)),
            Item::Vacuum => Some(Event::Vacuum),
            Item::Kept => None,
        }
    }
}

/// Events in their order, most of them in eight bytes. Contracts see the list of them.
#[derive(Drop)]
pub struct Events {
    items: Vec<Item>,
    // The begins, and the events of instances above 2^32 - 1.
    kept: Sequence<Event>,
}

impl Model for Events {
    ghost use Rattle.std.specs.Prelude.{◌≡◌, List, length};
    ghost use Rattle.si_engine.specs.declared.event.Event.{Event};
    ghost use Rattle.si_engine.specs.Events.{events_by, kept_by};

    ghost Value = { List Event };

    ghost view = { λ e. events_by e.items.items e.kept };

    ghost invariant = { λ e. kept_by e.items.items ≡ length e.kept };
}

impl Events {
    /// No events.
    pub fn new(alloc: Global) -> Self
        ensures { result ≡ [] }
    {
        Events {
            items: Vec::new(alloc),
            kept: Sequence::new(alloc),
        }
    }

    pub fn len(&self) -> usize
        ensures { result ≡ length self.now }
    {
        self.items.len()
    }

    pub fn is_empty(&self) -> bool
        ensures { IsTrue result ↔ (self.now ≡ []) }
    {
        self.len() == 0
    }

    /// Adds an event behind the others.
    pub fn push(&mut self, event: Event) -> Result<(), AllocError>
        ensures ok { OnOk result (self.new ≡ self.old ++ event ∷ []) }
        ensures err { OnErr result (self.new ≡ self.old) }
    {
        self.items.reserve(1)?;
        match Item::of(&event) {
            Some(item) => self.items.push_reserved(item),
            None => {
                self.kept.push(event)?;
                self.items.push_reserved(Item::Kept);
            }
        }
        Ok(())
    }

    /// The events one after another.
    pub fn reader(&self) -> EventReader<'_>
        ensures { result ≡ self.now }
    {
        EventReader {
            items: &self.items,
            kept: self.kept.as_slice(),
        }
    }
}

/// The event that comes next: made of its item, or one that is kept.
#[derive(Drop)]
pub enum NextEvent<'a> {
    Made(Event),
    Kept(&'a Event),
}

impl NextEvent<'_> {
    pub fn event(&self) -> &Event
        ensures { result.now ≡ next_event self.now }
    {
        match self {
            NextEvent::Made(event) => event,
            NextEvent::Kept(event) => event,
        }
    }
}

/// The events that are left. Contracts see the list of them.
#[derive(Drop)]
pub struct EventReader<'a> {
    items: &'a [Item],
    kept: &'a [Event],
}

impl<'a> Model for EventReader<'a> {
    ghost use Rattle.std.specs.Prelude.{List};
    ghost use Rattle.si_engine.specs.declared.event.Event.{Event};
    ghost use Rattle.si_engine.specs.Events.{events_by};

    ghost Value = { List Event };

    ghost view = { λ r. events_by r.items.now r.kept.now };
}

impl<'a> EventReader<'a> {
    /// The first event that is left; there is none behind the last.
    pub fn next(&mut self) -> Option<NextEvent<'a>>
        ensures { MatchOption result (self.old ≡ [])
            (λ next. self.old ≡ next_event next ∷ self.new) }
    {
        let [item, items @ ..] = self.items else {
            return None;
        };
        if let Some(event) = item.said() {
            self.items = items;
            return Some(NextEvent::Made(event));
        }
        let [event, kept @ ..] = self.kept else {
            return None;
        };
        self.items = items;
        self.kept = kept;
        Some(NextEvent::Kept(event))
    }
}
