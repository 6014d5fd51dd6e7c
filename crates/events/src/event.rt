//! Events, by application, number and type.
ghost use Rattle.std.specs.Prelude.{◌≡◌, ◌++◌, OnOk};
ghost use Rattle.events.specs.Events.{kind_number, is_event, event_row, sentence_said, event_said};

use crate::decimal::push_numbered;
use std::alloc::AllocError;

/// What an event is about.
#[derive(Clone, Copy, Debug, PartialEq, Eq)]
pub enum EventKind {
    /// It tells what was done.
    Information,
    /// It tells what went wrong.
    Error,
}

/// An event of an application: its name in one word, and what it tells as a sentence behind the application's name. The event of an
/// accepted command has the command's name.
#[derive(Clone, Copy, Debug)]
pub struct Event {
    pub application: &'static str,
    pub number: u16,
    pub kind: EventKind,
    pub name: &'static str,
    pub sentence: &'static str,
}

impl EventKind {
    /// The type that stands in the packet: 2 or 3.
    pub fn number(self) -> u16
        ensures { result ≡ kind_number self }
    {
        match self {
            EventKind::Information => 2,
            EventKind::Error => 3,
        }
    }
}

/// Whether this is an application's event of a number and a type.
fn is_event(event: &Event, application: &[u8], number: u16, kind: u16) -> bool
    ensures { result ≡ is_event application.now number kind event.now }
{
    event.number == number
        && event.kind.number() == kind
        && event.application.as_bytes() == application
}

/// The event of a number and a type, as they stand in the packet.
pub fn find_event(events: &[Event], application: &[u8], number: u16, kind: u16) -> Option<Event>
    ensures { result ≡ event_row events.now application.now number kind }
{
    for event in events {
        if is_event(event, application, number, kind) {
            return Some(*event);
        }
    }
    None
}

/// Appends what an event tells: the application's name and the sentence, as `MM: command poke was accepted`, or number and type where
/// no row has them.
#[tactic(auto, unfolding(crate::specs::Events::event_said))]
pub fn show_event(
    events: &[Event],
    application: &[u8],
    number: u16,
    kind: u16,
    out: &mut Vec<u8>,
) -> Result<(), AllocError>
    ensures { OnOk result (out.new.items ≡ out.old.items
        ++ event_said events.now application.now number kind) }
{
    out.extend_from_slice(application)?;
    push_sentence(
        find_event(events, application, number, kind),
        number,
        kind,
        out,
    )
}

/// Appends what comes behind the application's name.
fn push_sentence(
    event: Option<Event>,
    number: u16,
    kind: u16,
    out: &mut Vec<u8>,
) -> Result<(), AllocError>
    ensures { OnOk result (out.new.items ≡ out.old.items ++ sentence_said event number kind) }
{
    match event {
        Some(event) => {
            out.extend_from_slice(b": ")?;
            out.extend_from_slice(event.sentence.as_bytes())
        }
        None => {
            push_numbered(": unknown event ", number, out)?;
            push_numbered(" of type ", kind, out)
        }
    }
}
