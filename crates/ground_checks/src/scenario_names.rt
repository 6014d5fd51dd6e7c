//! The names that a scenario counts, and those of the events that it sends.

ghost use Rattle.std.specs.Prelude.{◌≡◌, [], false, IfOk};
ghost use Rattle.scenario.specs.Standing.{Stands, is_finished};

use memory_window::Map;
use packet_forms::message_ids::EVENT;
use packet_forms::{Name, Packet, behind, front};
use scenario::{FrameInput, Item, Reader};
use std::alloc::{AllocError, Global};

/// Where the name of an event stands in its packet, how many bytes it has there, and how many the packet has.
const EVENT_NAME: usize = 12;

const NAME_BYTES: usize = 20;

const EVENT_BYTES: usize = 44;

/// What a scenario says to those who look at files.
#[derive(Drop)]
pub(crate) struct Known {
    pub map: Map,
    /// The names that its frames count, or of whose events they send one; none where one of its lines is refused.
    pub names: Option<Vec<Name>>,
}

/// The name of the event that a packet is, where it is one.
fn event_name(packet: &Packet) -> Option<Name> {
    let bytes = packet.bytes();
    if packet.mid() != EVENT || bytes.len() != EVENT_BYTES {
        return None;
    }
    Name::from_bytes(front(behind(bytes, EVENT_NAME), NAME_BYTES))
}

/// Adds a name, unless it is there.
fn add_name(name: Name, names: &mut Vec<Name>) -> Result<(), AllocError> {
    for other in names.as_slice() {
        if other.bytes() == name.bytes() {
            return Ok(());
        }
    }
    names.push(name)?;
    Ok(())
}

/// Adds the names of a frame's events.
fn add_events(sends: &[Packet], names: &mut Vec<Name>) -> Result<(), AllocError> {
    for packet in sends {
        if let Some(name) = event_name(packet) {
            add_name(name, names)?;
        }
    }
    Ok(())
}

/// Adds the names of a frame.
fn add_names(frame: &FrameInput, names: &mut Vec<Name>) -> Result<(), AllocError> {
    for counter in frame.counters() {
        add_name(counter.name, names)?;
    }
    add_events(frame.sends(), names)
}

/// The names of a scenario's frames; none where one of its lines is refused.
fn read_names(
    alloc: Global,
    reader: &mut Reader,
    text: &[u8],
) -> Result<Option<Vec<Name>>, AllocError>
    requires { Stands reader.old (record { bytes = []; closed = false }) []
        × (is_finished reader.old ≡ false) }
{
    let mut names = Vec::new(alloc);
    let mut rest = text;
    'items: loop {
        match reader.next() {
            Item::Header => {}
            Item::Frame => add_names(reader.frame(), &mut names)?,
            Item::More => {
                if rest.is_empty() {
                    reader.finish();
                } else {
                    let taken = reader.feed(rest);
                    rest = behind(rest, taken);
                }
            }
            Item::End => return Ok(Some(names)),
            Item::Bad { .. } => return Ok(None),
        }
    }
}

/// What a scenario with this map says.
pub(crate) fn known_of(alloc: Global, map: Map, text: &[u8]) -> Result<Known, AllocError>
    ensures { IfOk result (λ known. known.map ≡ map) }
{
    let Ok(mut reader) = Reader::open(alloc) else {
        return Err(AllocError);
    };
    let names = read_names(alloc, &mut reader, text)?;
    Ok(Known { map, names })
}

/// The names that are known, where they are.
pub(crate) fn known_names(known: &Known) -> Option<&[Name]> {
    match &known.names {
        Some(names) => Some(names.as_slice()),
        None => None,
    }
}
