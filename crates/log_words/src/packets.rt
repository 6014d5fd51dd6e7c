//! What a packet is, in words.

ghost use Rattle.std.specs.Prelude.{◌≡◌, ◌++◌, true, false, length, OnOk, IfSome, MatchOption};
ghost use Rattle.log_words.specs.Sentences.{IsGood, name_bytes, is_event, number_words, event_words, packet_words};

use crate::vocabulary::Vocabulary;
use events::{Event, show_event};
use itoa::Buffer;
use packet_forms::message_ids::EVENT;
use packet_forms::{Name, Packet, be16, behind, front};
use std::alloc::AllocError;
use telecommands::show_command;
use telemetry::show_telemetry;

/// How many bytes an event has.
const EVENT_BYTES: usize = 44;

/// Appends what a packet is: of a telecommand or of telemetry the name and the fields, of an event what it tells and its number, and
/// `packet=` and its bytes where no row has it.
#[tactic(auto, unfolding(crate::specs::Sentences::packet_words))]
pub fn show_packet(
    vocabulary: &Vocabulary,
    packet: &Packet,
    out: &mut Vec<u8>,
) -> Result<(), AllocError>
    requires { IsGood vocabulary.now }
    ensures { OnOk result (out.new.items ≡ out.old.items
        ++ packet_words vocabulary.now packet.now) }
{
    if packet.is_command() {
        return show_command(vocabulary.commands, packet, out);
    }
    match teller(packet) {
        Some(name) => push_event(vocabulary.events, &name, packet, out),
        None => show_telemetry(vocabulary.telemetry, packet, out),
    }
}

/// The application that tells an event; none where the packet is no event, since it has another id or length, or no name.
fn teller(packet: &Packet) -> Option<Name>
    ensures name { MatchOption result
        (is_event packet.now ≡ false)
        (λ name. (is_event packet.now ≡ true) × (name ≡ name_bytes packet.now)) }
    ensures size { IfSome result (λ name. length packet.now ≡ EVENT_BYTES) }
{
    if packet.mid() == EVENT && packet.bytes().len() == EVENT_BYTES {
        return Name::from_bytes(front(behind(packet.bytes(), 12), 20));
    }
    None
}

/// Appends what an application tells by an event, and its number.
#[tactic(auto, unfolding(crate::specs::Sentences::event_words))]
fn push_event(
    events: &[Event],
    name: &Name,
    packet: &Packet,
    out: &mut Vec<u8>,
) -> Result<(), AllocError>
    requires name { name.now ≡ name_bytes packet.now }
    requires size { length packet.now ≡ EVENT_BYTES }
    ensures { OnOk result (out.new.items ≡ out.old.items ++ event_words events.now packet.now) }
{
    let bytes = packet.bytes();
    let number = be16(bytes, 32);
    show_event(events, name.text().as_bytes(), number, be16(bytes, 34), out)?;
    push_number(number, out)
}

/// Appends the number of an event.
fn push_number(number: u16, out: &mut Vec<u8>) -> Result<(), AllocError>
    ensures { OnOk result (out.new.items ≡ out.old.items ++ number_words number) }
{
    let mut buffer = Buffer::new();
    out.extend_from_slice(b" (event ")?;
    out.extend_from_slice(buffer.format(number).as_bytes())?;
    out.extend_from_slice(b")")
}
