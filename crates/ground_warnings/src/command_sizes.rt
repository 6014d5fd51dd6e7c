//! How many bytes the packets of commands have.

use packet_forms::Packet;
use row_forms::{Field, Kind, Width};
use telecommands::{Command, commands};
use thiserror::Error;

/// How many bytes stand in front of a command's payload.
const HEADERS: usize = 8;

/// Whether a packet has the bytes that its command has.
#[derive(Clone, Copy, Debug, PartialEq, Eq, Error)]
pub(crate) enum CommandSize {
    /// It has them, or a packet of the command may have more or fewer.
    #[error("")]
    Right,
    /// How many it has, the command's name, and how many a packet of that has.
    #[error("; its length may be wrong instead: it has {0} bytes, and {1} has {2}")]
    Wrong(usize, &'static str, usize),
}

/// How many bytes a number has.
fn number_bytes(width: Width) -> usize {
    match width {
        Width::U8 => 1,
        Width::U16 => 2,
        Width::U32 => 4,
    }
}

/// How many bytes a field has, where it always has as many.
fn field_bytes(field: Field) -> Option<usize> {
    match field {
        Field::Value(_, Kind::Number(width, _)) => Some(number_bytes(width)),
        Field::Value(_, Kind::Name) => Some(20),
        Field::Value(_, Kind::Block | Kind::Expression(_)) => None,
        Field::Zeros(count) => Some(count),
        Field::Check => Some(2),
    }
}

/// How many bytes a packet of a command has, where it always has as many.
fn command_bytes(command: &Command) -> Option<usize> {
    let mut bytes = HEADERS;
    for field in command.fields {
        bytes = bytes.saturating_add(field_bytes(*field)?);
    }
    Some(bytes)
}

/// Whether a packet has the bytes that its command has, as far as that is known.
pub(crate) fn size_of(packet: &Packet) -> CommandSize {
    let there = packet.bytes().len();
    for command in commands() {
        if command.id == packet.mid() && command.code == packet.code() {
            return match command_bytes(command) {
                Some(wanted) if wanted != there => {
                    CommandSize::Wrong(there, command.name, wanted)
                }
                _ => CommandSize::Right,
            };
        }
    }
    CommandSize::Right
}
