//! Telecommands that are read from words.
ghost use Rattle.std.specs.Prelude.{◌≡◌, ◌<◌, ◌^◌, ◌+◌, [], true, Some, IfSome};
ghost use Rattle.row_forms.specs.Rows.{fault_at};
ghost use Rattle.row_forms.specs.Words.{words, hex_said};
ghost use Rattle.telecommands.specs.Commands.{is_good, are_good, named, named_said, packet_said, command_said, GivesPacket};

use crate::command::Command;
use crate::fault::{CommandFault, ReadError};
use packet_forms::{COMMAND_PAYLOAD, Packet, command};
use row_forms::{Reason, RowFault, behind_key, read_block, read_row, split_word};

/// Reads a telecommand: a command's name and its row, or `packet=` and the packet's bytes in hexadecimal digits. `word` is the number
/// of the line's first word among those of the text's line, and `epoch` what times such as `+0:01:00` are counted from, where the text
/// has one. The bytes of the payload are put into `scratch`, whose bytes are lost: so one vector serves all lines of a text.
pub fn read_command(
    epoch: Option<u32>,
    commands: &[Command],
    word: usize,
    line: &[u8],
    scratch: &mut Vec<u8>,
) -> Result<Packet, ReadError>
    requires commands { are_good commands.now ≡ true }
    requires word { word < 2 ^ 16 }
    ensures { GivesPacket (command_said epoch word commands.now (words line.now)) result }
{
    let Some((name, rest)) = split_word(line) else {
        return Err(row_error(word, Reason::Missing));
    };
    scratch.clear();
    match behind_key("packet", name) {
        Some(digits) => read_packet(word, digits, rest, scratch),
        None => match find_named(commands, name) {
            Some(command) => read_payload(epoch, command, word, rest, scratch),
            None => Err(ReadError::Fault(CommandFault::Name(word))),
        },
    }
}

/// A fault of the word of this number.
fn row_error(word: usize, reason: Reason) -> ReadError
    ensures { result ≡ ReadError.Fault (CommandFault.Row (fault_at word reason)) }
{
    ReadError::Fault(CommandFault::Row(RowFault { word, reason }))
}

/// The first command of a name.
fn find_named(commands: &[Command], name: &[u8]) -> Option<Command>
    requires { are_good commands.now ≡ true }
    ensures value { result ≡ named commands.now name.now }
    ensures good { IfSome result (λ c. is_good c ≡ true) }
{
    for command in commands {
        if command.name.as_bytes() == name {
            return Some(*command);
        }
    }
    None
}

/// Reads the row of a command, and makes its packet.
fn read_payload(
    epoch: Option<u32>,
    row: Command,
    word: usize,
    line: &[u8],
    payload: &mut Vec<u8>,
) -> Result<Packet, ReadError>
    requires good { is_good row ≡ true }
    requires word { word < 2 ^ 16 }
    requires none { payload.old.items ≡ [] }
    ensures { GivesPacket (named_said epoch word (Some row) (words line.now)) result }
{
    match read_row(epoch, row.fields, word + 1, line, payload) {
        Ok(()) => {
            if payload.len() > COMMAND_PAYLOAD {
                return Err(ReadError::Fault(CommandFault::Long));
            }
            Ok(command(row.id, row.code, payload))
        }
        Err(row_forms::ReadError::Memory(error)) => Err(ReadError::Memory(error)),
        Err(row_forms::ReadError::Row(fault)) => Err(ReadError::Fault(CommandFault::Row(fault))),
    }
}

/// Reads the bytes of a packet, behind which no word stands.
fn read_packet(
    word: usize,
    digits: &[u8],
    line: &[u8],
    bytes: &mut Vec<u8>,
) -> Result<Packet, ReadError>
    requires word { word < 2 ^ 16 }
    requires none { bytes.old.items ≡ [] }
    ensures { GivesPacket (packet_said word (hex_said digits.now) (words line.now)) result }
{
    match read_block(digits, bytes) {
        Ok(true) => {}
        Ok(false) => return Err(row_error(word, Reason::Block)),
        Err(error) => return Err(ReadError::Memory(error)),
    }
    if split_word(line).is_some() {
        return Err(row_error(word + 1, Reason::Extra));
    }
    match Packet::from_bytes(bytes) {
        Ok(packet) => Ok(packet),
        Err(fault) => Err(ReadError::Fault(CommandFault::Packet(word, fault))),
    }
}
