//! Fields with a telecommand behind them.
ghost use Rattle.std.specs.Prelude.{◌≡◌, ◌<◌, ◌≤◌, ◌+◌, ◌^◌, true, false, length, IfSome, MatchOption};
ghost use Rattle.row_forms.specs.Words.{words};
ghost use Rattle.row_forms.specs.Rows.{with_front, fault_at};
ghost use Rattle.row_forms.specs.declared.fault.ReadError.TheVariants as row_errors;
ghost use Rattle.telecommands.specs.Commands.{are_good, command_said};
ghost use Rattle.table_texts.specs.Fronts.{front_said, front_behind, behind_front, stored, is_command_at, packet_behind, GivesFront, GivesItem};

use crate::fault::{LineError, LineFault};
use packet_forms::{Packet, be16, front};
use row_forms::{Field, Reason, RowFault, is_row, read_row, split_word};
use telecommands::{Command, read_command};

/// Reads fields, a word each from the second word on, and a telecommand behind them, and appends the bytes of both.
pub(crate) fn read_stored(
    epoch: Option<u32>,
    commands: &[Command],
    fields: &[Field],
    line: &[u8],
    scratch: &mut Vec<u8>,
    out: &mut Vec<u8>,
) -> Result<(), LineError>
    requires commands { are_good commands.now ≡ true }
    requires few { length fields.now ≤ 16 }
    ensures { GivesItem (with_front out.old.items
        (behind_front epoch commands.now (length fields.now
        + 2) (front_said epoch 2 fields.now (words line.now)))) out.new.items result }
{
    match read_front(epoch, fields, 2, line, out) {
        Ok(rest) => read_packet(epoch, commands, fields.len() + 2, rest, scratch, out),
        Err(row_forms::ReadError::Memory(error)) => Err(LineError::Memory(error)),
        Err(row_forms::ReadError::Row(fault)) => Err(LineError::Fault(LineFault::Row(fault))),
    }
}

/// Reads a telecommand, and appends its bytes.
fn read_packet(
    epoch: Option<u32>,
    commands: &[Command],
    word: usize,
    line: &[u8],
    scratch: &mut Vec<u8>,
    out: &mut Vec<u8>,
) -> Result<(), LineError>
    requires commands { are_good commands.now ≡ true }
    requires word { word < 2 ^ 16 }
    ensures { GivesItem (stored out.old.items
        (command_said epoch word commands.now (words line.now))) out.new.items result }
{
    match read_command(epoch, commands, word, line, scratch) {
        Ok(packet) => match out.extend_from_slice(packet.bytes()) {
            Ok(()) => Ok(()),
            Err(error) => Err(LineError::Memory(error)),
        },
        Err(telecommands::ReadError::Memory(error)) => Err(LineError::Memory(error)),
        Err(telecommands::ReadError::Fault(fault)) => {
            Err(LineError::Fault(LineFault::Command(fault)))
        }
    }
}

/// Reads fields, a word each, and appends their bytes. Answers what stands behind them.
fn read_front<'a>(
    epoch: Option<u32>,
    fields: &[Field],
    word: usize,
    line: &'a [u8],
    out: &mut Vec<u8>,
) -> Result<&'a [u8], row_forms::ReadError>
    requires { word + length fields.now < 2 ^ 16 }
    ensures { GivesFront (front_behind out.old.items
        (front_said epoch word fields.now (words line.now))) out.new.items result }
{
    if fields.is_empty() {
        return Ok(line);
    }
    let (field, more) = fields.split_at(1);
    let Some((text, rest)) = split_word(line) else {
        return Err(missing(word));
    };
    match read_row(epoch, field, word, text, out) {
        Ok(()) => read_front(epoch, more, word + 1, rest, out),
        Err(error) => Err(error),
    }
}

/// The word of this number is missing.
fn missing(word: usize) -> row_forms::ReadError
    ensures { result ≡ row_errors.Row (fault_at word Reason.Missing) }
{
    row_forms::ReadError::Row(RowFault {
        word,
        reason: Reason::Missing,
    })
}

/// The packet behind the fields with which bytes begin, where there are both.
pub(crate) fn packet_at(fields: &[Field], size: usize, bytes: &[u8]) -> Option<Packet>
    requires { size < 65536 }
    ensures packet { MatchOption result
        (is_command_at fields.now size bytes.now ≡ false)
        (λ packet. (is_command_at fields.now size bytes.now ≡ true)
        × (packet ≡ packet_behind size bytes.now)) }
    ensures inside { IfSome result (λ packet. size + length packet ≤ length bytes.now) }
{
    if bytes.len() < size + 8 {
        return None;
    }
    let (first, rest) = bytes.split_at(size);
    if !is_row(fields, first) {
        return None;
    }
    let long = be16(rest, 4) as usize + 7;
    if long > rest.len() {
        return None;
    }
    match Packet::from_bytes(front(rest, long)) {
        Ok(packet) => Some(packet),
        Err(_) => None,
    }
}
