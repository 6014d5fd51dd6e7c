//! Telemetry that is read from words.
ghost use Rattle.std.specs.Prelude.{◌≡◌, ◌<◌, ◌^◌, ◌+◌, [], true, Some, IfSome};
ghost use Rattle.row_forms.specs.Rows.{fault_at};
ghost use Rattle.row_forms.specs.Words.{words, hex_said};
ghost use Rattle.telemetry.specs.Telemetry.{is_good, are_good, named, named_said, packet_said, telemetry_said, GivesPacket};

use crate::content::{CONTENT_BYTES, MOST_COUNT, packet_of};
use crate::fault::{ReadError, TelemetryFault};
use crate::row::TelemetryRow;
use packet_forms::{Packet, be16};
use row_forms::{Reason, RowFault, behind_key, read_block, read_row, split_word};

/// Reads a telemetry packet: the name of its kind, its time and sequence count and its fields, or `packet=` and the packet's bytes in
/// hexadecimal digits. `word` is the number of the line's first word among those of the text's line, and `epoch` what times such as
/// `+0:01:00` are counted from, where the text has one. The bytes of the row are put into `scratch`, whose bytes are lost: so one
/// vector serves all lines of a text.
pub fn read_telemetry(
    epoch: Option<u32>,
    rows: &[TelemetryRow],
    word: usize,
    line: &[u8],
    scratch: &mut Vec<u8>,
) -> Result<Packet, ReadError>
    requires rows { are_good rows.now ≡ true }
    requires word { word < 2 ^ 16 }
    ensures { GivesPacket (telemetry_said epoch word rows.now (words line.now)) result }
{
    let Some((name, rest)) = split_word(line) else {
        return Err(row_error(word, Reason::Missing));
    };
    scratch.clear();
    match behind_key("packet", name) {
        Some(digits) => read_packet(word, digits, rest, scratch),
        None => match find_named(rows, name) {
            Some(row) => read_content(epoch, row, word, rest, scratch),
            None => Err(ReadError::Fault(TelemetryFault::Name(word))),
        },
    }
}

/// A fault of the word of this number.
fn row_error(word: usize, reason: Reason) -> ReadError
    ensures { result ≡ ReadError.Fault (TelemetryFault.Row (fault_at word reason)) }
{
    ReadError::Fault(TelemetryFault::Row(RowFault { word, reason }))
}

/// The first row of a name.
fn find_named(rows: &[TelemetryRow], name: &[u8]) -> Option<TelemetryRow>
    requires { are_good rows.now ≡ true }
    ensures value { result ≡ named rows.now name.now }
    ensures good { IfSome result (λ row. is_good row ≡ true) }
{
    for row in rows {
        if row.name.as_bytes() == name {
            return Some(*row);
        }
    }
    None
}

/// Reads the words behind a name, and makes the packet.
fn read_content(
    epoch: Option<u32>,
    row: TelemetryRow,
    word: usize,
    line: &[u8],
    content: &mut Vec<u8>,
) -> Result<Packet, ReadError>
    requires good { is_good row ≡ true }
    requires word { word < 2 ^ 16 }
    requires none { content.old.items ≡ [] }
    ensures { GivesPacket (named_said epoch word (Some row) (words line.now)) result }
{
    match read_row(epoch, row.fields, word + 1, line, content) {
        Ok(()) => {
            if content.len() > CONTENT_BYTES {
                return Err(ReadError::Fault(TelemetryFault::Long));
            }
            if be16(content, 4) > MOST_COUNT {
                return Err(ReadError::Fault(TelemetryFault::Count));
            }
            Ok(packet_of(row.id, content))
        }
        Err(row_forms::ReadError::Memory(error)) => Err(ReadError::Memory(error)),
        Err(row_forms::ReadError::Row(fault)) => Err(ReadError::Fault(TelemetryFault::Row(fault))),
    }
}

/// Reads the bytes of a packet, behind which no word stands.
fn read_packet(
    word: usize,
    digits: &[u8],
    line: &[u8],
    bytes: &mut Vec<u8>,
) -> Result<Packet, ReadError>
    requires word { word < 2 ^ 16 }
    requires none { bytes.old.items ≡ [] }
    ensures { GivesPacket (packet_said word (hex_said digits.now) (words line.now)) result }
{
    match read_block(digits, bytes) {
        Ok(true) => {}
        Ok(false) => return Err(row_error(word, Reason::Block)),
        Err(error) => return Err(ReadError::Memory(error)),
    }
    if split_word(line).is_some() {
        return Err(row_error(word + 1, Reason::Extra));
    }
    match Packet::from_bytes(bytes) {
        Ok(packet) => Ok(packet),
        Err(fault) => Err(ReadError::Fault(TelemetryFault::Packet(word, fault))),
    }
}
