//! Commands that a plan or a scenario sends with a wrong checksum.

ghost use Rattle.std.specs.Prelude.{◌<◌, ◌+◌, ◌^◌, length};

use crate::command_sizes::{CommandSize, size_of};
use crate::telling::MOST_TEXT;
use packet_forms::Packet;
use packet_forms::message_ids::{
    CS_COMMAND, HS_COMMAND, LC_COMMAND, MD_COMMAND, MM_COMMAND, SC_COMMAND,
};
use row_forms::{behind_key, read_block, split_word};
use std::alloc::AllocError;
use table_texts::{Line, next_line};
use thiserror::Error;

/// The digits of the packet that a line sends by its bytes, as a scenario has them or behind `packet=`; none of other lines.
fn sent_digits<'a>(line: &Line<'a>) -> Option<&'a [u8]> {
    let Some((b"send", behind)) = split_word(line.bytes) else {
        return None;
    };
    let (word, _) = split_word(behind)?;
    Some(behind_key("packet", word).unwrap_or(word))
}

/// Whether a message id is that of an application's commands.
fn is_command_id(id: u16) -> bool {
    matches!(
        id,
        HS_COMMAND | CS_COMMAND | SC_COMMAND | MM_COMMAND | MD_COMMAND | LC_COMMAND
    )
}

/// Whether an application refuses a packet for its checksum. Of a request for housekeeping and of a packet for nobody it isn't asked.
pub(crate) fn is_wrong_command(packet: &Packet) -> bool {
    is_command_id(packet.mid()) && !packet.checksum_ok()
}

/// The place of a command's checksum.
const CHECKSUM: usize = 7;

/// A command's checksum as it is, and as it would be right, and whether its length is.
#[derive(Clone, Copy, Debug, Error)]
#[error("the packet's eighth byte is 0x{found:02X}, and 0x{right:02X} would be right{size}")]
pub(crate) struct Checksums {
    pub found: u8,
    pub right: u8,
    pub size: CommandSize,
}

/// The checksums of a command: all its bytes together, by exclusive or, are to be 0xFF.
pub(crate) fn checksums_of(packet: &Packet) -> Checksums {
    let bytes = packet.bytes();
    let found = bytes.get(CHECKSUM).copied().unwrap_or(0);
    let mut right = 0xFF ^ found;
    for byte in bytes {
        right = right ^ *byte;
    }
    Checksums {
        found,
        right,
        size: size_of(packet),
    }
}

/// The checksums of the command that these digits write, where an application refuses it for its own.
fn wrong_checksums(digits: &[u8], bytes: &mut Vec<u8>) -> Result<Option<Checksums>, AllocError> {
    bytes.clear();
    if !read_block(digits, bytes)? {
        return Ok(None);
    }
    match Packet::from_bytes(bytes.as_slice()) {
        Ok(packet) if is_wrong_command(&packet) => Ok(Some(checksums_of(&packet))),
        Ok(_) | Err(_) => Ok(None),
    }
}

/// Warns of a line that sends a command with a wrong checksum.
fn warn_of_line<R: Eprint>(
    rt: &R,
    name: &str,
    line: &Line<'_>,
    bytes: &mut Vec<u8>,
) -> Result<(), AllocError> {
    let Some(digits) = sent_digits(line) else {
        return Ok(());
    };
    if let Some(sums) = wrong_checksums(digits, bytes)? {
        // There is no other place to tell it.
        let _told = eprintln!(rt;
            "{name}: line {0}: warning: the command has a wrong checksum, so that its application refuses it: {sums}",
            line.number
        );
    }
    Ok(())
}

/// Warns of the lines of a text.
fn warn_of_lines<R: Eprint + AllocGlobal>(rt: &R, name: &str, text: &[u8]) -> Result<(), AllocError>
    requires { 1 + length text.now < 2 ^ 32 }
{
    let mut bytes = Vec::new(rt.alloc());
    let mut rest = text;
    let mut next = 1;
    'lines: while let Some(line) = next_line(rest, next) {
        warn_of_line(rt, name, &line, &mut bytes)?;
        rest = line.rest;
        next = line.number + 1;
    }
    Ok(())
}

/// Warns of the commands that a plan, a scenario or a book sends with a wrong checksum.
pub fn warn_of_sends<R: Eprint + AllocGlobal>(
    rt: &R,
    name: &str,
    text: &[u8],
) -> Result<(), AllocError> {
    if text.len() > MOST_TEXT {
        return Ok(());
    }
    warn_of_lines(rt, name, text)
}
