//! What is wrong with the packet in an entry of a sequence, or of a message action.

use crate::entry_details::Detail;
use packet_forms::{be16, behind, front};
use table_files::{EntryFault, TableKind};
use thiserror::Error;

/// The reasons of a packet that is none of a command, and of an entry that runs past the end.
const NO_COMMAND: u8 = 3;

pub(crate) const PAST_END: u8 = 4;

/// The reason of a command's number in an absolute sequence.
const NUMBER: u8 = 1;

/// How many bytes stand in front of a packet in an entry of an absolute sequence, and of a relative one.
const BEFORE_ABSOLUTE: usize = 6;

const BEFORE_RELATIVE: usize = 2;

/// How many bytes a packet has at least, how many it has up to the end of its length, and how many a command has at most.
const LEAST_PACKET: usize = 8;

const TO_LENGTH: usize = 6;

const MOST_COMMAND: usize = 256;

/// How many bytes the packet of a message action has at most.
const MOST_ACTION: usize = 64;

/// How many bytes a packet has by its header.
fn said_size(packet: &[u8]) -> usize {
    if packet.len() < TO_LENGTH {
        return 0;
    }
    usize::from(be16(packet, 4)).saturating_add(7)
}

/// What is wrong with a packet's first four bytes.
fn head_detail(packet: &[u8], wants_command: bool) -> Option<Detail> {
    let first = packet.first().copied().unwrap_or(0);
    let third = packet.get(2).copied().unwrap_or(0);
    if first >= 0x20 {
        return Some(Detail::Words("the packet's first three bits, its version, aren't 0"));
    }
    if wants_command && first < 0x18 {
        return Some(Detail::Words(
            "the packet is no command with a secondary header: the bits 0x18 of its first byte aren't both 1",
        ));
    }
    if third < 0xC0 {
        return Some(Detail::Words(
            "the packet's third byte doesn't begin with two bits of 1, its sequence flags",
        ));
    }
    None
}

/// What is wrong with a packet that begins here and has at most so many bytes.
fn packet_detail(packet: &[u8], most: usize, wants_command: bool) -> Option<Detail> {
    if packet.len() < TO_LENGTH {
        return None;
    }
    if let Some(detail) = head_detail(packet, wants_command) {
        return Some(detail);
    }
    let size = said_size(packet);
    if size < LEAST_PACKET || size > most {
        return Some(Detail::Size(size, most));
    }
    None
}

/// What is wrong with the packet of a message action, by the area in which it stands.
pub(crate) fn action_detail(area: &[u8]) -> Option<Detail> {
    packet_detail(area, MOST_ACTION, false)
}

/// How many bytes stand in front of the packets in a sequence.
fn before_packet(kind: TableKind) -> usize {
    match kind {
        TableKind::Ats(_) => BEFORE_ABSOLUTE,
        TableKind::Rts(_)
        | TableKind::AppMon
        | TableKind::EventMon
        | TableKind::ExeCount
        | TableKind::MsgActs
        | TableKind::Dwell(_)
        | TableKind::Eeprom
        | TableKind::Memory
        | TableKind::Wdt
        | TableKind::Adt => BEFORE_RELATIVE,
    }
}

/// The bytes of a sequence from the entry of this number on.
fn from_entry(payload: &[u8], before: usize, entry: u32) -> &[u8] {
    let mut rest = payload;
    for _passed in 1..entry {
        let size = said_size(behind(rest, before));
        rest = behind(rest, before.saturating_add(size));
    }
    rest
}

/// Where the entry of this number begins in the bytes of a sequence.
pub(crate) fn entry_start(kind: TableKind, payload: &[u8], entry: u32) -> usize {
    let rest = from_entry(payload, before_packet(kind), entry);
    payload.len().saturating_sub(rest.len())
}

/// What is wrong where an entry runs past the end of its sequence.
fn past_detail(rest: &[u8], before: usize) -> Detail {
    let least = before.saturating_add(LEAST_PACKET);
    if rest.len() < least {
        return Detail::Left(rest.len(), least);
    }
    let packet = behind(rest, before);
    Detail::CutOff(said_size(packet), packet.len())
}

/// What is wrong with a command of a sequence.
pub(crate) fn command_detail(kind: TableKind, payload: &[u8], fault: EntryFault) -> Option<Detail> {
    let before = before_packet(kind);
    let rest = from_entry(payload, before, fault.entry);
    if rest.is_empty() {
        return None;
    }
    match fault.reason {
        NUMBER if rest.len() >= 2 => Some(Detail::Number(be16(rest, 0))),
        NO_COMMAND => packet_detail(behind(rest, before), MOST_COMMAND, true),
        PAST_END => Some(past_detail(rest, before)),
        _ => None,
    }
}

/// The command before one that is refused: where its length says too little or too much, the fault is found behind it.
#[derive(Clone, Copy, Debug, PartialEq, Eq, Error)]
#[error("the packet of entry {entry} before it has {size} bytes by its length field, its fifth and sixth byte: if that is wrong, no entry begins here")]
pub(crate) struct CommandBefore {
    pub entry: u32,
    pub size: usize,
}

/// The command before the refused one of a sequence, where the fault may be its own.
pub(crate) fn command_before(
    kind: TableKind,
    payload: &[u8],
    fault: EntryFault,
) -> Option<CommandBefore> {
    if !matches!(kind, TableKind::Ats(_) | TableKind::Rts(_)) || fault.entry < 2 {
        return None;
    }
    let entry = fault.entry - 1;
    let before = before_packet(kind);
    let rest = from_entry(payload, before, entry);
    if rest.len() < before.saturating_add(TO_LENGTH) {
        return None;
    }
    let size = said_size(behind(rest, before));
    Some(CommandBefore { entry, size })
}
