//! What is wrong with a refused entry whose sentence has several causes.

use crate::command_details::{action_detail, command_detail};
use crate::entry_faults::entry_span;
use crate::expression_details::expression_detail;
use packet_forms::{be16, behind, front};
use table_files::{EntryFault, TableKind};
use thiserror::Error;

/// The reason of a name, of an action's packet, and of what an actionpoint starts.
const NAME: u8 = 1;

const ACTION_PACKET: u8 = 4;

const STARTED: u8 = 2;

/// The reason of a dwell entry's address.
const ALIGNMENT: u8 = 3;

/// The reason of an expression.
const EXPRESSION: u8 = 3;

/// How many bytes stand in front of the packet of a message action.
const ACTION_HEAD: usize = 4;

/// How many bytes the name of an application has with the zeros behind it.
const NAME_BYTES: usize = 20;

/// How many sequences an actionpoint may start.
const SEQUENCES: u16 = 64;

/// What more is told of a refused entry.
#[derive(Clone, Copy, Debug, PartialEq, Eq, Error)]
pub(crate) enum Detail {
    #[error("{0}")]
    Words(&'static str),
    /// How many bytes are left of a sequence, and how many its entries have at least.
    #[error("{0} bytes are left, and an entry has at least {1}")]
    Left(usize, usize),
    /// How many bytes a packet has by its header, and how many there are.
    #[error("the packet's length field, its fifth and sixth byte, says {0} bytes in all, and {1} are left")]
    CutOff(usize, usize),
    /// How many bytes a packet has by its header, and how many it has at most.
    #[error("the packet's length field, its fifth and sixth byte, says {0} bytes in all, and it has 8 to {1}")]
    Size(usize, usize),
    /// The number of a command.
    #[error("it is {0}")]
    Number(u16),
    /// How many bytes the value of a dwell entry has.
    #[error("its length is {0}")]
    Dwell(u16),
    /// A byte of a name.
    #[error("the name has the byte 0x{0:02X}, which is no letter, digit or _")]
    NameByte(u8),
    /// What an actionpoint starts.
    #[error("the sequence is {0}")]
    Sequence(u16),
    /// How many words an expression has.
    #[error("its length is {0}")]
    Length(u16),
    /// A word of an expression, by its place from 1, and its number.
    #[error("word {0}, 0x{1:04X}, is neither a watchpoint, 0x0000 to 0x001F, nor an operator, 0x8001 to 0x8004")]
    Unknown(usize, u16),
    /// A word of an expression, by its place from 1.
    #[error("word {0}, an operator, lacks an operand")]
    Operand(usize),
    /// How many values an expression leaves.
    #[error("it leaves {0} values")]
    Values(usize),
}

/// What is wrong with the bytes of a name.
fn name_detail(field: &[u8]) -> Option<Detail> {
    let size = field.iter().position(|byte| *byte == 0)?;
    if size == 0 {
        return Some(Detail::Words("the name is empty"));
    }
    for byte in front(field, size) {
        if !byte.is_ascii_alphanumeric() && *byte != b'_' {
            return Some(Detail::NameByte(*byte));
        }
    }
    Some(Detail::Words("bytes that aren't zero stand behind the name's end"))
}

/// What is wrong with the entry of a monitor or a counter, which begins with a name.
fn named_detail(reason: u8, entry: &[u8]) -> Option<Detail> {
    if reason != NAME {
        return None;
    }
    let long = Detail::Words("the name has over 19 characters: no zero ends it");
    Some(name_detail(front(entry, NAME_BYTES)).unwrap_or(long))
}

/// What is wrong with a message action.
fn message_detail(reason: u8, entry: &[u8]) -> Option<Detail> {
    if reason != ACTION_PACKET {
        return None;
    }
    action_detail(behind(entry, ACTION_HEAD))
}

/// What is wrong with what an actionpoint starts.
fn started_detail(entry: &[u8]) -> Option<Detail> {
    if entry.len() < 4 {
        return None;
    }
    let sequence = be16(entry, 2);
    if sequence == 0 || sequence > SEQUENCES {
        return Some(Detail::Sequence(sequence));
    }
    Some(Detail::Words("the number of failures is 0"))
}

/// What is wrong with an actionpoint.
fn point_detail(reason: u8, entry: &[u8]) -> Option<Detail> {
    match reason {
        STARTED => started_detail(entry),
        EXPRESSION => expression_detail(entry),
        _ => None,
    }
}

/// What is wrong with an entry of a dwell table, whose address isn't a multiple of its length.
fn dwell_detail(reason: u8, entry: &[u8]) -> Option<Detail> {
    if reason != ALIGNMENT || entry.len() < 2 {
        return None;
    }
    Some(Detail::Dwell(be16(entry, 0)))
}

/// What more is known of an entry that has its bytes, by its table and the loader's reason.
fn detail_in(kind: TableKind, reason: u8, entry: &[u8]) -> Option<Detail> {
    match kind {
        TableKind::AppMon | TableKind::EventMon | TableKind::ExeCount => {
            named_detail(reason, entry)
        }
        TableKind::MsgActs => message_detail(reason, entry),
        TableKind::Adt => point_detail(reason, entry),
        TableKind::Dwell(_) => dwell_detail(reason, entry),
        TableKind::Ats(_)
        | TableKind::Rts(_)
        | TableKind::Eeprom
        | TableKind::Memory
        | TableKind::Wdt => None,
    }
}

/// What more is known of a refused entry of a payload than its sentence says; none where that says all, or where the payload hasn't the entry.
pub(crate) fn detail_of(kind: TableKind, payload: &[u8], fault: EntryFault) -> Option<Detail> {
    match kind {
        TableKind::Ats(_) | TableKind::Rts(_) => command_detail(kind, payload, fault),
        TableKind::AppMon
        | TableKind::EventMon
        | TableKind::ExeCount
        | TableKind::MsgActs
        | TableKind::Dwell(_)
        | TableKind::Eeprom
        | TableKind::Memory
        | TableKind::Wdt
        | TableKind::Adt => {
            let span = entry_span(kind, fault.entry)?;
            let entry = front(behind(payload, span.start), span.size);
            if entry.len() < span.size {
                return None;
            }
            detail_in(kind, fault.reason, entry)
        }
    }
}
