//! Commands of sequences with a wrong checksum.

use crate::sent_packets::{Checksums, checksums_of};
use packet_forms::Packet;
use sc_tables::{load_ats, load_rts};
use table_warnings::{Place, Warning};

/// How many bytes a relative sequence has at most.
const MOST_RELATIVE: usize = 2_048;

/// The packet of the command of this number in an absolute sequence.
fn numbered_packet(payload: &[u8], number: u16) -> Option<Packet> {
    let Ok(ats) = load_ats(payload) else {
        return None;
    };
    for k in 0..ats.len() {
        let command = ats.command(k);
        if command.number == number {
            return Some(command.packet);
        }
    }
    None
}

/// The packet of the entry of this number, from 1, in a relative sequence.
fn entry_packet(payload: &[u8], entry: u32) -> Option<Packet> {
    if payload.len() > MOST_RELATIVE {
        return None;
    }
    let Ok(rts) = load_rts(payload) else {
        return None;
    };
    let k = entry.checked_sub(1)?;
    if k < rts.len() {
        return Some(rts.command(k).packet);
    }
    None
}

/// The packet in a place of a sequence: commands of an absolute one have numbers, those of a relative one are its entries.
fn packet_at(payload: &[u8], place: Place) -> Option<Packet> {
    match place {
        Place::Number(number) => numbered_packet(payload, number),
        Place::Entry(entry) => entry_packet(payload, entry),
    }
}

/// The checksums of the command of which a warning says that its own is wrong.
pub(crate) fn warned_checksums(payload: &[u8], warning: Warning) -> Option<Checksums> {
    match warning {
        Warning::WrongChecksum(place) => Some(checksums_of(&packet_at(payload, place)?)),
        Warning::Gap(_)
        | Warning::Unread(_)
        | Warning::NoDelay
        | Warning::StartsItself(_)
        | Warning::BehindEnd(_)
        | Warning::Crowded(_)
        | Warning::Unwatched(_, _)
        | Warning::Unknown(_, _)
        | Warning::Split(_) => None,
    }
}
