//! The commands of absolute time sequences.
ghost use Rattle.std.specs.Prelude.{◌≡◌, ◌≤◌, [], List, length, true, is_none};
ghost use Rattle.sc_tables.specs.declared.absolute.Timed.{Timed};
ghost use Rattle.sc_tables.specs.Absolute.{timed_at, timed_size, timed_reason};
ghost use Rattle.sc_tables.specs.Places.{AreFlags};

use crate::heads::{packet_of, packet_reason, packet_size};
use crate::reasons::EntryReason;
use packet_forms::{Packet, be16, be32};

/// How many bytes stand before an entry's packet.
const BEFORE_PACKET: usize = 6;
/// The fewest bytes of an entry: those before the packet, and a packet of 8.
const SHORTEST: usize = 14;
/// The largest number of a command.
const LARGEST_NUMBER: u16 = 1_000;

/// A command of an absolute time sequence.
#[derive(Clone, Copy, Debug, PartialEq, Eq)]
pub struct Timed {
    /// From 1 to 1,000; of commands at one time the lower leaves first.
    pub number: u16,
    /// The time at which it leaves, in seconds.
    pub tag: u32,
    pub packet: Packet,
}

/// Where a command's entry stands in the payload, with what the commands are ordered by.
#[derive(Clone, Copy, Debug)]
pub(crate) struct Place {
    pub(crate) tag: u32,
    pub(crate) number: u16,
    pub(crate) at: u32,
}

impl Place {
    /// No place of an entry.
    pub(crate) const BLANK: Place = Place {
        tag: 0,
        number: 0,
        at: 0,
    };
}

impl Timed {
    /// The command of the entry with which these bytes begin.
    #[tactic(auto, unfolding(crate::specs::Absolute::timed_at))]
    pub(crate) fn read(bytes: &[u8]) -> Timed
        requires { is_none (timed_reason [] bytes.now) ≡ true }
        ensures { result ≡ timed_at bytes.now }
    {
        Timed {
            number: be16(bytes, 0),
            tag: be32(bytes, 2),
            packet: packet_of(&bytes[BEFORE_PACKET..]),
        }
    }
}

/// How many bytes the entry has with which these bytes begin.
#[tactic(auto, unfolding(crate::specs::Absolute::timed_size))]
pub(crate) fn timed_size(bytes: &[u8]) -> usize
    requires { 14 ≤ length bytes.now }
    ensures { result ≡ timed_size bytes.now }
{
    BEFORE_PACKET + packet_size(&bytes[BEFORE_PACKET..])
}

/// Why the entry with which these bytes begin is refused; `used` tells which numbers are used by entries before it.
#[tactic(auto, unfolding(crate::specs::Absolute::timed_reason))]
pub(crate) fn timed_reason(bytes: &[u8], used: &[bool]) -> Option<EntryReason>
    requires { length used.now ≡ 1001 }
    ensures { (done : List Timed) → AreFlags done used.now → result ≡ timed_reason done bytes.now }
{
    if bytes.len() < SHORTEST {
        return Some(EntryReason::PastEnd);
    }
    let number = be16(bytes, 0);
    if number == 0 || number > LARGEST_NUMBER {
        return Some(EntryReason::Number);
    }
    if used[number as usize] {
        return Some(EntryReason::Twice);
    }
    packet_reason(&bytes[BEFORE_PACKET..])
}
