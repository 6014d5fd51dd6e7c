//! The commands of relative time sequences.
ghost use Rattle.std.specs.Prelude.{◌≡◌, ◌≤◌, length, true, is_none};
ghost use Rattle.sc_tables.specs.Relative.{relative_at, relative_size, relative_reason};

use crate::heads::{packet_of, packet_reason, packet_size};
use crate::reasons::EntryReason;
use packet_forms::{Packet, be16};

/// How many bytes stand before an entry's packet.
const BEFORE_PACKET: usize = 2;
/// The fewest bytes of an entry: those before the packet, and a packet of 8.
const SHORTEST: usize = 10;

/// A command of a relative time sequence.
#[derive(Clone, Copy, Debug, PartialEq, Eq)]
pub struct Relative {
    /// How many seconds pass before it leaves: since the command before it left, or since the sequence was started.
    pub tag: u16,
    pub packet: Packet,
}

impl Relative {
    /// The command of the entry with which these bytes begin.
    #[tactic(auto, unfolding(crate::specs::Relative::relative_at))]
    pub(crate) fn read(bytes: &[u8]) -> Relative
        requires { is_none (relative_reason bytes.now) ≡ true }
        ensures { result ≡ relative_at bytes.now }
    {
        Relative {
            tag: be16(bytes, 0),
            packet: packet_of(&bytes[BEFORE_PACKET..]),
        }
    }
}

/// How many bytes the entry has with which these bytes begin.
#[tactic(auto, unfolding(crate::specs::Relative::relative_size))]
pub(crate) fn relative_size(bytes: &[u8]) -> usize
    requires { 10 ≤ length bytes.now }
    ensures { result ≡ relative_size bytes.now }
{
    BEFORE_PACKET + packet_size(&bytes[BEFORE_PACKET..])
}

/// Why the entry with which these bytes begin is refused.
#[tactic(auto, unfolding(crate::specs::Relative::relative_reason))]
pub(crate) fn relative_reason(bytes: &[u8]) -> Option<EntryReason>
    ensures { result ≡ relative_reason bytes.now }
{
    if bytes.len() < SHORTEST {
        return Some(EntryReason::PastEnd);
    }
    packet_reason(&bytes[BEFORE_PACKET..])
}
