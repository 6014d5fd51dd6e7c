//! The command packet that ends an entry.
ghost use Rattle.std.specs.Prelude.{◌≡◌, ◌≤◌, length, true, is_none};
ghost use Rattle.sc_tables.specs.Heads.{packet_size, is_command_head, packet_reason, packet_of};

use crate::reasons::EntryReason;
use packet_forms::{Packet, be16};

/// How many bytes the packet has with which these bytes begin.
#[tactic(auto, unfolding(crate::specs::Heads::packet_size, packet_forms::specs::Packets::length_field))]
pub(crate) fn packet_size(bytes: &[u8]) -> usize
    requires { 6 ≤ length bytes.now }
    ensures size { result ≡ packet_size bytes.now }
    ensures most { result ≤ 65542 }
{
    be16(bytes, 4) as usize + 7
}

/// Why the command packet with which these bytes begin is refused.
#[tactic(auto, unfolding(crate::specs::Heads::packet_reason))]
pub(crate) fn packet_reason(bytes: &[u8]) -> Option<EntryReason>
    requires { 8 ≤ length bytes.now }
    ensures { result ≡ packet_reason bytes.now }
{
    if !is_command_head(bytes) {
        return Some(EntryReason::Packet);
    }
    if bytes.len() < packet_size(bytes) {
        return Some(EntryReason::PastEnd);
    }
    None
}

/// The command packet with which these bytes begin.
pub(crate) fn packet_of(bytes: &[u8]) -> Packet
    requires { is_none (packet_reason bytes.now) ≡ true }
    ensures { result ≡ packet_of bytes.now }
{
    match Packet::from_bytes(&bytes[..packet_size(bytes)]) {
        Ok(packet) => packet,
        Err(_) => unreachable!(),
    }
}

/// Whether a command packet of 8 to 256 bytes may begin with these bytes.
#[tactic(auto, unfolding(crate::specs::Heads::is_command_head, packet_forms::specs::Packets::version_of, packet_forms::specs::Packets::sequence_flags, packet_forms::specs::Packets::is_command, packet_forms::specs::Packets::message_id))]
fn is_command_head(bytes: &[u8]) -> bool
    requires { 8 ≤ length bytes.now }
    ensures { result ≡ is_command_head bytes.now }
{
    let id = be16(bytes, 0);
    let size = packet_size(bytes);
    bytes[0] / 32 == 0 && bytes[2] / 64 == 3 && id / 2048 % 4 == 3 && 8 <= size && size <= 256
}
