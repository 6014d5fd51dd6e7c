//! What a row says of a packet: its seconds, its sequence count and its payload.
ghost use Rattle.std.specs.Prelude.{◌≡◌, ◌<◌, true};
ghost use Rattle.telemetry.specs.Telemetry.{content_of, is_content, packet_of};

use packet_forms::{ByteList, PACKET_BYTES, Packet, be16, be32, behind, front, telemetry};

/// The most bytes of a row: four of the seconds, two of the sequence count and 244 of the payload.
pub(crate) const CONTENT_BYTES: usize = 250;

/// The largest sequence count.
pub(crate) const MOST_COUNT: u16 = 16_383;

/// What a row says of a packet.
#[tactic(auto, unfolding(crate::specs::Telemetry::content_of, packet_forms::specs::Numbers::be16_bytes, packet_forms::specs::Packets::sequence_count))]
pub(crate) fn content_of(packet: &Packet) -> ByteList<PACKET_BYTES>
    ensures { result ≡ content_of packet.now }
{
    let bytes = packet.bytes();
    let mut content = ByteList::copy_of(front(behind(bytes, 6), 4));
    content.append(&(be16(bytes, 2) % 16_384).to_be_bytes());
    content.append(behind(bytes, 12));
    content
}

/// Whether a packet can be made of these bytes.
pub(crate) fn is_content(content: &[u8]) -> bool
    ensures { result ≡ is_content content.now }
{
    6 <= content.len() && content.len() <= CONTENT_BYTES && be16(content, 4) <= MOST_COUNT
}

/// The packet of an id, its seconds, its sequence count and its payload.
#[tactic(auto, unfolding(crate::specs::Telemetry::packet_of))]
pub(crate) fn packet_of(id: u16, content: &[u8]) -> Packet
    requires version { id < 8192 }
    requires content { is_content content.now ≡ true }
    ensures { result ≡ packet_of id content.now }
{
    let mut packet = telemetry(id, be32(content, 0), behind(content, 6));
    packet.set_sequence(be16(content, 4));
    packet
}
