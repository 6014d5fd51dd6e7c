//! The dwell packets.
ghost use Rattle.std.specs.Prelude.{◌≡◌, ◌≤◌, length};
ghost use Rattle.md_dwell.specs.Answers.{dwell_packet};

use crate::payload::Payload;
use packet_forms::message_ids::MD_DWELL;
use packet_forms::{Packet, telemetry};

/// The packet with the bytes of a round of a table, 1 to 4.
#[tactic(auto, unfolding(crate::specs::Answers::dwell_packet, packet_forms::specs::Numbers::be16_bytes))]
pub(crate) fn dwell_packet(table: u16, bytes: &[u8], now: u32) -> Packet
    requires table { table ≤ 4 }
    requires few { length bytes.now ≤ 100 }
    ensures { result ≡ dwell_packet now table bytes.now }
{
    let mut payload = Payload::new();
    payload.append(&table.to_be_bytes());
    payload.append(&(bytes.len() as u16).to_be_bytes());
    payload.append(bytes);
    telemetry(MD_DWELL + table, now, payload.bytes())
}
