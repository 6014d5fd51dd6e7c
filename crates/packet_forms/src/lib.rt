//! Space packets: their bytes, what they say, and the packets that are built here.
#![tactic(auto)]

mod build;
mod byte_list;
mod crc;
mod crc_rows;
mod fold;
mod hex;
mod hex_pairs;
pub mod laws;
pub mod message_ids;
mod name;
mod numbers;
mod packet;
mod pieces;

pub use build::{COMMAND_PAYLOAD, TELEMETRY_PAYLOAD, command, event, telemetry};
pub use byte_list::ByteList;
pub use crc::crc16;
pub use hex::place_hex;
pub use name::{Counter, Name, named};
pub use numbers::{be16, be32};
pub use packet::{PACKET_BYTES, Packet, PacketFault};
pub use pieces::{are_zeros, behind, front, place};
