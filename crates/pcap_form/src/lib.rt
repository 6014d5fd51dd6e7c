//! Captures of space packets, as Wireshark and tshark open them with no setting.
#![tactic(auto)]

mod capture;
pub mod laws;

pub use capture::{MOST_PACKET_BYTES, put_header, put_packet};
