//! A capture: its header, and a record for each packet, the most significant byte of each number first.

ghost use Rattle.std.specs.Prelude.{◌≡◌, ◌≤◌, ◌+◌, ◌++◌, length, OnOk};
ghost use Rattle.pcap_form.specs.Captures.{capture_header, record_header, stamped};

use std::alloc::AllocError;

/// The most bytes of a packet: a record has at most 65,535, of which 16 name the dissector.
pub const MOST_PACKET_BYTES: usize = 65_519;

/// Appends the header of a capture of link type 252, in which each packet is told with its dissector's name.
pub fn put_header(out: &mut Vec<u8>) -> Result<(), AllocError>
    ensures { OnOk result (out.new.items ≡ out.old.items ++ capture_header) }
{
    out.extend_from_slice(&[
        0xA1, 0xB2, 0xC3, 0xD4, 0, 2, 0, 4, 0, 0, 0, 0, 0, 0, 0, 0, 0, 0, 0xFF, 0xFF, 0, 0, 0, 0xFC,
    ])
}

/// What stands before a packet: the seconds since 1970, no microseconds, twice how many bytes follow, and `ccsds` as the
/// dissector's name.
#[tactic(auto, unfolding(crate::specs::Captures::record_header, packet_forms::specs::Numbers::be32_bytes))]
fn record_header(seconds: u32, size: u32) -> [u8; 32]
    ensures { result ≡ record_header seconds size }
{
    let [a, b, c, d] = seconds.to_be_bytes();
    let [e, f, g, h] = size.to_be_bytes();
    [
        a, b, c, d, 0, 0, 0, 0, e, f, g, h, e, f, g, h, 0, 12, 0, 8, b'c', b'c', b's', b'd', b's',
        0, 0, 0, 0, 0, 0, 0,
    ]
}

/// Appends the record of a packet that came at this time, in seconds since 1970.
#[tactic(auto, unfolding(crate::specs::Captures::stamped))]
pub fn put_packet(seconds: u32, packet: &[u8], out: &mut Vec<u8>) -> Result<(), AllocError>
    requires { length packet.now ≤ MOST_PACKET_BYTES }
    ensures { OnOk result (out.new.items ≡ out.old.items
        ++ stamped (record { seconds = seconds; packet = packet.now })) }
{
    let size = packet.len() as u32 + 16;
    out.extend_from_slice(&record_header(seconds, size))?;
    out.extend_from_slice(packet)
}
