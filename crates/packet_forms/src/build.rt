//! The packets that are built here.

ghost use Rattle.std.specs.Prelude.{◌≡◌, ◌≤◌, ◌<◌, ◌++◌, true, length};
ghost use Rattle.packet_forms.specs.Numbers.{be16_bytes, be32_bytes};
ghost use Rattle.packet_forms.specs.Packets.{is_command_id};
ghost use Rattle.packet_forms.specs.Built.{command_of, telemetry_of, event_of, event_payload, primary_header, IsCommandOf, IsTelemetryOf};

use crate::byte_list::ByteList;
use crate::message_ids::EVENT;
use crate::name::Name;
use crate::packet::{PACKET_BYTES, Packet};
use crate::pieces::exclusive_or;

/// The most bytes of a command's payload.
pub const COMMAND_PAYLOAD: usize = 248;

/// The most bytes of a telemetry packet's payload.
pub const TELEMETRY_PAYLOAD: usize = 244;

/// A command of at most 248 payload bytes: sequence count 0, its checksum right.
pub fn command(mid: u16, code: u8, payload: &[u8]) -> Packet
    requires version { mid < 8192 }
    requires kind { is_command_id mid ≡ true }
    requires code { code ≤ 127 }
    requires size { length payload.now ≤ COMMAND_PAYLOAD }
    ensures bytes { result ≡ command_of mid code payload.now }
    ensures reads_back { IsCommandOf mid code payload.now result }
{
    let mut draft = ByteList::new();
    begin(&mut draft, mid, payload.len() + 8);
    draft.append(&[code]);
    let sum = exclusive_or(draft.bytes());
    draft.append(&[0xFF ^ (sum ^ exclusive_or(payload))]);
    draft.append(payload);
    Packet::of_list(&draft)
}

/// Telemetry of at most 244 payload bytes: subseconds 0, sequence count 0.
pub fn telemetry(mid: u16, secs: u32, payload: &[u8]) -> Packet
    requires version { mid < 8192 }
    requires size { length payload.now ≤ TELEMETRY_PAYLOAD }
    ensures bytes { result ≡ telemetry_of mid secs payload.now }
    ensures reads_back { IsTelemetryOf mid payload.now result }
{
    let mut packet = Packet::default();
    packet.set_telemetry(mid, secs, payload);
    packet
}

/// An event message of an application: `kind` is 2 for information and 3 for an error.
pub fn event(name: Name, id: u16, kind: u16, secs: u32) -> Packet
    ensures bytes { result ≡ event_of name id kind secs }
    ensures reads_back { IsTelemetryOf EVENT (event_payload name id kind) result }
{
    let mut packet = Packet::default();
    packet.set_event(name, id, kind, secs);
    packet
}

/// Drafts telemetry, over what was drafted before.
pub(crate) fn draft_telemetry(
    draft: &mut ByteList<PACKET_BYTES>,
    mid: u16,
    secs: u32,
    payload: &[u8],
)
    requires version { mid < 8192 }
    requires size { length payload.now ≤ TELEMETRY_PAYLOAD }
    ensures bytes { draft.new ≡ telemetry_of mid secs payload.now }
    ensures reads_back { IsTelemetryOf mid payload.now draft.new }
{
    let size = payload.len() + 12;
    draft.resize(size);
    draft.put(0, &primary_header(mid, size));
    draft.put(6, &secondary_header(secs));
    draft.put(12, payload);
}

/// Drafts an event message, over what was drafted before.
pub(crate) fn draft_event(
    draft: &mut ByteList<PACKET_BYTES>,
    name: Name,
    id: u16,
    kind: u16,
    secs: u32,
)
    ensures bytes { draft.new ≡ event_of name id kind secs }
    ensures reads_back { IsTelemetryOf EVENT (event_payload name id kind) draft.new }
{
    draft.resize(44);
    draft.put(0, &primary_header(EVENT, 44));
    draft.put(6, &secondary_header(secs));
    draft.put(12, name.bytes());
    draft.put(32, &event_end(id, kind));
}

/// The seconds, and subseconds 0.
#[inline(always)]
#[tactic(auto, unfolding(crate::specs::Numbers::be16_bytes, crate::specs::Numbers::be32_bytes))]
fn secondary_header(secs: u32) -> [u8; 6]
    ensures value { result ≡ be32_bytes secs ++ be16_bytes 0 }
    ensures six { length result ≡ 6 }
{
    let [a, b, c, d] = secs.to_be_bytes();
    [a, b, c, d, 0, 0]
}

/// What stands behind the name in an event message: spacecraft 66, processor 1.
#[inline(always)]
#[tactic(auto, unfolding(crate::specs::Numbers::be16_bytes, crate::specs::Numbers::be32_bytes))]
fn event_end(id: u16, kind: u16) -> [u8; 12]
    ensures value { result ≡ be16_bytes id ++ be16_bytes kind ++ be32_bytes 66 ++ be32_bytes 1 }
    ensures twelve { length result ≡ 12 }
{
    let [a, b] = id.to_be_bytes();
    let [c, d] = kind.to_be_bytes();
    [a, b, c, d, 0, 0, 0, 66, 0, 0, 0, 1]
}

/// Begins a packet of `size` bytes with its header of six bytes.
fn begin(draft: &mut ByteList<PACKET_BYTES>, mid: u16, size: usize)
    requires long { 7 < size }
    requires short { size ≤ PACKET_BYTES }
    ensures header { draft.new ≡ primary_header mid size }
    ensures six { length draft.new ≡ 6 }
{
    draft.set(&primary_header(mid, size));
}

/// The header of a packet of `size` bytes.
#[inline(always)]
#[tactic(auto, unfolding(crate::specs::Built::primary_header, crate::specs::Numbers::be16_bytes))]
fn primary_header(mid: u16, size: usize) -> [u8; 6]
    requires long { 7 < size }
    requires short { size ≤ PACKET_BYTES }
    ensures header { result ≡ primary_header mid size }
    ensures six { length result ≡ 6 }
{
    let [a, b] = mid.to_be_bytes();
    let [c, d] = ((size - 7) as u16).to_be_bytes();
    [a, b, 0xC0, 0, c, d]
}
