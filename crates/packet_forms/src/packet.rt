//! A space packet of 8 to 256 bytes.

ghost use Rattle.std.specs.Prelude.{◌≡◌, ◌≤◌, ◌<◌, ◌==◌, length, IfOk, IfErr, MatchResult, Some, None};
ghost use Rattle.packet_forms.specs.Packets.{IsPacket, shortest_packet, message_id, is_command, function_code, is_checksum_right, payload_of};
ghost use Rattle.packet_forms.specs.Faults.{fault_of, fault_number};
ghost use Rattle.packet_forms.specs.Built.{with_sequence, telemetry_of, event_of, event_payload, IsRecounted, IsTelemetryOf};

use crate::build::{TELEMETRY_PAYLOAD, draft_event, draft_telemetry};
use crate::byte_list::ByteList;
use crate::message_ids::EVENT;
use crate::name::Name;
use crate::numbers::be16;
use crate::pieces::behind;
use std::marker::Model;

/// Why a list of bytes is no packet. The faults are asked in this order.
#[derive(Clone, Copy, Debug, PartialEq, Eq)]
pub enum PacketFault {
    /// Under 8 bytes.
    Short,
    /// Over 256 bytes.
    Long,
    /// The top three bits aren't 0.
    Version,
    /// The sequence flags aren't 3.
    Segmented,
    /// The data length field plus 7 isn't the number of bytes.
    Length,
}

impl PacketFault {
    /// The number of the fault, from 1 to 5.
    pub fn number(self) -> u8
        ensures { result ≡ fault_number self }
    {
        match self {
            PacketFault::Short => 1,
            PacketFault::Long => 2,
            PacketFault::Version => 3,
            PacketFault::Segmented => 4,
            PacketFault::Length => 5,
        }
    }
}

/// The most bytes of a packet.
pub const PACKET_BYTES: usize = 256;

/// A space packet, seen as the list of its 8 to 256 bytes.
#[derive(Clone, Copy, Debug, PartialEq, Eq)]
pub struct Packet {
    list: ByteList<PACKET_BYTES>,
}

impl Model for Packet {
    ghost use Rattle.std.specs.Prelude.{List, ℕ};
    ghost use Rattle.packet_forms.specs.Packets.{IsPacket};

    ghost Value = { List ℕ };

    ghost view = { λ a. a.list };

    ghost invariant = { λ a. IsPacket a.list };

    ghost inverse = { λ p. record { list = p } };
}

impl Packet {
    /// The packet of these bytes, or the first of the faults.
    pub fn from_bytes(bytes: &[u8]) -> Result<Packet, PacketFault>
        ensures packet { IfOk result (λ packet. packet ≡ bytes.now) }
        ensures fault { MatchResult result (λ _. fault_of bytes.now
            ≡ None) (λ fault. fault_of bytes.now ≡ Some fault) }
    {
        if let Some(fault) = find_fault(bytes) {
            return Err(fault);
        }
        Ok(Packet::of_list(&ByteList::copy_of(bytes)))
    }

    /// Becomes the packet of these bytes, where it lies. Where they are none it stays as it is, and the first of the faults is the
    /// answer.
    pub fn set_bytes(&mut self, bytes: &[u8]) -> Result<(), PacketFault>
        ensures packet { IfOk result (λ _. self.new ≡ bytes.now) }
        ensures fault { MatchResult result (λ _. fault_of bytes.now
            ≡ None) (λ fault. fault_of bytes.now ≡ Some fault) }
        ensures kept { IfErr result (λ _. self.new ≡ self.old) }
    {
        if let Some(fault) = find_fault(bytes) {
            return Err(fault);
        }
        self.list.set(bytes);
        Ok(())
    }

    /// Becomes a copy of another packet, where it lies.
    #[inline(always)]
    pub fn copy_from(&mut self, other: &Packet)
        ensures { self.new ≡ other.now }
    {
        self.list.copy_from(&other.list);
    }

    /// Becomes telemetry of at most 244 payload bytes, where it lies: subseconds 0, sequence count 0.
    pub fn set_telemetry(&mut self, mid: u16, secs: u32, payload: &[u8])
        requires version { mid < 8192 }
        requires size { length payload.now ≤ TELEMETRY_PAYLOAD }
        ensures bytes { self.new ≡ telemetry_of mid secs payload.now }
        ensures reads_back { IsTelemetryOf mid payload.now self.new }
    {
        draft_telemetry(&mut self.list, mid, secs, payload);
    }

    /// Becomes an event message of an application, where it lies: `kind` is 2 for information and 3 for an error.
    pub fn set_event(&mut self, name: Name, id: u16, kind: u16, secs: u32)
        ensures bytes { self.new ≡ event_of name id kind secs }
        ensures reads_back { IsTelemetryOf EVENT (event_payload name id kind) self.new }
    {
        draft_event(&mut self.list, name, id, kind, secs);
    }

    /// The packet of these bytes.
    pub(crate) fn of_list(list: &ByteList<PACKET_BYTES>) -> Packet
        requires { IsPacket list.now }
        ensures { result ≡ list.now }
    {
        Packet { list: *list }
    }

    /// The bytes of the packet.
    pub fn bytes(&self) -> &[u8]
        ensures value { result.now ≡ self.now }
        ensures packet { IsPacket self.now }
        ensures long { 8 ≤ length result.now }
        ensures short { length result.now ≤ PACKET_BYTES }
    {
        self.list.bytes()
    }

    /// The message id.
    #[tactic(auto, unfolding(crate::specs::Packets::message_id))]
    pub fn mid(&self) -> u16
        ensures { result ≡ message_id self.now }
    {
        be16(self.bytes(), 0)
    }

    /// Whether type bit and secondary header flag are 1.
    #[tactic(auto, unfolding(crate::specs::Packets::is_command))]
    pub fn is_command(&self) -> bool
        ensures { result ≡ is_command self.now }
    {
        self.mid() / 2048 % 4 == 3
    }

    /// The function code: the low seven bits of byte 6.
    #[tactic(auto, unfolding(crate::specs::Packets::function_code))]
    pub fn code(&self) -> u8
        ensures { result ≡ function_code self.now }
    {
        self.bytes()[6] % 128
    }

    /// Whether the exclusive or of all bytes is 0xFF.
    #[tactic(auto, unfolding(crate::specs::Packets::is_checksum_right))]
    pub fn checksum_ok(&self) -> bool
        ensures { result ≡ is_checksum_right self.now }
    {
        self.list.exclusive_or() == 0xFF
    }

    /// The bytes from byte 8 of a command on, from byte 12 of any other packet on; none where it is shorter.
    #[tactic(auto, unfolding(crate::specs::Packets::payload_of))]
    pub fn payload(&self) -> &[u8]
        ensures { result.now ≡ payload_of self.now }
    {
        if self.is_command() {
            behind(self.bytes(), 8)
        } else {
            behind(self.bytes(), 12)
        }
    }

    /// The packet with the sequence count `n`, which is under 16,384.
    pub fn with_sequence(&self, n: u16) -> Packet
        requires { n < 16384 }
        ensures bytes { result ≡ with_sequence n self.now }
        ensures recounted { IsRecounted n self.now result }
    {
        let mut counted = *self;
        counted.set_sequence(n);
        counted
    }

    /// Writes the sequence count `n`, which is under 16,384, into the packet.
    pub fn set_sequence(&mut self, n: u16)
        requires { n < 16384 }
        ensures bytes { self.new ≡ with_sequence n self.old }
        ensures recounted { IsRecounted n self.old self.new }
    {
        self.list.overwrite(2, &(0xC000 + n).to_be_bytes());
    }
}

/// The first fault of these bytes.
#[tactic(auto, unfolding(crate::specs::Faults::fault_of, crate::specs::Packets::version_of, crate::specs::Packets::sequence_flags, crate::specs::Packets::length_field))]
fn find_fault(bytes: &[u8]) -> Option<PacketFault>
    ensures { result ≡ fault_of bytes.now }
{
    if bytes.len() < 8 {
        return Some(PacketFault::Short);
    }
    if bytes.len() > PACKET_BYTES {
        return Some(PacketFault::Long);
    }
    if bytes[0] / 32 != 0 {
        return Some(PacketFault::Version);
    }
    if bytes[2] / 64 != 3 {
        return Some(PacketFault::Segmented);
    }
    if be16(bytes, 4) as usize + 7 != bytes.len() {
        return Some(PacketFault::Length);
    }
    None
}

impl Default for Packet {
    /// The shortest packet: id 0 and two zero bytes behind the header.
    fn default() -> Packet
        ensures { result ≡ shortest_packet }
    {
        Packet::of_list(&ByteList::copy_of(&[0, 0, 0xC0, 0, 0, 1, 0, 0]))
    }
}
