//! Laws of the definitions, as contracts of functions that do nothing.

ghost use Rattle.std.specs.Prelude.{◌≡◌, ◌≤◌, ◌<◌, ◌↔◌, ℕ, List, [], ◌∷◌, ◌++◌, length, true, None, codes};
ghost use Rattle.packet_forms.specs.Crc.{crc_of};
ghost use Rattle.packet_forms.specs.Packets.{IsPacket, is_command_id, message_id, version_of, is_command, sequence_flags, sequence_count, length_field, function_code, is_checksum_right, payload_of};
ghost use Rattle.packet_forms.specs.Worked.{worked_command};
ghost use Rattle.packet_forms.specs.Faults.{fault_of};
ghost use Rattle.packet_forms.specs.Names.{name_of};
ghost use Rattle.packet_forms.specs.Built.{command_of, telemetry_of, event_of, with_sequence, IsCommandOf, IsTelemetryOf, IsRecounted};

/// A list of bytes has no fault exactly where it is a packet.
pub fn faultless_lists_are_packets()
    ensures { (bytes : List ℕ) → (fault_of bytes ≡ None) ↔ IsPacket bytes }
{}

/// What is built reads back as what it was built from.
pub fn built_packets_read_back()
    ensures commands { (id code : ℕ) (payload : List ℕ) → id < 8192 → is_command_id id ≡ true
        → code ≤ 127 → length payload ≤ 248 → IsCommandOf id code payload
        (command_of id code payload) }
    ensures telemetry { (id secs : ℕ) (payload : List ℕ) → id < 8192 → length payload ≤ 244
        → IsTelemetryOf id payload (telemetry_of id secs payload) }
    ensures recounted { (n : ℕ) (p : List ℕ) → n < 16384 → IsPacket p
        → IsRecounted n p (with_sequence n p) }
{}

/// The no-op of MM, and the event that answers it one second after the epoch 1000.
pub fn worked_packets()
    ensures noop { command_of 0x1888 0 [] ≡ 0x18 ∷ 0x88 ∷ 0xC0 ∷ 0x00 ∷ 0x00 ∷ 0x01 ∷ 0x00 ∷ 0xAE
        ∷ [] }
    ensures event { event_of (name_of (codes "MM")) 16 2 1001 ≡ 0x08 ∷ 0x08 ∷ 0xC0 ∷ 0x00 ∷ 0x00
        ∷ 0x25 ∷ 0x00 ∷ 0x00 ∷ 0x03 ∷ 0xE9 ∷ 0x00 ∷ 0x00 ∷ 0x4D ∷ 0x4D ∷ 0 ∷ 0 ∷ 0 ∷ 0 ∷ 0 ∷ 0 ∷ 0
        ∷ 0 ∷ 0 ∷ 0 ∷ 0 ∷ 0 ∷ 0 ∷ 0 ∷ 0 ∷ 0 ∷ 0 ∷ 0 ∷ 0x00 ∷ 0x10 ∷ 0x00 ∷ 0x02 ∷ 0x00 ∷ 0x00 ∷ 0x00
        ∷ 0x42 ∷ 0x00 ∷ 0x00 ∷ 0x00 ∷ 0x01 ∷ [] }
{}

/// A name of the longest kind, and an event and a telemetry packet whose fields all differ, byte by byte.
pub fn worked_layouts()
    ensures name { name_of (codes "ABCDEFGHIJKLMNOPQ_9") ≡ 0x41 ∷ 0x42 ∷ 0x43 ∷ 0x44 ∷ 0x45 ∷ 0x46
        ∷ 0x47 ∷ 0x48 ∷ 0x49 ∷ 0x4A ∷ 0x4B ∷ 0x4C ∷ 0x4D ∷ 0x4E ∷ 0x4F ∷ 0x50 ∷ 0x51 ∷ 0x5F ∷ 0x39
        ∷ 0x00 ∷ [] }
    ensures event { event_of (name_of (codes "CS")) 0x1234 0x5678 0x9ABCDEF1 ≡ 0x08 ∷ 0x08 ∷ 0xC0
        ∷ 0x00 ∷ 0x00 ∷ 0x25 ∷ 0x9A ∷ 0xBC ∷ 0xDE ∷ 0xF1 ∷ 0x00 ∷ 0x00 ∷ 0x43 ∷ 0x53 ∷ 0 ∷ 0 ∷ 0 ∷ 0
        ∷ 0 ∷ 0 ∷ 0 ∷ 0 ∷ 0 ∷ 0 ∷ 0 ∷ 0 ∷ 0 ∷ 0 ∷ 0 ∷ 0 ∷ 0 ∷ 0 ∷ 0x12 ∷ 0x34 ∷ 0x56 ∷ 0x78 ∷ 0x00
        ∷ 0x00 ∷ 0x00 ∷ 0x42 ∷ 0x00 ∷ 0x00 ∷ 0x00 ∷ 0x01 ∷ [] }
    ensures telemetry { telemetry_of 0x0A5B 0x01020304 (0x11 ∷ 0x22 ∷ 0x33 ∷ []) ≡ 0x0A ∷ 0x5B
        ∷ 0xC0 ∷ 0x00 ∷ 0x00 ∷ 0x08 ∷ 0x01 ∷ 0x02 ∷ 0x03 ∷ 0x04 ∷ 0x00 ∷ 0x00 ∷ 0x11 ∷ 0x22 ∷ 0x33
        ∷ [] }
    ensures command { command_of 0x1A5B 0x2C (0x11 ∷ 0x23 ∷ []) ≡ 0x1A ∷ 0x5B ∷ 0xC0 ∷ 0x00 ∷ 0x00
        ∷ 0x03 ∷ 0x2C ∷ 0x63 ∷ 0x11 ∷ 0x23 ∷ [] }
    ensures recounted { with_sequence 0x1234 (0x08 ∷ 0x5B ∷ 0xC0 ∷ 0x00 ∷ 0x00 ∷ 0x03 ∷ 0x11 ∷ 0x22
        ∷ 0x33 ∷ 0x44 ∷ []) ≡ 0x08 ∷ 0x5B ∷ 0xD2 ∷ 0x34 ∷ 0x00 ∷ 0x03 ∷ 0x11 ∷ 0x22 ∷ 0x33 ∷ 0x44
        ∷ [] }
{}

/// The fields of a command that all differ, each read from its own bits.
pub fn worked_fields()
    ensures id { message_id worked_command ≡ 0x1A5B }
    ensures version { version_of worked_command ≡ 0 }
    ensures kind { is_command worked_command ≡ true }
    ensures flags { sequence_flags worked_command ≡ 3 }
    ensures count { sequence_count worked_command ≡ 0x1234 }
    ensures field { length_field worked_command ≡ 5 }
    ensures code { function_code worked_command ≡ 0x2C }
    ensures checksum { is_checksum_right worked_command ≡ true }
    ensures payload { payload_of worked_command ≡ 0x11 ∷ 0x23 ∷ 0x35 ∷ 0x47 ∷ [] }
{}

/// A check goes on: of no bytes, and of two lists one after the other.
pub fn checks_go_on()
    ensures none { (c : ℕ) → crc_of c [] ≡ c }
    ensures both { (c : ℕ) (xs ys : List ℕ) → crc_of c (xs ++ ys) ≡ crc_of (crc_of c xs) ys }
{}

/// The checks of the digits 1 to 9 that begin with 0 and with 0xFFFF.
pub fn worked_checks()
    ensures digits { crc_of 0 (codes "123456789") ≡ 0xBB3D }
    ensures from_ones { crc_of 0xFFFF (codes "123456789") ≡ 0x4B37 }
{}
