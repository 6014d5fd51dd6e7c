//! Laws of the definitions, as contracts of functions that do nothing.

ghost use Rattle.std.specs.Prelude.{◌≡◌, ◌++◌, ◌∷◌, [], ℕ, List, Some};
ghost use Rattle.std.specs.List.{flat_map, AllByRecursion};
ghost use Rattle.pcap_form.specs.Captures.{Stamped, IsStamped, stamped, first_in, AreIn};
ghost use Rattle.pcap_form.specs.Worked.{capture, peek_record};

/// The record of a packet is read back as its time and its bytes, whatever stands behind it.
pub fn packets_read_back()
    ensures { (s : Stamped) (rest : List ℕ) → IsStamped s
        → first_in (stamped s ++ rest) ≡ Some (s, rest) }
{}

/// The records of packets are read back as these, in their order, and nothing else is in them.
pub fn captures_read_back()
    ensures { (packets : List Stamped) → AllByRecursion IsStamped packets
        → AreIn (flat_map stamped packets) packets }
{}

/// The header of a capture, and the record of a peek packet, byte by byte.
pub fn worked_captures()
    ensures header { capture ≡ 0xA1 ∷ 0xB2 ∷ 0xC3 ∷ 0xD4 ∷ 0 ∷ 2 ∷ 0 ∷ 4 ∷ 0 ∷ 0 ∷ 0 ∷ 0
        ∷ 0 ∷ 0 ∷ 0 ∷ 0 ∷ 0 ∷ 0 ∷ 0xFF ∷ 0xFF ∷ 0 ∷ 0 ∷ 0 ∷ 252 ∷ [] }
    ensures packet { peek_record ≡ 0x12 ∷ 0x34 ∷ 0x56 ∷ 0x78 ∷ 0 ∷ 0 ∷ 0 ∷ 0 ∷ 0 ∷ 0 ∷ 0 ∷ 37
        ∷ 0 ∷ 0 ∷ 0 ∷ 37 ∷ 0 ∷ 12 ∷ 0 ∷ 8 ∷ 0x63 ∷ 0x63 ∷ 0x73 ∷ 0x64 ∷ 0x73 ∷ 0 ∷ 0 ∷ 0 ∷ 0 ∷ 0 ∷ 0
        ∷ 0
        ∷ 0x08 ∷ 0x8A ∷ 0xC0 ∷ 0 ∷ 0 ∷ 0x0E ∷ 0 ∷ 0 ∷ 3 ∷ 0xEA ∷ 0 ∷ 0 ∷ 8 ∷ 0 ∷ 0 ∷ 0 ∷ 0x10 ∷ 0x80
        ∷ 0 ∷ 0 ∷ 0x5A ∷ [] }
{}
