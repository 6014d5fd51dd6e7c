//! The telemetry of Memory Manager.
ghost use Rattle.std.specs.Prelude.{◌<◌, ◌≤◌, ◌^◌, ◌++◌, ℕ, List, [], ◌∷◌, codes, length};
ghost use Rattle.std.specs.List.{AllByRecursion};
ghost use Rattle.packet_forms.specs.Hex.{hex};
ghost use Rattle.bus_pipes.specs.declared.names.Counts.{Counts};
ghost use Rattle.memory_window.specs.Memory.{Memory};
ghost use Rattle.mm_core.specs.Answers.{dump_packet, peek_packet};
ghost use Rattle.mm_core.specs.Housekeeping.{housekeeping_of, open_regions};
ghost use Rattle.telemetry_making.specs.Making.{AreCounts, EndsIn, Shows};

/// Each packet that Memory Manager makes is shown by the words of its row, and they say what it was made of: its housekeeping both
/// counts and the open regions, a peek its width, address and value, a part of a dump its address, its length and its bytes.
pub fn mm_telemetry_is_shown()
    ensures housekeeping { (counts : Counts) (image : Memory) → AreCounts counts
        → Shows (codes "mm.housekeeping") (counts.accepted ∷ counts.errors ∷ open_regions image
        ∷ []) (λ time. housekeeping_of time counts image) }
    ensures peek { (width at value : ℕ) → width < 256 → at < 2 ^ 32 → value < 2 ^ 32
        → Shows (codes "mm.peek") (width ∷ at ∷ value
        ∷ []) (λ time. peek_packet time width at value) }
    ensures dump { (at : ℕ) (part : List ℕ) → at < 2 ^ 32 → length part ≤ 238
        → AllByRecursion (λ b. b < 256) part → Shows (codes "mm.dump") (at ∷ length part
        ∷ []) (λ time. dump_packet time at part) }
    ensures dumped { (at : ℕ) (part : List ℕ) → at < 2 ^ 32 → length part ≤ 238
        → EndsIn (codes "mm.dump") (codes "bytes=" ++ hex part) (λ time. dump_packet time at part) }
{}
