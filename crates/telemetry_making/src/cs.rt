//! The telemetry of Checksum.
ghost use Rattle.std.specs.Prelude.{◌<◌, ◌^◌, ℕ, Bool, [], ◌∷◌, codes, None, Some};
ghost use Rattle.bus_pipes.specs.declared.names.Counts.{Counts};
ghost use Rattle.cs_slices.specs.Answers.{baseline_packet};
ghost use Rattle.cs_slices.specs.Housekeeping.{flags_of, housekeeping_of};
ghost use Rattle.telemetry_making.specs.Making.{AreCounts, Shows};

/// Each packet that Checksum makes is shown by the words of its row, and they say what it was made of: its housekeeping both counts,
/// what is on, the miscompares of both tables and the passes, a report the table, the entry, and whether there is a baseline and which.
pub fn cs_telemetry_is_shown()
    ensures housekeeping { (counts : Counts) (cs eeprom memory : Bool) (wrong other passes : ℕ)
        → AreCounts counts → wrong < 2 ^ 16 → other < 2 ^ 16 → passes < 2 ^ 32
        → Shows (codes "cs.housekeeping") (counts.accepted ∷ counts.errors
        ∷ flags_of cs eeprom memory ∷ wrong ∷ other ∷ passes
        ∷ []) (λ time. housekeeping_of time counts (flags_of cs eeprom memory) wrong other passes) }
    ensures known { (table entry check : ℕ) → table < 2 ^ 16 → entry < 2 ^ 16 → check < 2 ^ 16
        → Shows (codes "cs.baseline") (table ∷ entry ∷ 1 ∷ check
        ∷ []) (λ time. baseline_packet time table entry (Some check)) }
    ensures unknown { (table entry : ℕ) → table < 2 ^ 16 → entry < 2 ^ 16
        → Shows (codes "cs.baseline") (table ∷ entry ∷ 0 ∷ 0
        ∷ []) (λ time. baseline_packet time table entry None) }
{}
