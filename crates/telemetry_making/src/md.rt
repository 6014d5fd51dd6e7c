//! The telemetry of Memory Dwell.
ghost use Rattle.std.specs.Prelude.{◌<◌, ◌≤◌, ◌++◌, ℕ, List, [], ◌∷◌, codes, length};
ghost use Rattle.std.specs.List.{AllByRecursion};
ghost use Rattle.packet_forms.specs.Hex.{hex};
ghost use Rattle.bus_pipes.specs.declared.names.Counts.{Counts};
ghost use Rattle.md_dwell.specs.Housekeeping.{housekeeping_of};
ghost use Rattle.md_dwell.specs.Answers.{dwell_packet};
ghost use Rattle.telemetry_making.specs.Making.{AreCounts, EndsIn, Shows};

/// Each packet that Memory Dwell makes is shown by the words of its row, and they say what it was made of: its housekeeping both counts
/// and the enabled tables, a round of each table the table's number, its length and its bytes.
pub fn md_telemetry_is_shown()
    ensures housekeeping { (counts : Counts) (enabled : ℕ) → AreCounts counts → enabled < 256
        → Shows (codes "md.housekeeping") (counts.accepted ∷ counts.errors ∷ enabled
        ∷ []) (λ time. housekeeping_of time counts enabled) }
    ensures round1 { (bytes : List ℕ) → length bytes ≤ 240 → AllByRecursion (λ b. b < 256) bytes
        → Shows (codes "md.round1") (1 ∷ length bytes ∷ []) (λ time. dwell_packet time 1 bytes) }
    ensures round2 { (bytes : List ℕ) → length bytes ≤ 240 → AllByRecursion (λ b. b < 256) bytes
        → Shows (codes "md.round2") (2 ∷ length bytes ∷ []) (λ time. dwell_packet time 2 bytes) }
    ensures round3 { (bytes : List ℕ) → length bytes ≤ 240 → AllByRecursion (λ b. b < 256) bytes
        → Shows (codes "md.round3") (3 ∷ length bytes ∷ []) (λ time. dwell_packet time 3 bytes) }
    ensures round4 { (bytes : List ℕ) → length bytes ≤ 240 → AllByRecursion (λ b. b < 256) bytes
        → Shows (codes "md.round4") (4 ∷ length bytes ∷ []) (λ time. dwell_packet time 4 bytes) }
    ensures dwelled1 { (bytes : List ℕ) → length bytes ≤ 240
        → EndsIn (codes "md.round1") (codes "bytes="
        ++ hex bytes) (λ time. dwell_packet time 1 bytes) }
    ensures dwelled2 { (bytes : List ℕ) → length bytes ≤ 240
        → EndsIn (codes "md.round2") (codes "bytes="
        ++ hex bytes) (λ time. dwell_packet time 2 bytes) }
    ensures dwelled3 { (bytes : List ℕ) → length bytes ≤ 240
        → EndsIn (codes "md.round3") (codes "bytes="
        ++ hex bytes) (λ time. dwell_packet time 3 bytes) }
    ensures dwelled4 { (bytes : List ℕ) → length bytes ≤ 240
        → EndsIn (codes "md.round4") (codes "bytes="
        ++ hex bytes) (λ time. dwell_packet time 4 bytes) }
{}
