//! The telemetry of Stored Command.
ghost use Rattle.std.specs.Prelude.{◌≡◌, ◌<◌, ◌^◌, ◌/◌, ◌%◌, [], ◌∷◌, codes, length};
ghost use Rattle.bus_pipes.specs.declared.names.Counts.{Counts};
ghost use Rattle.sc_sequences.specs.Housekeeping.{enabled_mask, housekeeping_of, left_in, report_of, running_mask, shown_ats};
ghost use Rattle.sc_sequences.specs.Sequences.{running_ats};
ghost use Rattle.sc_sequences.specs.Turns.{Sequences};
ghost use Rattle.telemetry_making.specs.Making.{AreCounts, Shows};

/// The housekeeping of Stored Command is shown by the words of its row, and they say what it was made of: both counts, the absolute
/// sequence that runs, the commands left, sent and with a wrong checksum, and the relative sequences that run and that are enabled,
/// those behind the 32nd first.
pub fn sc_telemetry_is_shown()
    ensures { (counts : Counts) (s : Sequences) → AreCounts counts → length s.all ≡ 66
        → shown_ats (running_ats s.all) < 256 → left_in s.all (running_ats s.all) < 2 ^ 16
        → Shows (codes "sc.housekeeping") (counts.accepted ∷ counts.errors
        ∷ shown_ats (running_ats s.all) ∷ left_in s.all (running_ats s.all) ∷ s.sent % 2 ^ 16
        ∷ s.wrong % 2 ^ 16 ∷ running_mask s.all / 2 ^ 32 ∷ running_mask s.all % 2 ^ 32
        ∷ enabled_mask s.all / 2 ^ 32 ∷ enabled_mask s.all % 2 ^ 32
        ∷ []) (λ time. housekeeping_of time counts (report_of s)) }
{}
