//! The telemetry of Health and Safety.
ghost use Rattle.std.specs.Prelude.{◌≡◌, ◌<◌, ◌^◌, ◌++◌, ℕ, Bool, List, [], ◌∷◌, codes, length, map};
ghost use Rattle.std.specs.List.{AllByRecursion};
ghost use Rattle.packet_forms.specs.declared.name.Counter.{Counter};
ghost use Rattle.bus_pipes.specs.declared.names.Counts.{Counts};
ghost use Rattle.hs_tables.specs.Counters.{entry_of};
ghost use Rattle.hs_tables.specs.declared.counters.CountRow.{CountRow};
ghost use Rattle.hs_monitors.specs.Housekeeping.{flag_of, housekeeping_of, shown_of};
ghost use Rattle.telemetry_making.specs.Making.{AreCounts, Shows};

/// The housekeeping of Health and Safety is shown by the words of its row, and they say what it was made of: both counts, which
/// monitoring is on, the resets made and their maximum, the message actions sent, the monitors that watch, and the counter of each of
/// the 32 entries.
pub fn hs_telemetry_is_shown()
    ensures { (counts : Counts) (apps events : Bool) (made most sent watching : ℕ)
        (rows : List CountRow) (counters : List Counter) → AreCounts counts → made < 2 ^ 16
        → most < 2 ^ 16 → sent < 2 ^ 16 → watching < 2 ^ 32 → length rows ≡ 32
        → AllByRecursion (λ row. shown_of counters (entry_of row) < 2 ^ 32) rows
        → Shows (codes "hs.housekeeping") ((counts.accepted ∷ counts.errors ∷ flag_of apps
        ∷ flag_of events ∷ made ∷ most ∷ sent ∷ watching ∷ [])
        ++ map (λ row. shown_of counters (entry_of row)) rows)
        (λ time. housekeeping_of time counts apps events made most sent watching rows counters) }
{}
