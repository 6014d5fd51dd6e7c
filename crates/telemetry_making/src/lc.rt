//! The telemetry of Limit Checker.
ghost use Rattle.std.specs.Prelude.{◌<◌, ◌^◌, ◌/◌, ◌%◌, ℕ, [], ◌∷◌, codes};
ghost use Rattle.bus_pipes.specs.declared.names.Counts.{Counts};
ghost use Rattle.lc_watch.specs.Housekeeping.{housekeeping_of};
ghost use Rattle.telemetry_making.specs.Making.{AreCounts, Shows};

/// The housekeeping of Limit Checker is shown by the words of its row, and they say what it was made of: both counts, the active
/// actionpoints, the firings, and the results of the watchpoints, those behind the 16th first.
pub fn lc_telemetry_is_shown()
    ensures { (counts : Counts) (active fired results : ℕ) → AreCounts counts → active < 2 ^ 16
        → fired < 2 ^ 16 → results < 2 ^ 64 → Shows (codes "lc.housekeeping") (counts.accepted
        ∷ counts.errors ∷ active ∷ fired ∷ results / 2 ^ 32 ∷ results % 2 ^ 32
        ∷ []) (λ time. housekeeping_of time counts active fired results) }
{}
