//! Laws of the definitions, as contracts of functions that do nothing.
ghost use Rattle.std.specs.Prelude.{◌≡◌, ℕ, List, true, false};
ghost use Rattle.memory_window.specs.declared.regions.Region.{Region};
ghost use Rattle.memory_window.specs.Access.{gives_bytes};
ghost use Rattle.table_warnings.specs.Ranges.{is_split};

/// Memory gives no range that begins in one region and ends in another: an entry that has one is refused where it is used.
pub fn split_ranges_are_refused()
    ensures { (regions : List Region) (at len : ℕ) → is_split regions at len ≡ true
        → gives_bytes regions at len ≡ false }
{}
