//! Which entries the memory of a map gives.
ghost use Rattle.std.specs.Prelude.{◌≡◌, None};
ghost use Rattle.std.specs.List.{AllPass};
ghost use Rattle.md_dwell.specs.Given.{is_given, first_refused};

use crate::tables::{Dwell, DwellEntry};
use memory_window::Map;

impl Dwell {
    /// The first entry, from 1, of length 1, 2 or 4 whose read memory of this map refuses; none where it gives all entries.
    pub fn first_refused(&self, map: &Map) -> Option<u32>
        ensures refused { result ≡ first_refused map.now self.now.entries }
        ensures given { result ≡ None → AllPass (is_given map.now) self.now.entries }
    {
        let plan = self.plan();
        for (i, entry) in plan.entries().iter().enumerate() {
            if !is_given(map, *entry) {
                return Some(i as u32 + 1);
            }
        }
        None
    }
}

#[tactic(auto, unfolding(crate::specs::Given::is_given))]
fn is_given(map: &Map, entry: DwellEntry) -> bool
    ensures { result ≡ is_given map.now entry }
{
    if entry.len == 0 {
        return true;
    }
    if entry.len == 1 {
        return map.gives_read(8, entry.at);
    }
    if entry.len == 2 {
        return map.gives_read(16, entry.at);
    }
    map.gives_read(32, entry.at)
}
