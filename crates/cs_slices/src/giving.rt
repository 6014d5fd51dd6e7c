//! Which entries the memory of a map gives.
ghost use Rattle.std.specs.Prelude.{◌≡◌, None};
ghost use Rattle.cs_slices.specs.Given.{is_given, first_refused, SegmentsGiven};

use crate::segments::{Segment, Segments};
use memory_window::Map;

impl Segments {
    /// The first entry, from 1, that isn't empty and whose bytes memory of this map refuses; none where it gives all entries.
    pub fn first_refused(&self, map: &Map) -> Option<u32>
        ensures refused { result ≡ first_refused map.now self.now }
        ensures given { result ≡ None → SegmentsGiven map.now self.now }
    {
        for (i, segment) in self.entries().iter().enumerate() {
            if !is_given(map, *segment) {
                return Some(i as u32 + 1);
            }
        }
        None
    }
}

/// Whether an entry is empty, or memory of the map gives all its bytes.
#[tactic(auto, unfolding(crate::specs::Given::is_given))]
fn is_given(map: &Map, segment: Segment) -> bool
    ensures { result ≡ is_given map.now segment }
{
    segment.state == 0 || map.gives_bytes(segment.start, segment.len)
}
