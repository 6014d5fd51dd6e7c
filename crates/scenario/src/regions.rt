//! The regions of a header, one after another.
ghost use Rattle.std.specs.Prelude.{◌≡◌, ◌≤◌, ◌<◌, ◌++◌, ◌∷◌, [], length};

use memory_window::{Kind, Region};
use std::marker::Model;

/// At most eight regions, in order.
#[derive(Drop)]
pub(crate) struct RegionList {
    places: [Region; 8],
    count: usize,
}

impl Model for RegionList {
    ghost use Rattle.std.specs.Prelude.{◌≡◌, ◌≤◌, List, length, take};
    ghost use Rattle.memory_window.specs.declared.regions.Region.{Region};

    ghost Value = { List Region };

    ghost view = { λ r. take r.count r.places };

    ghost invariant = { λ r. (r.count ≤ 8) × (length r.places ≡ 8) };
}

impl RegionList {
    pub(crate) fn new() -> Self
        ensures { result ≡ [] }
    {
        let none = Region {
            kind: Kind::Ram,
            start: 0,
            len: 0,
        };
        RegionList {
            places: [none; 8],
            count: 0,
        }
    }

    pub(crate) fn as_slice(&self) -> &[Region]
        ensures value { result.now ≡ self.now }
        ensures limit { length result.now ≤ 8 }
    {
        &self.places[..self.count]
    }

    pub(crate) fn push(&mut self, region: Region)
        requires { length self.old < 8 }
        ensures { self.new ≡ self.old ++ region ∷ [] }
    {
        self.places[self.count] = region;
        self.count += 1;
    }
}
