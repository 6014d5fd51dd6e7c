//! Checksum tables.
ghost use Rattle.std.specs.Prelude.{◌≡◌, ◌≤◌, ◌<◌, ◌-◌, length, slice_index_or, IfSome};
ghost use Rattle.cs_slices.specs.Tables.{pair_of, entry_in};
ghost use Rattle.table_files.specs.Entries.{where_well};

use std::marker::Model;
use table_files::{EntryFault, read_in_place};

/// How many entries a checksum table has.
pub(crate) const ENTRIES: usize = 16;

/// An entry of a checksum table: the `len` bytes from the address `start` on.
#[derive(Clone, Copy, Debug, PartialEq, Eq)]
pub struct Segment {
    /// 0 empty, 1 enabled, 2 disabled.
    pub state: u16,
    pub start: u32,
    pub len: u32,
}

impl Segment {
    /// An empty entry.
    pub(crate) const BLANK: Segment = Segment {
        state: 0,
        start: 0,
        len: 0,
    };
}

/// A checksum table, seen as the list of its 16 entries.
#[derive(Clone, Copy, Debug)]
pub struct Segments {
    entries: [Segment; ENTRIES],
}

impl Model for Segments {
    ghost use Rattle.std.specs.Prelude.{◌≡◌, List, length};
    ghost use Rattle.cs_slices.specs.declared.segments.Segment.{Segment};

    ghost Value = { List Segment };

    ghost view = { λ s. s.entries };

    ghost invariant = { λ s. length s.entries ≡ 16 };

    ghost inverse = { λ entries. record { entries = entries } };
}

impl Segments {
    ghost use Rattle.cs_slices.specs.Tables.{blank_segment, blank_segments, segments_of, segments_fault_of};

    /// The table of a payload of zero bytes: all entries are empty.
    #[tactic(auto, unfolding(crate::specs::Tables::blank_segments))]
    pub fn blank() -> Segments
        ensures { result ≡ blank_segments }
    {
        Segments {
            entries: [Segment::BLANK; ENTRIES],
        }
    }

    /// Reads the table of a payload into this one, as `load_segments` reads it. Where an entry is refused the table stays as it was.
    #[tactic(auto, unfolding(crate::specs::Tables::segments_of, crate::specs::Tables::segments_fault_of, table_files::specs::Entries::entries_in))]
    pub fn read(&mut self, payload: &[u8]) -> Option<EntryFault>
        requires { length payload.now ≡ 192 }
        ensures table { self.new ≡ where_well (segments_of payload.now) self.old
            (segments_fault_of payload.now) }
        ensures fault { result ≡ segments_fault_of payload.now }
        ensures small { IfSome result (λ fault. fault.reason ≤ 2) }
    {
        read_in_place(payload, &mut self.entries)
    }

    /// Entry n, from 1 to 16.
    pub fn entry(&self, n: u32) -> Segment
        requires { (1 ≤ n) × (n ≤ 16) }
        ensures entry { result ≡ slice_index_or self.now (n - 1) blank_segment }
        ensures whole { length self.now ≡ 16 }
    {
        self.entries[n as usize - 1]
    }

    /// The 16 entries.
    pub(crate) fn entries(&self) -> &[Segment; ENTRIES]
        ensures entries { result.now ≡ self.now }
        ensures whole { length self.now ≡ 16 }
    {
        &self.entries
    }
}

/// The entry in a place of the two tables, from 0 to 31.
pub(crate) fn entry_in(eeprom: &Segments, memory: &Segments, place: u8) -> Segment
    requires { place < 32 }
    ensures { result ≡ entry_in (pair_of eeprom.now memory.now) place }
{
    let first = eeprom.entries();
    let second = memory.entries();
    if place < 16 {
        return first[place as usize];
    }
    second[place as usize - 16]
}
