//! Dwell tables.
ghost use Rattle.std.specs.Prelude.{◌≡◌, ◌≤◌, ◌<◌, ◌-◌, length, take, slice_index_or, slice_set, IfSome, IfNone};
ghost use Rattle.md_dwell.specs.Lists.{list_of, delays};
ghost use Rattle.md_dwell.specs.Tables.{is_length, is_aligned};

use packet_forms::be16;
use std::marker::Model;
use table_files::{EntryFault, first_fault, store_entries};

/// How many entries a dwell table has.
const ENTRIES: usize = 25;

/// An entry of a dwell table: a value of memory, and how long after its reading the next entry is read.
#[derive(Clone, Copy, Debug, PartialEq, Eq)]
pub struct DwellEntry {
    /// How many bytes the value has: 1, 2 or 4. The table's list ends before the first entry with 0.
    pub len: u16,
    /// The number of wakeups from the reading of this entry to that of the next one.
    pub delay: u16,
    /// The address of the value's first byte.
    pub at: u32,
}

/// The 25 entries of a table, with the length of their list and the list's delays together.
#[derive(Clone, Copy, Debug)]
pub(crate) struct Plan {
    entries: [DwellEntry; ENTRIES],
    count: usize,
    period: u32,
}

impl Model for Plan {
    ghost use Rattle.std.specs.Prelude.{◌≡◌, List, length};
    ghost use Rattle.md_dwell.specs.declared.tables.DwellEntry.{DwellEntry};
    ghost use Rattle.md_dwell.specs.Lists.{list_of, delays};

    ghost Value = { List DwellEntry };

    ghost view = { λ p. p.entries };

    ghost invariant = { λ p. (length p.entries ≡ 25) × (p.count ≡ length (list_of p.entries))
        × (p.period ≡ delays (list_of p.entries)) };

    ghost inverse = { λ entries. record {
      entries = entries;
      count = length (list_of entries);
      period = delays (list_of entries);
    } };
}

/// A dwell table, seen as whether it is enabled and the list of its 25 entries. (After the table of the Memory Dwell application of
/// NASA's Core Flight System; the layout is this project's own.)
#[derive(Clone, Copy, Debug)]
pub struct Dwell {
    enabled: bool,
    plan: Plan,
}

impl Model for Dwell {
    ghost use Rattle.md_dwell.specs.Tables.{DwellTable};

    ghost Value = { DwellTable };

    ghost view = { λ d. record { enabled = d.enabled; entries = d.plan } };

    ghost inverse = { λ t. record { enabled = t.enabled; plan = t.entries } };
}

impl DwellEntry {
    /// An entry of length 0.
    pub(crate) const BLANK: DwellEntry = DwellEntry {
        len: 0,
        delay: 0,
        at: 0,
    };

    /// Whether it has a length that an entry may have.
    pub(crate) fn has_length(self) -> bool
        ensures { result ≡ is_length self.len }
    {
        matches!(self.len, 0 | 1 | 2 | 4)
    }

    /// Whether its address is a multiple of its length. An entry of length 0 has no alignment to meet.
    pub(crate) fn is_aligned(self) -> bool
        ensures { result ≡ is_aligned self }
    {
        self.len == 0 || self.at % u32::from(self.len) == 0
    }
}

impl Dwell {
    ghost use Rattle.md_dwell.specs.Tables.{blank_entry, blank_table, dwell_of, dwell_fault_of};

    /// The table of these entries.
    pub(crate) fn of(enabled: bool, entries: [DwellEntry; ENTRIES]) -> Dwell
        requires { length entries ≡ 25 }
        ensures { result ≡ record { enabled = enabled; entries = entries } }
    {
        Dwell {
            enabled,
            plan: Plan::of(entries),
        }
    }

    /// The table of a payload of zero bytes: not enabled, all entries of length 0.
    #[tactic(auto, unfolding(crate::specs::Tables::blank_table))]
    pub fn blank() -> Dwell
        ensures { result ≡ blank_table }
    {
        Dwell::of(false, [DwellEntry::BLANK; ENTRIES])
    }

    /// Reads the table of a payload into this one, as `load_dwell` reads it: each entry is stored where it stays. Where an entry is refused
    /// the table stays as it was.
    pub fn read(&mut self, payload: &[u8]) -> Option<EntryFault>
        requires { length payload.now ≡ 204 }
        ensures table { IfNone result (self.new ≡ dwell_of payload.now) }
        ensures kept { IfSome result (λ _. self.new ≡ self.old) }
        ensures fault { result ≡ dwell_fault_of payload.now }
        ensures small { IfSome result (λ fault. fault.reason ≤ 3) }
    {
        let enabled = be16(payload, 0);
        if enabled > 1 {
            return Some(EntryFault {
                entry: 0,
                reason: 2,
            });
        }
        match first_fault::<DwellEntry>(payload) {
            Some(fault) => Some(fault),
            None => {
                self.store(payload);
                None
            }
        }
    }

    /// Stores the table of a payload in this one. It asks none of the entries for a fault.
    pub fn store(&mut self, payload: &[u8])
        requires { length payload.now ≡ 204 }
        ensures { self.new ≡ dwell_of payload.now }
    {
        self.enabled = be16(payload, 0) == 1;
        self.plan.read(payload);
    }

    /// Whether the enabled flag is 1.
    pub fn enabled(&self) -> bool
        ensures { result ≡ self.now.enabled }
    {
        self.enabled
    }

    /// Entry n, from 1 to 25.
    pub fn entry(&self, n: u32) -> DwellEntry
        requires { (1 ≤ n) × (n ≤ 25) }
        ensures entry { result ≡ slice_index_or self.now.entries (n - 1) blank_entry }
        ensures whole { length self.now.entries ≡ 25 }
    {
        let entries = self.plan.entries();
        entries[n as usize - 1]
    }

    /// The entries, as MD keeps them.
    pub(crate) fn plan(&self) -> Plan
        ensures { result ≡ self.now.entries }
    {
        self.plan
    }
}

impl Plan {
    ghost use Rattle.md_dwell.specs.Lists.{list_of, delays};
    ghost use Rattle.md_dwell.specs.Tables.{entries_in};

    /// The plan of these entries.
    pub(crate) fn of(entries: [DwellEntry; ENTRIES]) -> Plan
        requires { length entries ≡ 25 }
        ensures { result ≡ entries }
    {
        let count = list_len(&entries);
        Plan {
            entries,
            count,
            period: delays(&entries[..count]),
        }
    }

    /// The list of the entries.
    pub(crate) fn list(&self) -> &[DwellEntry]
        ensures list { result.now ≡ list_of self.now }
        ensures few { length result.now ≤ 25 }
    {
        &self.entries[..self.count]
    }

    /// The delays of the list together.
    pub(crate) fn period(&self) -> u32
        ensures { result ≡ delays (list_of self.now) }
    {
        self.period
    }

    /// Writes entry `number`, from 1 to 25.
    pub(crate) fn write(&mut self, number: u16, entry: DwellEntry)
        requires { (1 ≤ number) × (number ≤ 25) }
        ensures { self.new ≡ slice_set self.old (number - 1) entry }
    {
        let mut entries = self.entries;
        entries[number as usize - 1] = entry;
        *self = Plan::of(entries);
    }

    /// Reads the 25 entries of a payload of 204 bytes, each into its place.
    #[tactic(auto, unfolding(crate::specs::Tables::entries_in, table_files::specs::Entries::entries_in))]
    pub(crate) fn read(&mut self, payload: &[u8])
        requires { length payload.now ≡ 204 }
        ensures { self.new ≡ entries_in payload.now }
    {
        store_entries(payload, &mut self.entries);
        self.count = list_len(&self.entries);
        self.period = delays(&self.entries[..self.count]);
    }

    /// The 25 entries.
    pub(crate) fn entries(&self) -> &[DwellEntry; ENTRIES]
        ensures entries { result.now ≡ self.now }
        ensures whole { length self.now ≡ 25 }
    {
        &self.entries
    }
}

/// How many entries stand before the first of length 0.
fn list_len(entries: &[DwellEntry; ENTRIES]) -> usize
    ensures count { result ≡ length (list_of entries.now) }
    ensures list { take result entries.now ≡ list_of entries.now }
    ensures few { result ≤ 25 }
{
    for (i, entry) in entries.iter().enumerate() {
        if entry.len == 0 {
            return i;
        }
    }
    ENTRIES
}

/// The delays of these entries together.
fn delays(entries: &[DwellEntry]) -> u32
    requires { length entries.now ≤ 25 }
    ensures { result ≡ delays entries.now }
{
    let mut sum = 0;
    for entry in entries {
        sum += u32::from(entry.delay);
    }
    sum
}
