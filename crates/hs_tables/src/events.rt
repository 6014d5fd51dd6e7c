//! Event monitors.
ghost use Rattle.std.specs.Prelude.{◌≡◌, ◌≤◌, ◌-◌, length, slice_index_or, IfSome, IfOk, IfErr, MatchResult, Some, None};
ghost use Rattle.std.specs.List.{list_any};
ghost use Rattle.hs_tables.specs.Events.{row_at, row_reason, is_used, rows_of, rows_fault_of};
ghost use Rattle.table_files.specs.Entries.{where_well};

use packet_forms::{Name, be16};
use std::marker::Model;
use table_files::{Entry, EntryFault, read_in_place};

/// How many entries the table has.
const ENTRIES: usize = 16;

/// An entry as the table's bytes have it; its name is None where the 20 bytes of the name are no name.
#[derive(Clone, Copy, Debug, PartialEq, Eq)]
pub struct EventRow {
    pub name: Option<Name>,
    /// The event that is looked for.
    pub id: u16,
    /// What is then asked for, from 0 to 11.
    pub action: u16,
}

/// A used entry: an event monitor.
#[derive(Clone, Copy, Debug, PartialEq, Eq)]
pub struct EventEntry {
    pub name: Name,
    /// The event that is looked for.
    pub id: u16,
    /// What is then asked for, from 0 to 11.
    pub action: u16,
}

/// The table, seen as the list of its 16 entries.
#[derive(Clone, Copy, Debug)]
pub struct EventMon {
    rows: [EventRow; ENTRIES],
}

impl Model for EventMon {
    ghost use Rattle.std.specs.Prelude.{◌≡◌, List, length};
    ghost use Rattle.hs_tables.specs.declared.events.EventRow.{EventRow};
    ghost use Rattle.hs_tables.specs.Events.{AreListed};

    ghost Value = { List EventRow };

    ghost view = { λ t. t.rows };

    ghost invariant = { λ t. (length t.rows ≡ 16) × AreListed t.rows };

    ghost inverse = { λ rows. record { rows = rows } };
}

impl EventRow {
    /// An unused entry.
    pub(crate) const BLANK: EventRow = EventRow {
        name: None,
        id: 0,
        action: 0,
    };

    /// Whether the entry is used: its action isn't 0.
    pub fn is_used(&self) -> bool
        ensures { result ≡ is_used self.now }
    {
        self.action != 0
    }
}

impl EventMon {
    ghost use Rattle.hs_tables.specs.Events.{blank_row, blank_rows, entry_of, IsAble};

    /// The table of a payload of zero bytes: no entry is used.
    #[tactic(auto, unfolding(crate::specs::Events::blank_rows))]
    pub fn blank() -> EventMon
        ensures { result ≡ blank_rows }
    {
        EventMon {
            rows: [EventRow::BLANK; ENTRIES],
        }
    }

    /// Reads the table of a payload into this one, as `load_eventmon` reads it. Where an entry is refused the table stays as it was.
    #[tactic(auto, unfolding(crate::specs::Events::rows_of, crate::specs::Events::rows_fault_of))]
    pub fn read(&mut self, payload: &[u8]) -> Option<EntryFault>
        requires { length payload.now ≡ 384 }
        ensures table { self.new ≡ where_well (rows_of payload.now) self.old
            (rows_fault_of payload.now) }
        ensures fault { result ≡ rows_fault_of payload.now }
        ensures small { IfSome result (λ fault. fault.reason ≤ 2) }
    {
        read_in_place(payload, &mut self.rows)
    }

    /// How many entries there are: 16.
    #[inline(always)]
    pub fn len(&self) -> u32
        ensures count { result ≡ length self.now }
        ensures whole { result ≡ 16 }
    {
        let rows: &[EventRow] = &self.rows;
        rows.len() as u32
    }

    /// Whether an entry is used.
    pub fn has_entries(&self) -> bool
        ensures { result ≡ list_any is_used self.now }
    {
        let rows: &[EventRow] = &self.rows;
        rows.iter().any(|row| row.is_used())
    }

    /// Entry n, from 1 to 16, where it is used.
    pub fn entry(&self, n: u32) -> Option<EventEntry>
        requires { (1 ≤ n) × (n ≤ 16) }
        ensures entry { result ≡ entry_of (slice_index_or self.now (n - 1) blank_row) }
        ensures able { IfSome result IsAble }
    {
        let row = self.rows[n as usize - 1];
        if !row.is_used() {
            return None;
        }
        match row.name {
            Some(name) => Some(EventEntry {
                name,
                id: row.id,
                action: row.action,
            }),
            None => None,
        }
    }
}

/// The table of a payload of 384 bytes, or the least reason of its first faulty entry, counted from 1: 1 a used entry has no name, 2 its action is over 11, used or not.
pub fn load_eventmon(payload: &[u8]) -> Result<EventMon, EntryFault>
    requires { length payload.now ≡ 384 }
    ensures table { IfOk result (λ table. table ≡ rows_of payload.now) }
    ensures fault { MatchResult result (λ _. rows_fault_of payload.now
        ≡ None) (λ fault. rows_fault_of payload.now ≡ Some fault) }
    ensures small { IfErr result (λ fault. fault.reason ≤ 2) }
{
    let mut table = EventMon::blank();
    match table.read(payload) {
        Some(fault) => Err(fault),
        None => Ok(table),
    }
}

impl Entry for EventRow {
    ghost entry_at = { row_at };

    ghost reason_of = { row_reason };

    ghost PAYLOAD = { 384 };

    ghost ENTRIES = { 16 };

    ghost REASONS = { 2 };

    const PAYLOAD: usize = 384;

    const ENTRIES: u32 = 16;

    const REASONS: u8 = 2;

    const BLANK: EventRow = EventRow::BLANK;

    fn read(payload: &[u8], place: u32) -> EventRow {
        let from = 24 * place as usize;
        EventRow {
            name: Name::from_bytes(&payload[from..from + 20]),
            id: be16(payload, from + 20),
            action: be16(payload, from + 22),
        }
    }

    #[tactic(auto, unfolding(crate::specs::Events::row_reason))]
    fn reason(&self) -> Option<u8> {
        if self.is_used() && self.name.is_none() {
            return Some(1);
        }
        if self.action > 11 {
            return Some(2);
        }
        None
    }
}
