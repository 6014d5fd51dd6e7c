//! Application monitors.
ghost use Rattle.std.specs.Prelude.{◌≡◌, ◌≤◌, ◌-◌, length, slice_index_or, IfSome, IfOk, IfErr, MatchResult, Some, None};
ghost use Rattle.hs_tables.specs.Apps.{row_at, row_reason, is_used, rows_of, rows_fault_of};
ghost use Rattle.table_files.specs.Entries.{where_well};

use packet_forms::{Name, be16};
use std::marker::Model;
use table_files::{Entry, EntryFault, read_in_place};

/// How many entries the table has.
const ENTRIES: usize = 32;

/// An entry as the table's bytes have it; its name is None where the 20 bytes of the name are no name.
#[derive(Clone, Copy, Debug, PartialEq, Eq)]
pub struct AppRow {
    pub name: Option<Name>,
    /// How many unchanged checks in a row make it act.
    pub cycles: u16,
    /// What it then asks for, from 0 to 11.
    pub action: u16,
}

/// A used entry: an application monitor.
#[derive(Clone, Copy, Debug, PartialEq, Eq)]
pub struct AppEntry {
    pub name: Name,
    /// How many unchanged checks in a row make it act.
    pub cycles: u16,
    /// What it then asks for, from 0 to 11.
    pub action: u16,
}

/// The table, seen as the list of its 32 entries.
#[derive(Clone, Copy, Debug)]
pub struct AppMon {
    rows: [AppRow; ENTRIES],
}

impl Model for AppMon {
    ghost use Rattle.std.specs.Prelude.{◌≡◌, List, length};
    ghost use Rattle.hs_tables.specs.declared.apps.AppRow.{AppRow};
    ghost use Rattle.hs_tables.specs.Apps.{AreListed};

    ghost Value = { List AppRow };

    ghost view = { λ t. t.rows };

    ghost invariant = { λ t. (length t.rows ≡ 32) × AreListed t.rows };

    ghost inverse = { λ rows. record { rows = rows } };
}

impl AppRow {
    /// An unused entry.
    pub(crate) const BLANK: AppRow = AppRow {
        name: None,
        cycles: 0,
        action: 0,
    };

    /// Whether the entry is used: neither its cycle count nor its action is 0.
    pub fn is_used(&self) -> bool
        ensures { result ≡ is_used self.now }
    {
        self.cycles != 0 && self.action != 0
    }
}

impl AppMon {
    ghost use Rattle.hs_tables.specs.Apps.{blank_row, blank_rows, entry_of, IsAble};

    /// The table of a payload of zero bytes: no entry is used.
    #[tactic(auto, unfolding(crate::specs::Apps::blank_rows))]
    pub fn blank() -> AppMon
        ensures { result ≡ blank_rows }
    {
        AppMon {
            rows: [AppRow::BLANK; ENTRIES],
        }
    }

    /// Reads the table of a payload into this one, as `load_appmon` reads it. Where an entry is refused the table stays as it was.
    #[tactic(auto, unfolding(crate::specs::Apps::rows_of, crate::specs::Apps::rows_fault_of))]
    pub fn read(&mut self, payload: &[u8]) -> Option<EntryFault>
        requires { length payload.now ≡ 768 }
        ensures table { self.new ≡ where_well (rows_of payload.now) self.old
            (rows_fault_of payload.now) }
        ensures fault { result ≡ rows_fault_of payload.now }
        ensures small { IfSome result (λ fault. fault.reason ≤ 2) }
    {
        read_in_place(payload, &mut self.rows)
    }

    /// How many entries there are: 32.
    #[inline(always)]
    pub fn len(&self) -> u32
        ensures count { result ≡ length self.now }
        ensures whole { result ≡ 32 }
    {
        let rows: &[AppRow] = &self.rows;
        rows.len() as u32
    }

    /// Entry n, from 1 to 32, where it is used.
    pub fn entry(&self, n: u32) -> Option<AppEntry>
        requires { (1 ≤ n) × (n ≤ 32) }
        ensures entry { result ≡ entry_of (slice_index_or self.now (n - 1) blank_row) }
        ensures able { IfSome result IsAble }
    {
        let row = self.rows[n as usize - 1];
        if !row.is_used() {
            return None;
        }
        match row.name {
            Some(name) => Some(AppEntry {
                name,
                cycles: row.cycles,
                action: row.action,
            }),
            None => None,
        }
    }
}

/// The table of a payload of 768 bytes, or the least reason of its first faulty entry, counted from 1: 1 a used entry has no name, 2 its action is over 11, used or not.
pub fn load_appmon(payload: &[u8]) -> Result<AppMon, EntryFault>
    requires { length payload.now ≡ 768 }
    ensures table { IfOk result (λ table. table ≡ rows_of payload.now) }
    ensures fault { MatchResult result (λ _. rows_fault_of payload.now
        ≡ None) (λ fault. rows_fault_of payload.now ≡ Some fault) }
    ensures small { IfErr result (λ fault. fault.reason ≤ 2) }
{
    let mut table = AppMon::blank();
    match table.read(payload) {
        Some(fault) => Err(fault),
        None => Ok(table),
    }
}

impl Entry for AppRow {
    ghost entry_at = { row_at };

    ghost reason_of = { row_reason };

    ghost PAYLOAD = { 768 };

    ghost ENTRIES = { 32 };

    ghost REASONS = { 2 };

    const PAYLOAD: usize = 768;

    const ENTRIES: u32 = 32;

    const REASONS: u8 = 2;

    const BLANK: AppRow = AppRow::BLANK;

    fn read(payload: &[u8], place: u32) -> AppRow {
        let from = 24 * place as usize;
        AppRow {
            name: Name::from_bytes(&payload[from..from + 20]),
            cycles: be16(payload, from + 20),
            action: be16(payload, from + 22),
        }
    }

    #[tactic(auto, unfolding(crate::specs::Apps::row_reason))]
    fn reason(&self) -> Option<u8> {
        if self.is_used() && self.name.is_none() {
            return Some(1);
        }
        if self.action > 11 {
            return Some(2);
        }
        None
    }
}
