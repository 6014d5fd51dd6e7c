//! Execution counters.
ghost use Rattle.std.specs.Prelude.{◌≡◌, ◌≤◌, ◌-◌, length, slice_index_or, IfSome, IfOk, IfErr, MatchResult, Some, None};
ghost use Rattle.hs_tables.specs.Counters.{row_at, row_reason, is_used, rows_of, rows_fault_of};
ghost use Rattle.table_files.specs.Entries.{where_well};

use packet_forms::{Name, be16};
use std::marker::Model;
use table_files::{Entry, EntryFault, read_in_place};

/// How many entries the table has.
const ENTRIES: usize = 32;

/// An entry as the table's bytes have it; its name is None where the 20 bytes of the name are no name.
#[derive(Clone, Copy, Debug, PartialEq, Eq)]
pub struct CountRow {
    pub name: Option<Name>,
    /// 0 where the entry is unused; 1 to 4 are not told apart.
    pub sort: u16,
}

/// The table, seen as the list of its 32 entries.
#[derive(Clone, Copy, Debug)]
pub struct ExeCount {
    rows: [CountRow; ENTRIES],
}

impl Model for ExeCount {
    ghost use Rattle.std.specs.Prelude.{◌≡◌, List, length};
    ghost use Rattle.hs_tables.specs.declared.counters.CountRow.{CountRow};

    ghost Value = { List CountRow };

    ghost view = { λ t. t.rows };

    ghost invariant = { λ t. length t.rows ≡ 32 };

    ghost inverse = { λ rows. record { rows = rows } };
}

impl CountRow {
    /// An unused entry.
    pub(crate) const BLANK: CountRow = CountRow {
        name: None,
        sort: 0,
    };

    /// Whether the entry is used: its type isn't 0.
    pub fn is_used(&self) -> bool
        ensures { result ≡ is_used self.now }
    {
        self.sort != 0
    }
}

impl ExeCount {
    ghost use Rattle.hs_tables.specs.Counters.{blank_row, blank_rows, entry_of};

    /// The table of a payload of zero bytes: no entry is used.
    #[tactic(auto, unfolding(crate::specs::Counters::blank_rows))]
    pub fn blank() -> ExeCount
        ensures { result ≡ blank_rows }
    {
        ExeCount {
            rows: [CountRow::BLANK; ENTRIES],
        }
    }

    /// Reads the table of a payload into this one, as `load_execount` reads it. Where an entry is refused the table stays as it was.
    #[tactic(auto, unfolding(crate::specs::Counters::rows_of, crate::specs::Counters::rows_fault_of))]
    pub fn read(&mut self, payload: &[u8]) -> Option<EntryFault>
        requires { length payload.now ≡ 704 }
        ensures table { self.new ≡ where_well (rows_of payload.now) self.old
            (rows_fault_of payload.now) }
        ensures fault { result ≡ rows_fault_of payload.now }
        ensures small { IfSome result (λ fault. fault.reason ≤ 3) }
    {
        read_in_place(payload, &mut self.rows)
    }

    /// How many entries there are: 32.
    #[inline(always)]
    pub fn len(&self) -> u32
        ensures count { result ≡ length self.now }
        ensures whole { result ≡ 32 }
    {
        let rows: &[CountRow] = &self.rows;
        rows.len() as u32
    }

    /// Entry n, from 1 to 32, where it is used.
    pub fn entry(&self, n: u32) -> Option<Name>
        requires { (1 ≤ n) × (n ≤ 32) }
        ensures { result ≡ entry_of (slice_index_or self.now (n - 1) blank_row) }
    {
        let row = self.rows[n as usize - 1];
        if !row.is_used() {
            return None;
        }
        match row.name {
            Some(name) => Some(name),
            None => None,
        }
    }
}

/// The table of a payload of 704 bytes, or the least reason of its first faulty entry, counted from 1: 1 a used entry has no name, 3 its type is over 4, used or not.
pub fn load_execount(payload: &[u8]) -> Result<ExeCount, EntryFault>
    requires { length payload.now ≡ 704 }
    ensures table { IfOk result (λ table. table ≡ rows_of payload.now) }
    ensures fault { MatchResult result (λ _. rows_fault_of payload.now
        ≡ None) (λ fault. rows_fault_of payload.now ≡ Some fault) }
    ensures small { IfErr result (λ fault. fault.reason ≤ 3) }
{
    let mut table = ExeCount::blank();
    match table.read(payload) {
        Some(fault) => Err(fault),
        None => Ok(table),
    }
}

impl Entry for CountRow {
    ghost entry_at = { row_at };

    ghost reason_of = { row_reason };

    ghost PAYLOAD = { 704 };

    ghost ENTRIES = { 32 };

    ghost REASONS = { 3 };

    const PAYLOAD: usize = 704;

    const ENTRIES: u32 = 32;

    const REASONS: u8 = 3;

    const BLANK: CountRow = CountRow::BLANK;

    fn read(payload: &[u8], place: u32) -> CountRow {
        let from = 22 * place as usize;
        CountRow {
            name: Name::from_bytes(&payload[from..from + 20]),
            sort: be16(payload, from + 20),
        }
    }

    #[tactic(auto, unfolding(crate::specs::Counters::row_reason))]
    fn reason(&self) -> Option<u8> {
        if self.is_used() && self.name.is_none() {
            return Some(1);
        }
        if self.sort > 4 {
            return Some(3);
        }
        None
    }
}
