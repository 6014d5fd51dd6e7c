//! Message actions.
ghost use Rattle.std.specs.Prelude.{◌≡◌, ◌≤◌, ◌-◌, length, slice_index_or, IfSome, IfOk, IfErr, MatchResult, Some, None};
ghost use Rattle.hs_tables.specs.Actions.{packet_in, row_at, row_reason, is_used, rows_of, rows_fault_of};
ghost use Rattle.table_files.specs.Entries.{where_well};

use packet_forms::{Packet, be16};
use std::marker::Model;
use table_files::{Entry, EntryFault, read_in_place};

/// How many entries the table has.
const ENTRIES: usize = 8;
/// How many bytes an entry has for its packet.
const AREA: usize = 64;

/// An entry as the table's bytes have it; its packet is None where no packet of at most 64 bytes begins the entry's area.
#[derive(Clone, Copy, Debug, PartialEq, Eq)]
pub struct ActRow {
    /// 0 disabled, 1 enabled, 2 enabled without an event.
    pub state: u16,
    /// How many wakeups must pass between two sendings.
    pub cooldown: u16,
    pub packet: Option<Packet>,
}

/// A used entry: a message action.
#[derive(Clone, Copy, Debug, PartialEq, Eq)]
pub struct ActEntry {
    /// 1 enabled, 2 enabled without an event.
    pub state: u16,
    /// How many wakeups must pass between two sendings.
    pub cooldown: u16,
    pub packet: Packet,
}

/// The table, seen as the list of its 8 entries, which actions 4 to 11 name.
#[derive(Clone, Copy, Debug)]
pub struct MsgActs {
    rows: [ActRow; ENTRIES],
}

impl Model for MsgActs {
    ghost use Rattle.std.specs.Prelude.{◌≡◌, List, length};
    ghost use Rattle.hs_tables.specs.declared.actions.ActRow.{ActRow};

    ghost Value = { List ActRow };

    ghost view = { λ t. t.rows };

    ghost invariant = { λ t. length t.rows ≡ 8 };

    ghost inverse = { λ rows. record { rows = rows } };
}

impl ActRow {
    /// An unused entry.
    pub(crate) const BLANK: ActRow = ActRow {
        state: 0,
        cooldown: 0,
        packet: None,
    };

    /// Whether the entry is used: its state isn't 0.
    pub fn is_used(&self) -> bool
        ensures { result ≡ is_used self.now }
    {
        self.state != 0
    }
}

impl MsgActs {
    ghost use Rattle.hs_tables.specs.Actions.{blank_row, blank_rows, entry_of};

    /// The table of a payload of zero bytes: no entry is used.
    #[tactic(auto, unfolding(crate::specs::Actions::blank_rows))]
    pub fn blank() -> MsgActs
        ensures { result ≡ blank_rows }
    {
        MsgActs {
            rows: [ActRow::BLANK; ENTRIES],
        }
    }

    /// Reads the table of a payload into this one, as `load_msgacts` reads it. Where an entry is refused the table stays as it was.
    #[tactic(auto, unfolding(crate::specs::Actions::rows_of, crate::specs::Actions::rows_fault_of))]
    pub fn read(&mut self, payload: &[u8]) -> Option<EntryFault>
        requires { length payload.now ≡ 544 }
        ensures table { self.new ≡ where_well (rows_of payload.now) self.old
            (rows_fault_of payload.now) }
        ensures fault { result ≡ rows_fault_of payload.now }
        ensures small { IfSome result (λ fault. fault.reason ≤ 5) }
    {
        read_in_place(payload, &mut self.rows)
    }

    /// Entry n, from 1 to 8, where it is used.
    pub fn entry(&self, n: u32) -> Option<ActEntry>
        requires { (1 ≤ n) × (n ≤ 8) }
        ensures { result ≡ entry_of (slice_index_or self.now (n - 1) blank_row) }
    {
        let row = self.rows[n as usize - 1];
        if !row.is_used() {
            return None;
        }
        match row.packet {
            Some(packet) => Some(ActEntry {
                state: row.state,
                cooldown: row.cooldown,
                packet,
            }),
            None => None,
        }
    }
}

/// The table of a payload of 544 bytes, or the least reason of its first faulty entry, counted from 1: 4 a used entry has no packet, 5 its state is over 2.
pub fn load_msgacts(payload: &[u8]) -> Result<MsgActs, EntryFault>
    requires { length payload.now ≡ 544 }
    ensures table { IfOk result (λ table. table ≡ rows_of payload.now) }
    ensures fault { MatchResult result (λ _. rows_fault_of payload.now
        ≡ None) (λ fault. rows_fault_of payload.now ≡ Some fault) }
    ensures small { IfErr result (λ fault. fault.reason ≤ 5) }
{
    let mut table = MsgActs::blank();
    match table.read(payload) {
        Some(fault) => Err(fault),
        None => Ok(table),
    }
}

/// The packet of at most 64 bytes that begins an entry's area, if one does.
fn packet_in(area: &[u8]) -> Option<Packet>
    requires { length area.now ≡ 64 }
    ensures { result ≡ packet_in area.now }
{
    let size = be16(area, 4) as usize + 7;
    if size > AREA {
        return None;
    }
    match Packet::from_bytes(&area[..size]) {
        Ok(packet) => Some(packet),
        Err(_) => None,
    }
}

impl Entry for ActRow {
    ghost entry_at = { row_at };

    ghost reason_of = { row_reason };

    ghost PAYLOAD = { 544 };

    ghost ENTRIES = { 8 };

    ghost REASONS = { 5 };

    const PAYLOAD: usize = 544;

    const ENTRIES: u32 = 8;

    const REASONS: u8 = 5;

    const BLANK: ActRow = ActRow::BLANK;

    fn read(payload: &[u8], place: u32) -> ActRow {
        let from = 68 * place as usize;
        ActRow {
            state: be16(payload, from),
            cooldown: be16(payload, from + 2),
            packet: packet_in(&payload[from + 4..from + 68]),
        }
    }

    #[tactic(auto, unfolding(crate::specs::Actions::row_reason))]
    fn reason(&self) -> Option<u8> {
        if self.is_used() && self.packet.is_none() {
            return Some(4);
        }
        if self.state > 2 {
            return Some(5);
        }
        None
    }
}
