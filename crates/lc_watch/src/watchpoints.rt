//! Watchpoints.
ghost use Rattle.std.specs.Prelude.{◌≡◌, ◌≤◌, ◌-◌, length, if◌then◌else◌, Some, None, IfSome};
ghost use Rattle.lc_watch.specs.Watchpoints.{operator_of, is_used, watch_at};
ghost use Rattle.table_files.specs.Entries.{where_well};

use std::marker::Model;
use table_files::{EntryFault, read_in_place};

/// How many watchpoints the table has.
pub(crate) const WATCHPOINTS: usize = 32;

/// How a value is compared with a limit, both without a sign.
#[derive(Clone, Copy, Debug, PartialEq, Eq)]
pub enum Operator {
    Less,
    LessOrEqual,
    NotEqual,
    Equal,
    GreaterOrEqual,
    Greater,
}

/// An entry as the table's bytes have it; its operator is None where the number is no operator's.
#[derive(Clone, Copy, Debug, PartialEq, Eq)]
pub struct WatchRow {
    /// 0 unused, 1 a value of one byte, 2 of two, 3 of four.
    pub kind: u16,
    /// The message id of the packets that are watched.
    pub id: u16,
    /// The place of the value's first byte, from the packet's first.
    pub offset: u16,
    pub operator: Option<Operator>,
    /// The bits of the value that are compared.
    pub mask: u32,
    pub limit: u32,
}

/// The table of watchpoints, seen as the list of its 32 entries. (After the watchpoint definition table of the Limit Checker application
/// of NASA's Core Flight System; the layout is this project's own.)
#[derive(Clone, Copy, Debug)]
pub struct Wdt {
    rows: [WatchRow; WATCHPOINTS],
}

impl Model for Wdt {
    ghost use Rattle.std.specs.Prelude.{◌≡◌, List, length};
    ghost use Rattle.lc_watch.specs.declared.watchpoints.WatchRow.{WatchRow};

    ghost Value = { List WatchRow };

    ghost view = { λ t. t.rows };

    ghost invariant = { λ t. length t.rows ≡ 32 };

    ghost inverse = { λ rows. record { rows = rows } };
}

impl Operator {
    /// The operator of a number: 1 `<`, 2 `<=`, 3 `!=`, 4 `==`, 5 `>=`, 6 `>`.
    pub(crate) fn of(number: u16) -> Option<Operator>
        ensures { result ≡ operator_of number }
    {
        match number {
            1 => Some(Operator::Less),
            2 => Some(Operator::LessOrEqual),
            3 => Some(Operator::NotEqual),
            4 => Some(Operator::Equal),
            5 => Some(Operator::GreaterOrEqual),
            6 => Some(Operator::Greater),
            _ => None,
        }
    }
}

impl WatchRow {
    /// An unused entry.
    pub(crate) const BLANK: WatchRow = WatchRow {
        kind: 0,
        id: 0,
        offset: 0,
        operator: None,
        mask: 0,
        limit: 0,
    };

    /// Whether the entry is used: its type isn't 0.
    #[inline(always)]
    pub fn is_used(&self) -> bool
        ensures { result ≡ is_used self.now }
    {
        self.kind != 0
    }
}

impl Wdt {
    ghost use Rattle.lc_watch.specs.Watchpoints.{blank_rows, rows_of, rows_fault_of};

    /// The table of a payload of zero bytes: no entry is used.
    #[tactic(auto, unfolding(crate::specs::Watchpoints::blank_rows))]
    pub fn blank() -> Wdt
        ensures { result ≡ blank_rows }
    {
        Wdt {
            rows: [WatchRow::BLANK; WATCHPOINTS],
        }
    }

    /// Reads the table of a payload into this one, as `load_wdt` reads it. Where an entry is refused the table stays as it was.
    #[tactic(auto, unfolding(crate::specs::Watchpoints::rows_of, crate::specs::Watchpoints::rows_fault_of))]
    pub fn read(&mut self, payload: &[u8]) -> Option<EntryFault>
        requires { length payload.now ≡ 512 }
        ensures table { self.new ≡ where_well (rows_of payload.now) self.old
            (rows_fault_of payload.now) }
        ensures fault { result ≡ rows_fault_of payload.now }
        ensures small { IfSome result (λ fault. fault.reason ≤ 2) }
    {
        read_in_place(payload, &mut self.rows)
    }

    /// Entry n, from 1 to 32, where it is used.
    pub fn entry(&self, n: u32) -> Option<WatchRow>
        requires { (1 ≤ n) × (n ≤ 32) }
        ensures { result ≡ (if is_used (watch_at self.now (n - 1))
            then Some (watch_at self.now (n - 1)) else None) }
    {
        let row = self.rows[n as usize - 1];
        if row.is_used() { Some(row) } else { None }
    }

    /// The entries.
    #[inline(always)]
    pub(crate) fn rows(&self) -> &[WatchRow; WATCHPOINTS]
        ensures rows { result.now ≡ self.now }
        ensures whole { length self.now ≡ 32 }
    {
        &self.rows
    }
}
