//! Actionpoints.
ghost use Rattle.std.specs.Prelude.{◌≡◌, ◌≤◌, ◌<◌, ◌-◌, length, if◌then◌else◌, Some, None, IfSome};
ghost use Rattle.lc_watch.specs.Actionpoints.{is_used, is_whole, is_startable, expression, act_at, uses_any, AreAble, AbleWhereUsed};
ghost use Rattle.table_files.specs.Entries.{where_well};

use crate::expressions::{WORDS, Word, leaves_one};
use std::marker::Model;
use table_files::{EntryFault, read_in_place};

/// How many actionpoints the table has.
pub(crate) const ACTIONPOINTS: usize = 16;

/// An entry as the table's bytes have it.
#[derive(Clone, Copy, Debug, PartialEq, Eq)]
pub struct ActRow {
    /// 0 unused, 1 active, 2 passive.
    pub state: u16,
    /// The relative sequence that it starts, 1 to 64.
    pub rts: u16,
    /// How many evaluations in a row must fail.
    pub failures: u16,
    /// How many words its expression has, 1 to 16.
    pub size: u16,
    pub words: [Word; WORDS],
}

/// The table of actionpoints, seen as the list of its 16 entries. Each used one has a sequence, a number of failures and an expression that
/// leaves exactly one value. (After the actionpoint definition table of the Limit Checker application of NASA's Core Flight System; the
/// layout is this project's own.)
#[derive(Clone, Copy, Debug)]
pub struct Adt {
    rows: [ActRow; ACTIONPOINTS],
}

impl Model for Adt {
    ghost use Rattle.std.specs.Prelude.{◌≡◌, List, length};
    ghost use Rattle.lc_watch.specs.Actionpoints.{AreAble};
    ghost use Rattle.lc_watch.specs.declared.actionpoints.ActRow.{ActRow};

    ghost Value = { List ActRow };

    ghost view = { λ t. t.rows };

    ghost invariant = { λ t. (length t.rows ≡ 16) × AreAble t.rows };

    ghost inverse = { λ rows. record { rows = rows } };
}

impl ActRow {
    /// An entry of zero bytes, which is unused.
    pub(crate) const BLANK: ActRow = ActRow {
        state: 0,
        rts: 0,
        failures: 0,
        size: 0,
        words: [Word::Watch(0); WORDS],
    };

    /// Whether the entry is used: its state isn't 0.
    #[inline(always)]
    pub fn is_used(&self) -> bool
        ensures { result ≡ is_used self.now }
    {
        self.state != 0
    }

    /// Whether it starts a sequence, 1 to 64, after some evaluations in a row.
    pub(crate) fn is_startable(&self) -> bool
        ensures { result ≡ is_startable self.now }
    {
        1 <= self.rts && self.rts <= 64 && self.failures != 0
    }

    /// Whether its expression has 1 to 16 words, lacks no operand and leaves exactly one value.
    pub(crate) fn is_whole(&self) -> bool
        ensures { result ≡ is_whole self.now }
    {
        if self.size < 1 || self.size > 16 {
            return false;
        }
        leaves_one(self.expression())
    }

    /// Its expression.
    #[inline(always)]
    pub(crate) fn expression(&self) -> &[Word]
        requires { self.now.size ≤ 16 }
        ensures words { result.now ≡ expression self.now }
        ensures few { length result.now ≤ 16 }
    {
        &self.words[..self.size as usize]
    }
}

impl Adt {
    ghost use Rattle.lc_watch.specs.Actionpoints.{blank_rows, rows_of, rows_fault_of};

    /// The table of a payload of zero bytes: no entry is used.
    #[tactic(auto, unfolding(crate::specs::Actionpoints::blank_rows))]
    pub fn blank() -> Adt
        ensures { result ≡ blank_rows }
    {
        Adt {
            rows: [ActRow::BLANK; ACTIONPOINTS],
        }
    }

    /// Reads the table of a payload into this one, as `load_adt` reads it. Where an entry is refused the table stays as it was.
    #[tactic(auto, unfolding(crate::specs::Actionpoints::rows_of, crate::specs::Actionpoints::rows_fault_of))]
    pub fn read(&mut self, payload: &[u8]) -> Option<EntryFault>
        requires { length payload.now ≡ 640 }
        ensures table { self.new ≡ where_well (rows_of payload.now) self.old
            (rows_fault_of payload.now) }
        ensures able { AreAble self.new }
        ensures fault { result ≡ rows_fault_of payload.now }
        ensures small { IfSome result (λ fault. fault.reason ≤ 3) }
    {
        read_in_place(payload, &mut self.rows)
    }

    /// Entry n, from 1 to 16, where it is used.
    pub fn entry(&self, n: u32) -> Option<ActRow>
        requires { (1 ≤ n) × (n ≤ 16) }
        ensures { result ≡ (if is_used (act_at self.now (n - 1)) then Some (act_at self.now (n - 1))
            else None) }
    {
        let row = self.rows[n as usize - 1];
        if row.is_used() { Some(row) } else { None }
    }

    /// The entry in a place, from 0.
    #[inline(always)]
    pub(crate) fn row(&self, place: usize) -> &ActRow
        requires { place < 16 }
        ensures row { result.now ≡ act_at self.now place }
        ensures able { AbleWhereUsed result.now }
    {
        &self.rows[place]
    }

    /// How many entries there are: 16.
    #[inline(always)]
    pub(crate) fn len(&self) -> usize
        ensures count { result ≡ length self.now }
        ensures whole { result ≡ 16 }
    {
        let rows: &[ActRow] = &self.rows;
        rows.len()
    }

    /// Whether an entry is used.
    pub(crate) fn uses_any(&self) -> bool
        ensures { result ≡ uses_any self.now }
    {
        let mut any = false;
        for place in 0..self.len() {
            any = any | self.row(place).is_used();
        }
        any
    }
}
