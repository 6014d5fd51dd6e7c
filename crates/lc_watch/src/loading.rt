//! The reading of the tables' payloads.
ghost use Rattle.std.specs.Prelude.{◌≡◌, ◌≤◌, ◌+◌, length, IfOk, IfErr, MatchResult, Some, None};
ghost use Rattle.lc_watch.specs.Expressions.{words_at};
ghost use Rattle.lc_watch.specs.Watchpoints as watchpoints;
ghost use Rattle.lc_watch.specs.Actionpoints as actionpoints;
ghost use Rattle.lc_watch.specs.Actionpoints.{AreAble};

use crate::actionpoints::{ActRow, Adt};
use crate::expressions::{WORDS, Word};
use crate::watchpoints::{Operator, WatchRow, Wdt};
use packet_forms::{be16, be32};
use table_files::{Entry, EntryFault};

/// The table of a payload of 512 bytes: 32 entries of type u16, message id u16, offset u16, operator u16, mask u32 and limit u32. Else the
/// least reason of its first faulty entry, counted from 1: 1 its type is over 3, 2 it is used and its operator isn't 1 to 6.
pub fn load_wdt(payload: &[u8]) -> Result<Wdt, EntryFault>
    requires { length payload.now ≡ 512 }
    ensures table { IfOk result (λ table. table ≡ watchpoints.rows_of payload.now) }
    ensures fault { MatchResult result (λ _. watchpoints.rows_fault_of payload.now
        ≡ None) (λ fault. watchpoints.rows_fault_of payload.now ≡ Some fault) }
    ensures small { IfErr result (λ fault. fault.reason ≤ 2) }
{
    let mut table = Wdt::blank();
    match table.read(payload) {
        Some(fault) => Err(fault),
        None => Ok(table),
    }
}

/// The table of a payload of 640 bytes: 16 entries of state u16, sequence u16, failures u16, size u16 and 16 words u16. Else the least
/// reason of its first faulty entry, counted from 1: 1 its state is over 2, and where it is used 2 its sequence isn't 1 to 64 or it asks
/// for no failure, 3 its expression hasn't 1 to 16 words, has one that isn't in the list, lacks an operand or doesn't leave exactly one
/// value. Each used entry of a table has an expression that leaves exactly one value, whatever the values of the watchpoints are.
pub fn load_adt(payload: &[u8]) -> Result<Adt, EntryFault>
    requires { length payload.now ≡ 640 }
    ensures table { IfOk result (λ table. table ≡ actionpoints.rows_of payload.now) }
    ensures fault { MatchResult result (λ _. actionpoints.rows_fault_of payload.now
        ≡ None) (λ fault. actionpoints.rows_fault_of payload.now ≡ Some fault) }
    ensures able { IfOk result (λ table. AreAble table) }
    ensures small { IfErr result (λ fault. fault.reason ≤ 3) }
{
    let mut table = Adt::blank();
    match table.read(payload) {
        Some(fault) => Err(fault),
        None => Ok(table),
    }
}

impl Entry for WatchRow {
    ghost entry_at = { watchpoints.row_at };

    ghost reason_of = { watchpoints.row_reason };

    ghost PAYLOAD = { 512 };

    ghost ENTRIES = { 32 };

    ghost REASONS = { 2 };

    const PAYLOAD: usize = 512;

    const ENTRIES: u32 = 32;

    const REASONS: u8 = 2;

    const BLANK: WatchRow = WatchRow::BLANK;

    fn read(payload: &[u8], place: u32) -> WatchRow {
        let from = 16 * place as usize;
        WatchRow {
            kind: be16(payload, from),
            id: be16(payload, from + 2),
            offset: be16(payload, from + 4),
            operator: Operator::of(be16(payload, from + 6)),
            mask: be32(payload, from + 8),
            limit: be32(payload, from + 12),
        }
    }

    #[tactic(auto, unfolding(crate::specs::Watchpoints::row_reason))]
    fn reason(&self) -> Option<u8> {
        if self.kind > 3 {
            return Some(1);
        }
        if self.is_used() && self.operator.is_none() {
            return Some(2);
        }
        None
    }
}

impl Entry for ActRow {
    ghost entry_at = { actionpoints.row_at };

    ghost reason_of = { actionpoints.row_reason };

    ghost PAYLOAD = { 640 };

    ghost ENTRIES = { 16 };

    ghost REASONS = { 3 };

    const PAYLOAD: usize = 640;

    const ENTRIES: u32 = 16;

    const REASONS: u8 = 3;

    const BLANK: ActRow = ActRow::BLANK;

    fn read(payload: &[u8], place: u32) -> ActRow {
        let from = 40 * place as usize;
        ActRow {
            state: be16(payload, from),
            rts: be16(payload, from + 2),
            failures: be16(payload, from + 4),
            size: be16(payload, from + 6),
            words: words_at(payload, from + 8),
        }
    }

    #[tactic(auto, unfolding(crate::specs::Actionpoints::row_reason))]
    fn reason(&self) -> Option<u8> {
        if self.state > 2 {
            return Some(1);
        }
        if !self.is_used() {
            return None;
        }
        if !self.is_startable() {
            return Some(2);
        }
        if self.is_whole() { None } else { Some(3) }
    }
}

/// The 16 words from a place of a payload on.
fn words_at(payload: &[u8], from: usize) -> [Word; WORDS]
    requires { from + 32 ≤ length payload.now }
    ensures { result ≡ words_at payload.now from }
{
    let mut words = [Word::Unknown; WORDS];
    for k in 0..WORDS {
        words[k] = Word::of(be16(payload, from + 2 * k));
    }
    words
}
