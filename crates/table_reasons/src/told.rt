//! Faults of entries in words.
ghost use Rattle.std.specs.Prelude.{◌≡◌, ◌≤◌, ◌^◌, ◌++◌, decimal, OnOk};
ghost use Rattle.table_reasons.specs.Reasons.{by_words};
ghost use Rattle.table_reasons.specs.Told.{title_of, start_of, short_in, address_in, number_in, sentence_told, front_told, behind_told, fault_told};

use crate::reasons::{Place, ReasonWords, reason_words};
use packet_forms::{be16, behind, front};
use row_forms::{push_decimal, push_hex};
use std::alloc::AllocError;
use table_files::{EntryFault, TableKind};

/// How many reasons to refuse a file come before those of its entries (docs/FILES.md).
const HEADER_REASONS: u32 = 10;

/// Appends why an entry of a table's payload is refused, as `application monitors, entry 4: action 15 is over 11 (reason 12)`. The number
/// of the reason is that of docs/FILES.md.
#[tactic(auto, unfolding(crate::specs::Told::fault_told))]
pub fn tell_fault(
    kind: TableKind,
    payload: &[u8],
    fault: EntryFault,
    out: &mut Vec<u8>,
) -> Result<(), AllocError>
    ensures { OnOk result (out.new.items ≡ out.old.items ++ fault_told kind payload.now fault) }
{
    push_front(kind, fault.entry, out)?;
    let words = reason_words(kind, fault.reason);
    push_sentence(payload, entry_start(kind, fault.entry), words, out)?;
    push_behind(fault.reason, out)
}

/// Appends the table and the entry.
fn push_front(kind: TableKind, entry: u32, out: &mut Vec<u8>) -> Result<(), AllocError>
    ensures { OnOk result (out.new.items ≡ out.old.items ++ front_told kind entry) }
{
    push_title(kind, out)?;
    out.extend_from_slice(b", entry ")?;
    push_decimal(entry, out)?;
    out.extend_from_slice(b": ")
}

/// Appends the number of the reason.
fn push_behind(reason: u8, out: &mut Vec<u8>) -> Result<(), AllocError>
    ensures { OnOk result (out.new.items ≡ out.old.items ++ behind_told reason) }
{
    out.extend_from_slice(b" (reason ")?;
    push_decimal(u32::from(reason) + HEADER_REASONS, out)?;
    out.extend_from_slice(b")")
}

/// Appends what people call a table.
fn push_title(kind: TableKind, out: &mut Vec<u8>) -> Result<(), AllocError>
    ensures { OnOk result (out.new.items ≡ out.old.items ++ title_of kind) }
{
    match kind {
        TableKind::AppMon => out.extend_from_slice(b"application monitors"),
        TableKind::EventMon => out.extend_from_slice(b"event monitors"),
        TableKind::ExeCount => out.extend_from_slice(b"execution counters"),
        TableKind::MsgActs => out.extend_from_slice(b"message actions"),
        TableKind::Ats(n) => push_numbered(b"absolute sequence ", n, out),
        TableKind::Rts(n) => push_numbered(b"relative sequence ", n, out),
        TableKind::Dwell(n) => push_numbered(b"dwell table ", n, out),
        TableKind::Eeprom => out.extend_from_slice(b"EEPROM checksums"),
        TableKind::Memory => out.extend_from_slice(b"memory checksums"),
        TableKind::Wdt => out.extend_from_slice(b"watchpoints"),
        TableKind::Adt => out.extend_from_slice(b"actionpoints"),
    }
}

/// Appends a text and the decimal digits of a number.
fn push_numbered(text: &[u8], number: u8, out: &mut Vec<u8>) -> Result<(), AllocError>
    ensures { OnOk result (out.new.items ≡ out.old.items ++ (text.now ++ decimal number)) }
{
    out.extend_from_slice(text)?;
    push_decimal(u32::from(number), out)
}

/// Where the entry of a number begins in a payload; those of sequences have sizes of their own.
fn entry_start(kind: TableKind, entry: u32) -> usize
    ensures value { result ≡ start_of kind entry }
    ensures bound { result ≤ 2 ^ 40 }
{
    let before = (entry as usize).saturating_sub(1);
    match kind {
        TableKind::AppMon | TableKind::EventMon => 24 * before,
        TableKind::ExeCount => 22 * before,
        TableKind::MsgActs => 68 * before,
        TableKind::Ats(_) | TableKind::Rts(_) => 0,
        TableKind::Dwell(_) => 4 + 8 * before,
        TableKind::Eeprom | TableKind::Memory => 12 * before,
        TableKind::Wdt => 16 * before,
        TableKind::Adt => 40 * before,
    }
}

/// Appends why an entry is refused.
fn push_sentence(
    payload: &[u8],
    start: usize,
    words: Option<ReasonWords>,
    out: &mut Vec<u8>,
) -> Result<(), AllocError>
    requires { start ≤ 2 ^ 40 }
    ensures { OnOk result (out.new.items ≡ out.old.items
        ++ sentence_told payload.now start (by_words words)) }
{
    match words {
        Some(words) => {
            out.extend_from_slice(words.before.as_bytes())?;
            push_number(payload, start, words.place, out)?;
            out.extend_from_slice(words.behind.as_bytes())
        }
        None => out.extend_from_slice(b"it is refused"),
    }
}

/// Appends the digits of the number that is told of an entry.
fn push_number(
    payload: &[u8],
    start: usize,
    place: Place,
    out: &mut Vec<u8>,
) -> Result<(), AllocError>
    requires { start ≤ 2 ^ 40 }
    ensures { OnOk result (out.new.items ≡ out.old.items ++ number_in payload.now start place) }
{
    match place {
        Place::Nowhere => Ok(()),
        Place::Short(at) => push_short(payload, start + usize::from(at), out),
        Place::Address(at) => push_address(payload, start + usize::from(at), out),
        Place::Head(at) => push_short(payload, usize::from(at), out),
    }
}

/// Appends the digits of a number of two bytes, where the payload has them.
fn push_short(payload: &[u8], at: usize, out: &mut Vec<u8>) -> Result<(), AllocError>
    ensures { OnOk result (out.new.items ≡ out.old.items ++ short_in payload.now at) }
{
    if at >= payload.len() || payload.len() - at < 2 {
        return Ok(());
    }
    push_decimal(u32::from(be16(payload, at)), out)
}

/// Appends an address as texts of tables have it, where the payload has its four bytes.
fn push_address(payload: &[u8], at: usize, out: &mut Vec<u8>) -> Result<(), AllocError>
    ensures { OnOk result (out.new.items ≡ out.old.items ++ address_in payload.now at) }
{
    if at >= payload.len() || payload.len() - at < 4 {
        return Ok(());
    }
    out.extend_from_slice(b"0x")?;
    push_hex(front(behind(payload, at), 4), out)
}
