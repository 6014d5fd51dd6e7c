//! Refused entries of tables and of their texts, in words.

use crate::command_details::{CommandBefore, command_before};
use crate::entry_details::{Detail, detail_of};
use crate::entry_faults::{PAYLOAD, clear_faults};
use crate::said_entries::{SaidEntry, said_entry};
use packet_forms::behind;
use std::alloc::AllocError;
use std::str::from_utf8;
use table_files::{EntryFault, TableKind};
use table_reasons::tell_fault;

/// What the number of a refused entry's reason is over its loader's.
const ENTRY_REASONS: u32 = 10;

/// Tells a sentence of a refused entry, and what more is known of it.
fn tell_sentence<R: Eprint>(
    rt: &R,
    name: &str,
    words: &[u8],
    detail: Option<Detail>,
    fault: EntryFault,
) {
    let Ok(words) = from_utf8(words) else {
        let reason = u32::from(fault.reason).saturating_add(ENTRY_REASONS);
        let _told = eprintln!(rt; "{name}: entry {0}: reason {reason}", fault.entry);
        return;
    };
    // There is no other place to tell it.
    let _told = match detail {
        Some(detail) => eprintln!(rt; "{name}: {words}: {detail}"),
        None => eprintln!(rt; "{name}: {words}"),
    };
}

/// Tells the command before a refused one, where the fault may be its own.
fn tell_before<R: Eprint>(rt: &R, name: &str, before: Option<CommandBefore>) {
    if let Some(before) = before {
        // There is no other place to tell it.
        let _told = eprintln!(rt; "{name}: {before}");
    }
}

/// Tells why an entry of a payload is refused, and what more is known of it than its sentence says.
pub fn tell_entry<R: Eprint + AllocGlobal>(
    rt: &R,
    name: &str,
    kind: TableKind,
    payload: &[u8],
    fault: EntryFault,
) -> Result<(), AllocError> {
    let mut words = Vec::new(rt.alloc());
    tell_fault(kind, payload, fault, &mut words)?;
    let detail = detail_of(kind, payload, fault);
    tell_sentence(rt, name, words.as_slice(), detail, fault);
    tell_before(rt, name, command_before(kind, payload, fault));
    Ok(())
}

/// Tells why an entry that a text says is refused, by the place where it stands.
pub(crate) fn tell_said_entry<R: Eprint + AllocGlobal>(
    rt: &R,
    place: &str,
    kind: TableKind,
    said: &SaidEntry<'_>,
    fault: EntryFault,
) -> Result<(), AllocError> {
    let mut words = Vec::new(rt.alloc());
    tell_fault(kind, said.payload.as_slice(), fault, &mut words)?;
    tell_sentence(rt, place, words.as_slice(), said.detail, fault);
    tell_before(rt, place, said.before);
    Ok(())
}

/// Tells why entries of a table's file are refused, each of them that `clear_faults` finds.
pub fn tell_entries<R: Eprint + AllocGlobal>(
    rt: &R,
    name: &str,
    kind: TableKind,
    file: &[u8],
) -> Result<(), AllocError> {
    let mut rest = Vec::new(rt.alloc());
    rest.extend_from_slice(file)?;
    let faults = clear_faults(rt.alloc(), &mut rest)?;
    for fault in faults.as_slice() {
        tell_entry(rt, name, kind, behind(file, PAYLOAD), *fault)?;
    }
    Ok(())
}

/// Tells why an entry of a table's text is refused, with its line.
pub fn tell_said<R: Eprint + AllocGlobal>(
    rt: &R,
    name: &str,
    epoch: Option<u32>,
    kind: TableKind,
    fault: EntryFault,
    text: &[u8],
) -> Result<(), AllocError> {
    let said = said_entry(rt.alloc(), epoch, kind, fault, text)?;
    match said.line {
        Some(line) => {
            let place = format!(in rt.alloc(); "{name}: line {0}", line.number)?;
            tell_said_entry(rt, place.as_str(), kind, &said, fault)
        }
        None => tell_said_entry(rt, name, kind, &said, fault),
    }
}
