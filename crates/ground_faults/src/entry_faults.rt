//! All faults of a table's entries at once.

ghost use Rattle.std.specs.Prelude.{◌≡◌, List, ◌++◌, [], IfOk, OnOk};
ghost use Rattle.table_files.specs.declared.fault.EntryFault.{EntryFault};
ghost use Rattle.table_forms.specs.Judging.{refusal_of};
ghost use Rattle.ground_faults.specs.Firsts.{first_if_any, entry_refused};

use packet_forms::{be16, behind, front};
use sc_tables::load_rts;
use std::alloc::{AllocError, Global};
use table_files::{EntryFault, TableKind};
use table_forms::{PayloadForm, TableFault, find_refusal, table_layouts};

/// Where the payload of a table's file begins.
pub const PAYLOAD: usize = 116;

/// Where the header of a table says how many bytes the payload has, and where that ends.
const SIZE: usize = 72;

const SIZE_END: usize = 76;

/// How many bytes stand in front of a dwell table's entries.
const HEAD: usize = 4;

/// The most faults of a table behind its first: an absolute sequence has at most 65,536 bytes, and an entry that is taken out of it 14 and more.
const MOST_FAULTS: u32 = 4_681;

/// How many bytes an entry of an absolute sequence has in front of its packet, and how many up to the end of the packet's length.
const BEFORE_PACKET: usize = 6;

const TO_LENGTH: usize = 12;

/// How many bytes a packet has at least, and how many a relative sequence has at most.
const LEAST_PACKET: usize = 8;

const MOST_RELATIVE: usize = 2_048;

/// Where an entry stands in a payload.
#[derive(Clone, Copy, Debug)]
pub(crate) struct Span {
    pub start: usize,
    pub size: usize,
}

impl Span {
    fn end(self) -> usize {
        self.start.saturating_add(self.size)
    }
}

/// Where the entry of a number stands in the payload of a table; entry 0 of a dwell table is its head. None in a sequence, whose entries
/// have sizes of their own.
pub(crate) fn entry_span(kind: TableKind, entry: u32) -> Option<Span> {
    let before = (entry as usize).saturating_sub(1);
    match table_layouts().form(kind) {
        PayloadForm::Entries(layout) => Some(Span {
            start: layout.size.saturating_mul(before),
            size: layout.size,
        }),
        PayloadForm::Headed(layout) => Some(headed_span(layout.size, entry)),
        PayloadForm::Sequence(_, _) => None,
    }
}

/// Where an entry stands behind a head, or the head itself.
fn headed_span(size: usize, entry: u32) -> Span {
    if entry == 0 {
        return Span {
            start: 0,
            size: HEAD,
        };
    }
    let before = (entry as usize).saturating_sub(1);
    Span {
        start: HEAD.saturating_add(size.saturating_mul(before)),
        size,
    }
}

/// Makes an entry of a file an unused one, which has no fault and reads nothing.
pub fn blank_entry(kind: TableKind, entry: u32, file: &mut [u8]) {
    if let Some(span) = entry_span(kind, entry) {
        let start = PAYLOAD.saturating_add(span.start);
        let end = PAYLOAD.saturating_add(span.end());
        if start <= end && end <= file.len() {
            file[start..end].fill(0);
        }
    }
}

/// How many bytes an entry of an absolute sequence has, by the length that its packet says, where that is there.
fn command_size(bytes: &[u8]) -> Option<usize> {
    if bytes.len() < TO_LENGTH {
        return None;
    }
    let length = be16(bytes, TO_LENGTH - 2) as usize;
    Some(BEFORE_PACKET.saturating_add(length).saturating_add(7))
}

/// Where the command of a number stands in an absolute sequence, by the lengths of those before it.
fn command_span(payload: &[u8], entry: u32) -> Option<Span> {
    let mut start: usize = 0;
    'commands: for _ in 1..entry {
        match command_size(behind(payload, start)) {
            Some(size) => start = start.saturating_add(size),
            None => return None,
        }
    }
    match command_size(behind(payload, start)) {
        Some(size) => Some(Span { start, size }),
        None => None,
    }
}

/// Whether a whole command packet stands behind two bytes, as the loader of relative sequences says: their entries begin so.
fn begins_relative(bytes: &[u8]) -> bool {
    match load_rts(front(bytes, MOST_RELATIVE)) {
        Ok(_) => true,
        Err(fault) => fault.entry > 1,
    }
}

/// Where a refused command of an absolute sequence ends is known where its packet is good.
fn whole_command(payload: &[u8], entry: u32) -> Option<Span> {
    match command_span(payload, entry) {
        Some(span)
            if span.size >= BEFORE_PACKET + LEAST_PACKET
                && begins_relative(behind(payload, span.start.saturating_add(4))) => { Some(span) }
        _ => None,
    }
}

/// Says in the header of a table how many bytes its payload has.
fn set_size(file: &mut [u8]) {
    let Ok(size) = u32::try_from(file.len().saturating_sub(PAYLOAD)) else {
        return;
    };
    if SIZE_END <= file.len() {
        file[SIZE..SIZE_END].copy_from_slice(&size.to_be_bytes());
    }
}

/// Takes an entry out of a sequence's file.
fn take_out(alloc: Global, span: Span, file: &mut Vec<u8>) -> Result<(), AllocError> {
    let mut rest = Vec::new(alloc);
    rest.extend_from_slice(front(file.as_slice(), PAYLOAD.saturating_add(span.start)))?;
    rest.extend_from_slice(behind(file.as_slice(), PAYLOAD.saturating_add(span.end())))?;
    set_size(rest.as_mut_slice());
    *file = rest;
    Ok(())
}

/// What becomes of a refused entry, so that those behind it are looked at.
#[derive(Clone, Copy, Debug, PartialEq, Eq)]
enum Clearing {
    /// It is an unused one now.
    Blank,
    /// It is taken out, so that the numbers of those behind it are one less.
    TakenOut,
    /// Where it ends isn't known: nothing behind it is looked at.
    Unknown,
}

/// Clears a refused entry.
fn clear(
    alloc: Global,
    kind: TableKind,
    fault: EntryFault,
    file: &mut Vec<u8>,
) -> Result<Clearing, AllocError> {
    match kind {
        TableKind::Rts(_) => Ok(Clearing::Unknown),
        TableKind::Ats(_) => {
            match whole_command(behind(file.as_slice(), PAYLOAD), fault.entry) {
                Some(span) => {
                    take_out(alloc, span, file)?;
                    Ok(Clearing::TakenOut)
                }
                None => Ok(Clearing::Unknown),
            }
        }
        TableKind::AppMon
        | TableKind::EventMon
        | TableKind::ExeCount
        | TableKind::MsgActs
        | TableKind::Dwell(_)
        | TableKind::Eeprom
        | TableKind::Memory
        | TableKind::Wdt
        | TableKind::Adt => {
            blank_entry(kind, fault.entry, file.as_mut_slice());
            Ok(Clearing::Blank)
        }
    }
}

/// Adds the faults behind the first one.
fn clear_more(
    alloc: Global,
    first: Clearing,
    file: &mut Vec<u8>,
    faults: &mut Vec<EntryFault>,
) -> Result<(), AllocError>
    ensures { OnOk result ((more : List EntryFault)
        × (faults.new.items ≡ faults.old.items ++ more)) }
{
    let mut clearing = first;
    let mut out: u32 = 0;
    'faults: for _ in 0..MOST_FAULTS {
        match clearing {
            Clearing::Blank => {}
            Clearing::TakenOut => out = out.saturating_add(1),
            Clearing::Unknown => return Ok(()),
        }
        let Some(TableFault::Entry(kind, fault)) = find_refusal(file.as_slice()) else {
            return Ok(());
        };
        faults.push(EntryFault {
            entry: fault.entry.saturating_add(out),
            reason: fault.reason,
        })?;
        clearing = clear(alloc, kind, fault, file)?;
    }
    Ok(())
}

/// The faults of a file's entries in their order, each by its least reason; each refused entry is cleared. The entries of a table are cut by
/// their size. A command of an absolute sequence ends where its packet says, so that those behind a wrong number are found and none behind a
/// packet that is no command; of a relative sequence the first fault alone is found, since all its faults are such.
pub fn clear_faults(alloc: Global, file: &mut Vec<u8>) -> Result<Vec<EntryFault>, AllocError>
    ensures first { IfOk result (λ faults. first_if_any faults.items
        ≡ entry_refused (refusal_of file.old.items)) }
    ensures same { IfOk result (λ faults. faults.items ≡ [] → file.new.items ≡ file.old.items) }
{
    let mut faults = Vec::new(alloc);
    if let Some(TableFault::Entry(kind, fault)) = find_refusal(file.as_slice()) {
        faults.push(fault)?;
        let clearing = clear(alloc, kind, fault, file)?;
        clear_more(alloc, clearing, file, &mut faults)?;
    }
    Ok(faults)
}
