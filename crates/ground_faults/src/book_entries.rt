//! Refused entries of the tables in a book, in words and with the line of the book.

ghost use Rattle.std.specs.Prelude.{◌≡◌, ◌⊎◌};
ghost use Rattle.ground_files.specs.declared.verb_status.Status.TheVariants as statuses;

use crate::book_parts::{PartText, part_texts};
use crate::command_details::CommandBefore;
use crate::hints::hint_in_book;
use crate::line_words::begins_with;
use crate::said_entries::{MOST_TEXT, SaidEntry, said_entry};
use crate::telling::tell_said_entry;
use crate::wanted::Hint;
use ground_files::{Status, tell_no_memory};
use load_books::{BookFault, book_forms};
use std::alloc::{AllocError, Global};
use table_files::{EntryFault, TableKind};
use table_forms::{ReadError, TableFault, TextForms, read_table};
use table_texts::Line;

/// What a table's times are counted from, where it is only asked whether its entries are refused: no reason speaks of a time.
const EPOCH: u32 = 0;

/// The most faults of one text: each is one of its commands or entries.
const MOST_FAULTS: u32 = 65_536;

/// What the head of a dwell table is where no fault is in it.
const GOOD_HEAD: &[u8] = b"head enabled=0 spare=0";

/// A refused entry of a table's text.
#[derive(Clone, Copy, Debug)]
struct RefusedEntry {
    kind: TableKind,
    fault: EntryFault,
}

/// The first refused entry of a table's text; none where it is refused for something else, or isn't refused.
fn refused_entry(alloc: Global, text: &[u8]) -> Result<Option<RefusedEntry>, AllocError> {
    if text.len() > MOST_TEXT {
        return Ok(None);
    }
    let book = book_forms();
    let forms = TextForms {
        epoch: Some(EPOCH),
        commands: book.commands,
        layouts: book.layouts,
    };
    match read_table(alloc, &forms, text) {
        Ok(_) => Ok(None),
        Err(ReadError::Memory(error)) => Err(error),
        Err(ReadError::Fault(TableFault::Entry(kind, fault))) => {
            Ok(Some(RefusedEntry { kind, fault }))
        }
        Err(ReadError::Fault(_)) => Ok(None),
    }
}

/// Tells why an entry in a part of a book is refused; its numbers are those of a text that has its line as the book has it.
fn tell_part_entry<R: Eprint + AllocGlobal>(
    rt: &R,
    name: &str,
    part: u32,
    said: &SaidEntry<'_>,
    refused: RefusedEntry,
) -> Result<(), AllocError> {
    let RefusedEntry { kind, fault } = refused;
    let place = match said.line {
        Some(line) => {
            let number = part.saturating_add(line.number);
            format!(in rt.alloc(); "{name}: line {number}")?
        }
        None => format!(in rt.alloc(); "{name}: part of line {part}")?,
    };
    tell_said_entry(rt, place.as_str(), kind, said, fault)
}

/// Makes a line of a text a good head of a dwell table, where there is room. Answers whether it is one.
fn mend_head(line: &mut [u8]) -> bool {
    if line.len() < GOOD_HEAD.len() {
        return false;
    }
    line.fill(b' ');
    line[..GOOD_HEAD.len()].copy_from_slice(GOOD_HEAD);
    true
}

/// Makes the line of a refused entry one that has no fault: a comment, or of a dwell table's head a good head. Answers whether it is one.
fn mend_line(refused: RefusedEntry, place: LinePlace, text: &mut [u8]) -> bool {
    let LinePlace { start, size } = place;
    if size == 0 || size > text.len() || start > text.len() - size {
        return false;
    }
    if refused.fault.entry == 0 {
        return mend_head(&mut text[start..start + size]);
    }
    text[start] = b'#';
    true
}

/// Where a line stands in a text.
#[derive(Clone, Copy, Debug)]
struct LinePlace {
    start: usize,
    size: usize,
}

/// Where a line of a text stands, behind which another one stands.
fn entry_place(text: &[u8], line: &Line<'_>) -> LinePlace {
    let size = line.bytes.len();
    let behind = line.rest.len().saturating_add(1).saturating_add(size);
    LinePlace {
        start: text.len().saturating_sub(behind),
        size,
    }
}

/// Whether a line may say several entries.
fn holds_several(kind: TableKind, line: &[u8]) -> bool {
    matches!(kind, TableKind::Ats(_) | TableKind::Rts(_)) && begins_with(line, b"raw")
}

/// The command before a refused one by its number in the text, where commands before it are comments now.
fn later(before: Option<CommandBefore>, told: u32) -> Option<CommandBefore> {
    let CommandBefore { entry, size } = before?;
    Some(CommandBefore {
        entry: entry.saturating_add(told),
        size,
    })
}

/// Tells a refused entry of a part's text, and answers where its line stands, if that is known and says it alone.
fn tell_refused<R: Eprint + AllocGlobal>(
    rt: &R,
    name: &str,
    part: u32,
    told: u32,
    found: RefusedEntry,
    text: &[u8],
) -> Result<Option<LinePlace>, AllocError> {
    let RefusedEntry { kind, fault } = found;
    let mut said = said_entry(rt.alloc(), None, kind, fault, text)?;
    said.before = later(said.before, told);
    let refused = RefusedEntry {
        kind,
        fault: numbered(kind, fault, told),
    };
    tell_part_entry(rt, name, part, &said, refused)?;
    match said.line {
        Some(line) if !holds_several(kind, line.bytes) => Ok(Some(entry_place(text, &line))),
        _ => Ok(None),
    }
}

/// Tells the first refused entry of a part's text, and mends its line. Answers whether another look may find more.
fn tell_next<R: Eprint + AllocGlobal>(
    rt: &R,
    name: &str,
    part: u32,
    told: u32,
    text: &mut [u8],
) -> Result<bool, AllocError> {
    let Some(found) = refused_entry(rt.alloc(), text)? else {
        return Ok(false);
    };
    match tell_refused(rt, name, part, told, found, text)? {
        Some(place) => Ok(mend_line(found, place, text)),
        None => Ok(false),
    }
}

/// The fault of an entry by its number in the text, where commands of a sequence before it are comments now.
fn numbered(kind: TableKind, fault: EntryFault, told: u32) -> EntryFault {
    match kind {
        TableKind::Ats(_) | TableKind::Rts(_) => EntryFault {
            entry: fault.entry.saturating_add(told),
            reason: fault.reason,
        },
        TableKind::AppMon
        | TableKind::EventMon
        | TableKind::ExeCount
        | TableKind::MsgActs
        | TableKind::Dwell(_)
        | TableKind::Eeprom
        | TableKind::Memory
        | TableKind::Wdt
        | TableKind::Adt => fault,
    }
}

/// Tells all refused entries in a table of a book.
fn tell_part<R: Eprint + AllocGlobal>(
    rt: &R,
    name: &str,
    part: &PartText<'_>,
) -> Result<(), AllocError> {
    let mut text = Vec::new(rt.alloc());
    text.extend_from_slice(part.text)?;
    'faults: for told in 0..MOST_FAULTS {
        if !tell_next(rt, name, part.line, told, text.as_mut_slice())? {
            return Ok(());
        }
    }
    Ok(())
}

/// Tells all refused entries of a book's tables.
fn tell_parts<R: Eprint + AllocGlobal>(rt: &R, name: &str, text: &[u8]) -> Result<(), AllocError> {
    let parts = part_texts(rt.alloc(), text)?;
    for part in parts.as_slice() {
        if part.is_table {
            tell_part(rt, name, part)?;
        }
    }
    Ok(())
}

/// Tells the refused entry of the table whose part begins at a line of a book.
fn tell_first<R: Eprint + AllocGlobal>(
    rt: &R,
    name: &str,
    text: &[u8],
    line: u32,
    refused: RefusedEntry,
) -> Result<(), AllocError> {
    let parts = part_texts(rt.alloc(), text)?;
    let RefusedEntry { kind, fault } = refused;
    for part in parts.as_slice() {
        if part.line == line {
            let said = said_entry(rt.alloc(), None, kind, fault, part.text)?;
            return tell_part_entry(rt, name, line, &said, refused);
        }
    }
    let unsaid = said_entry(rt.alloc(), None, kind, fault, &[])?;
    tell_part_entry(rt, name, line, &unsaid, refused)
}

/// The status of a book that is refused, once that was told: that of a refused file, unless memory ran out.
fn status_told<R: Eprint>(rt: &R, told: Result<(), AllocError>) -> Status
    ensures { (result ≡ statuses.FileRefused) ⊎ (result ≡ statuses.NoMemory) }
{
    match told {
        Ok(()) => Status::FileRefused,
        Err(_) => tell_no_memory(rt),
    }
}

/// Tells the first fault of a book, of an entry with the line of the book where it stands, and answers the status.
pub fn tell_book_fault<R: Eprint + AllocGlobal>(
    rt: &R,
    name: &str,
    text: &[u8],
    fault: &BookFault,
) -> Status
    ensures { (result ≡ statuses.FileRefused) ⊎ (result ≡ statuses.NoMemory) }
{
    if let BookFault::Table(line, TableFault::Entry(kind, fault)) = *fault {
        let told = tell_first(rt, name, text, line, RefusedEntry { kind, fault });
        return status_told(rt, told);
    }
    // There is no other place to tell it.
    let _told = match hint_in_book(text, fault) {
        Some(Hint::Cause(line, cause)) => eprintln!(rt; "{name}: line {line}: {cause}"),
        Some(hint) => eprintln!(rt; "{name}: {fault}: {hint}"),
        None => eprintln!(rt; "{name}: {fault}"),
    };
    Status::FileRefused
}

/// Tells all refused entries of a book's tables where its first fault is one, and else that fault, and answers the status.
pub fn tell_book<R: Eprint + AllocGlobal>(
    rt: &R,
    name: &str,
    text: &[u8],
    fault: &BookFault,
) -> Status
    ensures { (result ≡ statuses.FileRefused) ⊎ (result ≡ statuses.NoMemory) }
{
    if let BookFault::Table(_, TableFault::Entry(_, _)) = *fault {
        return status_told(rt, tell_parts(rt, name, text));
    }
    tell_book_fault(rt, name, text, fault)
}
