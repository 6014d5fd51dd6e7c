//! What the line of an entry says in a table's text.

use crate::command_details::CommandBefore;
use crate::entry_details::{Detail, detail_of};
use crate::entry_faults::entry_span;
use crate::said_raws::raw_entry;
use entry_lines::entry_line;
use row_forms::{Field, ReadError, push_zeros, read_block, read_row, split_word};
use std::alloc::{AllocError, Global};
use table_files::{EntryFault, TableKind};
use table_forms::{PayloadForm, table_layouts};
use table_texts::Line;

/// The most bytes of a text: lines are counted in 32 bits.
pub(crate) const MOST_TEXT: usize = 4_294_967_294;

/// How many fields an entry has at most.
const MOST_FIELDS: usize = 16;

/// The fields that stand in the line of an entry.
pub(crate) fn fields_of(kind: TableKind, entry: u32) -> &'static [Field] {
    let layouts = table_layouts();
    match layouts.form(kind) {
        PayloadForm::Entries(layout) => layout.fields,
        PayloadForm::Headed(_) if entry == 0 => layouts.head,
        PayloadForm::Headed(layout) => layout.fields,
        PayloadForm::Sequence(fields, _) => fields,
    }
}

/// Appends the bytes that a line `raw NUMBER HEX` says behind its first word.
fn read_raw(words: &[u8], out: &mut Vec<u8>) -> Result<(), AllocError> {
    if let Some((_, rest)) = split_word(words) {
        if let Some((digits, _)) = split_word(rest) {
            let _is_block = read_block(digits, out)?;
        }
    }
    Ok(())
}

/// Appends the bytes that the line of an entry says by its fields.
fn read_line(
    epoch: Option<u32>,
    fields: &[Field],
    line: &[u8],
    out: &mut Vec<u8>,
) -> Result<(), AllocError> {
    let Some((word, rest)) = split_word(line) else {
        return Ok(());
    };
    if word == b"raw".as_slice() {
        return read_raw(rest, out);
    }
    if fields.len() > MOST_FIELDS {
        return Ok(());
    }
    match read_row(epoch, fields, 2, rest, out) {
        Err(ReadError::Memory(error)) => Err(error),
        // A telecommand may stand behind the fields.
        _ => Ok(()),
    }
}

/// A refused entry that a text says: its line, where that is known, a payload that has the entry in its place, which is empty of a sequence,
/// what more is known of it than its sentence says, and the command before it where the fault may be that one's.
#[derive(Drop)]
pub(crate) struct SaidEntry<'a> {
    pub line: Option<Line<'a>>,
    pub payload: Vec<u8>,
    pub detail: Option<Detail>,
    pub before: Option<CommandBefore>,
}

/// The line of an entry in a table's text.
fn line_of(kind: TableKind, entry: u32, text: &[u8]) -> Option<Line<'_>> {
    if text.len() > MOST_TEXT {
        return None;
    }
    entry_line(kind, entry, text)
}

/// The refused entry of a sequence, which no line `command` says: the line `raw` in which it begins, if there is one.
fn said_in_raw<'a>(
    alloc: Global,
    kind: TableKind,
    fault: EntryFault,
    text: &'a [u8],
) -> Result<SaidEntry<'a>, AllocError> {
    let payload = Vec::new(alloc);
    match raw_entry(alloc, kind, fault, text)? {
        Some(raw) => Ok(SaidEntry {
            line: Some(raw.line),
            payload,
            detail: raw.detail,
            before: raw.before,
        }),
        None => Ok(SaidEntry {
            line: None,
            payload,
            detail: None,
            before: None,
        }),
    }
}

/// The refused entry that the text of a table says.
pub(crate) fn said_entry<'a>(
    alloc: Global,
    epoch: Option<u32>,
    kind: TableKind,
    fault: EntryFault,
    text: &'a [u8],
) -> Result<SaidEntry<'a>, AllocError> {
    let Some(line) = line_of(kind, fault.entry, text) else {
        return said_in_raw(alloc, kind, fault, text);
    };
    let mut payload = Vec::new(alloc);
    if let Some(span) = entry_span(kind, fault.entry) {
        push_zeros(span.start, &mut payload)?;
        read_line(
            epoch,
            fields_of(kind, fault.entry),
            line.bytes,
            &mut payload,
        )?;
    }
    let detail = detail_of(kind, payload.as_slice(), fault);
    Ok(SaidEntry {
        line: Some(line),
        payload,
        detail,
        before: None,
    })
}
