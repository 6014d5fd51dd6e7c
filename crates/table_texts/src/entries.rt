//! Entries that are read from a table's text.
ghost use Rattle.std.specs.Prelude.{◌≡◌, ◌<◌, ◌≤◌, ◌+◌, ◌-◌, ◌^◌, ◌++◌, true, length, replicate, nat_le, if◌then◌else◌, IfOk, vec_len};
ghost use Rattle.row_forms.specs.Words.{words, number};
ghost use Rattle.row_forms.specs.Rows.{with_front, row_said};
ghost use Rattle.table_texts.specs.Lines.{kept_of};
ghost use Rattle.table_texts.specs.Endings.{ended, GivesText};
ghost use Rattle.table_texts.specs.Fronts.{front_said, behind_front, GivesItem};
ghost use Rattle.table_texts.specs.Entries.{is_layout, left_out, number_said, as_row, padded, values_said, row_placed, raw_said, block_placed, entry_said, table_said, placed_behind, GivesEntry};
ghost use Rattle.telecommands.specs.Commands.{are_good};

use crate::ending::{behind_end, end_of_text, error_on, row_fault, text_fault};
use crate::fault::{LineError, LineFault, TextError};
use crate::fronts::read_stored;
use crate::layout::{Layout, TableForm};
use crate::lines::next_line;
use row_forms::{Field, Reason, number, push_zeros, read_block, read_row, split_word};

/// Reads the entries behind entry `place` (0 for all) up to the line `end`, and appends their bytes, zero bytes for those that the text
/// leaves out. A line is `NUMBER KEY=VALUE ..` or `raw NUMBER HEX`, with rising numbers; lines without words and those that begin with
/// `#` are skipped. `line` is the number of the text's first line. The bytes of `scratch` are lost. What is appended where there is a fault has no meaning.
pub fn read_entries(
    form: &TableForm<'_>,
    place: usize,
    line: u32,
    text: &[u8],
    scratch: &mut Vec<u8>,
    out: &mut Vec<u8>,
) -> Result<(), TextError>
    requires commands { are_good form.now.commands.now ≡ true }
    requires layout { is_layout form.now.layout ≡ true }
    requires place { place ≤ form.now.layout.count }
    requires short { line + length text.now < 2 ^ 32 }
    ensures { GivesText (with_front out.old.items
        (table_said form.now place line (kept_of line text.now))) out.new.items result }
{
    let Some(next) = next_line(text, line) else {
        return Err(text_fault(line, LineFault::End));
    };
    if let Some(behind) = behind_end(next.bytes) {
        return end_entries(&form.layout, place, next.number, behind, next.rest, out);
    }
    match read_entry(form, place, next.bytes, scratch, out) {
        Ok(entry) => read_entries(form, entry, next.number + 1, next.rest, scratch, out),
        Err(error) => Err(error_on(next.number, error)),
    }
}

/// Ends a table: what is left are zero bytes.
fn end_entries(
    layout: &Layout,
    place: usize,
    line: u32,
    behind: &[u8],
    rest: &[u8],
    out: &mut Vec<u8>,
) -> Result<(), TextError>
    requires layout { is_layout layout.now ≡ true }
    requires place { place ≤ layout.now.count }
    requires short { line + 1 + length rest.now < 2 ^ 32 }
    ensures { GivesText (with_front out.old.items
        (ended (left_out layout.now place) line (words behind.now) (kept_of (line + 1) rest.now)))
        out.new.items result }
{
    if let Err(fault) = end_of_text(line, behind, rest) {
        return Err(TextError::Text(fault));
    }
    match push_zeros((layout.count - place) * layout.size, out) {
        Ok(()) => Ok(()),
        Err(error) => Err(TextError::Memory(error)),
    }
}

/// Reads a line: an entry behind entry `place`. Appends zero bytes for the entries between them, and its own bytes.
fn read_entry(
    form: &TableForm<'_>,
    place: usize,
    line: &[u8],
    scratch: &mut Vec<u8>,
    out: &mut Vec<u8>,
) -> Result<usize, LineError>
    requires commands { are_good form.now.commands.now ≡ true }
    requires layout { is_layout form.now.layout ≡ true }
    requires place { place ≤ form.now.layout.count }
    ensures said { GivesEntry (placed_behind out.old.items
        (entry_said form.now.epoch form.now.commands.now form.now.layout place (words line.now)))
        out.new.items result }
    ensures number { IfOk result (λ k. k ≤ form.now.layout.count) }
{
    let Some((word, rest)) = split_word(line) else {
        return Err(LineError::Fault(LineFault::Entry));
    };
    if word == b"raw".as_slice() {
        return read_raw(&form.layout, place, rest, out);
    }
    match entry_number(&form.layout, place, word) {
        Ok(entry) => read_placed(form, place, entry, rest, scratch, out),
        Err(fault) => Err(LineError::Fault(fault)),
    }
}

/// The number of an entry behind entry `place`.
fn entry_number(layout: &Layout, place: usize, word: &[u8]) -> Result<usize, LineFault>
    ensures said { result ≡ number_said layout.now place (number 65535 word.now) }
    ensures room { IfOk result (λ k. k ≤ layout.now.count) }
    ensures behind { IfOk result (λ k. place < k) }
{
    let Some(entry) = number(65_535, word) else {
        return Err(LineFault::Entry);
    };
    let entry = entry as usize;
    if entry == 0 || entry > layout.count {
        return Err(LineFault::Entry);
    }
    if entry <= place {
        return Err(LineFault::Order);
    }
    Ok(entry)
}

/// Reads the values of an entry.
fn read_placed(
    form: &TableForm<'_>,
    place: usize,
    entry: usize,
    line: &[u8],
    scratch: &mut Vec<u8>,
    out: &mut Vec<u8>,
) -> Result<usize, LineError>
    requires commands { are_good form.now.commands.now ≡ true }
    requires layout { is_layout form.now.layout ≡ true }
    requires behind { place < entry }
    requires room { entry ≤ form.now.layout.count }
    ensures said { GivesEntry (placed_behind out.old.items
        (row_placed form.now.layout place entry
        (values_said form.now.epoch form.now.commands.now form.now.layout (words line.now))))
        out.new.items result }
    ensures number { IfOk result (λ k. k ≤ form.now.layout.count) }
{
    if let Err(error) = push_zeros((entry - 1 - place) * form.layout.size, out) {
        return Err(LineError::Memory(error));
    }
    match read_values(form, line, scratch, out) {
        Ok(()) => Ok(entry),
        Err(error) => Err(error),
    }
}

/// Reads the words of an entry behind its number, and appends its bytes.
#[tactic(auto, unfolding(crate::specs::Entries::values_said))]
fn read_values(
    form: &TableForm<'_>,
    line: &[u8],
    scratch: &mut Vec<u8>,
    out: &mut Vec<u8>,
) -> Result<(), LineError>
    requires commands { are_good form.now.commands.now ≡ true }
    requires layout { is_layout form.now.layout ≡ true }
    ensures { GivesItem (with_front out.old.items
        (values_said form.now.epoch form.now.commands.now form.now.layout (words line.now)))
        out.new.items result }
{
    if form.layout.area == 0 {
        return read_fields(form.epoch, form.layout.fields, line, out);
    }
    read_area(form, line, scratch, out)
}

/// Reads the row of an entry that has no telecommand.
fn read_fields(
    epoch: Option<u32>,
    fields: &[Field],
    line: &[u8],
    out: &mut Vec<u8>,
) -> Result<(), LineError>
    requires { length fields.now < 65536 }
    ensures { GivesItem (with_front out.old.items
        (as_row (row_said epoch 2 fields.now (words line.now)))) out.new.items result }
{
    match read_row(epoch, fields, 2, line, out) {
        Ok(()) => Ok(()),
        Err(row_forms::ReadError::Memory(error)) => Err(LineError::Memory(error)),
        Err(row_forms::ReadError::Row(fault)) => Err(LineError::Fault(LineFault::Row(fault))),
    }
}

/// Reads the fields of an entry and its telecommand, and appends them with zero bytes up to the size of an entry.
fn read_area(
    form: &TableForm<'_>,
    line: &[u8],
    scratch: &mut Vec<u8>,
    out: &mut Vec<u8>,
) -> Result<(), LineError>
    requires commands { are_good form.now.commands.now ≡ true }
    requires few { length form.now.layout.fields.now ≤ 16 }
    ensures { let said = behind_front form.now.epoch form.now.commands.now
        (length form.now.layout.fields.now + 2)
        (front_said form.now.epoch 2 form.now.layout.fields.now (words line.now)) in
        GivesItem (with_front out.old.items (padded form.now.layout said)) out.new.items result }
{
    let before = out.len();
    match read_stored(
        form.epoch,
        form.commands,
        form.layout.fields,
        line,
        scratch,
        out,
    ) {
        Ok(()) => pad(before, form.layout.size, out),
        Err(error) => Err(error),
    }
}

/// Appends zero bytes, so that as many bytes stand behind the first ones as an entry has.
fn pad(before: usize, size: usize, out: &mut Vec<u8>) -> Result<(), LineError>
    requires { before ≤ vec_len out.old }
    ensures { let long = vec_len out.old - before in
        GivesItem (if nat_le long size then Ok (out.old.items ++ replicate (size - long) 0)
        else Err LineFault.Long) out.new.items result }
{
    let long = out.len() - before;
    if long > size {
        return Err(LineError::Fault(LineFault::Long));
    }
    match push_zeros(size - long, out) {
        Ok(()) => Ok(()),
        Err(error) => Err(LineError::Memory(error)),
    }
}

/// Reads what stands behind `raw`: an entry's number, and all its bytes.
fn read_raw(
    layout: &Layout,
    place: usize,
    line: &[u8],
    out: &mut Vec<u8>,
) -> Result<usize, LineError>
    requires layout { is_layout layout.now ≡ true }
    ensures said { GivesEntry (placed_behind out.old.items
        (raw_said layout.now place (words line.now))) out.new.items result }
    ensures number { IfOk result (λ k. k ≤ layout.now.count) }
{
    let Some((word, rest)) = split_word(line) else {
        return Err(row_fault(2, Reason::Missing));
    };
    match entry_number(layout, place, word) {
        Ok(entry) => read_block_at(layout, place, entry, rest, out),
        Err(fault) => Err(LineError::Fault(fault)),
    }
}

/// Reads the bytes of an entry, behind which no word stands.
fn read_block_at(
    layout: &Layout,
    place: usize,
    entry: usize,
    line: &[u8],
    out: &mut Vec<u8>,
) -> Result<usize, LineError>
    requires layout { is_layout layout.now ≡ true }
    requires behind { place < entry }
    requires room { entry ≤ layout.now.count }
    ensures said { GivesEntry (placed_behind out.old.items
        (block_placed layout.now place entry (words line.now))) out.new.items result }
    ensures number { IfOk result (λ k. k ≤ layout.now.count) }
{
    let Some((digits, rest)) = split_word(line) else {
        return Err(row_fault(3, Reason::Missing));
    };
    if split_word(rest).is_some() {
        return Err(row_fault(4, Reason::Extra));
    }
    if let Err(error) = push_zeros((entry - 1 - place) * layout.size, out) {
        return Err(LineError::Memory(error));
    }
    let before = out.len();
    match read_block(digits, out) {
        Ok(true) if out.len() - before == layout.size => Ok(entry),
        Ok(true) => Err(LineError::Fault(LineFault::Size)),
        Ok(false) => Err(row_fault(3, Reason::Block)),
        Err(error) => Err(LineError::Memory(error)),
    }
}
