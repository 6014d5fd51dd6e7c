//! Files of tables that are read from text.
ghost use Rattle.std.specs.Prelude.{◌≡◌, ◌<◌, ◌+◌, ◌^◌, [], true, length, IfOk, Ok};
ghost use Rattle.table_files.specs.Kinds.{IsKnown};
ghost use Rattle.telecommands.specs.Commands.{are_good};
ghost use Rattle.table_texts.specs.Lines.{kept_of};
ghost use Rattle.table_forms.specs.Layouts.{are_layouts};
ghost use Rattle.table_forms.specs.Reading.{first_said, first_of, first_filed, file_said, table_said, GivesFirst, GivesFile, IsTakenAs};
ghost use Rattle.table_forms.specs.Payloads.{GivesTable};

use crate::fault::{ReadError, TableFault};
use crate::forms::TextForms;
use crate::headers::{push_table, read_header};
use crate::judging::find_refusal;
use crate::names::table_kind;
use crate::payloads::{behind_word, read_payload};
use row_forms::split_word;
use std::alloc::Global;
use table_files::TableKind;
use table_texts::next_line;

/// The first line of a table's text: the table's kind, the line's number, what stands behind the name, and the text behind the line.
#[derive(Clone, Copy, Debug)]
struct FirstLine<'a> {
    kind: TableKind,
    number: u32,
    words: &'a [u8],
    rest: &'a [u8],
}

/// Reads the first line of a table's text.
fn read_first(text: &[u8]) -> Result<FirstLine<'_>, TableFault>
    requires { 1 + length text.now < 2 ^ 32 }
    ensures said { GivesFirst (first_said (kept_of 1 text.now)) result }
    ensures known { IfOk result (λ line. IsKnown line.kind) }
    ensures room { IfOk result (λ line. line.number + 1 + length line.rest.now < 2 ^ 32) }
{
    let Some(next) = next_line(text, 1) else {
        return Err(TableFault::Table(1));
    };
    let Some(behind) = behind_word(b"table", next.bytes) else {
        return Err(TableFault::Table(next.number));
    };
    let Some((name, words)) = split_word(behind) else {
        return Err(TableFault::Name(next.number));
    };
    match table_kind(name) {
        Some(kind) => Ok(FirstLine {
            kind,
            number: next.number,
            words,
            rest: next.rest,
        }),
        None => Err(TableFault::Name(next.number)),
    }
}

/// Reads the text of a table into the bytes of its file. The first line is `table NAME`, and behind the name the row of a header where
/// it isn't zero: `length=0 spacecraft=0 processor=0 application=0 seconds=0 subseconds=0 reserved=0x00000000 description=HEX`, whose
/// description has 32 bytes. A dwell table has a line `head enabled=0 spare=0` behind it. Then come the table's entries or a sequence's
/// commands, and `end`. The file is judged by the readers of files and of entries that the program uses.
pub fn read_table(alloc: Global, forms: &TextForms<'_>, text: &[u8]) -> Result<Vec<u8>, ReadError>
    requires commands { are_good forms.now.commands.now ≡ true }
    requires layouts { are_layouts forms.now.layouts.now ≡ true }
    requires short { 1 + length text.now < 2 ^ 32 }
    ensures said { GivesFile (table_said forms.now text.now) result }
    ensures accepted { IfOk result (λ file. IsTakenAs
        (first_said (kept_of 1 text.now)) file.items) }
{
    let mut file = Vec::new(alloc);
    match read_file_of(alloc, forms, text, &mut file) {
        Ok(()) => match find_refusal(&file) {
            Some(fault) => Err(ReadError::Fault(fault)),
            None => Ok(file),
        },
        Err(error) => Err(error),
    }
}

/// Reads the text of a table into the bytes of its file, taken or not.
fn read_file_of(
    alloc: Global,
    forms: &TextForms<'_>,
    text: &[u8],
    file: &mut Vec<u8>,
) -> Result<(), ReadError>
    requires commands { are_good forms.now.commands.now ≡ true }
    requires layouts { are_layouts forms.now.layouts.now ≡ true }
    requires short { 1 + length text.now < 2 ^ 32 }
    requires none { file.old.items ≡ [] }
    ensures { GivesTable (file_said forms.now text.now) file.new.items result }
{
    match read_first(text) {
        Ok(first) => read_behind(alloc, forms, &first, file),
        Err(fault) => Err(ReadError::Fault(fault)),
    }
}

/// Reads what stands behind the name of a table, and appends the bytes of its file.
fn read_behind(
    alloc: Global,
    forms: &TextForms<'_>,
    first: &FirstLine<'_>,
    file: &mut Vec<u8>,
) -> Result<(), ReadError>
    requires commands { are_good forms.now.commands.now ≡ true }
    requires layouts { are_layouts forms.now.layouts.now ≡ true }
    requires known { IsKnown first.now.kind }
    requires short { first.now.number + 1 + length first.now.rest.now < 2 ^ 32 }
    requires none { file.old.items ≡ [] }
    ensures { GivesTable (first_filed forms.now (Ok (first_of first.now))) file.new.items result }
{
    let layouts = forms.layouts;
    let mut row = Vec::new(alloc);
    if let Err(error) = read_header(layouts.header, first.number, first.words, &mut row) {
        return Err(error);
    }
    let form = layouts.form(first.kind);
    let mut scratch = Vec::new(alloc);
    let mut payload = Vec::new(alloc);
    let line = first.number + 1;
    match read_payload(forms, form, line, first.rest, &mut scratch, &mut payload) {
        Ok(()) => match push_table(first.kind, &row, &payload, file) {
            Ok(()) => Ok(()),
            Err(error) => Err(ReadError::Memory(error)),
        },
        Err(error) => Err(error),
    }
}
