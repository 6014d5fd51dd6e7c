//! What helps to mend a fault of a text, by the line in which it stands.

ghost use Rattle.std.specs.Prelude.{◌<◌, ◌+◌, ◌^◌, length};

use crate::line_causes::line_cause;
use crate::line_words::{begins_with, word_at};
use crate::plan_causes::plan_cause;
use crate::said_entries::{MOST_TEXT, fields_of};
use crate::wanted::{Hint, Wanted, choices_of, packet_words};
use load_books::BookFault;
use load_texts::{LoadFault, asked_file, header_fields};
use plan_text::{LineReason, PlanFault, PlanReason};
use row_forms::{Field, Kind, Reason, RowFault, Spelling, Width, number, split_word};
use std::str::from_utf8;
use table_files::{FileFault, TableKind};
use table_forms::{PayloadForm, TableFault, table_kind, table_layouts};
use table_texts::{LineFault, TextFault, next_line};
use telecommands::{Command, CommandFault, commands};

/// A word that isn't what is wanted there, by the numbers of its line and of the word in it, and why.
#[derive(Clone, Copy, Debug)]
struct WrongWord {
    line: u32,
    word: usize,
    reason: Reason,
}

/// A field that has a word.
#[derive(Clone, Copy, Debug)]
struct KeyedField {
    key: &'static str,
    kind: Kind,
}

/// A table, by the name that a text has for it.
#[derive(Clone, Copy, Debug)]
struct BegunTable<'a> {
    kind: TableKind,
    name: &'a [u8],
}

/// What `load=` takes.
const LOAD_NAME: &str =
    "`load=` takes the number of a load among the FILEs, or in a book's plan the name of its part: 1 to 64 letters, digits, `_`, `.` and `-`, the first of them a letter";

/// What stands behind the name of a table or the address of a load.
const WHOLE_HEADER: &str =
    "here stand all words of a header, `length=` to `description=`, or none: the bytes are counted from the lines";

/// What stands behind `load`.
const ADDRESS: KeyedField = KeyedField {
    key: "address",
    kind: Kind::Number(Width::U32, Spelling::Hex),
};

/// A line of a text, and the table in whose text it stands.
#[derive(Clone, Copy, Debug)]
struct TableLine<'a> {
    table: Option<BegunTable<'a>>,
    bytes: &'a [u8],
}

/// The fields of a row that stands in a line, the number of its first word, and the table of which it is an entry, if it is one.
#[derive(Clone, Copy, Debug)]
struct PlacedRow<'a> {
    fields: &'static [Field],
    first: usize,
    table: Option<BegunTable<'a>>,
}

/// The table that a line `table NAME` begins.
fn begun_table(line: &[u8]) -> Option<BegunTable<'_>> {
    let Some((b"table", behind)) = split_word(line) else {
        return None;
    };
    let Some((name, _)) = split_word(behind) else {
        return None;
    };
    let kind = table_kind(name)?;
    Some(BegunTable { kind, name })
}

/// The table in whose text the lines behind this one stand, by the one in whose text it stands itself: a part of a book ends the text of a table.
fn table_behind<'a>(line: &'a [u8], table: Option<BegunTable<'a>>) -> Option<BegunTable<'a>> {
    if begins_with(line, b"part") {
        return None;
    }
    begun_table(line).or(table)
}

/// The line of this number, with the table in whose text it stands.
fn table_line(text: &[u8], wanted: u32) -> Option<TableLine<'_>>
    requires { 1 + length text.now < 2 ^ 32 }
{
    let mut rest = text;
    let mut next = 1;
    let mut table = None;
    'lines: while let Some(line) = next_line(rest, next) {
        if line.number == wanted {
            let bytes = line.bytes;
            return Some(TableLine { table, bytes });
        }
        table = table_behind(line.bytes, table);
        rest = line.rest;
        next = line.number + 1;
    }
    None
}

/// The command of this name.
fn find_command(name: &[u8]) -> Option<Command> {
    for command in commands() {
        if command.name.as_bytes() == name {
            return Some(*command);
        }
    }
    None
}

/// The row with which a line begins.
fn first_row<'a>(line: &TableLine<'a>) -> Option<PlacedRow<'a>> {
    let (word, _) = split_word(line.bytes)?;
    let (fields, first, table) = match word {
        b"table" => (table_layouts().header, 3, None),
        b"load" => (header_fields(), 3, None),
        b"head" => (table_layouts().head, 2, None),
        b"raw" => return None,
        _ => match line.table {
            Some(table) => (fields_of(table.kind, 1), 2, Some(table)),
            None => return None,
        },
    };
    Some(PlacedRow {
        fields,
        first,
        table,
    })
}

/// The row of a line that has its word of this number: that of the last command whose name stands before it, or else the one with which the
/// line begins.
fn row_with<'a>(line: &TableLine<'a>, word: usize) -> Option<PlacedRow<'a>> {
    let mut row = first_row(line);
    let mut rest = line.bytes;
    'words: for number in 1..word {
        let Some((name, behind)) = split_word(rest) else {
            return row;
        };
        if let Some(command) = find_command(name) {
            row = Some(PlacedRow {
                fields: command.fields,
                first: number.saturating_add(1),
                table: None,
            });
        }
        rest = behind;
    }
    row
}

/// A field by its place among those that have a word, from 1.
fn field_at(fields: &[Field], place: usize) -> Option<KeyedField> {
    let mut left = place;
    for field in fields {
        if let Field::Value(key, kind) = *field {
            left = left.saturating_sub(1);
            if left == 0 {
                return Some(KeyedField { key, kind });
            }
        }
    }
    None
}

/// The key with the name of its table, where it is one of an entry.
fn wanted_key<'a>(key: &'static str, table: Option<BegunTable<'a>>) -> Wanted<'a> {
    let Some(table) = table else {
        return Wanted::Key(key);
    };
    match from_utf8(table.name) {
        Ok(name) => Wanted::KeyInTable(key, name),
        Err(_) => Wanted::Key(key),
    }
}

/// What is wanted where a field's word isn't taken for this reason.
fn wanted_in<'a>(
    field: KeyedField,
    table: Option<BegunTable<'a>>,
    reason: Reason,
) -> Option<Wanted<'a>> {
    match reason {
        Reason::Key | Reason::Missing => Some(wanted_key(field.key, table)),
        Reason::Choice => Some(Wanted::Choices(field.key, choices_of(field.kind)?)),
        Reason::Expression => Some(Wanted::Steps),
        Reason::Time => Some(Wanted::Time),
        Reason::Mask => Some(Wanted::Bits),
        Reason::Number16 if field.key == "load" => Some(Wanted::Form(LOAD_NAME)),
        _ => None,
    }
}

/// What a line is that lacks a word behind its first one, or has one too many, where its keys don't say it.
fn line_form(first: &[u8], wrong: WrongWord) -> Option<&'static str> {
    match wrong.reason {
        Reason::Missing if wrong.word == 2 => lone_form(first),
        Reason::Missing | Reason::Extra if first == b"end".as_slice() => {
            Some("`end`, or in a plan `end at TIME`")
        }
        Reason::Missing | Reason::Extra if first == b"epoch".as_slice() => {
            Some("`epoch N`, or in a plan `epoch N is DATE`")
        }
        Reason::Missing | Reason::Key if first == b"load".as_slice() && wrong.word > 2 => {
            Some(WHOLE_HEADER)
        }
        Reason::Missing | Reason::Key if first == b"table".as_slice() => Some(WHOLE_HEADER),
        _ => None,
    }
}

/// What a line is that has no second word, by its first one.
fn lone_form(first: &[u8]) -> Option<&'static str> {
    match first {
        b"at" => Some(
            "`at TIME`, as a second of the processor's clock, +H:MM:SS behind the epoch, or a date or a time of day where `epoch` has one",
        ),
        b"frame" => Some("`frame N`, with the number of a frame"),
        b"send" => Some(
            "`send NAME KEY=VALUE ..`, or the hexadecimal digits of a packet behind `send`",
        ),
        b"bytes" => Some("`bytes HEX`, with pairs of hexadecimal digits"),
        _ => None,
    }
}

/// What is wanted at a word of a line.
fn wanted_at<'a>(line: &TableLine<'a>, wrong: WrongWord) -> Option<Wanted<'a>> {
    let (first, _) = split_word(line.bytes)?;
    if first == b"load".as_slice() && wrong.word == 2 {
        return wanted_in(ADDRESS, None, wrong.reason);
    }
    if let Some(form) = line_form(first, wrong) {
        return Some(Wanted::Form(form));
    }
    let row = row_with(line, wrong.word)?;
    if row.first > wrong.word {
        return None;
    }
    let place = (wrong.word - row.first).saturating_add(1);
    wanted_in(field_at(row.fields, place)?, row.table, wrong.reason)
}

/// The line of a text, with the table in whose text it stands.
fn line_at(text: &[u8], number: u32) -> Option<TableLine<'_>> {
    if text.len() > MOST_TEXT {
        return None;
    }
    table_line(text, number)
}

/// What is wanted where a word isn't taken.
fn hint_of_word(text: &[u8], line: u32, fault: RowFault) -> Option<Hint<'_>> {
    let RowFault { word, reason } = fault;
    let found = line_at(text, line)?;
    let wrong = WrongWord { line, word, reason };
    Some(Hint::Wanted(wanted_at(&found, wrong)?))
}

/// Whether a word is hexadecimal digits that aren't pairs.
fn is_unpaired(word: &[u8]) -> bool {
    word.len() > 1 && word.len() % 2 != 0 && word.iter().all(|byte| byte.is_ascii_hexdigit())
}

/// What is wanted where a word is no name of a command.
fn hint_of_name(text: &[u8], line: u32, word: usize) -> Option<Hint<'_>> {
    let found = line_at(text, line)?;
    if is_unpaired(word_at(found.bytes, word.saturating_sub(1))) {
        return Some(Hint::Wanted(Wanted::Pairs));
    }
    Some(Hint::Wanted(Wanted::Command))
}

/// What is wanted where the words of a command aren't taken.
fn hint_of_command(text: &[u8], line: u32, fault: CommandFault) -> Option<Hint<'_>> {
    match fault {
        CommandFault::Row(fault) => hint_of_word(text, line, fault),
        CommandFault::Packet(_, fault) => Some(Hint::Wanted(Wanted::Packet(packet_words(fault)))),
        CommandFault::Name(word) => hint_of_name(text, line, word),
        CommandFault::Long => Some(Hint::Wanted(Wanted::Payload)),
    }
}

/// How many entries a table has; none where it is a sequence.
fn entry_count(kind: TableKind) -> Option<usize> {
    match table_layouts().form(kind) {
        PayloadForm::Entries(layout) | PayloadForm::Headed(layout) => Some(layout.count),
        PayloadForm::Sequence(_, _) => None,
    }
}

/// Which numbers the entries have of the table in whose text a line stands that begins with another number.
fn hint_of_entry(text: &[u8], line: u32) -> Option<Hint<'_>> {
    let found = line_at(text, line)?;
    let (first, _) = split_word(found.bytes)?;
    let _number = number(u32::MAX, first)?;
    let table = found.table?;
    match from_utf8(table.name) {
        Ok(name) => Some(Hint::Wanted(Wanted::Entries(name, entry_count(table.kind)?))),
        Err(_) => None,
    }
}

/// How many bytes an entry of a table has, without the head that stands in front of them all.
fn entry_bytes(kind: TableKind) -> Option<usize> {
    match table_layouts().form(kind) {
        PayloadForm::Entries(layout) | PayloadForm::Headed(layout) => Some(layout.size),
        PayloadForm::Sequence(_, _) => None,
    }
}

/// How many bytes an entry has in whose line other ones stand behind `raw`.
fn hint_of_bytes(text: &[u8], line: u32) -> Option<Hint<'_>> {
    let found = line_at(text, line)?;
    let table = found.table?;
    let wanted = entry_bytes(table.kind)?;
    let there = word_at(found.bytes, 2).len() / 2;
    match from_utf8(table.name) {
        Ok(name) => Some(Hint::Wanted(Wanted::EntryBytes(name, wanted, there))),
        Err(_) => None,
    }
}

/// What helps to mend a fault in a line of a table's or a load's text.
fn hint_of_line(text: &[u8], fault: TextFault) -> Option<Hint<'_>> {
    match fault.fault {
        LineFault::Row(row) => hint_of_word(text, fault.line, row),
        LineFault::Command(command) => hint_of_command(text, fault.line, command),
        LineFault::Entry => hint_of_entry(text, fault.line),
        LineFault::Size => hint_of_bytes(text, fault.line),
        LineFault::Long => Some(Hint::Wanted(Wanted::ActionPacket)),
        _ => None,
    }
}

/// What helps to mend a fault in the text of a table.
pub fn hint_in_table<'a>(text: &'a [u8], fault: &TableFault) -> Option<Hint<'a>> {
    match *fault {
        TableFault::Text(fault) => hint_of_line(text, fault),
        TableFault::Name(_) => Some(Hint::Wanted(Wanted::Table)),
        TableFault::Head(_) => Some(Hint::Wanted(Wanted::Head)),
        TableFault::File(FileFault::Size) => Some(Hint::Wanted(Wanted::Sequence)),
        _ => None,
    }
}

/// The file whose bytes a text asks for.
fn loaded_file(text: &[u8]) -> Option<Wanted<'_>> {
    if text.len() > MOST_TEXT {
        return None;
    }
    let asked = asked_file(text)?;
    match from_utf8(asked.path) {
        Ok(path) => Some(Wanted::Loaded(asked.line, path)),
        Err(_) => None,
    }
}

/// Where the bytes of a load come from, or should, that are too few or too many.
fn hint_of_size(text: &[u8], size: usize) -> Option<Hint<'_>> {
    if let Some(loaded) = loaded_file(text) {
        return Some(Hint::Wanted(loaded));
    }
    if size == 0 {
        return Some(Hint::Wanted(Wanted::Bytes));
    }
    None
}

/// What helps to mend a fault in the text of a load.
pub fn hint_in_load<'a>(text: &'a [u8], fault: &LoadFault) -> Option<Hint<'a>> {
    match *fault {
        LoadFault::Text(fault) => hint_of_line(text, fault),
        LoadFault::Size(size) => hint_of_size(text, size),
        _ => None,
    }
}

/// Where a line of a plan stands that is out of its place.
fn hint_of_place(text: &[u8], line: u32) -> Option<Hint<'_>> {
    let found = line_at(text, line)?;
    Some(Hint::Wanted(Wanted::Form(place_form(word_at(found.bytes, 0)))))
}

/// Where the lines of a plan stand that begin with a word.
fn place_form(word: &[u8]) -> &'static str {
    match word {
        b"epoch" => "`epoch` stands once, before all other lines",
        b"region" | b"start" => {
            "`epoch`, the regions and one `start` stand in this order: `epoch` may be missing before this line"
        }
        _ => {
            "it stands behind `epoch`, the regions and `start`: one of these may be missing before this line"
        }
    }
}

/// What helps to mend a fault in a plan.
pub fn hint_in_plan<'a>(text: &'a [u8], fault: &PlanFault) -> Option<Hint<'a>> {
    let line = fault.line;
    match fault.reason {
        PlanReason::Row(row) => hint_of_word(text, line, row),
        PlanReason::Command(command) => hint_of_command(text, line, command),
        PlanReason::Place => hint_of_place(text, line),
        PlanReason::Line(reason) => {
            let found = line_at(text, line)?;
            Some(Hint::Cause(line, plan_cause(text, line, reason, found.bytes)?))
        }
        _ => None,
    }
}

/// The number of the reason for which the program refuses a line of a scenario (docs/SCENARIO.md).
fn number_of(reason: LineReason) -> u8 {
    match reason {
        LineReason::Words => 1,
        LineReason::Number => 2,
        LineReason::Packet => 3,
        LineReason::Map => 4,
        LineReason::Items => 5,
        LineReason::Long => 6,
        LineReason::Unended => 7,
    }
}

/// What helps to mend a fault in a scenario.
pub fn hint_in_scenario(text: &[u8], number: u32, reason: LineReason) -> Option<Hint<'_>> {
    let line = line_at(text, number)?;
    let cause = line_cause(text, number, number_of(reason), line.bytes);
    Some(Hint::Cause(number, cause))
}

/// What helps to mend a fault in a part of a book.
pub fn hint_in_book<'a>(text: &'a [u8], fault: &BookFault) -> Option<Hint<'a>> {
    match fault {
        BookFault::Table(_, fault) => hint_in_table(text, fault),
        BookFault::Load(_, fault) => hint_in_load(text, fault),
        BookFault::Plan(_, fault) => hint_in_plan(text, fault),
        BookFault::Line(_, _) => None,
    }
}
