//! A log as rows of comma-separated fields.

ghost use Rattle.std.specs.Prelude.{◌≡◌, ◌++◌, ◌∷◌, [], ℕ, List, Some, length, map, IfOk, OnOk};
ghost use Rattle.csv.specs.Records.{fields_of, partial_of};
ghost use Rattle.csv.specs.Writing.{row_text, default_writer};
ghost use Rattle.ground_exports.specs.Rows.{fixed_columns, AreCells, IsRow, AreRowsOf};

use crate::row_cells::{Cells, line_cells, value_of};
use csv::{ByteRecord, WriterBuilder};
use ground_files::Fault;
use ground_logs::{LineMaker, Telling, write_made};
use log_lines::LogLine;
use row_forms::{Field, push_decimal};
use std::alloc::{AllocError, Global};
use std::io::{Read, Write};
use telecommands::commands;
use telemetry::telemetry_rows;

/// Adds a key that isn't there yet.
fn add_key(keys: &mut Vec<&'static str>, field: &Field) -> Result<(), AllocError> {
    if let Field::Value(key, _) = field {
        if !keys.as_slice().contains(key) {
            keys.push(*key)?;
        }
    }
    Ok(())
}

/// The keys of all fields that telemetry and telecommands have, each once.
fn field_keys(alloc: Global) -> Result<Vec<&'static str>, AllocError> {
    let mut keys = Vec::new(alloc);
    for row in telemetry_rows() {
        for field in row.fields {
            add_key(&mut keys, field)?;
        }
    }
    for command in commands() {
        for field in command.fields {
            add_key(&mut keys, field)?;
        }
    }
    Ok(keys)
}

/// The text of a row. The writer is over memory, so that want of memory is its only fault.
fn row_bytes(alloc: Global, row: &ByteRecord) -> Result<Vec<u8>, AllocError>
    ensures { IfOk result (λ text. text.items ≡ row_text default_writer (fields_of row.now)) }
{
    let mut rows = WriterBuilder::new().from_writer(Vec::new(alloc));
    let Ok(()) = rows.write_byte_record(row) else {
        return Err(AllocError);
    };
    match rows.into_inner() {
        Ok(text) => Ok(text),
        Err(_) => Err(AllocError),
    }
}

/// The names of the columns.
fn head_row(alloc: Global, keys: &[&'static str]) -> Result<ByteRecord, AllocError>
    ensures { IfOk result (λ row. fields_of row ≡ fixed_columns ++ map (λ key. key.now) keys.now) }
{
    let mut row = ByteRecord::new(alloc);
    row.push_field(b"frame")?;
    row.push_field(b"kind")?;
    row.push_field(b"application")?;
    row.push_field(b"name")?;
    row.push_field(b"pipe")?;
    row.push_field(b"cause")?;
    row.push_field(b"words")?;
    row.push_field(b"packet")?;
    for key in keys {
        row.push_field(key.as_bytes())?;
    }
    Ok(row)
}

/// The name of an application, where there is one.
fn application_text(cells: &Cells) -> &[u8] {
    match &cells.application {
        Some(name) => name.text().as_bytes(),
        None => b"",
    }
}

/// The cells in front of those of the fields.
fn fixed_cells(alloc: Global, frame: &[u8], cells: &Cells) -> Result<ByteRecord, AllocError>
    ensures cells { IfOk result (λ row. (application : List ℕ) × (fields_of row
        ≡ frame.now ∷ cells.now.kind.now ∷ application ∷ cells.now.name.items ∷ cells.now.pipe.now
        ∷ cells.now.cause.now ∷ cells.now.words.items ∷ cells.now.packet.items ∷ [])) }
    ensures partial { IfOk result (λ row. partial_of row ≡ []) }
{
    let mut row = ByteRecord::new(alloc);
    row.push_field(frame)?;
    row.push_field(cells.kind.as_bytes())?;
    row.push_field(application_text(cells))?;
    row.push_field(cells.name.as_slice())?;
    row.push_field(cells.pipe.as_bytes())?;
    row.push_field(cells.cause.as_bytes())?;
    row.push_field(cells.words.as_slice())?;
    row.push_field(cells.packet.as_slice())?;
    Ok(row)
}

/// Adds the values of the fields that have these keys.
fn push_values(keys: &[&'static str], fields: &[u8], row: &mut ByteRecord) -> Result<(), AllocError>
    requires { partial_of row.old ≡ [] }
    ensures { OnOk result ((values : List (List ℕ)) × (length values ≡ length keys.now)
        × (fields_of row.new ≡ fields_of row.old ++ values)) }
{
    for key in keys {
        row.push_field(value_of(fields, key.as_bytes()))?;
    }
    Ok(())
}

/// The cells of a line.
fn line_row(alloc: Global, keys: &[&'static str], line: &LogLine) -> Result<ByteRecord, AllocError>
    ensures { IfOk result (λ row. AreCells line.now (length keys.now) (fields_of row)) }
{
    let mut frame = Vec::new(alloc);
    push_decimal(line.frame, &mut frame)?;
    let cells = line_cells(alloc, line)?;
    let mut row = fixed_cells(alloc, frame.as_slice(), &cells)?;
    push_values(keys, cells.fields.as_slice(), &mut row)?;
    Ok(row)
}

/// Makes of each line its row, with a cell for each of these keys behind the others.
#[derive(Drop)]
pub struct Rows {
    alloc: Global,
    keys: Vec<&'static str>,
}

impl LineMaker for Rows {
    ghost use Rattle.ground_exports.specs.Rows.{IsRow};

    ghost makes = { λ rows line made. IsRow (length rows.keys.items) line made };

    fn make(&self, line: &LogLine, out: &mut Vec<u8>) -> Result<(), AllocError>
        ensures { OnOk result ((made : List ℕ) × (out.new.items ≡ out.old.items ++ made)
            × IsRow (length self.now.keys.items) line.now made) }
    {
        let row = line_row(self.alloc, self.keys.as_slice(), line)?;
        let text = row_bytes(self.alloc, &row)?;
        out.extend_from_slice(text.as_slice())?;
        Ok(())
    }
}

/// Makes a log rows, one a line, in their order, below a row with the names of the columns. Says whether all lines are a log's, as
/// `Telling::make` does.
pub fn write_rows<E: Eprint, R: Read + Drop, W: Write>(
    telling: &Telling<'_, E>,
    mut log: R,
    out: &mut W,
) -> Result<bool, Fault>
    ensures { IfOk result (λ whole. (text : List ℕ) → R.remaining log ≡ Some text
        → AreRowsOf text whole (W.contents out.old) (W.contents out.new)) }
{
    let alloc = telling.alloc;
    let keys = field_keys(alloc)?;
    let row = head_row(alloc, keys.as_slice())?;
    let head = row_bytes(alloc, &row)?;
    write_made(head.as_slice(), out)?;
    telling.make(Rows { alloc, keys }, &mut log, out)
}
