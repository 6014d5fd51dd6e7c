//! The headers of a file.
ghost use Rattle.std.specs.Prelude.{◌≡◌, ◌<◌, ◌≤◌, ◌+◌, ◌/◌, ◌%◌, ◌++◌, ◌∷◌, [], true, codes, length, OnOk};
ghost use Rattle.packet_forms.specs.Numbers.{be32_bytes};
ghost use Rattle.row_forms.specs.Words.{words};
ghost use Rattle.table_files.specs.Kinds.{IsKnown};
ghost use Rattle.table_forms.specs.Names.{name_of, name_field};
ghost use Rattle.table_forms.specs.Layouts.{is_open};
ghost use Rattle.table_forms.specs.Headers.{header_said, in_file, header_of, header_shown, table_file};
ghost use Rattle.table_forms.specs.Payloads.{GivesTable};

use crate::fault::{ReadError, TableFault, row_error};
use packet_forms::{are_zeros, behind, front};
use row_forms::{Field, push_zeros, read_row, show_row, split_word};
use std::alloc::AllocError;
use table_files::TableKind;

/// How many bytes of the headers have words.
const HEADER: usize = 60;

/// Reads the words of a header from the third word on: zero bytes where there are none, and else a row.
pub(crate) fn read_header(
    fields: &[Field],
    line: u32,
    behind: &[u8],
    row: &mut Vec<u8>,
) -> Result<(), ReadError>
    requires fields { is_open fields.now HEADER ≡ true }
    requires none { row.old.items ≡ [] }
    ensures { GivesTable (header_said fields.now line (words behind.now)) row.new.items result }
{
    let Some(_) = split_word(behind) else {
        return match push_zeros(HEADER, row) {
            Ok(()) => Ok(()),
            Err(error) => Err(ReadError::Memory(error)),
        };
    };
    match read_row(None, fields, 3, behind, row) {
        Ok(()) if row.len() == HEADER => Ok(()),
        Ok(()) => Err(ReadError::Fault(TableFault::Description(line))),
        Err(row_forms::ReadError::Memory(error)) => Err(ReadError::Memory(error)),
        Err(row_forms::ReadError::Row(fault)) => Err(row_error(line, fault)),
    }
}

/// Appends the bytes of a header as they stand in a file: the number behind the description has its word in front of it.
fn push_header(row: &[u8], file: &mut Vec<u8>) -> Result<(), AllocError>
    ensures { OnOk result (file.new.items ≡ file.old.items ++ in_file row.now) }
{
    file.extend_from_slice(front(row, 24))?;
    file.extend_from_slice(behind(row, 28))?;
    file.extend_from_slice(front(behind(row, 24), 4))
}

/// Appends the name of a table.
#[tactic(auto, unfolding(crate::specs::Names::name_of))]
pub(crate) fn push_name(kind: TableKind, out: &mut Vec<u8>) -> Result<(), AllocError>
    requires { IsKnown kind }
    ensures { OnOk result (out.new.items ≡ out.old.items ++ name_of kind) }
{
    match kind {
        TableKind::AppMon => out.extend_from_slice(b"HS.AppMon_Tbl"),
        TableKind::EventMon => out.extend_from_slice(b"HS.EventMon_Tbl"),
        TableKind::ExeCount => out.extend_from_slice(b"HS.ExeCount_Tbl"),
        TableKind::MsgActs => out.extend_from_slice(b"HS.MsgActs_Tbl"),
        TableKind::Ats(n) => push_numbered(b"SC.ATS_TBL", n, out),
        TableKind::Rts(n) => push_relative(n, out),
        TableKind::Dwell(n) => push_numbered(b"MD.DWELL_TABLE", n, out),
        TableKind::Eeprom => out.extend_from_slice(b"CS.DefEepromTbl"),
        TableKind::Memory => out.extend_from_slice(b"CS.DefMemoryTbl"),
        TableKind::Wdt => out.extend_from_slice(b"LC.WDT_Tbl"),
        TableKind::Adt => out.extend_from_slice(b"LC.ADT_Tbl"),
    }
}

/// Appends a name and a digit behind it.
fn push_numbered(name: &[u8], number: u8, out: &mut Vec<u8>) -> Result<(), AllocError>
    requires { number < 200 }
    ensures { OnOk result (out.new.items ≡ out.old.items ++ (name.now ++ (48 + number) ∷ [])) }
{
    out.extend_from_slice(name)?;
    out.push(48 + number)?;
    Ok(())
}

/// Appends the name of a relative sequence.
fn push_relative(number: u8, out: &mut Vec<u8>) -> Result<(), AllocError>
    requires { number ≤ 64 }
    ensures { OnOk result (out.new.items ≡ out.old.items
        ++ (codes "SC.RTS_TBL0" ++ (48 + number / 10) ∷ (48 + number % 10) ∷ [])) }
{
    out.extend_from_slice(b"SC.RTS_TBL0")?;
    out.push(b'0' + number / 10)?;
    out.push(b'0' + number % 10)?;
    Ok(())
}

/// Appends a table's file.
pub(crate) fn push_table(
    kind: TableKind,
    row: &[u8],
    payload: &[u8],
    file: &mut Vec<u8>,
) -> Result<(), AllocError>
    requires { IsKnown kind }
    ensures { OnOk result (file.new.items ≡ file.old.items ++ table_file kind row.now payload.now) }
{
    file.extend_from_slice(&[0x63, 0x46, 0x45, 0x31, 0, 0, 0, 8])?;
    push_header(row, file)?;
    file.extend_from_slice(&[0, 0, 0, 0])?;
    push_size(payload.len(), file)?;
    push_field(kind, file)?;
    file.extend_from_slice(payload)
}

/// Appends the four low bytes of a number.
#[tactic(auto, unfolding(packet_forms::specs::Numbers::be32_bytes))]
fn push_size(size: usize, file: &mut Vec<u8>) -> Result<(), AllocError>
    ensures { OnOk result (file.new.items ≡ file.old.items ++ be32_bytes size) }
{
    let [_, _, _, _, a, b, c, d] = size.to_be_bytes();
    file.extend_from_slice(&[a, b, c, d])
}

/// Appends the 40 bytes of a table's name.
fn push_field(kind: TableKind, file: &mut Vec<u8>) -> Result<(), AllocError>
    requires { IsKnown kind }
    ensures { OnOk result (file.new.items ≡ file.old.items ++ name_field kind) }
{
    let before = file.len();
    push_name(kind, file)?;
    let name = file.len() - before;
    if name < 40 {
        push_zeros(40 - name, file)?;
    }
    Ok(())
}

/// Appends the words of a file's header, each with a space in front, unless all its bytes are zero. `bytes` are those behind a file's
/// content type and subtype.
pub(crate) fn show_header(
    fields: &[Field],
    bytes: &[u8],
    row: &mut Vec<u8>,
    out: &mut Vec<u8>,
) -> Result<(), AllocError>
    requires fields { is_open fields.now HEADER ≡ true }
    requires bytes { HEADER ≤ length bytes.now }
    ensures { OnOk result (out.new.items ≡ out.old.items
        ++ header_shown fields.now (header_of bytes.now)) }
{
    put_header(bytes, row)?;
    if are_zeros(row) {
        return Ok(());
    }
    show_row(fields, row, out)
}

/// Puts the bytes of a header into the order of its words.
fn put_header(bytes: &[u8], row: &mut Vec<u8>) -> Result<(), AllocError>
    ensures { OnOk result (row.new.items ≡ header_of bytes.now) }
{
    row.clear();
    row.extend_from_slice(front(bytes, 24))?;
    row.extend_from_slice(front(behind(bytes, 56), 4))?;
    row.extend_from_slice(front(behind(bytes, 24), 32))
}
