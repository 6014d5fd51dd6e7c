//! The headers of a file to be loaded.
ghost use Rattle.std.specs.Prelude.{◌≡◌, ◌≤◌, ◌++◌, [], true, false, length, map, OnOk, MatchOption};
ghost use Rattle.row_forms.specs.Words.{words};
ghost use Rattle.table_texts.specs.Endings.{behind_first};
ghost use Rattle.load_texts.specs.Headers.{begins, is_header, placed_field, all_fields, header_said, header_shown};
ghost use Rattle.load_texts.specs.Loaded.{GivesLoaded};
ghost use Rattle.packet_forms.specs.Numbers.{be32_bytes};
ghost use Rattle.load_texts.specs.Loads.{first_header, load_of, load_row};

use crate::fault::{LoadFault, ReadError, line_error};
use packet_forms::{are_zeros, behind, crc16, front};
use row_forms::{Field, Kind, Spelling, Width, push_zeros, read_row, show_row, split_word};
use std::alloc::AllocError;
use table_texts::LineFault;

/// How many bytes of the headers have words, beside the address.
const HEADER: usize = 60;

const COUNT: Kind = Kind::Number(Width::U32, Spelling::Decimal);

static FIELDS: [Field; 8] = [
    Field::Value("length", COUNT),
    Field::Value("spacecraft", COUNT),
    Field::Value("processor", COUNT),
    Field::Value("application", COUNT),
    Field::Value("seconds", COUNT),
    Field::Value("subseconds", COUNT),
    Field::Value("reserved", Kind::Number(Width::U32, Spelling::Hex)),
    Field::Value("description", Kind::Block),
];

/// The 60 bytes of a file's headers of which nothing is asked: those behind the subtype, with the last number in front of the description.
pub fn header_fields() -> &'static [Field]
    ensures listed { map placed_field result.now ≡ all_fields }
    ensures good { is_header result.now ≡ true }
{
    &FIELDS
}

/// What stands behind a word, where the line begins with it.
pub(crate) fn behind_word<'a>(wanted: &[u8], line: &'a [u8]) -> Option<&'a [u8]>
    ensures { MatchOption result
        (begins wanted.now (words line.now) ≡ false)
        (λ behind. (begins wanted.now (words line.now) ≡ true)
        × (words behind.now ≡ behind_first (words line.now))) }
{
    match split_word(line) {
        Some((word, behind)) if word == wanted => Some(behind),
        _ => None,
    }
}

/// Reads the words of the headers from the third word on: zero bytes where there are none, and else a row.
pub(crate) fn read_header(
    fields: &[Field],
    line: u32,
    behind: &[u8],
    row: &mut Vec<u8>,
) -> Result<(), ReadError>
    requires fields { is_header fields.now ≡ true }
    requires none { row.old.items ≡ [] }
    ensures { GivesLoaded (header_said fields.now line (words behind.now)) row.new.items result }
{
    let Some(_) = split_word(behind) else {
        return match push_zeros(HEADER, row) {
            Ok(()) => Ok(()),
            Err(error) => Err(ReadError::Memory(error)),
        };
    };
    match read_row(None, fields, 3, behind, row) {
        Ok(()) if row.len() == HEADER => Ok(()),
        Ok(()) => Err(ReadError::Fault(LoadFault::Description(line))),
        Err(row_forms::ReadError::Memory(error)) => Err(ReadError::Memory(error)),
        Err(row_forms::ReadError::Row(fault)) => Err(line_error(line, LineFault::Row(fault))),
    }
}

/// Appends a file to be loaded.
pub(crate) fn push_load(
    address: &[u8],
    row: &[u8],
    bytes: &[u8],
    file: &mut Vec<u8>,
) -> Result<(), AllocError>
    requires { length bytes.now ≤ 65536 }
    ensures { OnOk result (file.new.items ≡ file.old.items
        ++ load_of address.now row.now bytes.now) }
{
    push_first(row, file)?;
    file.extend_from_slice(address)?;
    push_number(bytes.len() as u32, file)?;
    push_number(u32::from(crc16(0, bytes)), file)?;
    file.extend_from_slice(front(behind(row, 24), 4))?;
    file.extend_from_slice(bytes)
}

/// Appends the first header of a file to be loaded.
fn push_first(row: &[u8], file: &mut Vec<u8>) -> Result<(), AllocError>
    ensures { OnOk result (file.new.items ≡ file.old.items ++ first_header row.now) }
{
    file.extend_from_slice(&[0x63, 0x46, 0x45, 0x31, 0, 0, 0, 100])?;
    file.extend_from_slice(front(row, 24))?;
    file.extend_from_slice(behind(row, 28))
}

/// Appends the four bytes of a number.
#[tactic(auto, unfolding(packet_forms::specs::Numbers::be32_bytes))]
fn push_number(number: u32, file: &mut Vec<u8>) -> Result<(), AllocError>
    ensures { OnOk result (file.new.items ≡ file.old.items ++ be32_bytes number) }
{
    let [a, b, c, d] = number.to_be_bytes();
    file.extend_from_slice(&[a, b, c, d])
}

/// Appends the words of a file's headers, each with a space in front, unless all their bytes are zero.
pub(crate) fn show_words(
    fields: &[Field],
    file: &[u8],
    row: &mut Vec<u8>,
    out: &mut Vec<u8>,
) -> Result<(), AllocError>
    requires fields { is_header fields.now ≡ true }
    requires long { 80 ≤ length file.now }
    ensures { OnOk result (out.new.items ≡ out.old.items
        ++ header_shown fields.now (load_row file.now)) }
{
    put_row(file, row)?;
    if are_zeros(row) {
        return Ok(());
    }
    show_row(fields, row, out)
}

/// Puts the bytes of a file's headers into the order of their words.
fn put_row(file: &[u8], row: &mut Vec<u8>) -> Result<(), AllocError>
    ensures { OnOk result (row.new.items ≡ load_row file.now) }
{
    row.clear();
    row.extend_from_slice(front(behind(file, 8), 24))?;
    row.extend_from_slice(front(behind(file, 76), 4))?;
    row.extend_from_slice(front(behind(file, 32), 32))
}
