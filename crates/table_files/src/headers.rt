//! The headers of a file, and what it holds behind them.
ghost use Rattle.std.specs.Prelude.{◌≡◌, ◌≤◌, ◌-◌, length, drop, false, IfOk, MatchResult, Some, None};
ghost use Rattle.table_files.specs.Kinds.{named_kind};
ghost use Rattle.table_files.specs.Headers.{content_type, subtype, table_offset, table_size, table_name, table_fault, load_size, load_crc, is_load_size, load_fault, fault_of_table, fault_of_load, file_fault_of, IsFile, is_load, kind_of_file, address_of_file, Shows};

use crate::fault::FileFault;
use crate::kinds::{TableKind, named_kind};
use packet_forms::{be32, behind, crc16};

/// What a file holds.
#[derive(Clone, Copy, Debug, PartialEq, Eq)]
pub enum FileImage<'a> {
    /// A table.
    Table { kind: TableKind, payload: &'a [u8] },
    /// Bytes to be loaded into memory from the address `at` on.
    Load { at: u32, bytes: &'a [u8] },
}

/// The content type of every file.
const CONTENT_TYPE: u32 = 0x6346_4531;

/// The subtype of a table.
const TABLE: u32 = 8;

/// The subtype of bytes to be loaded.
const LOAD: u32 = 100;

/// How many bytes the header of every file has.
const HEADER: usize = 64;

/// How many bytes both headers of a table have.
pub(crate) const TABLE_HEADERS: usize = 116;

/// How many bytes both headers of bytes to be loaded have.
const LOAD_HEADERS: usize = 80;

/// How many bytes may be loaded from a file at most.
const MOST_LOAD: usize = 65_536;

/// What the file of these bytes holds, or the first of its faults (docs/FILES.md):
///
/// 1. `Short`: under 64 bytes
/// 2. `ContentType`: the number of bytes 0 to 3 isn't 0x63464531
/// 3. `Subtype`: the number of bytes 4 to 7 is neither 8, a table, nor 100, bytes to be loaded
///
/// Then of a table:
///
/// 4. `Short` again: under 116 bytes
/// 5. `Partial`: the offset, bytes 68 to 71, isn't 0
/// 6. `Name`: bytes 76 to 115 aren't a known name and zero bytes behind it
/// 7. `Size`: the number of bytes 72 to 75 isn't the number of bytes behind the headers, or that isn't the table's size
///
/// And of bytes to be loaded:
///
/// 4. `Short` again: under 80 bytes
/// 5. `Size`: the number of bytes 68 to 71 isn't the number of bytes behind the headers, or that is 0 or over 65,536
/// 6. `LoadCrc`: the number of bytes 72 to 75 isn't `crc16(0, ..)` of the bytes behind the headers
///
/// Nothing is copied: what is lent are the file's bytes behind the headers.
pub fn read_file(bytes: &[u8]) -> Result<FileImage<'_>, FileFault>
    ensures fault { MatchResult result (λ _. file_fault_of bytes.now
        ≡ None) (λ fault. file_fault_of bytes.now ≡ Some fault) }
    ensures image { IfOk result (Shows bytes.now) }
{
    if let Some(fault) = find_fault(bytes) {
        return Err(fault);
    }
    Ok(image_of(bytes))
}

/// The first fault of a file.
#[tactic(auto, unfolding(crate::specs::Headers::file_fault_of, crate::specs::Headers::content_type, crate::specs::Headers::subtype))]
pub(crate) fn find_fault(bytes: &[u8]) -> Option<FileFault>
    ensures { result ≡ file_fault_of bytes.now }
{
    if bytes.len() < HEADER {
        return Some(FileFault::Short);
    }
    if be32(bytes, 0) != CONTENT_TYPE {
        return Some(FileFault::ContentType);
    }
    let subtype = be32(bytes, 4);
    if subtype == TABLE {
        return fault_of_table(bytes);
    }
    if subtype == LOAD {
        return fault_of_load(bytes);
    }
    Some(FileFault::Subtype)
}

/// The first fault of a table's file behind its subtype.
#[tactic(auto, unfolding(crate::specs::Headers::fault_of_table, crate::specs::Headers::table_offset))]
fn fault_of_table(bytes: &[u8]) -> Option<FileFault>
    ensures { result ≡ fault_of_table bytes.now }
{
    if bytes.len() < TABLE_HEADERS {
        return Some(FileFault::Short);
    }
    if be32(bytes, 68) != 0 {
        return Some(FileFault::Partial);
    }
    table_fault(bytes)
}

/// The first fault of a file that is to be loaded behind its subtype.
#[tactic(auto, unfolding(crate::specs::Headers::fault_of_load, crate::specs::Headers::load_size, crate::specs::Headers::load_crc))]
fn fault_of_load(bytes: &[u8]) -> Option<FileFault>
    ensures { result ≡ fault_of_load bytes.now }
{
    if bytes.len() < LOAD_HEADERS {
        return Some(FileFault::Short);
    }
    load_fault(
        behind(bytes, LOAD_HEADERS),
        be32(bytes, 68),
        be32(bytes, 72),
    )
}

/// The fault of bytes to be loaded, of which the header says how many they are and which check they have.
fn load_fault(bytes: &[u8], said: u32, check: u32) -> Option<FileFault>
    ensures { result ≡ load_fault bytes.now said check }
{
    if said as usize != bytes.len() || !is_load_size(bytes.len()) {
        return Some(FileFault::Size);
    }
    if check != u32::from(crc16(0, bytes)) {
        return Some(FileFault::LoadCrc);
    }
    None
}

/// Whether so many bytes may be loaded.
fn is_load_size(size: usize) -> bool
    ensures { result ≡ is_load_size size }
{
    0 < size && size <= MOST_LOAD
}

/// The fault of a table's name or of its size.
#[tactic(auto, unfolding(crate::specs::Headers::table_size))]
fn table_fault(bytes: &[u8]) -> Option<FileFault>
    requires { TABLE_HEADERS ≤ length bytes.now }
    ensures { result ≡ table_fault (named_kind (table_name bytes.now)) (table_size bytes.now)
        (length bytes.now - TABLE_HEADERS) }
{
    let Some(kind) = named_kind(name_field(bytes)) else {
        return Some(FileFault::Name);
    };
    let size = bytes.len() - TABLE_HEADERS;
    if be32(bytes, 72) as usize == size && kind.fits(size) {
        None
    } else {
        Some(FileFault::Size)
    }
}

/// The 40 bytes of a table's name.
#[tactic(auto, unfolding(crate::specs::Headers::table_name))]
fn name_field(bytes: &[u8]) -> &[u8]
    requires { TABLE_HEADERS ≤ length bytes.now }
    ensures { result.now ≡ table_name bytes.now }
{
    &bytes[76..TABLE_HEADERS]
}

/// What a file without a fault holds.
pub(crate) fn image_of(bytes: &[u8]) -> FileImage<'_>
    requires { IsFile bytes.now }
    ensures { Shows bytes.now result }
{
    if is_load(bytes) {
        let (at, bytes) = load_in(bytes);
        return FileImage::Load { at, bytes };
    }
    FileImage::Table {
        kind: kind_of(bytes),
        payload: behind(bytes, TABLE_HEADERS),
    }
}

/// The kind of a table file without a fault.
fn kind_of(bytes: &[u8]) -> TableKind
    requires file { IsFile bytes.now }
    requires table { is_load bytes.now ≡ false }
    ensures { kind_of_file bytes.now ≡ Some result }
{
    match named_kind(name_field(bytes)) {
        Some(kind) => kind,
        None => unreachable!(),
    }
}

/// Address and bytes of a load file.
#[tactic(auto, unfolding(crate::specs::Headers::address_of_file))]
pub(crate) fn load_in(bytes: &[u8]) -> (u32, &[u8])
    requires { LOAD_HEADERS ≤ length bytes.now }
    ensures at { result.0 ≡ address_of_file bytes.now }
    ensures bytes { result.1.now ≡ drop LOAD_HEADERS bytes.now }
{
    (be32(bytes, 64), behind(bytes, LOAD_HEADERS))
}

/// Whether a file's bytes are to be loaded.
#[tactic(auto, unfolding(crate::specs::Headers::is_load, crate::specs::Headers::subtype))]
pub(crate) fn is_load(bytes: &[u8]) -> bool
    requires { 8 ≤ length bytes.now }
    ensures { result ≡ is_load bytes.now }
{
    be32(bytes, 4) == LOAD
}
