//! Whether memory gives what the tables' entries read.

ghost use Rattle.std.specs.Prelude.{◌≡◌, ℕ, List, length, None, option_map};
ghost use Rattle.table_files.specs.Headers.{Shows};
ghost use Rattle.table_files.specs.Kinds.{IsTable};
ghost use Rattle.cs_slices.specs.Tables.{segments_of, segments_fault_of};
ghost use Rattle.cs_slices.specs.Given.{first_refused as first_refused_segment};
ghost use Rattle.md_dwell.specs.Tables.{dwell_of, dwell_fault_of};
ghost use Rattle.md_dwell.specs.Given.{first_refused};
ghost use Rattle.table_files.specs.Entries.{where_well};
ghost use Rattle.active_tables.specs.Tables.{refused_entry, refused_in, region_fault};

use cs_slices::load_segments;
use md_dwell::load_dwell;
use memory_window::Map;
use table_files::{FileImage, Files, TableKind};
use thiserror::Error;

/// Why a bench isn't opened.
#[derive(Clone, Copy, Debug, PartialEq, Eq, Error)]
pub enum OpenFault {
    /// The memory of the map refuses what an entry reads: the first file, counted from 1, and its first such entry.
    #[error("memory refuses entry {entry} of file {file}")]
    Region { file: u32, entry: u32 },
    #[error("memory ran out")]
    NoMemory,
}

/// The place of an entry: the number of its file, from 1, and its own, from 1.
#[derive(Clone, Copy, Debug, PartialEq, Eq)]
pub struct EntryPlace {
    pub file: u32,
    pub entry: u32,
}

/// The first entry of the files that memory of the map refuses.
pub fn refused_place(map: &Map, files: &Files) -> Option<EntryPlace>
    ensures { option_map (λ (place : EntryPlace). (place.file, place.entry)) result
        ≡ region_fault map.now files.now }
{
    'files: for i in 0..files.len() {
        if let Some(entry) = refused_in(map, files.get(i + 1)) {
            return Some(EntryPlace { file: i + 1, entry });
        }
    }
    None
}

/// The first entry of a file that memory of the map refuses.
fn refused_in(map: &Map, image: FileImage<'_>) -> Option<u32>
    requires { (file : List ℕ) × Shows file image }
    ensures { (file : List ℕ) → Shows file image.entry → result ≡ refused_in map.now file }
{
    match image {
        FileImage::Load { .. } => None,
        FileImage::Table { kind, payload } => refused_entry(map, kind, payload),
    }
}

/// The first entry of a table that memory of the map refuses.
fn refused_entry(map: &Map, kind: TableKind, payload: &[u8]) -> Option<u32>
    requires { IsTable kind (length payload.now) }
    ensures { result ≡ refused_entry map.now kind payload.now }
{
    match kind {
        TableKind::Dwell(_) => refused_dwell(map, payload),
        TableKind::Eeprom | TableKind::Memory => refused_segment(map, payload),
        TableKind::AppMon
        | TableKind::EventMon
        | TableKind::ExeCount
        | TableKind::MsgActs
        | TableKind::Ats(_)
        | TableKind::Rts(_)
        | TableKind::Wdt
        | TableKind::Adt => None,
    }
}

/// The first entry of a dwell table whose read memory of the map refuses.
fn refused_dwell(map: &Map, payload: &[u8]) -> Option<u32>
    requires { length payload.now ≡ 204 }
    ensures { result ≡ where_well (first_refused map.now (dwell_of payload.now).entries) None
        (dwell_fault_of payload.now) }
{
    match load_dwell(payload) {
        Ok(table) => table.first_refused(map),
        Err(_) => None,
    }
}

/// The first entry of a checksum table whose bytes memory of the map refuses.
fn refused_segment(map: &Map, payload: &[u8]) -> Option<u32>
    requires { length payload.now ≡ 192 }
    ensures { result ≡ where_well (first_refused_segment map.now (segments_of payload.now)) None
        (segments_fault_of payload.now) }
{
    match load_segments(payload) {
        Ok(table) => table.first_refused(map),
        Err(_) => None,
    }
}
