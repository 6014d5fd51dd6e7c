//! The entries of a file whose reads the memory of a map refuses.

ghost use Rattle.std.specs.Prelude.{◌≡◌, ◌≤◌, ℕ, List, [], ◌∷◌, ◌++◌, length, IfOk, OnOk};
ghost use Rattle.active_tables.specs.Tables.{refused_in};
ghost use Rattle.ground_faults.specs.Firsts.{first_if_any};

use active_tables::refused_place;
use ground_faults::blank_entry;
use memory_window::Map;
use std::alloc::{AllocError, Global};
use table_files::{AddFault, Files, TableKind};

/// How many bytes a file may have.
pub(crate) const MOST_BYTES: usize = 65_700;

/// The most entries that a table reads by.
const MOST_ENTRIES: u32 = 25;

/// The first entry of a file that memory refuses, as the program asks it of its files.
fn first_refused(alloc: Global, map: &Map, file: &[u8]) -> Result<Option<u32>, AllocError>
    ensures { length file.now ≤ 65700 → IfOk result (λ entry. entry ≡ refused_in map.now file.now) }
{
    if file.len() > MOST_BYTES {
        return Ok(None);
    }
    let mut bytes = Vec::new(alloc);
    bytes.extend_from_slice(file)?;
    let Ok(mut files) = Files::open(alloc) else {
        return Err(AllocError);
    };
    match files.add(bytes) {
        Ok(()) => Ok(entry_of(map, &files)),
        Err(AddFault::File(_)) => Ok(None),
        Err(AddFault::NoMemory) => Err(AllocError),
    }
}

/// The first refused entry of files.
fn entry_of(map: &Map, files: &Files) -> Option<u32>
    ensures { (file : List ℕ) → files.now ≡ file ∷ [] → result ≡ refused_in map.now file }
{
    match refused_place(map, files) {
        Some(place) => Some(place.entry),
        None => None,
    }
}

/// Adds the entries behind the first one.
fn clear_more(
    alloc: Global,
    map: &Map,
    kind: TableKind,
    file: &mut [u8],
    entries: &mut Vec<u32>,
) -> Result<(), AllocError>
    ensures { OnOk result ((more : List ℕ) × (entries.new.items ≡ entries.old.items ++ more)) }
{
    'entries: for _ in 0..MOST_ENTRIES {
        let Some(entry) = first_refused(alloc, map, file)? else {
            return Ok(());
        };
        entries.push(entry)?;
        blank_entry(kind, entry, file);
    }
    Ok(())
}

/// The entries of a table's file, from 1, that read what memory of the map refuses, in their order; each of them is cleared.
pub(crate) fn clear_reads(
    alloc: Global,
    map: &Map,
    kind: TableKind,
    file: &mut [u8],
) -> Result<Vec<u32>, AllocError>
    ensures { length file.old ≤ 65700 → IfOk result (λ entries. first_if_any entries.items
        ≡ refused_in map.now file.old) }
{
    let mut entries = Vec::new(alloc);
    if let Some(entry) = first_refused(alloc, map, file)? {
        entries.push(entry)?;
        blank_entry(kind, entry, file);
        clear_more(alloc, map, kind, file, &mut entries)?;
    }
    Ok(entries)
}
