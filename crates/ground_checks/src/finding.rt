//! What is wrong with a file.

ghost use Rattle.std.specs.Prelude.{◌≡◌, ◌≤◌, [], ◌∷◌, ◌++◌, length, map, IfOk, OnOk, None, option_map};
ghost use Rattle.table_files.specs.Headers.{file_fault_of};
ghost use Rattle.active_tables.specs.Tables.{entry_fault_in};
ghost use Rattle.ground_faults.specs.Firsts.{first_if_any};
ghost use Rattle.ground_checks.specs.Faults.{read_refused, fault_by, fault_of};

use crate::read_faults::{MOST_BYTES, clear_reads};
use ground_faults::clear_faults;
use memory_window::Map;
use std::alloc::{AllocError, Global};
use table_files::{EntryFault, FileFault, FileImage, TableKind, read_file};

/// What is wrong with a file.
#[derive(Clone, Copy, Debug, PartialEq, Eq)]
pub enum FoundFault {
    /// It has over 65,700 bytes.
    Long,
    /// Its headers are refused, or its size.
    Headers(FileFault),
    /// An entry of its table is refused.
    Entry(EntryFault),
    /// The entry of this number, from 1, reads what the memory of the map doesn't give.
    Read(u32),
}

/// Faults of entries as faults of a file.
fn as_found(alloc: Global, entries: &[EntryFault]) -> Result<Vec<FoundFault>, AllocError>
    ensures { IfOk result (λ found. found.items
        ≡ map (λ fault. FoundFault.Entry fault) entries.now) }
{
    let mut found = Vec::new(alloc);
    for fault in entries {
        found.push(FoundFault::Entry(*fault))?;
    }
    Ok(found)
}

/// Adds entries that memory refuses.
fn add_reads(entries: &[u32], found: &mut Vec<FoundFault>) -> Result<(), AllocError>
    ensures { OnOk result (found.new.items ≡ found.old.items
        ++ map (λ entry. FoundFault.Read entry) entries.now) }
{
    for entry in entries {
        found.push(FoundFault::Read(*entry))?;
    }
    Ok(())
}

/// The faults of a table whose headers are good.
fn table_faults(
    alloc: Global,
    map: Option<&Map>,
    kind: TableKind,
    file: &[u8],
) -> Result<Vec<FoundFault>, AllocError>
    requires headers { file_fault_of file.now ≡ None }
    requires small { length file.now ≤ 65700 }
    ensures { IfOk result (λ found. first_if_any found.items
        ≡ fault_by None (entry_fault_in file.now)
        (read_refused (option_map (λ known. known.now) map.entry) file.now)) }
{
    let mut rest = Vec::new(alloc);
    rest.extend_from_slice(file)?;
    let entries = clear_faults(alloc, &mut rest)?;
    let mut found = as_found(alloc, entries.as_slice())?;
    let Some(map) = map else {
        return Ok(found);
    };
    let reads = clear_reads(alloc, map, kind, rest.as_mut_slice())?;
    add_reads(reads.as_slice(), &mut found)?;
    Ok(found)
}

/// The one fault of a file.
fn one_fault(alloc: Global, fault: FoundFault) -> Result<Vec<FoundFault>, AllocError>
    ensures { IfOk result (λ found. found.items ≡ fault ∷ []) }
{
    let mut found = Vec::new(alloc);
    found.push(fault)?;
    Ok(found)
}

/// The faults of a file: that it is too long, that its headers are refused, or each refused entry of its table and then, where a map of memory
/// is known, each entry whose read memory refuses. The first of them is that for which the program refuses the file, and none is found exactly
/// where the program takes it.
pub fn find_faults(
    alloc: Global,
    map: Option<&Map>,
    file: &[u8],
) -> Result<Vec<FoundFault>, AllocError>
    ensures { IfOk result (λ found. first_if_any found.items
        ≡ fault_of (option_map (λ known. known.now) map.entry) file.now) }
{
    if file.len() > MOST_BYTES {
        return one_fault(alloc, FoundFault::Long);
    }
    match read_file(file) {
        Ok(FileImage::Table { kind, payload: _ }) => table_faults(alloc, map, kind, file),
        Ok(FileImage::Load { at: _, bytes: _ }) => Ok(Vec::new(alloc)),
        Err(fault) => one_fault(alloc, FoundFault::Headers(fault)),
    }
}
