//! What is wrong with a file or odd in it, in words.

ghost use Rattle.std.specs.Prelude.{◌≡◌, ◌≢◌, ◌⊎◌, None, option_map};
ghost use Rattle.ground_checks.specs.Faults.{fault_of};

use crate::finding::{FoundFault, find_faults};
use ground_faults::{PAYLOAD, tell_entry, tell_headers, tell_long, tell_read};
use ground_files::{Status, tell_no_memory};
use ground_warnings::{PlacedText, entry_line_number, warn_of_table};
use memory_window::Map;
use packet_forms::{Name, behind};
use std::alloc::AllocError;
use table_files::{FileImage, TableKind, read_file};

/// The table of a file, where it has one.
fn kind_of(file: &[u8]) -> Option<TableKind> {
    match read_file(file) {
        Ok(FileImage::Table { kind, payload: _ }) => Some(kind),
        Ok(FileImage::Load { at: _, bytes: _ }) => None,
        Err(_) => None,
    }
}

/// A file that is looked at: its title, the text of which it was made, where that is known, and its bytes.
#[derive(Clone, Copy, Debug)]
pub(crate) struct LookedFile<'a> {
    pub title: &'a str,
    pub placed: Option<PlacedText<'a>>,
    pub bytes: &'a [u8],
}

/// Tells an entry whose read memory doesn't give, with the line of the text where it stands.
fn tell_placed<R: Eprint + AllocGlobal>(
    rt: &R,
    map: Option<&Map>,
    looked: &LookedFile<'_>,
    kind: TableKind,
    entry: u32,
) -> Result<(), AllocError> {
    let title = looked.title;
    let payload = behind(looked.bytes, PAYLOAD);
    match entry_line_number(looked.placed, kind, entry) {
        Some(line) => {
            let place = format!(in rt.alloc(); "{title}: line {line}")?;
            tell_read(rt, map, place.as_str(), kind, payload, entry)
        }
        None => tell_read(rt, map, title, kind, payload, entry),
    }
}

/// Tells a fault of a file.
fn tell_found<R: Eprint + AllocGlobal>(
    rt: &R,
    map: Option<&Map>,
    looked: &LookedFile<'_>,
    fault: FoundFault,
) -> Result<(), AllocError> {
    let (name, file) = (looked.title, looked.bytes);
    let payload = behind(file, PAYLOAD);
    match (fault, kind_of(file)) {
        (FoundFault::Long, _) => {
            // There is no other place to tell it.
            let _told = tell_long(rt, name, file);
            Ok(())
        }
        (FoundFault::Headers(fault), _) => {
            // There is no other place to tell it.
            let _told = tell_headers(rt, name, file, fault);
            Ok(())
        }
        (FoundFault::Entry(fault), Some(kind)) => tell_entry(rt, name, kind, payload, fault),
        (FoundFault::Read(entry), Some(kind)) => tell_placed(rt, map, looked, kind, entry),
        (FoundFault::Entry(_) | FoundFault::Read(_), None) => Ok(()),
    }
}

/// Tells the faults of a file.
fn tell_all<R: Eprint + AllocGlobal>(
    rt: &R,
    map: Option<&Map>,
    looked: &LookedFile<'_>,
    faults: &[FoundFault],
) -> Result<(), AllocError> {
    for fault in faults {
        tell_found(rt, map, looked, *fault)?;
    }
    Ok(())
}

/// Tells why a file is refused, if it is.
pub(crate) fn tell_faults<R: Eprint + AllocGlobal>(
    rt: &R,
    map: Option<&Map>,
    looked: &LookedFile<'_>,
) -> Result<(), AllocError> {
    let faults = find_faults(rt.alloc(), map, looked.bytes)?;
    tell_all(rt, map, looked, faults.as_slice())
}

/// The status of a file whose faults were told.
fn status_refused<R: Eprint>(rt: &R, told: Result<(), AllocError>) -> Status
    ensures { (result ≡ Status.FileRefused) ⊎ (result ≡ Status.NoMemory) }
{
    match told {
        Ok(()) => Status::FileRefused,
        Err(_) => {
            let _told = tell_no_memory(rt);
            Status::NoMemory
        }
    }
}

/// The status of a file without a fault, once was told what is odd in it.
fn status_taken<R: Eprint>(rt: &R, told: Result<(), AllocError>) -> Status
    ensures { (result ≡ Status.Done) ⊎ (result ≡ Status.NoMemory) }
{
    match told {
        Ok(()) => Status::Done,
        Err(_) => {
            let _told = tell_no_memory(rt);
            Status::NoMemory
        }
    }
}

/// Tells why a file is refused, or what is odd in it, with the lines of its text where it has one. It is `Done` only where the program takes
/// the file, and `FileRefused` only where it doesn't.
#[tactic(auto, using(crate::proofs::FoundLemmas::nothing_found, crate::proofs::FoundLemmas::something_found))]
pub(crate) fn tell_file<R: Eprint + AllocGlobal>(
    rt: &R,
    map: Option<&Map>,
    names: Option<&[Name]>,
    name: &str,
    placed: Option<PlacedText<'_>>,
    file: &[u8],
) -> Status
    ensures taken { result ≡ Status.Done → fault_of
        (option_map (λ known. known.now) map.entry) file.now ≡ None }
    ensures refused { result ≡ Status.FileRefused
        → fault_of (option_map (λ known. known.now) map.entry) file.now ≢ None }
    ensures status { (result ≡ Status.Done) ⊎ (result ≡ Status.FileRefused)
        ⊎ (result ≡ Status.NoMemory) }
{
    let Ok(faults) = find_faults(rt.alloc(), map, file) else {
        let _told = tell_no_memory(rt);
        return Status::NoMemory;
    };
    if faults.is_empty() {
        let told = warn_of_table(rt, map, names, name, placed, file);
        return status_taken(rt, told);
    }
    let looked = LookedFile {
        title: name,
        placed,
        bytes: file,
    };
    let told = tell_all(rt, map, &looked, faults.as_slice());
    status_refused(rt, told)
}
