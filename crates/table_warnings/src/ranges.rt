//! Entries of checksum tables whose bytes lie over two regions of memory.
ghost use Rattle.std.specs.Prelude.{◌≡◌, ◌<◌, ◌+◌, ◌*◌, length, filter_map, IfOk};
ghost use Rattle.std.specs.List.{list_any, range_with_len};
ghost use Rattle.memory_window.specs.Regions.{spans};
ghost use Rattle.table_files.specs.Kinds.{IsTable};
ghost use Rattle.table_warnings.specs.Ranges.{has_last, is_split, split_at, split_ranges};

use crate::adding::add_warning;
use crate::warning::Warning;
use memory_window::{Map, Region};
use packet_forms::be32;
use std::alloc::{AllocError, Global};
use table_files::TableKind;

/// Whether a region has the last byte of a range.
fn has_last(at: u32, len: u32, region: Region) -> bool
    ensures { result ≡ has_last at len region }
{
    let end = u64::from(at) + u64::from(len);
    u64::from(region.start) < end && end <= region.end()
}

/// Whether a range lies in a region.
fn has_all(at: u32, len: u32, region: Region) -> bool
    ensures { result ≡ spans at len region }
{
    region.start <= at && u64::from(at) + u64::from(len) <= region.end()
}

/// Whether one of these regions has the last byte of a range.
fn is_ended(regions: &[Region], at: u32, len: u32) -> bool
    ensures { result ≡ list_any (has_last at len) regions.now }
{
    regions.iter().any(|region| has_last(at, len, *region))
}

/// Whether a range lies in one of these regions.
fn is_held(regions: &[Region], at: u32, len: u32) -> bool
    ensures { result ≡ list_any (spans at len) regions.now }
{
    regions.iter().any(|region| has_all(at, len, *region))
}

/// Whether a range begins in a region and ends in a region, and none has all of it.
#[tactic(auto, unfolding(crate::specs::Ranges::is_split))]
fn is_split(map: &Map, at: u32, len: u32) -> bool
    ensures { result ≡ is_split map.now at len }
{
    let regions = map.regions();
    map.is_mapped(at) && is_ended(regions, at, len) && !is_held(regions, at, len)
}

/// The warning of the entry in a place.
#[tactic(auto, unfolding(crate::specs::Ranges::split_at))]
fn split_at(map: &Map, payload: &[u8], place: usize) -> Option<Warning>
    requires table { length payload.now ≡ 192 }
    requires place { place < 16 }
    ensures { result ≡ split_at map.now payload.now place }
{
    let at = be32(payload, 12 * place + 4);
    let len = be32(payload, 12 * place + 8);
    if is_split(map, at, len) {
        return Some(Warning::Split(place as u32 + 1));
    }
    None
}

/// The warnings of a checksum table's payload.
fn find_in_checksums(alloc: Global, map: &Map, payload: &[u8]) -> Result<Vec<Warning>, AllocError>
    requires { length payload.now ≡ 192 }
    ensures { IfOk result (λ warnings. warnings.items
        ≡ filter_map (split_at map.now payload.now) (range_with_len 0 16)) }
{
    let mut warnings = Vec::new(alloc);
    for place in 0..16usize {
        add_warning(split_at(map, payload, place), &mut warnings)?;
    }
    Ok(warnings)
}

/// The warnings of entries of a checksum table that begin in one region of the map and end in another one, in their order. Memory gives no
/// such bytes, so that a used entry of these is refused with reason 10 where files are rehearsed: the others aren't used.
#[tactic(auto, unfolding(crate::specs::Ranges::split_ranges))]
pub fn find_split_ranges(
    alloc: Global,
    kind: TableKind,
    map: &Map,
    payload: &[u8],
) -> Result<Vec<Warning>, AllocError>
    requires { IsTable kind (length payload.now) }
    ensures { IfOk result (λ warnings. warnings.items ≡ split_ranges kind map.now payload.now) }
{
    match kind {
        TableKind::Eeprom | TableKind::Memory => find_in_checksums(alloc, map, payload),
        TableKind::AppMon
        | TableKind::EventMon
        | TableKind::ExeCount
        | TableKind::MsgActs
        | TableKind::Ats(_)
        | TableKind::Rts(_)
        | TableKind::Dwell(_)
        | TableKind::Wdt
        | TableKind::Adt => Ok(Vec::new(alloc)),
    }
}
