//! What the memory of a scenario doesn't give, in words.

use memory_window::{Kind, Map, Region};
use packet_forms::{be16, be32, behind};
use std::alloc::{AllocError, Global};
use std::io;
use table_files::TableKind;

/// The reason of an entry whose read the memory of the scenario doesn't give.
const NOT_GIVEN: u8 = 10;

/// How many bytes stand in front of a dwell table's entries, and how many an entry has.
const DWELL_HEAD: usize = 4;

const DWELL_ENTRY: usize = 8;

/// How many bytes an entry of a checksum table has.
const CHECKSUM_ENTRY: usize = 12;

/// The bytes that an entry reads.
#[derive(Clone, Copy, Debug)]
struct WantedBytes {
    address: u32,
    size: u32,
    /// Whether they are one value, as a dwell entry reads.
    is_value: bool,
}

/// The bytes that an entry of a dwell table reads.
fn dwell_bytes(payload: &[u8], entry: u32) -> Option<WantedBytes> {
    let before = (entry as usize).saturating_sub(1);
    let start = DWELL_HEAD.saturating_add(DWELL_ENTRY.saturating_mul(before));
    let bytes = behind(payload, start);
    if bytes.len() < DWELL_ENTRY {
        return None;
    }
    Some(WantedBytes {
        address: be32(bytes, 4),
        size: u32::from(be16(bytes, 0)),
        is_value: true,
    })
}

/// The bytes that an entry of a checksum table covers.
fn checksum_bytes(payload: &[u8], entry: u32) -> Option<WantedBytes> {
    let before = (entry as usize).saturating_sub(1);
    let bytes = behind(payload, CHECKSUM_ENTRY.saturating_mul(before));
    if bytes.len() < CHECKSUM_ENTRY {
        return None;
    }
    Some(WantedBytes {
        address: be32(bytes, 4),
        size: be32(bytes, 8),
        is_value: false,
    })
}

/// The bytes that an entry of a table reads; none where the table reads no memory.
fn wanted_bytes(kind: TableKind, payload: &[u8], entry: u32) -> Option<WantedBytes> {
    match kind {
        TableKind::Dwell(_) => dwell_bytes(payload, entry),
        TableKind::Eeprom | TableKind::Memory => checksum_bytes(payload, entry),
        TableKind::AppMon
        | TableKind::EventMon
        | TableKind::ExeCount
        | TableKind::MsgActs
        | TableKind::Ats(_)
        | TableKind::Rts(_)
        | TableKind::Wdt
        | TableKind::Adt => None,
    }
}

/// The region that has an address.
fn region_at(map: &Map, address: u32) -> Option<Region> {
    for region in map.regions() {
        if region.holds(address) {
            return Some(*region);
        }
    }
    None
}

/// Why a region doesn't give a value of another length.
fn value_cause(kind: Kind) -> &'static str {
    match kind {
        Kind::Mem8 => "in a MEM8 region a value has length=1",
        Kind::Mem16 => "in a MEM16 region a value has length=2",
        Kind::Mem32 => "in a MEM32 region a value has length=4",
        Kind::Ram | Kind::Eeprom => "its region doesn't give it",
    }
}

/// Why a region that has the first of these bytes doesn't give them.
fn cause_in(region: Region, wanted: WantedBytes) -> &'static str {
    if u64::from(wanted.address) + u64::from(wanted.size) > region.end() {
        return "its region ends before them";
    }
    if wanted.is_value {
        return value_cause(region.kind);
    }
    match region.kind {
        Kind::Mem8 => "a MEM8 region is read byte by byte",
        Kind::Mem16 => "a MEM16 region is read in units of 2 bytes",
        Kind::Mem32 => "a MEM32 region is read in units of 4 bytes",
        Kind::Ram | Kind::Eeprom => "its region doesn't give them",
    }
}

/// Why memory doesn't give bytes, where its map is known.
fn cause_of(map: Option<&Map>, wanted: WantedBytes) -> Option<&'static str> {
    match region_at(map?, wanted.address) {
        Some(region) => Some(cause_in(region, wanted)),
        None => Some("no region has this address"),
    }
}

/// What people call a table that reads memory.
fn title_of(alloc: Global, kind: TableKind) -> Result<String, AllocError> {
    match kind {
        TableKind::Dwell(number) => Ok(format!(in alloc; "dwell table {number}")?),
        TableKind::Eeprom => String::from_str(alloc, "EEPROM checksums"),
        TableKind::Memory => String::from_str(alloc, "memory checksums"),
        TableKind::AppMon
        | TableKind::EventMon
        | TableKind::ExeCount
        | TableKind::MsgActs
        | TableKind::Ats(_)
        | TableKind::Rts(_)
        | TableKind::Wdt
        | TableKind::Adt => String::from_str(alloc, "table"),
    }
}

/// Tells that memory doesn't give the bytes that an entry reads, and why, where that is known.
fn tell_bytes<R: Eprint>(
    rt: &R,
    place: &str,
    wanted: WantedBytes,
    cause: Option<&str>,
) -> io::Result<()> {
    let (address, size) = (wanted.address, wanted.size);
    let bytes = if size == 1 { "byte" } else { "bytes" };
    match cause {
        Some(cause) => eprintln!(rt;
            "{place}: the memory of the scenario doesn't give the {size} {bytes} at 0x{address:08X}: {cause} (reason {NOT_GIVEN})"
        ),
        None => eprintln!(rt;
            "{place}: the memory of the scenario doesn't give the {size} {bytes} at 0x{address:08X} (reason {NOT_GIVEN})"
        ),
    }
}

/// Tells an entry of a table's payload that reads what the memory of the scenario doesn't give.
pub fn tell_read<R: Eprint + AllocGlobal>(
    rt: &R,
    map: Option<&Map>,
    place: &str,
    kind: TableKind,
    payload: &[u8],
    entry: u32,
) -> Result<(), AllocError> {
    let title = title_of(rt.alloc(), kind)?;
    let place = format!(in rt.alloc(); "{place}: {title}, entry {entry}")?;
    let place = place.as_str();
    // There is no other place to tell it.
    let _told = match wanted_bytes(kind, payload, entry) {
        Some(wanted) => tell_bytes(rt, place, wanted, cause_of(map, wanted)),
        None => eprintln!(rt;
            "{place}: the memory of the scenario doesn't give what it reads (reason {NOT_GIVEN})"
        ),
    };
    Ok(())
}
