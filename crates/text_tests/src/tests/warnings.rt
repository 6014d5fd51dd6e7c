//! What is told of tables, by the rules of docs/FILES.md and docs/COMMANDS.md.
ghost use Rattle.std.specs.Prelude.{◌<◌};

use memory_window::{Kind, Map, Region};
use packet_forms::Name;
use std::test::Fail;
use table_files::TableKind;
use table_warnings::{Place, Warning, find_split_ranges, find_unknown_names, find_warnings};

/// A packet of Stored Command of this code and number, behind the seconds of a relative sequence.
fn started(seconds: u8, code: u8, number: u8) -> [u8; 12] {
    let check = 0x8D ^ code ^ number;
    [
        0, seconds, 0x18, 0xA9, 0xC0, 0, 0, 3, code, check, 0, number,
    ]
}

#[test]
fn a_gap_is_told(rt: HostRuntime) -> Result<(), Fail> {
    let mut payload = [0u8; 192];
    payload[1] = 1;
    payload[37] = 2;
    let warnings = find_warnings(rt.alloc(), TableKind::Memory, payload.as_slice())?;
    assert_eq!(rt;
        warnings.as_slice(),
        [Warning::Gap(2), Warning::Gap(3)].as_slice()
    );
    Ok(())
}

#[test]
fn a_dwell_table_without_delays_is_told(rt: HostRuntime) -> Result<(), Fail> {
    let mut payload = [0u8; 204];
    payload[5] = 1;
    payload[21] = 1;
    let warnings = find_warnings(rt.alloc(), TableKind::Dwell(1), payload.as_slice())?;
    assert_eq!(rt;
        warnings.as_slice(),
        [Warning::Unread(2), Warning::NoDelay].as_slice()
    );
    Ok(())
}

#[test]
fn a_sequence_that_starts_itself_is_told(rt: HostRuntime) -> Result<(), Fail> {
    let mut payload = Vec::new(rt.alloc());
    payload.extend_from_slice(started(5, 4, 3).as_slice())?;
    for _ in 0..8 {
        payload.extend_from_slice(started(0, 5, 3).as_slice())?;
    }
    assert!(rt; payload.len() <= 2_048);
    let warnings = find_warnings(rt.alloc(), TableKind::Rts(3), payload.as_slice())?;
    assert_eq!(rt;
        warnings.as_slice(),
        [Warning::StartsItself(1), Warning::Crowded(Place::Entry(9))].as_slice()
    );
    Ok(())
}

#[test]
fn a_wrong_checksum_is_told(rt: HostRuntime) -> Result<(), Fail> {
    let mut wrong = started(5, 5, 3);
    wrong[9] = wrong[9] ^ 1;
    let mut payload = Vec::new(rt.alloc());
    payload.extend_from_slice(started(5, 5, 3).as_slice())?;
    payload.extend_from_slice(wrong.as_slice())?;
    assert!(rt; payload.len() <= 2_048);
    let warnings = find_warnings(rt.alloc(), TableKind::Rts(3), payload.as_slice())?;
    assert_eq!(rt;
        warnings.as_slice(),
        [Warning::WrongChecksum(Place::Entry(2))].as_slice()
    );
    Ok(())
}

#[test]
fn an_id_that_is_not_watched_is_told(rt: HostRuntime) -> Result<(), Fail> {
    let mut payload = [0u8; 512];
    payload[1] = 1;
    payload[2] = 0x08;
    payload[3] = 0x08;
    let warnings = find_warnings(rt.alloc(), TableKind::Wdt, payload.as_slice())?;
    assert_eq!(rt;
        warnings.as_slice(),
        [Warning::Unwatched(1, 0x0808)].as_slice()
    );
    Ok(())
}

/// A command of an absolute sequence: Stored Command's of this code.
fn timed(number: u8, time: u8, code: u8) -> [u8; 14] {
    let check = 0x8F ^ code;
    [
        0, number, 0, 0, 0, time, 0x18, 0xA9, 0xC0, 0, 0, 1, code, check,
    ]
}

#[test]
fn a_command_behind_the_end_is_told(rt: HostRuntime) -> Result<(), Fail> {
    let mut payload = Vec::new(rt.alloc());
    payload.extend_from_slice(timed(7, 11, 0).as_slice())?;
    payload.extend_from_slice(timed(1, 10, 3).as_slice())?;
    payload.extend_from_slice(timed(2, 10, 0).as_slice())?;
    assert!(rt; payload.len() <= 65_536);
    let warnings = find_warnings(rt.alloc(), TableKind::Ats(1), payload.as_slice())?;
    assert_eq!(rt;
        warnings.as_slice(),
        [Warning::BehindEnd(Place::Number(7))].as_slice()
    );
    Ok(())
}

/// Places a name and the two numbers behind it in the entry in a place of a table of monitors.
fn place_monitor(payload: &mut [u8; 768], place: usize, name: &[u8; 3], cycles: u8, action: u8)
    requires { place < 32 }
{
    let start = 24 * place;
    payload[start] = name[0];
    payload[start + 1] = name[1];
    payload[start + 2] = name[2];
    payload[start + 21] = cycles;
    payload[start + 23] = action;
}

#[test]
fn a_name_that_nobody_has_is_told(rt: HostRuntime) -> Result<(), Fail> {
    let mut payload = [0u8; 768];
    place_monitor(&mut payload, 0, b"NAV", 3, 2);
    place_monitor(&mut payload, 1, b"CS\0", 3, 2);
    place_monitor(&mut payload, 2, b"TBL", 3, 2);
    place_monitor(&mut payload, 3, b"NA_", 3, 2);
    place_monitor(&mut payload, 4, b"nav", 0, 2);
    let known = Name::from_text("NAV").ok_or("no name")?;
    let sender = Name::from_text("TBL").ok_or("no name")?;
    let other = Name::from_text("NA_").ok_or("no name")?;
    let warnings = find_unknown_names(
        rt.alloc(),
        TableKind::AppMon,
        [known].as_slice(),
        payload.as_slice(),
    )?;
    assert_eq!(rt;
        warnings.as_slice(),
        [Warning::Unknown(3, sender), Warning::Unknown(4, other)].as_slice()
    );
    Ok(())
}

#[test]
fn a_range_over_two_regions_is_told(rt: HostRuntime) -> Result<(), Fail> {
    let first = Region {
        kind: Kind::Ram,
        start: 0x1000,
        len: 256,
    };
    let second = Region {
        kind: Kind::Eeprom,
        start: 0x1100,
        len: 256,
    };
    let map = Map::new(&[first, second])?;
    let mut payload = [0u8; 192];
    payload[6] = 0x10;
    payload[7] = 0xFF;
    payload[11] = 2;
    payload[18] = 0x10;
    payload[19] = 0xFF;
    payload[23] = 1;
    let warnings = find_split_ranges(rt.alloc(), TableKind::Eeprom, &map, payload.as_slice())?;
    assert_eq!(rt; warnings.as_slice(), [Warning::Split(1)].as_slice());
    Ok(())
}
