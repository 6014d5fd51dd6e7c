//! Files of tables, and files to be loaded.

use packet_forms::crc16;
use std::alloc::Global;
use std::test::Fail;

/// An entry of a dwell table: its place from 1, its length, its delay and its address.
pub type Dwelling = (usize, u16, u16, u32);

/// An entry of a checksum table: its place from 1, its state, its start and its length.
pub type Segment = (usize, u16, u32, u32);

/// Appends a number of two bytes.
fn push_u16(bytes: &mut Vec<u8>, number: u16) -> Result<(), Fail> {
    bytes.extend_from_slice(&number.to_be_bytes())?;
    Ok(())
}

/// Appends a number of four bytes.
fn push_u32(bytes: &mut Vec<u8>, number: u32) -> Result<(), Fail> {
    bytes.extend_from_slice(&number.to_be_bytes())?;
    Ok(())
}

/// Appends zeros up to a length.
pub fn pad(bytes: &mut Vec<u8>, len: usize) -> Result<(), Fail> {
    for _ in bytes.len()..len {
        bytes.push(0)?;
    }
    Ok(())
}

/// The headers of a table file that says so many bytes of payload.
fn headers(alloc: Global, name: &str, payload: u32) -> Result<Vec<u8>, Fail> {
    let mut bytes = Vec::new(alloc);
    push_u32(&mut bytes, 0x6346_4531)?;
    push_u32(&mut bytes, 8)?;
    pad(&mut bytes, 68)?;
    push_u32(&mut bytes, 0)?;
    push_u32(&mut bytes, payload)?;
    bytes.extend_from_slice(name.as_bytes())?;
    pad(&mut bytes, 116)?;
    Ok(bytes)
}

/// A file of a table whose bytes are all 0.
pub fn blank_file(alloc: Global, name: &str, payload: u32) -> Result<Vec<u8>, Fail> {
    let mut bytes = headers(alloc, name, payload)?;
    pad(&mut bytes, (payload as usize).saturating_add(116))?;
    Ok(bytes)
}

/// A file of bytes to be loaded at an address: this many times this byte, with their check.
pub fn load_file(alloc: Global, at: u32, len: u32, byte: u8) -> Result<Vec<u8>, Fail> {
    let mut data = Vec::new(alloc);
    data.resize(len as usize, byte)?;
    let mut bytes = Vec::new(alloc);
    push_u32(&mut bytes, 0x6346_4531)?;
    push_u32(&mut bytes, 100)?;
    pad(&mut bytes, 64)?;
    push_u32(&mut bytes, at)?;
    push_u32(&mut bytes, len)?;
    push_u32(&mut bytes, u32::from(crc16(0, &data)))?;
    pad(&mut bytes, 80)?;
    bytes.extend_from_slice(&data)?;
    Ok(bytes)
}

/// A file of a dwell table with this enabled flag and these entries, whose places rise.
pub fn dwell_file(
    alloc: Global,
    name: &str,
    enabled: u16,
    entries: &[Dwelling],
) -> Result<Vec<u8>, Fail> {
    let mut bytes = headers(alloc, name, 204)?;
    push_u16(&mut bytes, enabled)?;
    for entry in entries.iter() {
        let (place, len, delay, at) = *entry;
        pad(&mut bytes, place.saturating_mul(8).saturating_add(112))?;
        push_u16(&mut bytes, len)?;
        push_u16(&mut bytes, delay)?;
        push_u32(&mut bytes, at)?;
    }
    pad(&mut bytes, 320)?;
    Ok(bytes)
}

/// A file of a checksum table with these entries, whose places rise.
pub fn segments_file(alloc: Global, name: &str, entries: &[Segment]) -> Result<Vec<u8>, Fail> {
    let mut bytes = headers(alloc, name, 192)?;
    for entry in entries.iter() {
        let (place, state, start, len) = *entry;
        pad(&mut bytes, place.saturating_mul(12).saturating_add(104))?;
        push_u16(&mut bytes, state)?;
        push_u16(&mut bytes, 0)?;
        push_u32(&mut bytes, start)?;
        push_u32(&mut bytes, len)?;
    }
    pad(&mut bytes, 308)?;
    Ok(bytes)
}

/// An entry of application monitors or event monitors: its place from 1, its name, its cycle count or event, and its action.
pub type Monitor<'a> = (usize, &'a str, u16, u16);

/// An entry of execution counters: its place from 1, its name and its type.
pub type Count<'a> = (usize, &'a str, u16);

/// Appends a name, in 20 bytes.
fn push_name(bytes: &mut Vec<u8>, name: &str) -> Result<(), Fail> {
    let len = bytes.len().saturating_add(20);
    bytes.extend_from_slice(name.as_bytes())?;
    pad(bytes, len)
}

/// A file of monitors whose payload has so many bytes. The places of the entries rise.
fn monitors_file(
    alloc: Global,
    name: &str,
    payload: u16,
    entries: &[Monitor<'_>],
) -> Result<Vec<u8>, Fail> {
    let mut bytes = headers(alloc, name, u32::from(payload))?;
    for entry in entries.iter() {
        let (place, name, number, action) = *entry;
        pad(&mut bytes, place.saturating_mul(24).saturating_add(92))?;
        push_name(&mut bytes, name)?;
        push_u16(&mut bytes, number)?;
        push_u16(&mut bytes, action)?;
    }
    pad(&mut bytes, usize::from(payload).saturating_add(116))?;
    Ok(bytes)
}

/// A file of application monitors with these entries, whose places rise.
pub fn apps_file(alloc: Global, entries: &[Monitor<'_>]) -> Result<Vec<u8>, Fail> {
    monitors_file(alloc, "HS.AppMon_Tbl", 768, entries)
}

/// A file of event monitors with these entries, whose places rise.
pub fn events_file(alloc: Global, entries: &[Monitor<'_>]) -> Result<Vec<u8>, Fail> {
    monitors_file(alloc, "HS.EventMon_Tbl", 384, entries)
}

/// A file of execution counters with these entries, whose places rise.
pub fn counts_file(alloc: Global, entries: &[Count<'_>]) -> Result<Vec<u8>, Fail> {
    let mut bytes = headers(alloc, "HS.ExeCount_Tbl", 704)?;
    for entry in entries.iter() {
        let (place, name, sort) = *entry;
        pad(&mut bytes, place.saturating_mul(22).saturating_add(94))?;
        push_name(&mut bytes, name)?;
        push_u16(&mut bytes, sort)?;
    }
    pad(&mut bytes, 820)?;
    Ok(bytes)
}

/// A file of a relative sequence with these commands: each has its seconds and its packet.
pub fn rts_file(alloc: Global, name: &str, commands: &[(u16, &[u8])]) -> Result<Vec<u8>, Fail> {
    let mut payload = Vec::new(alloc);
    for command in commands.iter() {
        let (seconds, packet) = *command;
        push_u16(&mut payload, seconds)?;
        payload.extend_from_slice(packet)?;
    }
    let mut bytes = headers(alloc, name, payload.len().min(2048) as u32)?;
    bytes.extend_from_slice(&payload)?;
    Ok(bytes)
}
