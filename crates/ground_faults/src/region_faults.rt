//! What stands before a line of a scenario or a plan: the regions, and why they make no map, and an end.

ghost use Rattle.std.specs.Prelude.{◌<◌, ◌+◌, ◌^◌, length};

use crate::line_words::{begins_with, word_at};
use crate::said_entries::MOST_TEXT;
use row_forms::number;
use table_texts::{Line, next_line};
use thiserror::Error;

/// The most bytes that regions may have together.
const MOST_BYTES: u64 = 4_194_304;

/// How many addresses there are.
const ADDRESSES: u64 = 4_294_967_296;

/// Why regions make no map.
#[derive(Clone, Copy, Debug, PartialEq, Eq, Error)]
pub enum RegionFault {
    #[error("there is no region: at least one stands before this line, such as `region RAM 0x1000 256`")]
    Missing,
    #[error("the region of line {0} has no byte")]
    Empty(u32),
    #[error("the region of line {0} begins at no multiple of 4")]
    Start(u32),
    #[error("the region of line {0} has a length that is no multiple of 4")]
    Length(u32),
    #[error("the region of line {0} ends behind the last address, 0xFFFFFFFF")]
    Past(u32),
    #[error("the regions of lines {0} and {1} share an address")]
    Shared(u32, u32),
    #[error("the regions have {0} bytes together, and 4194304 are the most")]
    Large(u64),
}

/// A region, and the number of its line.
#[derive(Clone, Copy, Debug)]
struct SaidRegion {
    line: u32,
    start: u32,
    len: u32,
}

impl SaidRegion {
    /// The address behind the last one.
    fn end(self) -> u64 {
        u64::from(self.start).saturating_add(u64::from(self.len))
    }

    /// Whether two regions share an address.
    fn meets(self, other: SaidRegion) -> bool {
        u64::from(self.start) < other.end() && u64::from(other.start) < self.end()
    }

    /// What is wrong with the region, whatever others there are.
    fn fault(self) -> Option<RegionFault> {
        if self.len == 0 {
            return Some(RegionFault::Empty(self.line));
        }
        if self.start % 4 != 0 {
            return Some(RegionFault::Start(self.line));
        }
        if self.len % 4 != 0 {
            return Some(RegionFault::Length(self.line));
        }
        if self.end() > ADDRESSES {
            return Some(RegionFault::Past(self.line));
        }
        None
    }
}

/// The region that a line says, if it says one.
fn said_region(line: &Line<'_>) -> Option<SaidRegion> {
    if !begins_with(line.bytes, b"region") {
        return None;
    }
    Some(SaidRegion {
        line: line.number,
        start: number(u32::MAX, word_at(line.bytes, 2))?,
        len: number(u32::MAX, word_at(line.bytes, 3))?,
    })
}

/// Whether a line before a region says one that shares an address with it.
fn meets_before(line: &Line<'_>, region: SaidRegion) -> bool {
    match said_region(line) {
        Some(other) => other.line < region.line && other.meets(region),
        None => false,
    }
}

/// The line of the first region before this one that shares an address with it.
fn shared_with(text: &[u8], region: SaidRegion) -> Option<u32>
    requires { 1 + length text.now < 2 ^ 32 }
{
    let mut rest = text;
    let mut next = 1;
    'lines: while let Some(line) = next_line(rest, next) {
        if meets_before(&line, region) {
            return Some(line.number);
        }
        rest = line.rest;
        next = line.number + 1;
    }
    None
}

/// What is wrong with the region that a line says, by itself or beside those before it; none where the line says no region.
fn fault_at(text: &[u8], line: &Line<'_>) -> Option<RegionFault>
    requires { 1 + length text.now < 2 ^ 32 }
{
    let region = said_region(line)?;
    if let Some(fault) = region.fault() {
        return Some(fault);
    }
    match shared_with(text, region) {
        Some(earlier) => Some(RegionFault::Shared(earlier, region.line)),
        None => None,
    }
}

/// How many bytes the region has that a line says, and 0 where it says none.
fn said_bytes(line: &Line<'_>) -> u64 {
    match said_region(line) {
        Some(region) => u64::from(region.len),
        None => 0,
    }
}

/// What is wrong with all regions together.
fn fault_of_all(bytes: u64) -> Option<RegionFault> {
    if bytes == 0 {
        return Some(RegionFault::Missing);
    }
    if bytes > MOST_BYTES {
        return Some(RegionFault::Large(bytes));
    }
    None
}

/// The first fault of the regions before a line.
fn fault_before(text: &[u8], number: u32) -> Option<RegionFault>
    requires { 1 + length text.now < 2 ^ 32 }
{
    let mut rest = text;
    let mut next = 1;
    let mut bytes: u64 = 0;
    'lines: while let Some(line) = next_line(rest, next) {
        if line.number >= number {
            return fault_of_all(bytes);
        }
        if let Some(fault) = fault_at(text, &line) {
            return Some(fault);
        }
        bytes = bytes.saturating_add(said_bytes(&line));
        rest = line.rest;
        next = line.number + 1;
    }
    None
}

/// Why the regions before the line `start` of this number make no map; none where that isn't known.
pub(crate) fn region_fault(text: &[u8], start: u32) -> Option<RegionFault> {
    if text.len() > MOST_TEXT {
        return None;
    }
    fault_before(text, start)
}

/// The number of the first line `end` of a text.
fn first_end(text: &[u8]) -> Option<u32>
    requires { 1 + length text.now < 2 ^ 32 }
{
    let mut rest = text;
    let mut next = 1;
    'lines: while let Some(line) = next_line(rest, next) {
        if begins_with(line.bytes, b"end") {
            return Some(line.number);
        }
        rest = line.rest;
        next = line.number + 1;
    }
    None
}

/// The number of a line `end` before the line of this number; none where there is none, or where it isn't known.
pub(crate) fn end_before(text: &[u8], number: u32) -> Option<u32> {
    if text.len() > MOST_TEXT {
        return None;
    }
    match first_end(text) {
        Some(end) if end < number => Some(end),
        _ => None,
    }
}
