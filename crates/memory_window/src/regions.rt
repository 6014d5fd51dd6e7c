//! The regions of memory, and the map that holds them.
ghost use Rattle.std.specs.Prelude.{◌≡◌, ◌+◌, ◌-◌, ◌<◌, ◌≤◌, ◌++◌, length, replicate, IfErr, IfOk, IfNone, None, Some, false, nat_lt};
ghost use Rattle.std.specs.List.{list_any};
ghost use Rattle.memory_window.specs.Regions.{blank, holds, is_mapped, map_fault_of, meet, spans, is_eeprom, allows, unit_of, is_empty, has_blank, has_overlap, ends_late, are_too_big, is_unaligned, total_of};

use std::marker::Model;
use thiserror::Error;

/// What kind of memory a region is, and with it how it may be read and written.
#[derive(Clone, Copy, Debug, PartialEq, Eq)]
pub enum Kind {
    /// Read and written in any size.
    Ram,
    /// As `Ram`, and protected against writing until the protection is taken away.
    Eeprom,
    /// Read and written in units of 8 bits alone.
    Mem8,
    /// Read and written in units of 16 bits alone.
    Mem16,
    /// Read and written in units of 32 bits alone.
    Mem32,
}

/// A run of `len` addresses that begins at `start`.
#[derive(Clone, Copy, Debug, PartialEq, Eq)]
pub struct Region {
    pub kind: Kind,
    pub start: u32,
    pub len: u32,
}

/// Why a list of regions is no map: the first fault that it has, in this order.
#[derive(Clone, Copy, Debug, PartialEq, Eq, Error)]
pub enum MapFault {
    #[error("there is no region, or one of length 0")]
    Empty,
    #[error("two regions share an address")]
    Overlap,
    #[error("the regions have over 4194304 bytes together, or one ends past the last address")]
    TooBig,
    #[error("there are more than 8 regions")]
    TooMany,
    #[error("a start or a length is no multiple of 4")]
    Alignment,
}

/// The most regions that a map may have.
pub(crate) const MOST_REGIONS: usize = 8;

/// The most bytes that the regions of a map may have together.
const MOST_BYTES: u64 = 4_194_304;

impl Kind {
    /// Whether memory of this kind may be read and written in units of so many bits.
    pub(crate) fn allows(self, size: u8) -> bool
        ensures { result ≡ allows self size }
    {
        match self {
            Kind::Mem8 => size == 8,
            Kind::Mem16 => size == 16,
            Kind::Mem32 => size == 32,
            Kind::Ram | Kind::Eeprom => true,
        }
    }

    /// Of how many bytes the address and the length of a range must be multiples.
    pub(crate) fn unit(self) -> u32
        ensures unit { result ≡ unit_of self }
        ensures some { 0 < result }
    {
        match self {
            Kind::Mem16 => 2,
            Kind::Mem32 => 4,
            Kind::Ram | Kind::Eeprom | Kind::Mem8 => 1,
        }
    }

    /// Whether it is EEPROM, which alone can be protected.
    pub fn is_eeprom(self) -> bool
        ensures { result ≡ is_eeprom self }
    {
        match self {
            Kind::Eeprom => true,
            Kind::Ram | Kind::Mem8 | Kind::Mem16 | Kind::Mem32 => false,
        }
    }
}

impl Region {
    /// What stands behind the regions of a map.
    pub(crate) const BLANK: Region = Region {
        kind: Kind::Ram,
        start: 0,
        len: 0,
    };

    /// The address behind the region's last one.
    pub fn end(self) -> u64
        ensures { result ≡ self.start + self.len }
    {
        u64::from(self.start) + u64::from(self.len)
    }

    /// Whether the region has this address.
    pub fn holds(self, at: u32) -> bool
        ensures { result ≡ holds at self }
    {
        self.start <= at && u64::from(at) < self.end()
    }

    /// Whether a range of `len` bytes that begins at `at` lies in the region.
    pub(crate) fn spans(self, at: u32, len: u32) -> bool
        ensures { result ≡ spans at len self }
    {
        self.start <= at && u64::from(at) + u64::from(len) <= self.end()
    }

    fn is_empty(self) -> bool
        ensures { result ≡ is_empty self }
    {
        self.len == 0
    }

    fn ends_late(self) -> bool
        ensures { result ≡ ends_late self }
    {
        self.end() > 1 << 32
    }

    fn meets(self, other: Region) -> bool
        ensures { result ≡ meet self other }
    {
        u64::from(self.start) < other.end() && u64::from(other.start) < self.end()
    }

    fn is_unaligned(self) -> bool
        ensures { result ≡ is_unaligned self }
    {
        self.start % 4 != 0 || self.len % 4 != 0
    }
}

/// Whether one of the regions has this address.
pub fn is_mapped(regions: &[Region], at: u32) -> bool
    ensures { result ≡ is_mapped regions.now at }
{
    regions.iter().any(|region| region.holds(at))
}

fn has_blank(regions: &[Region]) -> bool
    ensures { result ≡ has_blank regions.now }
{
    regions.is_empty() || has_empty_region(regions)
}

fn has_empty_region(regions: &[Region]) -> bool
    ensures { result ≡ list_any is_empty regions.now }
{
    regions.iter().any(|region| region.is_empty())
}

fn has_overlap(regions: &[Region]) -> bool
    ensures { result ≡ has_overlap regions.now }
{
    let mut rest = regions;
    while let [first, others @ ..] = rest {
        if meets_one(*first, others) {
            return true;
        }
        rest = others;
    }
    false
}

fn meets_one(region: Region, others: &[Region]) -> bool
    ensures { result ≡ list_any (meet region) others.now }
{
    others.iter().any(|other| region.meets(*other))
}

fn are_too_long(regions: &[Region]) -> bool
    ensures { result ≡ nat_lt 4194304 (total_of regions.now) }
{
    let mut total: u64 = 0;
    for region in regions {
        total = total.saturating_add(u64::from(region.len));
    }
    total > MOST_BYTES
}

fn total_len(regions: &[Region]) -> u32
    requires { total_of regions.now ≤ 4194304 }
    ensures { result ≡ total_of regions.now }
{
    let mut total = 0;
    for region in regions {
        total += region.len;
    }
    total
}

fn are_too_big(regions: &[Region]) -> bool
    ensures { result ≡ are_too_big regions.now }
{
    are_too_long(regions) || one_ends_late(regions)
}

fn one_ends_late(regions: &[Region]) -> bool
    ensures { result ≡ list_any ends_late regions.now }
{
    regions.iter().any(|region| region.ends_late())
}

#[tactic(auto, unfolding(crate::specs::Regions::map_fault_of))]
fn fault_of(regions: &[Region]) -> Option<MapFault>
    ensures fault { result ≡ map_fault_of regions.now }
    ensures few { IfNone result (length regions.now ≤ 8) }
{
    if has_blank(regions) {
        return Some(MapFault::Empty);
    }
    if has_overlap(regions) {
        return Some(MapFault::Overlap);
    }
    if are_too_big(regions) {
        return Some(MapFault::TooBig);
    }
    if regions.len() > MOST_REGIONS {
        return Some(MapFault::TooMany);
    }
    if one_is_unaligned(regions) {
        return Some(MapFault::Alignment);
    }
    None
}

fn one_is_unaligned(regions: &[Region]) -> bool
    ensures { result ≡ list_any is_unaligned regions.now }
{
    regions.iter().any(|region| region.is_unaligned())
}

/// The regions, and blank ones up to the eighth place.
fn padded(regions: &[Region]) -> [Region; MOST_REGIONS]
    requires { length regions.now ≤ 8 }
    ensures { result ≡ regions.now ++ replicate (8 - length regions.now) blank }
{
    let mut kept = [Region::BLANK; MOST_REGIONS];
    kept[..regions.len()].copy_from_slice(regions);
    kept
}

/// A list of 1 to 8 regions without a fault.
#[derive(Clone, Copy, Debug)]
pub struct Map {
    regions: [Region; MOST_REGIONS],
    count: usize,
}

impl Model for Map {
    ghost use Rattle.std.specs.Prelude.{◌≡◌, List, None, ◌≤◌, ◌-◌, ◌++◌, length, take, replicate};
    ghost use Rattle.memory_window.specs.declared.regions.Region.{Region};
    ghost use Rattle.memory_window.specs.Regions.{map_fault_of, blank};

    ghost Value = { List Region };

    ghost view = { λ m. take m.count m.regions };

    ghost invariant = { λ m. (m.count ≤ 8) × (length m.regions ≡ 8)
        × (m.regions ≡ take m.count m.regions ++ replicate (8 - m.count) blank)
        × (map_fault_of (take m.count m.regions) ≡ None) };

    ghost inverse = { λ regions. record {
      regions = regions ++ replicate (8 - length regions) blank;
      count = length regions;
    } };
}

impl Map {
    /// The map of these regions, or the first fault that they have. Takes no memory.
    pub fn new(regions: &[Region]) -> Result<Map, MapFault>
        ensures map { IfOk result (λ map. (map ≡ regions.now) × (map_fault_of regions.now ≡ None)) }
        ensures fault { IfErr result (λ fault. map_fault_of regions.now ≡ Some fault) }
    {
        match fault_of(regions) {
            Some(fault) => Err(fault),
            None => Ok(Map {
                regions: padded(regions),
                count: regions.len(),
            }),
        }
    }

    /// The regions, in the order in which they were given.
    pub fn regions(&self) -> &[Region]
        ensures regions { result.now ≡ self.now }
        ensures valid { map_fault_of self.now ≡ None }
        ensures few { length self.now ≤ 8 }
        ensures within { list_any ends_late self.now ≡ false }
    {
        &self.regions[..self.count]
    }

    /// How many bytes the regions have together.
    pub fn total(&self) -> u32
        ensures total { result ≡ total_of self.now }
        ensures most { total_of self.now ≤ 4194304 }
    {
        total_len(self.regions())
    }

    /// Whether one of the map's regions has this address.
    pub fn is_mapped(&self, at: u32) -> bool
        ensures { result ≡ is_mapped self.now at }
    {
        is_mapped(self.regions(), at)
    }
}
