//! A view of memory that may be copied and read by several threads.
ghost use Rattle.std.specs.Prelude.{◌≡◌, ◌+◌, ◌/◌, ◌<◌, ◌≤◌, ◌&&◌, ◌^◌, false, length, take, drop, IfSome, IfOk, IfErr, MatchResult, Ok, Err, IsTrue, option_map, if◌then◌else◌};
ghost use Rattle.std.specs.List.{list_any};
ghost use Rattle.memory_window.specs.Regions.{is_eeprom, ends_late, total_of};
ghost use Rattle.memory_window.specs.Operations.{is_size};
ghost use Rattle.memory_window.specs.Numbers.{number_of};

use crate::regions::{Kind, Region};
use crate::{AccessFault, MemOp};

/// A region that a window shows, with its bytes and whether it is protected.
#[derive(Clone, Copy)]
struct Part<'a> {
    region: Region,
    bytes: &'a [u8],
    guarded: bool,
}

/// The regions of memory, their bytes side by side in one block, and which of them are protected.
#[derive(Clone, Copy)]
pub struct Window<'a> {
    regions: &'a [Region],
    // One flag for each region; those behind the last one say nothing.
    flags: &'a [bool],
    block: &'a [u8],
    ghost bounded: { (length regions.now ≤ 8) × (length flags.now ≡ 8)
        × (total_of regions.now ≡ length block.now) × (list_any ends_late regions.now ≡ false) },
}

impl<'a> Part<'a> {
    fn unless_guarded(self) -> Result<(), AccessFault>
        ensures { result ≡ (if is_eeprom self.entry.region.kind && self.entry.guarded
            then Err AccessFault.Protected else Ok tt) }
    {
        if self.region.kind.is_eeprom() && self.guarded {
            return Err(AccessFault::Protected);
        }
        Ok(())
    }
}

impl<'a> Window<'a> {
    ghost use Rattle.memory_window.specs.Memory.{home, part_of, cut};
    ghost use Rattle.memory_window.specs.Access.{read_of, bytes_of, is_protected, is_guarded, unless_guarded, admits_of, CanAsk};
    ghost use Rattle.memory_window.specs.Window.{area_of, seen};

    /// The window on a block in which the regions lie side by side.
    pub(crate) fn over(regions: &'a [Region], flags: &'a [bool], block: &'a [u8]) -> Window<'a>
        requires few { length regions.now ≤ 8 }
        requires flags { length flags.now ≡ 8 }
        requires whole { total_of regions.now ≡ length block.now }
        requires within { list_any ends_late regions.now ≡ false }
        ensures { seen result ≡ record {
          areas = cut regions.entry.now block.entry.now;
          guarded
              = take (length regions.entry.now) flags.entry.now;
        } }
    {
        Window {
            regions,
            flags,
            block,
        }
    }

    /// The part in which a range lies.
    fn home(self, at: u32, len: u32) -> Option<Part<'a>>
        ensures area { home (seen self.entry).areas at len ≡ option_map area_of result }
        ensures inside { IfSome result (λ p. (p.region.start ≤ at)
            × (at + len ≤ p.region.start + length p.bytes.now)) }
        ensures ends { IfSome result (λ p. at + len ≤ 2 ^ 32) }
        ensures guard { IfSome result (λ p. is_guarded (seen self.entry).areas
            (seen self.entry).guarded at len ≡ (is_eeprom p.region.kind && p.guarded)) }
    {
        let mut from = 0;
        for (i, region) in self.regions.iter().enumerate() {
            let to = from + region.len as usize;
            if region.spans(at, len) {
                return Some(Part {
                    region: *region,
                    bytes: &self.block[from..to],
                    guarded: self.flags[i],
                });
            }
            from = to;
        }
        None
    }

    /// The part that a read of `size` bits reaches.
    fn reach(self, size: u8, at: u32) -> Result<Part<'a>, AccessFault>
        requires { IsTrue (is_size size) }
        ensures ok { IfOk result (λ p. read_of size (seen self.entry) at
            ≡ Ok (number_of (part_of at (size / 8) (area_of p)))) }
        ensures fault { IfErr result (λ fault. read_of size (seen self.entry) at ≡ Err fault) }
        ensures inside { IfOk result (λ p. (p.region.start ≤ at)
            × (at + size / 8 ≤ p.region.start + length p.bytes.now)) }
        ensures guard { IfOk result (λ p. is_guarded (seen self.entry).areas
            (seen self.entry).guarded at (size / 8) ≡ (is_eeprom p.region.kind && p.guarded)) }
    {
        let len = u32::from(size / 8);
        let Some(part) = self.home(at, len) else {
            return Err(AccessFault::Outside);
        };
        if at % len != 0 {
            return Err(AccessFault::Unaligned);
        }
        if !part.region.kind.allows(size) {
            return Err(AccessFault::WrongSize);
        }
        Ok(part)
    }

    /// The part that holds a range.
    fn reach_range(self, at: u32, len: u32) -> Result<Part<'a>, AccessFault>
        ensures ok { IfOk result (λ p. bytes_of (seen self.entry) at len
            ≡ Ok (part_of at len (area_of p))) }
        ensures fault { IfErr result (λ fault. bytes_of (seen self.entry) at len ≡ Err fault) }
        ensures inside { IfOk result (λ p. (p.region.start ≤ at)
            × (at + len ≤ p.region.start + length p.bytes.now)) }
        ensures ends { IfOk result (λ p. at + len ≤ 2 ^ 32) }
        ensures guard { IfOk result (λ p. is_guarded (seen self.entry).areas
            (seen self.entry).guarded at len ≡ (is_eeprom p.region.kind && p.guarded)) }
    {
        let Some(part) = self.home(at, len) else {
            return Err(AccessFault::Outside);
        };
        let unit = part.region.kind.unit();
        if at % unit != 0 || len % unit != 0 {
            return Err(AccessFault::Unaligned);
        }
        Ok(part)
    }

    /// Reads 8 bits.
    pub fn read8(self, at: u32) -> Result<u8, AccessFault>
        ensures { result ≡ read_of 8 (seen self.entry) at }
    {
        let part = self.reach(8, at)?;
        Ok(part.bytes[(at - part.region.start) as usize])
    }

    /// Reads 16 bits. The byte at the lowest address is the most significant one.
    pub fn read16(self, at: u32) -> Result<u16, AccessFault>
        ensures { result ≡ read_of 16 (seen self.entry) at }
    {
        let part = self.reach(16, at)?;
        Ok(u16_at(part.bytes, (at - part.region.start) as usize))
    }

    /// Reads 32 bits. The byte at the lowest address is the most significant one.
    pub fn read32(self, at: u32) -> Result<u32, AccessFault>
        ensures { result ≡ read_of 32 (seen self.entry) at }
    {
        let part = self.reach(32, at)?;
        Ok(u32_at(part.bytes, (at - part.region.start) as usize))
    }

    /// The `len` bytes from `at` on. Nothing is copied.
    pub fn bytes(self, at: u32, len: u32) -> Result<&'a [u8], AccessFault>
        requires { 0 < len }
        ensures bytes { MatchResult result (λ bytes. bytes_of (seen self.entry) at len
            ≡ Ok bytes.now) (λ fault. bytes_of (seen self.entry) at len ≡ Err fault) }
        ensures len { IfOk result (λ bytes. length bytes.now ≡ len) }
        ensures ends { IfOk result (λ bytes. at + len ≤ 2 ^ 32) }
    {
        let part = self.reach_range(at, len)?;
        let from = (at - part.region.start) as usize;
        Ok(&part.bytes[from..from + len as usize])
    }

    /// Whether an operation may be made: its range meets no fault of a read, and isn't protected.
    pub fn admits(self, op: &MemOp) -> Result<(), AccessFault>
        requires { CanAsk (seen self) op.now }
        ensures { result ≡ admits_of (seen self.entry) op.now }
    {
        match op {
            MemOp::Poke { size, at, .. } => self.admits_poke(*size, *at),
            MemOp::Fill { at, len, .. } => self.admits_range(*at, *len),
            MemOp::Bytes { at, part } => self.admits_range(*at, part.len()),
            MemOp::FromFile { at, len, .. } => self.admits_range(*at, *len),
            MemOp::Protect { .. } => Ok(()),
        }
    }

    fn admits_poke(self, size: u8, at: u32) -> Result<(), AccessFault>
        requires { IsTrue (is_size size) }
        ensures { result ≡ unless_guarded (read_of size (seen self.entry) at)
            (is_guarded (seen self.entry).areas (seen self.entry).guarded at (size / 8)) }
    {
        let part = self.reach(size, at)?;
        part.unless_guarded()
    }

    fn admits_range(self, at: u32, len: u32) -> Result<(), AccessFault>
        ensures { result ≡ unless_guarded (bytes_of (seen self.entry) at len)
            (is_guarded (seen self.entry).areas (seen self.entry).guarded at len) }
    {
        let part = self.reach_range(at, len)?;
        part.unless_guarded()
    }

    /// Whether a region, counted from 1, is protected; nothing where it is no EEPROM region.
    pub fn protected(self, region: u32) -> Option<bool>
        ensures { result ≡ is_protected (seen self.entry) region }
    {
        if region == 0 || region as usize > self.regions.len() {
            return None;
        }
        let place = region as usize - 1;
        if self.regions[place].kind.is_eeprom() {
            Some(self.flags[place])
        } else {
            None
        }
    }
}

fn u16_at(bytes: &[u8], from: usize) -> u16
    requires { from + 2 ≤ length bytes.now }
    ensures { result ≡ number_of (take 2 (drop from bytes.now)) }
{
    u16::from(bytes[from]) * 256 + u16::from(bytes[from + 1])
}

fn u32_at(bytes: &[u8], from: usize) -> u32
    requires { from + 4 ≤ length bytes.now }
    ensures { result ≡ number_of (take 4 (drop from bytes.now)) }
{
    let first = u32::from(bytes[from]);
    let second = u32::from(bytes[from + 1]);
    let third = u32::from(bytes[from + 2]);
    let fourth = u32::from(bytes[from + 3]);
    ((first * 256 + second) * 256 + third) * 256 + fourth
}
