//! Operations on memory.
ghost use Rattle.std.specs.Prelude.{◌≡◌, false, ◌+◌, ◌-◌, ◌*◌, ◌/◌, ◌%◌, ◌^◌, ◌<◌, ◌≤◌};
ghost use Rattle.memory_window.specs.Operations.{is_size, op_at, op_len};

use crate::Chunk;

/// A change of memory that is made at a frame's end.
#[derive(Clone, Copy, Debug)]
pub enum MemOp {
    /// Writes the low `size` bits (8, 16 or 32) of `value`, the most significant byte first.
    Poke { size: u8, at: u32, value: u32 },
    /// Writes `len` times the byte.
    Fill { at: u32, len: u32, byte: u8 },
    /// Writes the bytes of `part`.
    Bytes { at: u32, part: Chunk },
    /// Writes the bytes of the load file of this number, counted from 1. It has `len` bytes.
    FromFile { load: u32, at: u32, len: u32 },
    /// Protects an EEPROM region, or takes its protection away. Regions are counted from 1.
    Protect { region: u32, on: bool },
}

/// Whether a poke or a peek may have this many bits: 8, 16 or 32.
pub fn is_size(size: u8) -> bool
    ensures { result ≡ is_size size }
{
    size == 8 || size == 16 || size == 32
}

impl MemOp {
    /// The first address that the operation writes.
    pub(crate) fn at(&self) -> u32
        ensures { result ≡ op_at self.now }
    {
        match self {
            MemOp::Poke { at, .. } => *at,
            MemOp::Fill { at, .. } => *at,
            MemOp::Bytes { at, .. } => *at,
            MemOp::FromFile { at, .. } => *at,
            MemOp::Protect { .. } => 0,
        }
    }

    /// How many bytes it writes.
    pub(crate) fn len(&self) -> u32
        ensures { result ≡ op_len self.now }
    {
        match self {
            MemOp::Poke { size, .. } => u32::from(*size / 8),
            MemOp::Fill { len, .. } => *len,
            MemOp::Bytes { part, .. } => part.len(),
            MemOp::FromFile { len, .. } => *len,
            MemOp::Protect { .. } => 0,
        }
    }

    /// Whether it writes a byte from one address to before another.
    pub(crate) fn writes_in(&self, low: u64, high: u64) -> bool
        ensures { result ≡ false → 0 < op_len self.now → op_at self.now < high
            → op_at self.now + op_len self.now ≤ low }
    {
        let (at, len) = (u64::from(self.at()), u64::from(self.len()));
        0 < len && at < high && low < at + len
    }
}

/// The j-th byte of a value of `size` bits, from the most significant one on.
pub(crate) fn byte_of(size: u8, value: u32, j: u32) -> u8
    requires { (size ≤ 32) × (j < size / 8) }
    ensures { result ≡ value / 2 ^ (8 * (size / 8 - 1 - j)) % 256 }
{
    (value >> (8 * (u32::from(size / 8) - 1 - j)) & 0xff) as u8
}
