//! Landing operations on one run of bytes.
ghost use Rattle.std.specs.Prelude.{◌≡◌, ℕ, ◌+◌, ◌-◌, ◌*◌, ◌/◌, ◌%◌, ◌<◌, ◌≤◌, ◌^◌, length, slice_index, All};
ghost use Rattle.table_files.specs.Files.{loads_of};
ghost use Rattle.memory_window.specs.Operations.{op_len, op_byte, IsSound, IsBacked};
ghost use Rattle.memory_window.specs.Landing.{land_byte, landed};

use crate::MemOp;
use crate::change::Change;
use crate::operations::byte_of;
use table_files::Files;

/// Operations, and the files that they load from.
#[derive(Clone, Copy)]
pub(crate) struct Landing<'o, 'f> {
    pub(crate) ops: &'o [MemOp],
    pub(crate) files: &'f Files,
}

impl<'o, 'f> Change for Landing<'o, 'f> {
    ghost use Rattle.std.specs.Prelude.{All};
    ghost use Rattle.table_files.specs.Files.{loads_of};
    ghost use Rattle.memory_window.specs.Operations.{IsSound, IsBacked};
    ghost use Rattle.memory_window.specs.Landing.{landed};

    ghost byte = { λ l. landed (loads_of l.files.now) l.ops.now };

    ghost is_possible = { λ l. All IsSound l.ops.now
        × All (IsBacked (loads_of l.files.now)) l.ops.now };

    fn apply(&self, at: u32, bank: &mut [u8]) {
        bank_land(at, bank, self.ops, self.files);
    }
}

/// Writes those bytes of the operations, in their order, that lie in the bank whose first byte has the address `at`. An
/// operation that protects a region writes nothing, and protection isn't asked. The files are those that operations load
/// from.
pub fn bank_land(at: u32, bank: &mut [u8], ops: &[MemOp], files: &Files)
    requires fits { at + length bank.old ≤ 2 ^ 32 }
    requires sound { All IsSound ops.now }
    requires backed { All (IsBacked (loads_of files.now)) ops.now }
    ensures { (k : ℕ) → k < length bank.old → slice_index bank.new k
        ≡ landed (loads_of files.now) ops.now (at + k) (slice_index bank.old k) }
{
    for op in ops {
        land_one(at, bank, op, files);
    }
}

/// Writes those bytes of an operation that lie in the bank.
fn land_one(at: u32, bank: &mut [u8], op: &MemOp, files: &Files)
    requires fits { at + length bank.old ≤ 2 ^ 32 }
    requires sound { IsSound op.now }
    requires backed { IsBacked (loads_of files.now) op.now }
    ensures { (k : ℕ) → k < length bank.old → slice_index bank.new k
        ≡ land_byte (loads_of files.now) op.now (at + k) (slice_index bank.old k) }
{
    let low = u64::from(at);
    let start = u64::from(op.at());
    let end = start + u64::from(op.len());
    let from = bank.len().min(start.saturating_sub(low) as usize);
    let to = bank.len().min(end.saturating_sub(low) as usize);
    if from < to {
        let skip = (low + from as u64 - start) as u32;
        write(&mut bank[from..to], op, skip, files);
    }
}

/// Writes the bytes of an operation from the one in place `skip` on.
fn write(part: &mut [u8], op: &MemOp, skip: u32, files: &Files)
    requires sound { IsSound op.now }
    requires backed { IsBacked (loads_of files.now) op.now }
    requires within { skip + length part.old ≤ op_len op.now }
    ensures { (k : ℕ) → k < length part.old → slice_index part.new k
        ≡ op_byte (loads_of files.now) op.now (skip + k) }
{
    match op {
        MemOp::Poke { size, value, .. } => write_value(part, *size, *value, skip),
        MemOp::Fill { byte, .. } => part.fill(*byte),
        MemOp::Bytes { part: chunk, .. } => copy(part, chunk.bytes(), skip),
        MemOp::FromFile { load, .. } => {
            let Some((_, bytes)) = files.load(*load) else {
                unreachable!();
            };
            copy(part, bytes, skip);
        }
        MemOp::Protect { .. } => {}
    }
}

/// Copies the bytes from the one in place `skip` on.
fn copy(part: &mut [u8], bytes: &[u8], skip: u32)
    requires { skip + length part.old ≤ length bytes.now }
    ensures { (k : ℕ) → k < length part.old → slice_index part.new k
        ≡ slice_index bytes.now (skip + k) }
{
    let from = skip as usize;
    part.copy_from_slice(&bytes[from..from + part.len()]);
}

/// Writes the bytes of a value of `size` bits, the most significant first, from the one in place `skip` on.
fn write_value(part: &mut [u8], size: u8, value: u32, skip: u32)
    requires size { size ≤ 32 }
    requires within { skip + length part.old ≤ size / 8 }
    ensures { (k : ℕ) → k < length part.old → slice_index part.new k
        ≡ value / 2 ^ (8 * (size / 8 - 1 - (skip + k))) % 256 }
{
    for k in 0..part.len() {
        part[k] = byte_of(size, value, skip + k as u32);
    }
}
