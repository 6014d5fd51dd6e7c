//! Which commands are refused.
ghost use Rattle.std.specs.Prelude.{◌≡◌, ◌<◌, ◌==◌, ◌%◌, ◌^◌, None, Some, is_none, length, if◌then◌else◌};
ghost use Rattle.packet_forms.specs.Crc.{crc_of};
ghost use Rattle.table_files.specs.Files.{loads_of, nth};
ghost use Rattle.memory_window.specs.Window.{seen};
ghost use Rattle.memory_window.specs.Operations.{is_size, load_bytes};
ghost use Rattle.memory_window.specs.declared.operations.MemOp.TheVariants as ops;
ghost use Rattle.mm_core.specs.Reading.{seen_in, value_at, range_at, admission_of, protection_of};
ghost use Rattle.mm_core.specs.Instructions.{is_fill_len, is_dump_len};
ghost use Rattle.mm_core.specs.Verdicts.{access_refusal, file_refusal, own_refusal, HasBytes};

use crate::instructions::{Instruction, is_dump_len, is_fill_len};
use crate::reading::{Reads, admission_of, low_bits, protection_of, range_at, value_at};
use commands::Reason;
use memory_window::{AccessFault, Chunk, MemOp, Window, is_size};
use packet_forms::crc16;

/// Why a command is refused.
#[derive(Clone, Copy, Debug, PartialEq, Eq)]
pub(crate) enum Refusal {
    /// Its access meets a fault.
    Access(AccessFault),
    /// Its size isn't 8, 16 or 32.
    Size,
    /// Its length is 0, or over what one command fills or dumps.
    Length,
    /// Its bytes have another check.
    Crc,
    /// There is no load file of its number.
    File,
    /// Its number isn't that of an EEPROM region.
    Region,
}

impl Reason for Refusal {
    ghost use Rattle.mm_core.specs.Verdicts.{number_of};

    ghost number = { number_of };

    fn number(self) -> u8 {
        match self {
            Refusal::Access(AccessFault::Outside) => 4,
            Refusal::Access(AccessFault::Unaligned) => 5,
            Refusal::Access(AccessFault::WrongSize) => 6,
            Refusal::Access(AccessFault::Protected) => 7,
            Refusal::Size => 8,
            Refusal::Length => 9,
            Refusal::Crc => 10,
            Refusal::File => 11,
            Refusal::Region => 12,
        }
    }
}

/// A command's own refusal.
pub(crate) fn own_refusal(reads: Reads<'_>, instruction: &Instruction) -> Option<Refusal>
    ensures refusal { result ≡ own_refusal (seen_in reads.entry.window reads.entry.files.now)
        instruction.now }
    ensures has_bytes { result ≡ None → HasBytes (loads_of reads.entry.files.now) instruction.now }
{
    let window = reads.window;
    match instruction {
        Instruction::Plain => None,
        Instruction::Peek { size, at } => peek_refusal(window, *size, *at),
        Instruction::Poke { size, at, value } => poke_refusal(window, *size, *at, *value),
        Instruction::Load { at, crc, part } => load_refusal(window, *at, *crc, part),
        Instruction::LoadFile { load } => file_refusal(reads, *load),
        Instruction::Fill { at, len, byte } => fill_refusal(window, *at, *len, *byte),
        Instruction::Protect { region, .. } => protect_refusal(window, *region),
        Instruction::Dump { at, len } => dump_refusal(window, *at, *len),
    }
}

fn peek_refusal(window: Window<'_>, size: u8, at: u32) -> Option<Refusal>
    ensures { result ≡ (if is_size size then access_refusal (value_at (seen window.entry) size at)
        else Some Refusal.Size) }
{
    if !is_size(size) {
        return Some(Refusal::Size);
    }
    value_at(window, size, at).err().map(Refusal::Access)
}

fn poke_refusal(window: Window<'_>, size: u8, at: u32, value: u32) -> Option<Refusal>
    ensures { result ≡ (if is_size size then access_refusal
        (admission_of (seen window.entry) (ops.Poke size at (value % 2 ^ size)))
        else Some Refusal.Size) }
{
    if !is_size(size) {
        return Some(Refusal::Size);
    }
    let op = MemOp::Poke {
        size,
        at,
        value: low_bits(size, value),
    };
    admission_of(window, &op).err().map(Refusal::Access)
}

fn load_refusal(window: Window<'_>, at: u32, crc: u16, part: &Chunk) -> Option<Refusal>
    ensures refusal { result ≡ (if crc_of 0 part.now == crc
        then access_refusal (admission_of (seen window.entry) (ops.Bytes at part.now))
        else Some Refusal.Crc) }
    ensures has_bytes { 0 < length part.now }
{
    if crc16(0, part.bytes()) != crc {
        return Some(Refusal::Crc);
    }
    let op = MemOp::Bytes { at, part: *part };
    admission_of(window, &op).err().map(Refusal::Access)
}

fn file_refusal(reads: Reads<'_>, load: u16) -> Option<Refusal>
    ensures refusal { result ≡ file_refusal (seen reads.entry.window) load
        (nth (loads_of reads.entry.files.now) load) }
    ensures has_bytes { result ≡ None → 0 < length
        (load_bytes (loads_of reads.entry.files.now) load) }
{
    let Some((at, bytes)) = reads.files.load(u32::from(load)) else {
        return Some(Refusal::File);
    };
    let op = MemOp::FromFile {
        load: u32::from(load),
        at,
        len: bytes.len() as u32,
    };
    admission_of(reads.window, &op).err().map(Refusal::Access)
}

fn fill_refusal(window: Window<'_>, at: u32, len: u32, byte: u8) -> Option<Refusal>
    ensures { result ≡ (if is_fill_len len then access_refusal
        (admission_of (seen window.entry) (ops.Fill at len byte)) else Some Refusal.Length) }
{
    if !is_fill_len(len) {
        return Some(Refusal::Length);
    }
    admission_of(window, &MemOp::Fill { at, len, byte })
        .err()
        .map(Refusal::Access)
}

fn protect_refusal(window: Window<'_>, region: u8) -> Option<Refusal>
    ensures { result ≡ (if is_none (protection_of (seen window.entry) region)
        then Some Refusal.Region else None) }
{
    match protection_of(window, region) {
        None => Some(Refusal::Region),
        Some(_) => None,
    }
}

fn dump_refusal(window: Window<'_>, at: u32, len: u32) -> Option<Refusal>
    ensures { result ≡ (if is_dump_len len then access_refusal (range_at (seen window.entry) at len)
        else Some Refusal.Length) }
{
    if !is_dump_len(len) {
        return Some(Refusal::Length);
    }
    match range_at(window, at, len) {
        Ok(_) => None,
        Err(fault) => Some(Refusal::Access(fault)),
    }
}
