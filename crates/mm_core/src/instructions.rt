//! What a command asks for.
ghost use Rattle.std.specs.Prelude.{◌≡◌, ◌<◌, ◌++◌, [], length, true};
ghost use Rattle.std.specs.List.{cons_option};
ghost use Rattle.table_files.specs.Files.{loads_of, nth};
ghost use Rattle.mm_core.specs.Instructions.{file_operation, operation_of, is_fill_len, is_dump_len, is_sized};

use crate::messages::{CODES, name};
use crate::reading::low_bits;
use commands::{Command, Terms};
use memory_window::{Chunk, MemOp, Ops};
use packet_forms::message_ids::{MM_COMMAND, MM_REQUEST};
use packet_forms::{Name, be16, be32};
use table_files::Files;

/// How many bytes a command fills at most.
const MOST_FILLED: u32 = 65_536;

/// How many bytes a command dumps at most.
const MOST_DUMPED: u32 = 2_048;

/// What an accepted command asks for.
#[derive(Clone, Copy, Debug)]
pub(crate) enum Instruction {
    /// Nothing of memory.
    Plain,
    /// To read `size` bits.
    Peek { size: u8, at: u32 },
    /// To write the low `size` bits of `value`.
    Poke { size: u8, at: u32, value: u32 },
    /// To write the bytes, which are to have this check.
    Load { at: u32, crc: u16, part: Chunk },
    /// To write the bytes of the load file of this number, counted from 1, at its address.
    LoadFile { load: u16 },
    /// To write `len` times the byte.
    Fill { at: u32, len: u32, byte: u8 },
    /// To set the protection of an EEPROM region or to take it away.
    Protect { region: u8, on: bool },
    /// To show `len` bytes.
    Dump { at: u32, len: u32 },
}

impl Command for Instruction {
    ghost use Rattle.mm_core.specs.Instructions.{mm_language};

    ghost language = { mm_language };

    fn name() -> Name {
        name()
    }

    #[tactic(auto, unfolding(crate::specs::Messages::mm_codes))]
    fn terms() -> Terms {
        Terms {
            command_id: MM_COMMAND,
            request_id: MM_REQUEST,
            codes: &CODES,
        }
    }

    #[tactic(auto, unfolding(crate::specs::Instructions::instruction_of, crate::specs::Messages::mm_codes))]
    fn decode(code: u8, payload: &[u8]) -> Instruction {
        match code {
            2 => Instruction::Peek {
                size: payload[0],
                at: be32(payload, 1),
            },
            3 => Instruction::Poke {
                size: payload[0],
                at: be32(payload, 1),
                value: be32(payload, 5),
            },
            4 => Instruction::Load {
                at: be32(payload, 0),
                crc: be16(payload, 4),
                part: Chunk::new(&payload[6..]),
            },
            5 => Instruction::LoadFile {
                load: be16(payload, 0),
            },
            8 => Instruction::Fill {
                at: be32(payload, 0),
                len: be32(payload, 4),
                byte: payload[8],
            },
            11 => Instruction::Protect {
                region: payload[0],
                on: false,
            },
            12 => Instruction::Protect {
                region: payload[0],
                on: true,
            },
            13 => Instruction::Dump {
                at: be32(payload, 0),
                len: be32(payload, 4),
            },
            _ => Instruction::Plain,
        }
    }
}

/// Puts the operation that a command leaves, with these files, behind the others, where there is one. Each is put there as it is
/// made, since an operation may carry many bytes.
pub(crate) fn leave_operation(files: &Files, instruction: &Instruction, ops: &mut Ops)
    requires sized { is_sized instruction.now ≡ true }
    requires room { length ops.old < 16 }
    ensures { ops.new ≡ ops.old ++ cons_option (operation_of (loads_of files.now) instruction.now)
        [] }
{
    match instruction {
        Instruction::Plain => {}
        Instruction::Peek { .. } => {}
        Instruction::Poke { size, at, value } => ops.push(MemOp::Poke {
            size: *size,
            at: *at,
            value: low_bits(*size, *value),
        }),
        Instruction::Load { at, part, .. } => ops.push(MemOp::Bytes {
            at: *at,
            part: *part,
        }),
        Instruction::LoadFile { load } => leave_file(files, *load, ops),
        Instruction::Fill { at, len, byte } => ops.push(MemOp::Fill {
            at: *at,
            len: *len,
            byte: *byte,
        }),
        Instruction::Protect { region, on } => ops.push(MemOp::Protect {
            region: u32::from(*region),
            on: *on,
        }),
        Instruction::Dump { .. } => {}
    }
}

/// Puts the operation that loads the file of a number behind the others, where there is one.
fn leave_file(files: &Files, load: u16, ops: &mut Ops)
    requires room { length ops.old < 16 }
    ensures { ops.new ≡ ops.old ++ cons_option (file_operation load (nth (loads_of files.now) load))
        [] }
{
    match files.load(u32::from(load)) {
        None => {}
        Some((at, bytes)) => ops.push(MemOp::FromFile {
            load: u32::from(load),
            at,
            len: bytes.len() as u32,
        }),
    }
}

/// Whether one command may fill so many bytes.
pub(crate) fn is_fill_len(len: u32) -> bool
    ensures { result ≡ is_fill_len len }
{
    0 < len && len <= MOST_FILLED
}

/// Whether one command may dump so many bytes.
pub(crate) fn is_dump_len(len: u32) -> bool
    ensures { result ≡ is_dump_len len }
{
    0 < len && len <= MOST_DUMPED
}
