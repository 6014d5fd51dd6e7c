//! What a command asks for.
ghost use Rattle.std.specs.Prelude.{◌≡◌, ◌<◌};
ghost use Rattle.cs_slices.specs.Instructions.{entry_place, IsEntry};

use crate::messages::{CODES, name};
use commands::{Command, Terms};
use packet_forms::message_ids::{CS_COMMAND, CS_REQUEST};
use packet_forms::{Name, be16};

/// What an accepted command asks for. Table 1 is EEPROM's and 2 memory's; entries are numbered from 1 to 16.
#[derive(Clone, Copy, Debug, PartialEq, Eq)]
pub(crate) enum Instruction {
    /// Nothing of what CS reads.
    Plain,
    /// To switch CS on or off.
    Whole { on: bool },
    /// To switch a table on or off.
    Table { table: u16, on: bool },
    /// To switch an entry on or off.
    Entry { table: u16, number: u16, on: bool },
    /// To report the baseline of an entry.
    Report { table: u16, number: u16 },
}

impl Command for Instruction {
    ghost use Rattle.cs_slices.specs.Instructions.{cs_language};

    ghost language = { cs_language };

    fn name() -> Name {
        name()
    }

    #[tactic(auto, unfolding(crate::specs::Messages::cs_codes))]
    fn terms() -> Terms {
        Terms {
            command_id: CS_COMMAND,
            request_id: CS_REQUEST,
            codes: &CODES,
        }
    }

    #[tactic(auto, unfolding(crate::specs::Instructions::instruction_of, crate::specs::Messages::cs_codes))]
    fn decode(code: u8, payload: &[u8]) -> Instruction {
        match code {
            2 => Instruction::Whole { on: true },
            3 => Instruction::Whole { on: false },
            4 => Instruction::Table {
                table: be16(payload, 0),
                on: true,
            },
            5 => Instruction::Table {
                table: be16(payload, 0),
                on: false,
            },
            6 => Instruction::Entry {
                table: be16(payload, 0),
                number: be16(payload, 2),
                on: true,
            },
            7 => Instruction::Entry {
                table: be16(payload, 0),
                number: be16(payload, 2),
                on: false,
            },
            8 => Instruction::Report {
                table: be16(payload, 0),
                number: be16(payload, 2),
            },
            _ => Instruction::Plain,
        }
    }
}

/// The place, from 0 to 31, of an entry.
pub(crate) fn entry_place(table: u16, number: u16) -> u8
    requires { IsEntry table number }
    ensures place { result ≡ entry_place table number }
    ensures within { result < 32 }
{
    (16 * (table - 1) + (number - 1)) as u8
}
