//! What a command asks for.

use crate::messages::{CODES, name};
use crate::tables::DwellEntry;
use commands::{Command, Terms};
use packet_forms::message_ids::{MD_COMMAND, MD_REQUEST};
use packet_forms::{Name, be16, be32};

/// What an accepted command asks for. Bit n - 1 of a mask is table n.
#[derive(Clone, Copy, Debug, PartialEq, Eq)]
pub(crate) enum Instruction {
    /// Nothing of the tables.
    Plain,
    /// To enable tables and to start their streams.
    Start {
        mask: u16,
    },
    /// To disable tables.
    Stop {
        mask: u16,
    },
    /// To write an entry of a table and to start the table's stream.
    Jam {
        table: u16,
        number: u16,
        entry: DwellEntry,
    },
}

impl Command for Instruction {
    ghost use Rattle.md_dwell.specs.Instructions.{md_language};

    ghost language = { md_language };

    fn name() -> Name {
        name()
    }

    #[tactic(auto, unfolding(crate::specs::Messages::md_codes))]
    fn terms() -> Terms {
        Terms {
            command_id: MD_COMMAND,
            request_id: MD_REQUEST,
            codes: &CODES,
        }
    }

    #[tactic(auto, unfolding(crate::specs::Instructions::instruction_of, crate::specs::Messages::md_codes))]
    fn decode(code: u8, payload: &[u8]) -> Instruction {
        match code {
            2 => Instruction::Start {
                mask: be16(payload, 0),
            },
            3 => Instruction::Stop {
                mask: be16(payload, 0),
            },
            4 => Instruction::Jam {
                table: be16(payload, 0),
                number: be16(payload, 2),
                entry: DwellEntry {
                    len: be16(payload, 4),
                    delay: be16(payload, 6),
                    at: be32(payload, 8),
                },
            },
            _ => Instruction::Plain,
        }
    }
}
