//! What a command asks for.

use crate::messages::{CODES, name};
use commands::{Command, Terms};
use packet_forms::message_ids::{SC_COMMAND, SC_REQUEST};
use packet_forms::{Name, be16, be32};

/// What an accepted command asks for.
#[derive(Clone, Copy, Debug, PartialEq, Eq)]
pub(crate) enum Instruction {
    /// Nothing of the sequences.
    Plain,
    /// To start an absolute sequence.
    StartAts { number: u16 },
    /// To stop the absolute sequence that runs.
    StopAts,
    /// To start a relative sequence.
    StartRts { number: u16 },
    /// To stop a relative sequence.
    StopRts { number: u16 },
    /// To forbid the start of a relative sequence.
    DisableRts { number: u16 },
    /// To allow the start of a relative sequence.
    EnableRts { number: u16 },
    /// To stop the absolute sequence that runs and start the other.
    SwitchAts,
    /// To skip the commands before a time in the absolute sequence that runs.
    JumpAts { time: u32 },
}

impl Command for Instruction {
    ghost use Rattle.sc_sequences.specs.Instructions.{sc_language};

    ghost language = { sc_language };

    fn name() -> Name {
        name()
    }

    #[tactic(auto, unfolding(crate::specs::Messages::sc_codes))]
    fn terms() -> Terms {
        Terms {
            command_id: SC_COMMAND,
            request_id: SC_REQUEST,
            codes: &CODES,
        }
    }

    #[tactic(auto, unfolding(crate::specs::Instructions::instruction_of, crate::specs::Messages::sc_codes))]
    fn decode(code: u8, payload: &[u8]) -> Instruction {
        match code {
            2 => Instruction::StartAts {
                number: be16(payload, 0),
            },
            3 => Instruction::StopAts,
            4 => Instruction::StartRts {
                number: be16(payload, 0),
            },
            5 => Instruction::StopRts {
                number: be16(payload, 0),
            },
            6 => Instruction::DisableRts {
                number: be16(payload, 0),
            },
            7 => Instruction::EnableRts {
                number: be16(payload, 0),
            },
            8 => Instruction::SwitchAts,
            9 => Instruction::JumpAts {
                time: be32(payload, 0),
            },
            _ => Instruction::Plain,
        }
    }
}
