//! What a command asks for.

use crate::messages::CODES;
use commands::{Command, Terms};
use hs_actions::hs_name;
use packet_forms::message_ids::{HS_COMMAND, HS_REQUEST};
use packet_forms::{Name, be16};

/// What an accepted command asks for.
#[derive(Clone, Copy, Debug, PartialEq, Eq)]
pub(crate) enum Instruction {
    /// Nothing of the monitors.
    Plain,
    /// To switch application monitoring on, with a refresh of its entries, or off.
    Monitor { on: bool },
    /// To switch event monitoring on or off.
    Listen { on: bool },
    /// To set the resets made to 0.
    Clear,
    /// To set the maximum of resets.
    Limit { max: u16 },
}

impl Command for Instruction {
    ghost use Rattle.hs_monitors.specs.Instructions.{hs_language};

    ghost language = { hs_language };

    fn name() -> Name {
        hs_name()
    }

    #[tactic(auto, unfolding(crate::specs::Messages::hs_codes))]
    fn terms() -> Terms {
        Terms {
            command_id: HS_COMMAND,
            request_id: HS_REQUEST,
            codes: &CODES,
        }
    }

    #[tactic(auto, unfolding(crate::specs::Instructions::instruction_of, crate::specs::Messages::hs_codes))]
    fn decode(code: u8, payload: &[u8]) -> Instruction {
        match code {
            2 => Instruction::Monitor { on: true },
            3 => Instruction::Monitor { on: false },
            4 => Instruction::Listen { on: true },
            5 => Instruction::Listen { on: false },
            8 => Instruction::Clear,
            9 => Instruction::Limit {
                max: be16(payload, 0),
            },
            _ => Instruction::Plain,
        }
    }
}
