//! What a command asks for.

use crate::messages::{CODES, name};
use commands::{Command, Terms};
use packet_forms::message_ids::{LC_COMMAND, LC_REQUEST};
use packet_forms::{Name, be16};

/// What an accepted command asks for.
#[derive(Clone, Copy, Debug, PartialEq, Eq)]
pub(crate) enum Instruction {
    /// Nothing of the actionpoints.
    Plain,
    /// To set an actionpoint, from 1, active or passive.
    Switch { number: u16, on: bool },
}

impl Command for Instruction {
    ghost use Rattle.lc_watch.specs.Instructions.{lc_language};

    ghost language = { lc_language };

    fn name() -> Name {
        name()
    }

    #[tactic(auto, unfolding(crate::specs::Messages::lc_codes))]
    fn terms() -> Terms {
        Terms {
            command_id: LC_COMMAND,
            request_id: LC_REQUEST,
            codes: &CODES,
        }
    }

    #[tactic(auto, unfolding(crate::specs::Instructions::instruction_of, crate::specs::Messages::lc_codes))]
    fn decode(code: u8, payload: &[u8]) -> Instruction {
        match code {
            2 => Instruction::Switch {
                number: be16(payload, 0),
                on: true,
            },
            3 => Instruction::Switch {
                number: be16(payload, 0),
                on: false,
            },
            _ => Instruction::Plain,
        }
    }
}
