//! Which commands are refused.
ghost use Rattle.std.specs.Prelude.{◌≡◌, ◌≤◌, None};
ghost use Rattle.lc_watch.specs.Instructions.{NamesPoint};
ghost use Rattle.lc_watch.specs.Verdicts.{point_refusal, own_refusal};

use crate::actionpoints::Adt;
use crate::instructions::Instruction;
use commands::Reason;

/// Why a command is refused.
#[derive(Clone, Copy, Debug, PartialEq, Eq)]
pub(crate) enum Refusal {
    /// There is no such actionpoint.
    Number,
    /// The actionpoint isn't used.
    Unused,
}

impl Reason for Refusal {
    ghost use Rattle.lc_watch.specs.Verdicts.{number_of};

    ghost number = { number_of };

    fn number(self) -> u8 {
        match self {
            Refusal::Number => 4,
            Refusal::Unused => 5,
        }
    }
}

/// A command's own refusal.
pub(crate) fn own_refusal(actions: &Adt, instruction: &Instruction) -> Option<Refusal>
    ensures refusal { result ≡ own_refusal actions.now instruction.now }
    ensures named { result ≡ None → NamesPoint instruction.now }
{
    match instruction {
        Instruction::Plain => None,
        Instruction::Switch { number, .. } => point_refusal(actions, *number),
    }
}

fn point_refusal(actions: &Adt, number: u16) -> Option<Refusal>
    ensures refusal { result ≡ point_refusal actions.now number }
    ensures named { result ≡ None → (1 ≤ number) × (number ≤ 16) }
{
    if number == 0 || number > 16 {
        return Some(Refusal::Number);
    }
    if actions.row(number as usize - 1).is_used() {
        return None;
    }
    Some(Refusal::Unused)
}
