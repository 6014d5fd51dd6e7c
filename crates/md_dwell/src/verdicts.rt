//! Which commands are refused.
ghost use Rattle.std.specs.Prelude.{◌≡◌};
ghost use Rattle.memory_window.specs.Window.{seen};
ghost use Rattle.md_dwell.specs.Verdicts.{mask_refusal, jam_refusal, own_refusal};

use crate::instructions::Instruction;
use crate::reading::is_readable;
use crate::tables::DwellEntry;
use commands::Reason;
use memory_window::Window;

/// Why a command is refused.
#[derive(Clone, Copy, Debug, PartialEq, Eq)]
pub(crate) enum Refusal {
    /// There is no such table, or the mask names none.
    Table,
    /// There is no such entry.
    Entry,
    /// The entry's length isn't 0, 1, 2 or 4.
    Length,
    /// The entry's read is refused.
    Read,
}

impl Reason for Refusal {
    ghost use Rattle.md_dwell.specs.Verdicts.{number_of};

    ghost number = { number_of };

    fn number(self) -> u8 {
        match self {
            Refusal::Table => 4,
            Refusal::Entry => 5,
            Refusal::Length => 6,
            Refusal::Read => 7,
        }
    }
}

/// A command's own refusal.
pub(crate) fn own_refusal(window: Window<'_>, instruction: &Instruction) -> Option<Refusal>
    ensures { result ≡ own_refusal (seen window.entry) instruction.now }
{
    match instruction {
        Instruction::Plain => None,
        Instruction::Start { mask } => mask_refusal(*mask),
        Instruction::Stop { mask } => mask_refusal(*mask),
        Instruction::Jam {
            table,
            number,
            entry,
        } => jam_refusal(window, *table, *number, *entry),
    }
}

/// The refusal of a mask that names no table or one over 4.
fn mask_refusal(mask: u16) -> Option<Refusal>
    ensures { result ≡ mask_refusal mask }
{
    if mask == 0 || mask > 15 {
        Some(Refusal::Table)
    } else {
        None
    }
}

fn jam_refusal(window: Window<'_>, table: u16, number: u16, entry: DwellEntry) -> Option<Refusal>
    ensures { result ≡ jam_refusal (seen window.entry) table number entry }
{
    if table == 0 || table > 4 {
        return Some(Refusal::Table);
    }
    if number == 0 || number > 25 {
        return Some(Refusal::Entry);
    }
    if !entry.has_length() {
        return Some(Refusal::Length);
    }
    if is_readable(window, entry) {
        None
    } else {
        Some(Refusal::Read)
    }
}
