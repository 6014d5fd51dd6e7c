//! Which commands are refused.
ghost use Rattle.std.specs.Prelude.{◌≡◌};
ghost use Rattle.cs_slices.specs.Tables.{pair_of};
ghost use Rattle.cs_slices.specs.Verdicts.{table_refusal, entry_refusal, own_refusal};

use crate::instructions::{Instruction, entry_place};
use crate::segments::{Segments, entry_in};
use commands::Reason;

/// Why a command is refused.
#[derive(Clone, Copy, Debug, PartialEq, Eq)]
pub(crate) enum Refusal {
    /// There is no such table.
    Table,
    /// There is no such entry.
    Entry,
    /// The entry is empty.
    Empty,
}

impl Reason for Refusal {
    ghost use Rattle.cs_slices.specs.Verdicts.{number_of};

    ghost number = { number_of };

    fn number(self) -> u8 {
        match self {
            Refusal::Table => 4,
            Refusal::Entry => 5,
            Refusal::Empty => 6,
        }
    }
}

/// A command's own refusal.
pub(crate) fn own_refusal(
    eeprom: &Segments,
    memory: &Segments,
    instruction: &Instruction,
) -> Option<Refusal>
    ensures { result ≡ own_refusal (pair_of eeprom.now memory.now) instruction.now }
{
    match instruction {
        Instruction::Plain => None,
        Instruction::Whole { .. } => None,
        Instruction::Table { table, .. } => table_refusal(*table),
        Instruction::Entry { table, number, .. } => entry_refusal(eeprom, memory, *table, *number),
        Instruction::Report { table, number } => entry_refusal(eeprom, memory, *table, *number),
    }
}

/// The refusal of a table that there isn't.
fn table_refusal(table: u16) -> Option<Refusal>
    ensures { result ≡ table_refusal table }
{
    if table == 1 || table == 2 {
        None
    } else {
        Some(Refusal::Table)
    }
}

/// The refusal of an entry.
fn entry_refusal(eeprom: &Segments, memory: &Segments, table: u16, number: u16) -> Option<Refusal>
    ensures { result ≡ entry_refusal (pair_of eeprom.now memory.now) table number }
{
    if table != 1 && table != 2 {
        return Some(Refusal::Table);
    }
    if number == 0 || number > 16 {
        return Some(Refusal::Entry);
    }
    if entry_in(eeprom, memory, entry_place(table, number)).state == 0 {
        return Some(Refusal::Empty);
    }
    None
}
