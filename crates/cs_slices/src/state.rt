//! CS's state.
ghost use Rattle.std.specs.Prelude.{◌≡◌, ◌++◌, true, List, [], ◌∷◌};
ghost use Rattle.histories.specs.Entries.Entry.{Woken, Activated};
ghost use Rattle.cs_slices.specs.Tables.{TablePair, pair_of, table_named};
ghost use Rattle.cs_slices.specs.Instructions.{IsTable};
ghost use Rattle.cs_slices.specs.Wakeups.{Input};
ghost use Rattle.cs_slices.specs.Histories.{CsEntry, activation_of};
ghost use Rattle.cs_slices.specs.Step.{cs_items};
ghost use Rattle.cs_slices.specs.State.{Stands, is_idle_on};

use crate::duty::Duty;
use crate::segments::Segments;
use bus_pipes::Counts;
use commands::start_counts;
use packet_forms::Packet;

/// The state of CS: both counts, and its duty.
#[derive(Clone, Copy, Debug, PartialEq, Eq)]
pub struct Cs {
    pub(crate) counts: Counts,
    pub(crate) duty: Duty,
}

impl Cs {
    /// The state before the first wakeup.
    pub fn start(eeprom: &Segments, memory: &Segments) -> Cs
        ensures { Stands (pair_of eeprom.now memory.now) [] result }
    {
        Cs {
            counts: start_counts(),
            duty: Duty::start(eeprom, memory),
        }
    }

    /// Takes the table of this number, 1 EEPROM's or 2 memory's, as it is handed in: it becomes active. Its entries are on by their state, its
    /// baselines are forgotten, and so is a pass of its own that has begun.
    pub fn activate(&mut self, eeprom: &Segments, memory: &Segments, table: u16)
        requires table { IsTable table }
        ensures stands { (tables : TablePair) (history : List CsEntry)
            → Stands tables history self.old
            → Stands tables (history ++ Activated
            (activation_of table (table_named table (pair_of eeprom.now memory.now)))
            ∷ []) self.new }
    {
        self.duty.renew(table, table_named(eeprom, memory, table));
    }

    /// Whether a wakeup with these packets does nothing.
    #[inline(always)]
    pub fn is_idle(&self, commands: &[Packet]) -> bool
        ensures exact { (tables : TablePair) (history : List CsEntry)
            → Stands tables history self.now → result ≡ is_idle_on tables history commands.now }
        ensures stands { (tables : TablePair) (history : List CsEntry) (input : Input)
            → result ≡ true → input.commands ≡ commands.now → Stands tables history self.now
            → Stands tables (history ++ Woken input ∷ []) self.now }
        ensures items { (tables : TablePair) (history : List CsEntry) (input : Input)
            → result ≡ true → input.commands ≡ commands.now → Stands tables history self.now
            → cs_items tables history input ≡ [] }
    {
        commands.is_empty() && !self.duty.switches.any_takes_part()
    }
}

/// The table of this number.
fn table_named<'a>(eeprom: &'a Segments, memory: &'a Segments, table: u16) -> &'a Segments
    ensures { result.now ≡ table_named table (pair_of eeprom.now memory.now) }
{
    if table == 1 { eeprom } else { memory }
}
