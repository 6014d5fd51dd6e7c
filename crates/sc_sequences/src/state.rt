//! The state of Stored Command.
ghost use Rattle.std.specs.Prelude.{◌≡◌, true, List, [], ◌∷◌, ◌++◌};
ghost use Rattle.histories.specs.Entries.Entry.{Woken};
ghost use Rattle.sc_sequences.specs.Histories.{Input, ScEntry, Beginning, begun_at, sequences_of};
ghost use Rattle.sc_sequences.specs.Step.{sc_items};
ghost use Rattle.sc_sequences.specs.State.{Stands, IsReady, is_idle_on, sequence_place, runs_in};

use crate::duty::Duty;
use crate::places::{is_running, sequence_place};
use bus_pipes::Counts;
use commands::start_counts;
use packet_forms::Packet;
use sc_tables::ScTables;
use table_files::TableKind;

/// The state of Stored Command: both counts, and its duty.
#[derive(Clone, Copy, Debug, PartialEq, Eq)]
pub struct Sc {
    pub(crate) counts: Counts,
    pub(crate) duty: Duty,
}

impl Sc {
    /// The state at the start, at the time `now` in seconds: relative sequence 1 is enabled and started, where it is loaded, every other
    /// relative sequence is disabled, and no other sequence runs.
    pub fn start(tables: &ScTables<'_>, now: u32) -> Sc
        ensures stands { Stands (begun_at now tables.now) [] result }
        ensures ready { IsReady tables.now result }
    {
        Sc {
            counts: start_counts(),
            duty: Duty::start(tables, now),
        }
    }

    /// Whether the sequence of this kind runs: a command of it is left. No table of another kind runs.
    pub fn runs(&self, kind: TableKind) -> bool
        ensures { (begin : Beginning) (history : List ScEntry) → Stands begin history self.now
            → result ≡ runs_in (sequences_of begin history).all (sequence_place kind) }
    {
        let Some(place) = sequence_place(kind) else {
            return false;
        };
        is_running(&self.duty.cursors, place)
    }

    /// Whether a wakeup on these packets at the time `now` does nothing: there are none, and no command is due.
    #[inline(always)]
    pub fn is_idle(&self, commands: &[Packet], now: u32) -> bool
        ensures exact { (begin : Beginning) (history : List ScEntry) → Stands begin history self.now
            → result ≡ is_idle_on begin history commands.now now }
        ensures stands { (begin : Beginning) (history : List ScEntry) (i : Input) → result ≡ true
            → i.commands ≡ commands.now → i.time ≡ now → Stands begin history self.now
            → Stands begin (history ++ Woken i ∷ []) self.now }
        ensures items { (begin : Beginning) (history : List ScEntry) (i : Input) → result ≡ true
            → i.commands ≡ commands.now → i.time ≡ now → Stands begin history self.now
            → sc_items begin history i ≡ [] }
    {
        if !commands.is_empty() {
            return false;
        }
        self.duty.cursors.due(now).is_none()
    }
}
