//! MD's state.
ghost use Rattle.std.specs.Prelude.{◌≡◌, ◌≤◌, true, List, [], ◌∷◌, ◌++◌};
ghost use Rattle.std.specs.List.{AllPass};
ghost use Rattle.histories.specs.Entries.Entry.{Woken, Activated};
ghost use Rattle.memory_window.specs.declared.regions.Region.{Region};
ghost use Rattle.md_dwell.specs.Tables.{DwellTable};
ghost use Rattle.md_dwell.specs.Given.{is_given, TablesGiven};
ghost use Rattle.md_dwell.specs.Orders.{Input};
ghost use Rattle.md_dwell.specs.Histories.{MdEntry, activation_of};
ghost use Rattle.md_dwell.specs.Step.{md_items};
ghost use Rattle.md_dwell.specs.State.{Stands, AllGiven, is_idle_on};

use crate::duty::Duty;
use crate::tables::Dwell;
use bus_pipes::Counts;
use commands::start_counts;
use packet_forms::Packet;

/// The state of MD: both counts, and its duty.
#[derive(Clone, Copy)]
pub struct Md {
    pub(crate) counts: Counts,
    pub(crate) duty: Duty,
}

impl Md {
    /// The state before the first wakeup: both counts 0, and the streams of the enabled tables start in the first wakeup.
    #[tactic(auto, using(commands::proofs::Tallies::counts_none, crate::proofs::Following::heard_before_all), unfolding(crate::specs::State::Stands))]
    pub fn start(tables: &[Dwell; 4]) -> Md
        ensures stands { Stands tables.now [] result }
        ensures given { (regions : List Region) → TablesGiven regions tables.now
            → AllGiven regions result }
    {
        Md {
            counts: start_counts(),
            duty: Duty::start(tables),
        }
    }

    /// Makes this table the active one of number n, 1 to 4: its entries and its enabled flag are those of the table, what was jammed into the
    /// one before is forgotten, and its stream starts in the next wakeup.
    pub fn activate(&mut self, n: u8, table: &Dwell)
        requires { (1 ≤ n) × (n ≤ 4) }
        ensures stands { (tables : List DwellTable) (history : List MdEntry)
            → Stands tables history self.old → Stands tables (history
            ++ Activated (activation_of n table.now) ∷ []) self.new }
        ensures given { (regions : List Region) → AllPass (is_given regions) table.now.entries
            → AllGiven regions self.old → AllGiven regions self.new }
    {
        self.duty.activate(n, table);
    }

    /// Whether a wakeup with these packets does nothing.
    #[inline(always)]
    pub fn is_idle(&self, commands: &[Packet]) -> bool
        ensures exact { (tables : List DwellTable) (history : List MdEntry)
            → Stands tables history self.now → result ≡ is_idle_on tables history commands.now }
        ensures stands { (tables : List DwellTable) (history : List MdEntry) (input : Input)
            → result ≡ true → input.commands ≡ commands.now → Stands tables history self.now
            → Stands tables (history ++ Woken input ∷ []) self.now }
        ensures items { (tables : List DwellTable) (history : List MdEntry) (input : Input)
            → result ≡ true → input.commands ≡ commands.now → Stands tables history self.now
            → md_items tables history input ≡ [] }
    {
        commands.is_empty() && !self.duty.dwell()
    }
}
