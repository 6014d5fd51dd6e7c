//! The state of Health and Safety.
ghost use Rattle.std.specs.Prelude.{◌≡◌, true, List, [], ◌∷◌, ◌++◌, Some, None};
ghost use Rattle.histories.specs.Entries.Entry.{Woken, Activated};
ghost use Rattle.hs_monitors.specs.Histories.{Input, Activation, HsEntry, Setup, setup_of};
ghost use Rattle.hs_monitors.specs.Step.{hs_items, resets_made, resets_maximum};
ghost use Rattle.hs_monitors.specs.State.{Stands, OnlyCounts, is_idle_on, activation_of};

use crate::duty::Duty;
use crate::input::HsInput;
use bus_pipes::Counts;
use commands::start_counts;
use hs_tables::HsTables;
use table_files::TableKind;

/// The state of Health and Safety: both counts, and its duty.
#[derive(Clone, Copy, Debug, PartialEq, Eq)]
pub struct Hs {
    pub(crate) counts: Counts,
    pub(crate) duty: Duty,
}

impl Hs {
    /// The state before the first wakeup on these tables, with so many resets made of at most `max`: 0 of 3 as a run begins, and what
    /// `resets` tells of the state before a processor reset.
    #[tactic(auto, using(commands::proofs::Tallies::counts_none, crate::proofs::Following::heard_before_all), unfolding(crate::specs::State::Stands))]
    pub fn start(tables: &HsTables, made: u16, max: u16) -> Hs
        ensures { Stands (setup_of tables.now made max) [] result }
    {
        Hs {
            counts: start_counts(),
            duty: Duty::start(tables, made, max),
        }
    }

    /// Takes the table of this kind that is handed in: the monitors, the event monitors or the execution counters become active. The
    /// application monitors are refreshed where theirs does. Tables of other kinds change nothing.
    pub fn activate(&mut self, tables: &HsTables, kind: TableKind)
        ensures stands { (setup : Setup) (history : List HsEntry) (a : Activation)
            → activation_of kind tables.now ≡ Some a → Stands setup history self.old
            → Stands setup (history ++ Activated a ∷ []) self.new }
        ensures other { activation_of kind tables.now ≡ None → self.new ≡ self.old }
    {
        match kind {
            TableKind::AppMon => self.duty.take_apps(&tables.apps),
            TableKind::EventMon => self.duty.take_events(&tables.events),
            TableKind::ExeCount => {}
            TableKind::MsgActs
            | TableKind::Ats(_)
            | TableKind::Rts(_)
            | TableKind::Dwell(_)
            | TableKind::Eeprom
            | TableKind::Memory
            | TableKind::Wdt
            | TableKind::Adt => {}
        }
    }

    /// The resets made, and their maximum.
    pub fn resets(&self) -> (u16, u16)
        ensures made { (setup : Setup) (history : List HsEntry) → Stands setup history self.now
            → result.0 ≡ resets_made setup history }
        ensures max { (setup : Setup) (history : List HsEntry) → Stands setup history self.now
            → result.1 ≡ resets_maximum setup history }
    {
        self.duty.actions.resets()
    }

    /// Whether a wakeup with this input does nothing: no packet was taken, no cooldown runs, and application monitoring is off or no entry
    /// is used.
    #[inline(always)]
    pub fn is_idle(&self, input: &HsInput<'_>) -> bool
        ensures exact { (setup : Setup) (history : List HsEntry) → Stands setup history self.now
            → result ≡ is_idle_on setup history input.now.commands.now input.now.events.now }
        ensures stands { (setup : Setup) (history : List HsEntry) (i : Input) → result ≡ true
            → i.commands ≡ input.now.commands.now → i.seen.events ≡ input.now.events.now
            → Stands setup history self.now
            → Stands setup (history ++ Woken i ∷ []) self.now }
        ensures items { (setup : Setup) (history : List HsEntry) (i : Input) → result ≡ true
            → i.commands ≡ input.now.commands.now → i.seen.events ≡ input.now.events.now
            → Stands setup history self.now
            → hs_items setup history i ≡ [] }
    {
        if !input.is_quiet() {
            return false;
        }
        self.duty.are_idle()
    }

    /// Whether a wakeup without packets and counters does nothing but count a check.
    #[inline(always)]
    pub fn only_counts(&self) -> bool
        ensures { result ≡ true → OnlyCounts self.now.duty }
    {
        self.duty.only_counts()
    }

    /// Performs a wakeup without packets and counters that does nothing but count a check.
    #[inline(always)]
    pub fn count(&mut self)
        requires { OnlyCounts self.old.duty }
        ensures stands { (setup : Setup) (history : List HsEntry) (i : Input) → i.commands ≡ []
            → i.seen.events ≡ [] → i.seen.counters ≡ [] → Stands setup history self.old
            → Stands setup (history ++ Woken i ∷ []) self.new }
        ensures items { (setup : Setup) (history : List HsEntry) (i : Input) → i.commands ≡ []
            → i.seen.events ≡ [] → i.seen.counters ≡ [] → Stands setup history self.old
            → hs_items setup history i ≡ [] }
    {
        self.duty.kept.count();
    }
}
