//! What commands of Health and Safety change: what is on, what is kept of the application monitors, and the actions.
ghost use Rattle.std.specs.Prelude.{◌≡◌, ◌+◌, ◌≤◌, ◌&&◌, if◌then◌else◌, nat_lt, true, List, [], ◌∷◌, ◌++◌, length};
ghost use Rattle.std.specs.List.{flat_map, AllPass};
ghost use Rattle.packet_forms.specs.declared.name.Counter.{Counter};
ghost use Rattle.bus_pipes.specs.Counted.{is_item_counted};
ghost use Rattle.hs_tables.specs.declared.tables.HsTables.{HsTables};
ghost use Rattle.hs_actions.specs.Performs.{Performs};
ghost use Rattle.hs_monitors.specs.Histories.{HsEntry, Setup, apps_after, setup_of};
ghost use Rattle.hs_monitors.specs.Monitors.{places_of, app_attempt};
ghost use Rattle.hs_monitors.specs.Events.{SendersStand, event_attempts};
ghost use Rattle.hs_monitors.specs.Attempts.{past_of, past_in};
ghost use Rattle.hs_monitors.specs.Housekeeping.{watching_bits};
ghost use Rattle.hs_monitors.specs.Entries.{KeptStands};
ghost use Rattle.hs_monitors.specs.State.{DutyStands, OnlyCounts, are_idle};
ghost use Rattle.hs_monitors.specs.declared.instructions.Instruction.{Instruction};

use crate::apps::places_in;
use crate::events::{hear_all, senders_of};
use crate::heads::Heads;
use crate::housekeeping::{Shown, watching_bits};
use crate::instructions::Instruction;
use crate::kept::Kept;
use bus_pipes::Outbox;
use hs_actions::Actions;
use hs_tables::{AppMon, EventMon, HsTables};
use packet_forms::{Counter, Packet};

/// What Health and Safety has to do beside answering: whether application monitoring and event monitoring are on, how many places of the
/// application monitors there are up to the last used entry and what is kept of each, where the names of the event monitors stand, and the
/// actions.
#[derive(Clone, Copy, Debug, PartialEq, Eq)]
pub(crate) struct Duty {
    monitoring: bool,
    listening: bool,
    places: u8,
    pub(crate) kept: Kept,
    senders: Heads,
    pub(crate) actions: Actions,
}

impl Duty {
    /// Before the first wakeup: both monitorings are on, and so many resets were made of at most `max`.
    pub(crate) fn start(tables: &HsTables, made: u16, max: u16) -> Duty
        ensures { DutyStands (setup_of tables.now made max) [] []
            (past_of (setup_of tables.now made max) []) result }
    {
        Duty {
            monitoring: true,
            listening: true,
            places: places_in(&tables.apps),
            kept: Kept::begun(&tables.apps),
            senders: senders_of(&tables.events),
            actions: Actions::start(made, max),
        }
    }

    /// Begins a wakeup: each cooldown goes down by one.
    pub(crate) fn tick(&mut self)
        ensures { (setup : Setup) (history : List HsEntry)
            → DutyStands setup history [] (past_of setup history) self.old
            → DutyStands setup history [] (past_in setup history []) self.new }
    {
        self.actions.tick();
    }

    /// Does what an accepted command asks for.
    pub(crate) fn obey(&mut self, apps: &AppMon, instruction: &Instruction)
        ensures { (setup : Setup) (history : List HsEntry) (orders : List Instruction)
            → apps.now ≡ apps_after setup history
            → DutyStands setup history orders (past_in setup history orders) self.old
            → DutyStands setup history (orders ++ instruction.now
            ∷ []) (past_in setup history (orders ++ instruction.now ∷ [])) self.new }
    {
        match instruction {
            Instruction::Plain => {}
            Instruction::Monitor { on } => self.monitor(apps, *on),
            Instruction::Listen { on } => self.listening = *on,
            Instruction::Clear => self.actions.clear_resets(),
            Instruction::Limit { max } => self.actions.set_max(*max),
        }
    }

    /// Switches application monitoring on, with a refresh, or off.
    fn monitor(&mut self, apps: &AppMon, on: bool)
        ensures monitoring { self.new.monitoring ≡ on }
        ensures listening { self.new.listening ≡ self.old.listening }
        ensures places { self.new.places ≡ self.old.places }
        ensures senders { self.new.senders ≡ self.old.senders }
        ensures actions { self.new.actions ≡ self.old.actions }
        ensures kept { (checks : List (List Counter))
            → KeptStands apps.now checks self.old.kept
            → KeptStands apps.now (if on then [] else checks) self.new.kept }
    {
        self.monitoring = on;
        if !on {
            return;
        }
        self.kept = Kept::begun(apps);
    }

    /// Takes another table of application monitors: their watch begins anew.
    pub(crate) fn take_apps(&mut self, apps: &AppMon)
        ensures monitoring { self.new.monitoring ≡ self.old.monitoring }
        ensures listening { self.new.listening ≡ self.old.listening }
        ensures places { self.new.places ≡ places_of apps.now }
        ensures senders { self.new.senders ≡ self.old.senders }
        ensures actions { self.new.actions ≡ self.old.actions }
        ensures kept { KeptStands apps.now [] self.new.kept }
    {
        self.places = places_in(apps);
        self.kept = Kept::begun(apps);
    }

    /// Takes another table of event monitors.
    pub(crate) fn take_events(&mut self, events: &EventMon)
        ensures same { self.new ≡ record self.old { senders = self.new.senders } }
        ensures senders { SendersStand events.now self.new.senders }
    {
        self.senders = senders_of(events);
    }

    /// Checks the application monitors, where application monitoring is on.
    pub(crate) fn check_apps(
        &mut self,
        tables: &HsTables,
        counters: &[Counter],
        now: u32,
        out: &mut Outbox,
    )
        requires room { length out.old.items + 64 ≤ out.old.room }
        ensures same { (self.new.monitoring ≡ self.old.monitoring)
            × (self.new.listening ≡ self.old.listening) × (self.new.places ≡ self.old.places)
            × (self.new.senders ≡ self.old.senders) }
        ensures kept { (checks : List (List Counter)) → self.old.places ≡ places_of tables.now.apps
            → KeptStands tables.now.apps checks self.old.kept
            → KeptStands tables.now.apps (if self.old.monitoring then checks
            ++ counters.now ∷ [] else checks) self.new.kept }
        ensures performs { (checks : List (List Counter))
            → self.old.places ≡ places_of tables.now.apps
            → KeptStands tables.now.apps checks self.old.kept
            → Performs tables.now.acts now (λ k. if self.old.monitoring
            then flat_map (app_attempt k (checks ++ counters.now ∷ [])) tables.now.apps
            else []) self.old.actions self.new.actions out.old out.new }
        ensures counted { AllPass is_item_counted out.old.items
            → AllPass is_item_counted out.new.items }
        ensures few { length out.new.items ≤ length out.old.items + 64 }
        ensures room { out.new.room ≡ out.old.room }
    {
        if !self.monitoring {
            return;
        }
        self.kept
            .check(tables, self.places, counters, now, &mut self.actions, out);
    }

    /// Compares the packets of the event pipe, at most 32, with the event monitors, where event monitoring is on.
    pub(crate) fn hear_events(
        &mut self,
        tables: &HsTables,
        events: &[Packet],
        now: u32,
        out: &mut Outbox,
    )
        requires events { length events.now ≤ 32 }
        requires room { length out.old.items + 1024 ≤ out.old.room }
        ensures same { (self.new.monitoring ≡ self.old.monitoring)
            × (self.new.listening ≡ self.old.listening) × (self.new.places ≡ self.old.places)
            × (self.new.kept ≡ self.old.kept) × (self.new.senders ≡ self.old.senders) }
        ensures performs { SendersStand tables.now.events self.old.senders
            → Performs tables.now.acts now (λ k. if self.old.listening
            then flat_map (event_attempts k tables.now.events) events.now
            else []) self.old.actions self.new.actions out.old out.new }
        ensures counted { AllPass is_item_counted out.old.items
            → AllPass is_item_counted out.new.items }
        ensures few { length out.new.items ≤ length out.old.items + 1024 }
        ensures room { out.new.room ≡ out.old.room }
    {
        if !self.listening {
            return;
        }
        hear_all(tables, &self.senders, events, now, &mut self.actions, out);
    }

    /// What housekeeping shows of them.
    pub(crate) fn shown(&self, apps: &AppMon) -> Shown
        ensures monitoring { result.monitoring ≡ self.now.monitoring }
        ensures listening { result.listening ≡ self.now.listening }
        ensures watching { (checks : List (List Counter))
            → KeptStands apps.now checks self.now.kept
            → result.watching ≡ watching_bits apps.now checks }
    {
        Shown {
            monitoring: self.monitoring,
            listening: self.listening,
            watching: watching_bits(apps, &self.kept.settled()),
        }
    }

    /// Whether a wakeup without packets does nothing.
    #[inline(always)]
    pub(crate) fn are_idle(&self) -> bool
        ensures { (setup : Setup) (history : List HsEntry)
            → DutyStands setup history [] (past_of setup history) self.now
            → result ≡ are_idle setup history }
    {
        !self.may_check() && !self.actions.is_cooling()
    }

    /// Whether a wakeup without packets and counters does nothing but count a check: application monitoring is on, no cooldown runs, and no
    /// countdown can end.
    #[inline(always)]
    pub(crate) fn only_counts(&self) -> bool
        ensures { result ≡ true → OnlyCounts self.now }
    {
        if !self.monitoring {
            return false;
        }
        if !self.kept.ends_none() {
            return false;
        }
        !self.actions.is_cooling()
    }

    /// Whether a used entry may be checked: without one, no more is asked.
    #[tactic(auto, using(crate::proofs::Acting::and_no))]
    #[inline(always)]
    fn may_check(&self) -> bool
        ensures { result ≡ (self.now.monitoring && nat_lt 0 self.now.places) }
    {
        self.places > 0 && self.monitoring
    }
}
