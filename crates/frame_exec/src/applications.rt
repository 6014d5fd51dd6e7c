//! The applications of the bench.

use crate::wires::Wires;
use active_tables::Tables;
use app_suite::{
    CsSlot, Holds, HsSlot, LcSlot, Left, MdSlot, MmSlot, Naming, ScSlot, Slots, in_order, jobs_of,
    tell,
};
use bus_pipes::{Batch, Out, Outbox, PipeName};
use crew_board::Crew;
use cs_slices::Cs;
use frame_wires::{has_reset, take_unless};
use fsw_outside::NoMemory;
use hs_monitors::{Hs, HsInput};
use lc_watch::Lc;
use md_dwell::Md;
use memory_window::Ops;
use mm_core::Mm;
use sc_sequences::Sc;
use std::alloc::Global;

/// How many events of activations a frame has at most: one for each of its items.
pub(crate) const EVENTS_ROOM: u32 = 64;

/// The applications, with what each took and gave in a frame, and who wakes them.
#[derive(Drop)]
pub(crate) struct Applications {
    // the events of the frame's activations, which are the first of its items
    pub(crate) activations: Outbox,
    pub(crate) hs: HsSlot,
    // the packets that HS took from its pipe of events
    pub(crate) events: Batch,
    pub(crate) cs: CsSlot,
    pub(crate) sc: ScSlot,
    pub(crate) mm: MmSlot,
    pub(crate) md: MdSlot,
    pub(crate) lc: LcSlot,
    // who wakes the applications, with what each left
    pub(crate) crew: Crew<Left>,
}

impl Applications {
    ghost use Rattle.std.specs.Prelude.{◌≡◌, ◌<◌, ◌≤◌, true, false, List, [], ◌∷◌, ◌++◌, length, slice_index_or, IfOk};
    ghost use Rattle.app_suite.specs.declared.left.Left.{Left};
    ghost use Rattle.std.specs.List.{AllPass, list_any};
    ghost use Rattle.bus_pipes.specs.Counted.{is_item_counted};
    ghost use Rattle.hs_monitors.specs.Histories.{HsEntry, Setup as HsSetup};
    ghost use Rattle.hs_monitors.specs.State.{Stands as HsStands};
    ghost use Rattle.hs_monitors.specs.Step.{resets_made, resets_maximum};
    ghost use Rattle.app_suite.specs.Activations.{table_event};
    ghost use Rattle.frame_exec.specs.declared.applications.TheConstants.{EVENTS_ROOM};
    ghost use Rattle.app_suite.specs.Holding.{AreHeld};
    ghost use Rattle.app_suite.specs.Jobs.{jobs_of};
    ghost use Rattle.app_suite.specs.Wakes.{joined, next_of};
    ghost use Rattle.frame_runs.specs.Runs.{left_by};
    ghost use Rattle.frame_wires.specs.Sending.{is_reset, shown};
    ghost use Rattle.scenario.specs.declared.frame.App.{App};
    ghost use Rattle.hs_monitors.specs.State.{OnlyCounts};
    ghost use Rattle.frame_exec.specs.Idling.{AreIdle, HasPassed, HsPasses, IsNoneDue};
    ghost use Rattle.frame_exec.specs.Parts.{AreClear, AreReadyOn, AreStamped, CanBeSent, HistoriesBegin, IsTaken, KeepsApps, KeepsRoom, TakeAll, TakesOver, given_in, items_in};

    /// The applications on these tables before the first frame, whose time is `time`, with a crew of so many workers; and whether LC
    /// is there.
    pub(crate) fn open(
        alloc: Global,
        tables: &Tables<'_>,
        time: u32,
        workers: u32,
        lc: bool,
    ) -> Result<Applications, NoMemory>
        requires workers { (1 ≤ workers) × (workers ≤ 16) }
        ensures begin { IfOk result (HistoriesBegin tables.now.set time 0 3) }
        ensures ready { IfOk result (AreReadyOn tables.now.set) }
        ensures there { IfOk result (λ apps. apps.lc.there ≡ lc) }
        ensures jobs { IfOk result (λ apps. apps.crew.jobs ≡ jobs_of lc) }
        ensures room { IfOk result (λ apps. apps.activations.room ≡ EVENTS_ROOM) }
    {
        let slots = Slots::open(alloc, tables, time, lc)?;
        Ok(Applications {
            activations: Outbox::open(alloc, EVENTS_ROOM)?,
            hs: slots.hs,
            events: Batch::new(),
            cs: slots.cs,
            sc: slots.sc,
            mm: slots.mm,
            md: slots.md,
            lc: slots.lc,
            crew: Crew::open(alloc, workers, jobs_of(lc))?,
        })
    }

    /// Starts the applications anew on these tables, the next frame at `time`. HS keeps the resets made and their maximum.
    pub(crate) fn start_anew(&mut self, tables: &Tables<'_>, time: u32)
        ensures begin { (setup : HsSetup) (history : List HsEntry)
            → HsStands setup history self.old.hs.state.value → HistoriesBegin tables.now.set time
            (resets_made setup history) (resets_maximum setup history) self.new }
        ensures ready { AreReadyOn tables.now.set self.new }
        ensures items { items_in self.new ≡ items_in self.old }
        ensures keeps { KeepsRoom self.old self.new }
    {
        let (made, max) = self.hs.state.resets();
        self.hs.begin(Hs::start(tables.hs(), made, max));
        self.cs.begin(Cs::start(tables.eeprom(), tables.memory()));
        self.sc.begin(Sc::start(tables.sc(), time));
        self.mm.begin(Mm::start());
        self.md.begin(Md::start(tables.dwells()));
        self.lc.begin(Lc::start(tables.adt()));
    }

    /// Forgets what an earlier frame told of activations.
    #[inline(always)]
    pub(crate) fn forget_told(&mut self)
        ensures none { self.new.activations.items ≡ [] }
        ensures apps { KeepsApps self.old self.new }
        ensures keeps { KeepsRoom self.old self.new }
    {
        self.activations.clear();
    }

    /// Tells what became of a file that a line named.
    pub(crate) fn tell(&mut self, naming: Naming, time: u32)
        requires room { length self.old.activations.items < self.old.activations.room }
        ensures told { self.new.activations.items
            ≡ self.old.activations.items ++ table_event time naming ∷ [] }
        ensures apps { KeepsApps self.old self.new }
        ensures keeps { KeepsRoom self.old self.new }
    {
        tell(&mut self.activations, naming, time);
    }

    /// Each application but those that are held takes what its pipes hold.
    #[inline(always)]
    pub(crate) fn take_all_but(&mut self, wires: &mut Wires, holds: Holds)
        requires there { self.old.lc.there ≡ wires.old.bus.watched }
        ensures takes { (held : List App) → AreHeld held holds
            → TakeAll held wires.old.bus self.old self.new }
        ensures apps { KeepsApps self.old self.new }
        ensures pipes { (held : List App) → AreHeld held holds
            → wires.new.bus ≡ left_by held wires.old.bus }
        ensures log { wires.new.log ≡ wires.old.log }
        ensures keeps { KeepsRoom self.old self.new }
        ensures watched { wires.new.bus.watched ≡ wires.old.bus.watched }
    {
        self.hs.take(&mut wires.bus, PipeName::Hs, holds.hs);
        take_unless(&mut wires.bus, PipeName::HsEv, holds.hs, &mut self.events);
        self.cs.take(&mut wires.bus, PipeName::Cs, holds.cs);
        self.sc.take(&mut wires.bus, PipeName::Sc, holds.sc);
        self.mm.take(&mut wires.bus, PipeName::Mm, holds.mm);
        self.md.take(&mut wires.bus, PipeName::Md, holds.md);
        self.lc.take(&mut wires.bus);
    }

    /// Takes over what the jobs left, in the order of the applications, and tells whether no item was given.
    #[inline(always)]
    pub(crate) fn take_over(&mut self, ops: &mut Box<Ops>) -> bool
        requires manned { length self.old.crew.results ≡ jobs_of self.old.lc.there }
        requires clear { AreClear self.old }
        requires empty { ops.old.value ≡ [] }
        ensures over { TakesOver self.old self.new ops.new.value }
        ensures lc { self.old.lc.there ≡ true → IsTaken self.old 5 (λ left.
            (self.new.lc.slot.state.value
            ≡ next_of left.stays left.lc.value self.old.lc.slot.state.value)
            × (self.new.lc.slot.out.items ≡ left.out.items)) }
        ensures away { self.old.lc.there ≡ false → self.new.lc ≡ self.old.lc }
        ensures keeps { KeepsRoom self.old self.new }
        ensures none { result ≡ true → joined (given_in self.new) ≡ [] }
    {
        let none = self.take_over_first(ops);
        if !self.lc.there {
            return none;
        }
        none & self.lc.take_over(&mut self.crew)
    }

    /// Takes over what the jobs left but LC's, in the order of the applications, and tells whether no item was given.
    #[inline(always)]
    fn take_over_first(&mut self, ops: &mut Box<Ops>) -> bool
        requires manned { 5 ≤ length self.old.crew.results }
        requires clear { AreClear self.old }
        requires empty { ops.old.value ≡ [] }
        ensures over { TakesOver self.old self.new ops.new.value }
        ensures lc { self.new.lc ≡ self.old.lc }
        ensures last { (left : Left) → slice_index_or self.new.crew.results 5 left
            ≡ slice_index_or self.old.crew.results 5 left }
        ensures count { length self.new.crew.results ≡ length self.old.crew.results }
        ensures jobs { self.new.crew.jobs ≡ self.old.crew.jobs }
        ensures none { result ≡ true → joined (given_in self.new) ≡ [] }
    {
        let hs = self.hs.take_over(&mut self.crew, 0);
        let cs = self.cs.take_over(&mut self.crew, 1);
        let sc = self.sc.take_over(&mut self.crew, 2);
        let left = self.crew.result_mut(3);
        left.give_operations(ops);
        let mm = self.mm.take_over(&mut self.crew, 3);
        let md = self.md.take_over(&mut self.crew, 4);
        hs & cs & sc & mm & md
    }

    /// Whether HS may have something to do though it has no packets and no counters.
    #[inline(always)]
    pub(crate) fn hs_may_count(&self) -> bool
        ensures { result ≡ false → HsPasses self.now.hs.state.value self.now.hs.state.value }
    {
        let none = HsInput {
            commands: &[],
            events: &[],
            counters: &[],
        };
        !self.hs.state.is_idle(&none)
    }

    /// Whether HS has at most a check to count as long as it has no packets and no counters. It is asked only where it `counts`.
    #[inline(always)]
    pub(crate) fn hs_only_counts(&self, counts: bool) -> bool
        ensures { result ≡ true → counts ≡ true → OnlyCounts self.now.hs.state.value.duty }
    {
        if !counts {
            return true;
        }
        self.hs.state.only_counts()
    }

    /// Wakes HS without packets and counters, where it has at most a check to count. Where it doesn't count it rests.
    #[inline(always)]
    pub(crate) fn pass_hs(&mut self, counts: bool)
        requires only { counts ≡ true → OnlyCounts self.old.hs.state.value.duty }
        requires rests { counts ≡ false
            → HsPasses self.old.hs.state.value self.old.hs.state.value }
        ensures passed { HasPassed self.old self.new }
        ensures same { counts ≡ false → self.new ≡ self.old }
        ensures keeps { KeepsRoom self.old self.new }
    {
        if counts {
            self.hs.state.count();
        }
    }

    /// Whether each application but HS and SC rests as long as it has no packets.
    #[inline(always)]
    pub(crate) fn are_idle(&self) -> bool
        ensures { result ≡ true → AreIdle self.now }
    {
        if !self.md.state.is_idle(&[]) {
            return false;
        }
        if !self.lc.slot.state.is_idle(&[], &[]) {
            return false;
        }
        if !self.cs.state.is_idle(&[]) {
            return false;
        }
        self.mm.state.is_idle(&[])
    }

    /// Whether no command of SC is due at this time.
    #[inline(always)]
    pub(crate) fn owes_nothing(&self, time: u32) -> bool
        ensures { result ≡ true → IsNoneDue time self.now }
    {
        self.sc.state.is_idle(&[], time)
    }

    /// Gives the items their sequence counts.
    pub(crate) fn stamp(&mut self, wires: &mut Wires)
        requires told { AllPass is_item_counted self.old.activations.items }
        requires can { CanBeSent self.old }
        ensures stamped { AreStamped wires.old wires.new self.old self.new }
        ensures keeps { KeepsRoom self.old self.new }
    {
        wires.stamp(&mut self.activations);
        wires.stamp(&mut self.hs.out);
        wires.stamp(&mut self.cs.out);
        wires.stamp(&mut self.sc.out);
        wires.stamp(&mut self.mm.out);
        wires.stamp(&mut self.md.out);
        wires.stamp(&mut self.lc.slot.out);
    }

    /// What was told of activations, and behind it what the applications gave, a list each, in their order.
    #[inline(always)]
    pub(crate) fn in_order(&self) -> [&[Out]; 7]
        ensures shown { shown result ≡ joined (items_in self.now) }
    {
        in_order(
            &self.activations,
            &self.hs,
            &self.cs,
            &self.sc,
            &self.mm,
            &self.md,
            &self.lc,
        )
    }

    /// Whether an item asks for a processor reset.
    pub(crate) fn asks_for_reset(&self) -> bool
        ensures { result ≡ list_any is_reset (joined (items_in self.now)) }
    {
        let told = has_reset(self.activations.items());
        let given = has_reset(self.hs.out.items())
            | has_reset(self.cs.out.items())
            | has_reset(self.sc.out.items())
            | has_reset(self.mm.out.items())
            | has_reset(self.md.out.items())
            | has_reset(self.lc.slot.out.items());
        told | given
    }

    /// Whether nothing was told of activations nor given in the frame that was run.
    #[inline(always)]
    pub(crate) fn gave_nothing(&self) -> bool
        ensures { result ≡ true → joined (items_in self.now) ≡ [] }
    {
        self.activations.is_empty()
            && self.hs.out.is_empty()
            && self.cs.out.is_empty()
            && self.sc.out.is_empty()
            && self.mm.out.is_empty()
            && self.md.out.is_empty()
            && self.lc.slot.out.is_empty()
    }
}
