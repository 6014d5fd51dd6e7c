//! LC as the bench wakes it.

ghost use Rattle.std.specs.Prelude.{◌≡◌, ◌<◌, true, false, not, [], length, slice_index_or, IfOk};
ghost use Rattle.bus_pipes.specs.declared.names.TheConstants.{TELEMETRY_PIPE_DEPTH};
ghost use Rattle.lc_watch.specs.declared.step.TheConstants.{MOST_ITEMS};
ghost use Rattle.lc_watch.specs.Histories.{Input, Setup};
ghost use Rattle.app_suite.specs.Applications.{lc_setup, lc_stands, lc_gives, lc_reads};
ghost use Rattle.frame_wires.specs.Sending.{without_limits};
ghost use Rattle.app_suite.specs.Wakes.{HasTaken, next_of};

use crate::application::Application;
use crate::left::Left;
use crate::reads::Reads;
use crate::slot::Slot;
use bus_pipes::{Bus, Outbox, PipeName, TELEMETRY_PIPE_DEPTH, Telemetry};
use crew_board::Crew;
use fsw_outside::NoMemory;
use lc_watch::Lc;
use packet_forms::Packet;
use std::alloc::Global;

impl Application<()> for Lc {
    ghost Setup = { Setup };

    ghost Input = { Input };

    ghost stands = { lc_stands };

    ghost items = { lc_gives };

    ghost most = { MOST_ITEMS };

    ghost belongs = { λ setup reads. lc_setup reads.tables.now.set ≡ setup };

    ghost input = { λ reads commands. lc_reads reads.time commands reads.telemetry.now.items };

    ghost can_step = { λ reads lc. Unit {0} };

    ghost is_clear = { λ beside. Unit {0} };

    ghost fills = { λ reads commands beside. Unit {0} };

    #[inline(always)]
    fn is_idle(&self, reads: &Reads<'_, '_, '_>, commands: &[Packet]) -> bool {
        self.is_idle(commands, reads.telemetry.items())
    }

    fn advance(
        &mut self,
        reads: &Reads<'_, '_, '_>,
        commands: &[Packet],
        out: &mut Outbox,
        beside: &mut (),
    ) {
        let _ = beside;
        self.advance(
            reads.tables.wdt(),
            reads.tables.adt(),
            commands,
            reads.telemetry.items(),
            reads.time,
            out,
        );
    }
}

/// LC in the bench: its slot, and the packets that it took from its pipe of telemetry. Where it isn't there it is as one that is held
/// in each frame.
#[derive(Drop)]
pub struct LcSlot {
    pub there: bool,
    pub slot: Slot<Lc>,
    pub telemetry: Telemetry,
    ghost roomy: { telemetry.room ≡ TELEMETRY_PIPE_DEPTH },
    ghost away: { there ≡ false → (slot.held ≡ true) × (slot.out.items ≡ []) },
}

impl LcSlot {
    ghost use Rattle.app_suite.specs.declared.left.Left.{Left};

    /// LC in this state before the first frame.
    pub fn open(alloc: Global, state: Lc, there: bool) -> Result<LcSlot, NoMemory>
        ensures state { IfOk result (λ lc. lc.slot.state.value ≡ state) }
        ensures there { IfOk result (λ lc. lc.there ≡ there) }
    {
        Ok(LcSlot {
            there,
            slot: Slot::open(alloc, state, !there)?,
            telemetry: Telemetry::open(alloc, TELEMETRY_PIPE_DEPTH)?,
        })
    }

    /// Takes what its pipes hold. Where they aren't there nothing changes.
    #[inline(always)]
    pub fn take(&mut self, bus: &mut Bus)
        requires there { self.old.there ≡ bus.old.watched }
        ensures there { self.new.there ≡ self.old.there }
        ensures state { self.new.slot.state ≡ self.old.slot.state }
        ensures takes { HasTaken (not bus.old.watched) bus.old.lc self.new.slot.held
            self.new.slot.commands.value self.new.slot.out.items }
        ensures telemetry { not bus.old.watched ≡ false
            → self.new.telemetry.items ≡ bus.old.lc_tlm }
        ensures pipes { bus.new ≡ without_limits bus.old }
    {
        if !bus.is_watched() {
            return;
        }
        self.slot.take(bus, PipeName::Lc, false);
        bus.take_telemetry(&mut self.telemetry);
    }

    /// Takes over what its wakeup left, and tells whether no item was given. It gave nothing yet.
    #[inline(always)]
    pub fn take_over(&mut self, crew: &mut Crew<Left>) -> bool
        requires there { self.old.there ≡ true }
        requires job { 5 < length crew.old.results }
        requires empty { self.old.slot.out.items ≡ [] }
        ensures there { self.new.there ≡ self.old.there }
        ensures from { (left : Left) × (slice_index_or crew.old.results 5 left ≡ left)
            × (self.new.slot.state.value ≡ next_of left.stays left.lc.value
            self.old.slot.state.value) × (self.new.slot.out.items ≡ left.out.items) }
        ensures jobs { crew.new.jobs ≡ crew.old.jobs }
        ensures none { result ≡ true → self.new.slot.out.items ≡ [] }
    {
        self.slot.take_over(crew, 5)
    }

    /// Goes on from this state.
    pub fn begin(&mut self, state: Lc)
        ensures there { self.new.there ≡ self.old.there }
        ensures state { self.new.slot.state.value ≡ state }
        ensures out { self.new.slot.out ≡ self.old.slot.out }
    {
        self.slot.begin(state);
    }
}
