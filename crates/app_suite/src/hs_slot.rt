//! HS as the bench wakes it.

ghost use Rattle.std.specs.Prelude.{◌≡◌};
ghost use Rattle.hs_monitors.specs.declared.step.TheConstants.{MOST_ITEMS};
ghost use Rattle.hs_monitors.specs.Histories.{HsEntry};
ghost use Rattle.app_suite.specs.Applications.{Active, hs_stands, hs_gives, hs_reads};

use crate::application::Application;
use crate::reads::Reads;
use crate::slot::Slot;
use bus_pipes::Outbox;
use hs_monitors::{Hs, HsInput};
use packet_forms::Packet;

pub type HsSlot = Slot<Hs>;

impl Application<()> for Hs {
    ghost Setup = { Active };

    ghost Input = { HsEntry };

    ghost stands = { hs_stands };

    ghost items = { hs_gives };

    ghost most = { MOST_ITEMS };

    ghost belongs = { λ setup reads. reads.tables.now.set.hs ≡ setup.now.hs };

    ghost input = { λ reads commands.
        hs_reads reads.time commands reads.events.now reads.counters.now };

    ghost can_step = { λ reads hs. Unit {0} };

    ghost is_clear = { λ beside. Unit {0} };

    ghost fills = { λ reads commands beside. Unit {0} };

    #[inline(always)]
    fn is_idle(&self, reads: &Reads<'_, '_, '_>, commands: &[Packet]) -> bool {
        self.is_idle(&HsInput {
            commands,
            events: reads.events.packets(),
            counters: reads.counters,
        })
    }

    fn advance(
        &mut self,
        reads: &Reads<'_, '_, '_>,
        commands: &[Packet],
        out: &mut Outbox,
        beside: &mut (),
    ) {
        let _ = beside;
        let input = HsInput {
            commands,
            events: reads.events.packets(),
            counters: reads.counters,
        };
        self.advance(reads.tables.hs(), &input, reads.time, out);
    }
}
