//! SC as the bench wakes it.

ghost use Rattle.std.specs.Prelude.{◌≡◌};
ghost use Rattle.sc_sequences.specs.declared.step.TheConstants.{MOST_ITEMS};
ghost use Rattle.sc_sequences.specs.Histories.{ScEntry};
ghost use Rattle.sc_sequences.specs.State.{IsReady};
ghost use Rattle.app_suite.specs.Applications.{Active, sc_stands, sc_gives, sc_reads};

use crate::application::Application;
use crate::reads::Reads;
use crate::slot::Slot;
use bus_pipes::Outbox;
use packet_forms::Packet;
use sc_sequences::Sc;

pub type ScSlot = Slot<Sc>;

impl Application<()> for Sc {
    ghost Setup = { Active };

    ghost Input = { ScEntry };

    ghost stands = { sc_stands };

    ghost items = { sc_gives };

    ghost most = { MOST_ITEMS };

    ghost belongs = { λ setup reads. reads.tables.now.set.sc ≡ setup.now.sc };

    ghost input = { λ reads commands. sc_reads reads.time commands };

    ghost can_step = { λ reads sc. IsReady reads.tables.now.set.sc sc };

    ghost is_clear = { λ beside. Unit {0} };

    ghost fills = { λ reads commands beside. Unit {0} };

    #[inline(always)]
    fn is_idle(&self, reads: &Reads<'_, '_, '_>, commands: &[Packet]) -> bool {
        self.is_idle(commands, reads.time)
    }

    fn advance(
        &mut self,
        reads: &Reads<'_, '_, '_>,
        commands: &[Packet],
        out: &mut Outbox,
        beside: &mut (),
    ) {
        let _ = beside;
        self.advance(reads.tables.sc(), commands, reads.time, out);
    }
}
