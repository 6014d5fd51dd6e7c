//! MD as the bench wakes it.

ghost use Rattle.memory_window.specs.Memory.{regions_of};
ghost use Rattle.memory_window.specs.Window.{seen};
ghost use Rattle.md_dwell.specs.declared.step.TheConstants.{MOST_ITEMS};
ghost use Rattle.histories.specs.Entries.Entry.{Woken};
ghost use Rattle.md_dwell.specs.Histories.{MdEntry};
ghost use Rattle.md_dwell.specs.Orders.{input_of};
ghost use Rattle.md_dwell.specs.State.{AllGiven};
ghost use Rattle.app_suite.specs.Applications.{Active, md_stands, md_gives};

use crate::application::Application;
use crate::reads::Reads;
use crate::slot::Slot;
use bus_pipes::Outbox;
use md_dwell::Md;
use packet_forms::Packet;

pub type MdSlot = Slot<Md>;

impl Application<()> for Md {
    ghost Setup = { Active };

    ghost Input = { MdEntry };

    ghost stands = { md_stands };

    ghost items = { md_gives };

    ghost most = { MOST_ITEMS };

    ghost belongs = { λ setup reads. Unit {0} };

    ghost input = { λ reads commands. Woken (input_of reads.time commands reads.window) };

    ghost can_step = { λ reads md. AllGiven (regions_of (seen reads.window).areas) md };

    ghost is_clear = { λ beside. Unit {0} };

    ghost fills = { λ reads commands beside. Unit {0} };

    #[inline(always)]
    fn is_idle(&self, reads: &Reads<'_, '_, '_>, commands: &[Packet]) -> bool {
        let _ = reads;
        self.is_idle(commands)
    }

    fn advance(
        &mut self,
        reads: &Reads<'_, '_, '_>,
        commands: &[Packet],
        out: &mut Outbox,
        beside: &mut (),
    ) {
        let _ = beside;
        self.advance(commands, reads.window, reads.time, out);
    }
}
