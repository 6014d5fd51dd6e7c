//! CS as the bench wakes it.

ghost use Rattle.std.specs.Prelude.{◌≡◌};
ghost use Rattle.memory_window.specs.Memory.{regions_of};
ghost use Rattle.memory_window.specs.Window.{seen};
ghost use Rattle.cs_slices.specs.declared.step.TheConstants.{MOST_ITEMS};
ghost use Rattle.histories.specs.Entries.Entry.{Woken};
ghost use Rattle.cs_slices.specs.Given.{SegmentsGiven};
ghost use Rattle.cs_slices.specs.Histories.{CsEntry};
ghost use Rattle.cs_slices.specs.Wakeups.{input_of};
ghost use Rattle.app_suite.specs.Applications.{Active, cs_tables, cs_stands, cs_gives};

use crate::application::Application;
use crate::reads::Reads;
use crate::slot::Slot;
use bus_pipes::Outbox;
use cs_slices::Cs;
use packet_forms::Packet;

pub type CsSlot = Slot<Cs>;

impl Application<()> for Cs {
    ghost Setup = { Active };

    ghost Input = { CsEntry };

    ghost stands = { cs_stands };

    ghost items = { cs_gives };

    ghost most = { MOST_ITEMS };

    ghost belongs = { λ setup reads. cs_tables reads.tables.now.set ≡ cs_tables setup.now };

    ghost input = { λ reads commands. Woken (input_of reads.time commands reads.window) };

    ghost can_step = { λ reads cs. SegmentsGiven
        (regions_of (seen reads.window).areas) reads.tables.now.set.eeprom
        × SegmentsGiven (regions_of (seen reads.window).areas) reads.tables.now.set.memory };

    ghost is_clear = { λ beside. Unit {0} };

    ghost fills = { λ reads commands beside. Unit {0} };

    #[inline(always)]
    fn is_idle(&self, reads: &Reads<'_, '_, '_>, commands: &[Packet]) -> bool {
        let _ = reads;
        self.is_idle(commands)
    }

    fn advance(
        &mut self,
        reads: &Reads<'_, '_, '_>,
        commands: &[Packet],
        out: &mut Outbox,
        beside: &mut (),
    ) {
        let _ = beside;
        self.advance(
            reads.tables.eeprom(),
            reads.tables.memory(),
            commands,
            reads.window,
            reads.time,
            out,
        );
    }
}
