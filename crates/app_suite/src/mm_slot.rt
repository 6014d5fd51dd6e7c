//! MM as the bench wakes it.

ghost use Rattle.std.specs.Prelude.{◌≡◌, []};
ghost use Rattle.table_files.specs.Files.{loads_of};
ghost use Rattle.memory_window.specs.Window.{seen};
ghost use Rattle.mm_core.specs.declared.step.TheConstants.{MOST_ITEMS};
ghost use Rattle.mm_core.specs.Step.{Input, input_of, mm_operations};
ghost use Rattle.active_tables.specs.Tables.{TableSet};
ghost use Rattle.app_suite.specs.Applications.{mm_stands, mm_gives};
ghost use Rattle.app_suite.specs.Landable.{CanLand};

use crate::application::Application;
use crate::reads::Reads;
use crate::slot::Slot;
use bus_pipes::Outbox;
use memory_window::Ops;
use mm_core::Mm;
use packet_forms::Packet;

pub type MmSlot = Slot<Mm>;

impl Application<Ops> for Mm {
    ghost Setup = { TableSet };

    ghost Input = { Input };

    ghost stands = { mm_stands };

    ghost items = { mm_gives };

    ghost most = { MOST_ITEMS };

    ghost belongs = { λ setup reads. Unit {0} };

    ghost input = { λ reads commands.
        input_of reads.time commands reads.window reads.tables.now.files };

    ghost can_step = { λ reads mm. Unit {0} };

    ghost is_clear = { λ ops. ops ≡ [] };

    ghost fills = { λ reads commands ops. (ops
        ≡ mm_operations (input_of reads.time commands reads.window reads.tables.now.files))
        × CanLand (loads_of reads.tables.now.files) (seen reads.window) ops };

    #[inline(always)]
    fn is_idle(&self, reads: &Reads<'_, '_, '_>, commands: &[Packet]) -> bool {
        let _ = reads;
        self.is_idle(commands)
    }

    fn advance(
        &mut self,
        reads: &Reads<'_, '_, '_>,
        commands: &[Packet],
        out: &mut Outbox,
        beside: &mut Ops,
    ) {
        self.advance(
            reads.tables.files(),
            commands,
            reads.window,
            reads.time,
            out,
            beside,
        );
    }
}
