//! A wakeup of MM.
ghost use Rattle.std.specs.Prelude.{◌≡◌, ◌*◌, ◌≤◌, List, [], ◌∷◌, ◌++◌, length, All};
ghost use Rattle.std.specs.List.{AllPass};
ghost use Rattle.bus_pipes.specs.Counted.{is_item_counted};
ghost use Rattle.memory_window.specs.Access.{Admitted};
ghost use Rattle.memory_window.specs.Operations.{IsBacked};
ghost use Rattle.table_files.specs.Files.{loads_of};
ghost use Rattle.memory_window.specs.Window.{seen};
ghost use Rattle.mm_core.specs.Step.{Input, input_of, mm_items, mm_operations};
ghost use Rattle.mm_core.specs.State.{Stands};

use crate::answers::reply;
use crate::duty::Duty;
use crate::housekeeping::housekeeping;
use crate::instructions::{Instruction, leave_operation};
use crate::reading::Reads;
use crate::state::Mm;
use crate::verdicts::{Refusal, own_refusal};
use bus_pipes::{Counts, Outbox};
use commands::{Commanded, handle_all};
use memory_window::{Ops, Window};
use packet_forms::Packet;
use table_files::Files;

/// How many items a wakeup gives at most.
pub const MOST_ITEMS: u32 = 272;

impl<'a> Commanded<Reads<'a>> for Duty {
    ghost use Rattle.std.specs.Prelude.{◌≡◌, refl};
    ghost use Rattle.std.proofs.Common.{arith};
    ghost use Rattle.mm_core.specs.Reading.{Seen, seen_in};
    ghost use Rattle.mm_core.specs.Verdicts.{own_refusal, CanObey, mm_protocol};
    ghost use Rattle.mm_core.specs.Step.{Turn, mm_answers, operations_of};
    ghost use Rattle.mm_core.specs.State.{CanLand};

    type Instruction = Instruction;

    type Refusal = Refusal;

    type Left = Ops;

    ghost Basis = { Seen };

    ghost Turn = { Turn };

    ghost protocol = { mm_protocol };

    ghost answers = { mm_answers };

    ghost basis = { λ turn. turn.input.seen };

    ghost belongs = { λ turn reads now. (turn.input.seen ≡ seen_in reads.window reads.files.now)
        × (turn.input.time ≡ now) };

    ghost stands = { λ turn orders duty ops. ops ≡ operations_of turn.input.seen.loads orders };

    ghost is_safe = { λ reads n duty ops. CanLand (seen_in reads.window reads.files.now) n ops };

    ghost can_obey = { λ reads duty instruction. CanObey
        (seen_in reads.window reads.files.now) instruction };

    ghost most = { 16 };

    ghost speaks = { refl };

    ghost numbers = { refl };

    ghost still_safe = { λ reads n duty ops safe. record {
      few = Prim.omega arith;
      admitted = safe.admitted;
      backed = safe.backed;
    } };

    ghost timed = { λ turn reads now belongs. belongs.1 };

    fn refusal(&self, instruction: &Instruction, reads: Reads<'a>, now: u32) -> Option<Refusal> {
        own_refusal(reads, instruction)
    }

    fn housekeeping(&self, counts: Counts, reads: Reads<'a>, now: u32) -> Packet {
        housekeeping(reads.window, counts, now)
    }

    fn obey(
        &mut self,
        instruction: &Instruction,
        reads: Reads<'a>,
        now: u32,
        left: &mut Ops,
        out: &mut Outbox,
    ) {
        reply(reads.window, instruction, now, out);
        leave_operation(reads.files, instruction, left);
    }
}

impl Mm {
    /// `advance` on a copy: this state stays, and the state after the wakeup goes to `next`.
    pub fn step(
        &self,
        files: &Files,
        commands: &[Packet],
        window: Window<'_>,
        now: u32,
        next: &mut Mm,
        out: &mut Outbox,
        ops: &mut Ops,
    )
        requires commands { length commands.now ≤ 16 }
        requires empty { out.old.items ≡ [] }
        requires room { MOST_ITEMS ≤ out.old.room }
        requires no_ops { ops.old ≡ [] }
        ensures stands { (history : List Input) → Stands history self.now
            → Stands (history ++ input_of now commands.now window.entry files.now ∷ []) next.new }
        ensures items { (history : List Input) → Stands history self.now
            → out.new.items ≡ mm_items history (input_of now commands.now window.entry files.now) }
        ensures ops { ops.new ≡ mm_operations (input_of now commands.now window.entry files.now) }
        ensures admitted { All (Admitted (seen window.entry)) ops.new }
        ensures backed { All (IsBacked (loads_of files.now)) ops.new }
        ensures counted { AllPass is_item_counted out.new.items }
        ensures few { length out.new.items ≤ 17 * length commands.now }
        ensures room { out.new.room ≡ out.old.room }
    {
        *next = *self;
        next.advance(files, commands, window, now, out, ops);
    }

    /// Handles the packets of the pipe, at most 16, at the time `now`, in seconds: a request is answered with housekeeping, a command with
    /// its packets and its event. What is sent goes to `out`, which is empty and has room for 272 items, and the operations to `ops`, which
    /// is empty too. All reading and all admission is by the window; load files are those among the files.
    pub fn advance(
        &mut self,
        files: &Files,
        commands: &[Packet],
        window: Window<'_>,
        now: u32,
        out: &mut Outbox,
        ops: &mut Ops,
    )
        requires commands { length commands.now ≤ 16 }
        requires empty { out.old.items ≡ [] }
        requires room { MOST_ITEMS ≤ out.old.room }
        requires no_ops { ops.old ≡ [] }
        ensures stands { (history : List Input) → Stands history self.old
            → Stands (history ++ input_of now commands.now window.entry files.now ∷ []) self.new }
        ensures items { (history : List Input) → Stands history self.old
            → out.new.items ≡ mm_items history (input_of now commands.now window.entry files.now) }
        ensures ops { ops.new ≡ mm_operations (input_of now commands.now window.entry files.now) }
        ensures admitted { All (Admitted (seen window.entry)) ops.new }
        ensures backed { All (IsBacked (loads_of files.now)) ops.new }
        ensures counted { AllPass is_item_counted out.new.items }
        ensures few { length out.new.items ≤ 17 * length commands.now }
        ensures room { out.new.room ≡ out.old.room }
    {
        handle_all(
            &mut self.counts,
            &mut Duty {},
            commands,
            Reads { window, files },
            now,
            ops,
            out,
        );
    }
}
