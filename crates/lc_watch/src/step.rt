//! A wakeup of LC.
ghost use Rattle.std.specs.Prelude.{◌≡◌, ◌≤◌, List, [], ◌∷◌, ◌++◌, length};
ghost use Rattle.std.specs.List.{AllPass};
ghost use Rattle.bus_pipes.specs.Counted.{is_item_counted};
ghost use Rattle.lc_watch.specs.Histories.{Input, input_of, setup_of};
ghost use Rattle.lc_watch.specs.Step.{lc_items};
ghost use Rattle.lc_watch.specs.State.{Stands};

use crate::actionpoints::Adt;
use crate::duty::Duty;
use crate::housekeeping::housekeeping;
use crate::instructions::Instruction;
use crate::state::Lc;
use crate::verdicts::{Refusal, own_refusal};
use crate::watchpoints::Wdt;
use bus_pipes::{Counts, Outbox};
use commands::{Commanded, handle_all};
use packet_forms::Packet;

/// How many items a wakeup gives at most.
pub const MOST_ITEMS: u32 = 48;

/// What is read beside the packets.
#[derive(Clone, Copy)]
struct Reads<'a> {
    actions: &'a Adt,
}

impl<'a> Commanded<Reads<'a>> for Duty {
    ghost use Rattle.std.specs.Prelude.{◌≡◌, List, refl};
    ghost use Rattle.lc_watch.specs.declared.actionpoints.ActRow.{ActRow};
    ghost use Rattle.lc_watch.specs.Instructions.{NamesPoint};
    ghost use Rattle.lc_watch.specs.Verdicts.{own_refusal, lc_protocol};
    ghost use Rattle.lc_watch.specs.Step.{Turn, lc_answers};
    ghost use Rattle.lc_watch.specs.State.{DutyStands};

    type Instruction = Instruction;

    type Refusal = Refusal;

    type Left = ();

    ghost Basis = { List ActRow };

    ghost Turn = { Turn };

    ghost protocol = { lc_protocol };

    ghost answers = { lc_answers };

    ghost basis = { λ turn. turn.setup.actions };

    ghost belongs = { λ turn reads now. (reads.actions.now ≡ turn.setup.actions)
        × (turn.input.time ≡ now) };

    ghost stands = { λ turn orders duty left. DutyStands turn.setup turn.history orders duty };

    ghost can_obey = { λ reads duty instruction. NamesPoint instruction };

    ghost most = { 0 };

    ghost speaks = { refl };

    ghost numbers = { refl };

    ghost still_safe = { λ reads n duty left safe. safe };

    ghost timed = { λ turn reads now belongs. belongs.1 };

    fn refusal(&self, instruction: &Instruction, reads: Reads<'a>, now: u32) -> Option<Refusal> {
        own_refusal(reads.actions, instruction)
    }

    fn housekeeping(&self, counts: Counts, reads: Reads<'a>, now: u32) -> Packet {
        housekeeping(counts, self.active_bits(), self.fired, self.results(), now)
    }

    fn obey(
        &mut self,
        instruction: &Instruction,
        reads: Reads<'a>,
        now: u32,
        left: &mut (),
        out: &mut Outbox,
    ) {
        Duty::obey(self, instruction);
    }
}

impl Lc {
    /// `advance` on a copy: this state stays, and the state after the wakeup goes to `next`.
    pub fn step(
        &self,
        watch: &Wdt,
        actions: &Adt,
        commands: &[Packet],
        telemetry: &[Packet],
        now: u32,
        next: &mut Lc,
        out: &mut Outbox,
    )
        requires commands { length commands.now ≤ 16 }
        requires empty { out.old.items ≡ [] }
        requires room { MOST_ITEMS ≤ out.old.room }
        ensures stands { (history : List Input) → Stands watch.now actions.now history self.now
            → Stands watch.now actions.now (history ++ input_of now commands.now telemetry.now
            ∷ []) next.new }
        ensures items { (history : List Input) → Stands watch.now actions.now history self.now
            → out.new.items ≡ lc_items (setup_of watch.now actions.now) history
            (input_of now commands.now telemetry.now) }
        ensures counted { AllPass is_item_counted out.new.items }
        ensures few { length out.new.items ≤ MOST_ITEMS }
        ensures room { out.new.room ≡ out.old.room }
    {
        *next = *self;
        next.advance(watch, actions, commands, telemetry, now, out);
    }

    /// A wakeup at the time `now`, in seconds. The packets of the command pipe, at most 16, are handled in order: a request is answered
    /// with housekeeping, a command with its event. Then the packets of the telemetry pipe are taken in order, and the
    /// actionpoints are evaluated in table order: each that fires gives the command that starts its sequence, and event 101. What is sent
    /// goes to `out`, which is empty and has room for 48 items. The tables are those on which the state was started.
    pub fn advance(
        &mut self,
        watch: &Wdt,
        actions: &Adt,
        commands: &[Packet],
        telemetry: &[Packet],
        now: u32,
        out: &mut Outbox,
    )
        requires commands { length commands.now ≤ 16 }
        requires empty { out.old.items ≡ [] }
        requires room { MOST_ITEMS ≤ out.old.room }
        ensures stands { (history : List Input) → Stands watch.now actions.now history self.old
            → Stands watch.now actions.now (history ++ input_of now commands.now telemetry.now
            ∷ []) self.new }
        ensures items { (history : List Input) → Stands watch.now actions.now history self.old
            → out.new.items ≡ lc_items (setup_of watch.now actions.now) history
            (input_of now commands.now telemetry.now) }
        ensures counted { AllPass is_item_counted out.new.items }
        ensures few { length out.new.items ≤ MOST_ITEMS }
        ensures room { out.new.room ≡ out.old.room }
    {
        let reads = Reads { actions };
        handle_all(
            &mut self.counts,
            &mut self.duty,
            commands,
            reads,
            now,
            &mut (),
            out,
        );
        self.duty.take(watch, telemetry);
        self.duty.fire(actions, now, out);
    }
}
