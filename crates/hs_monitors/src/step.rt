//! A wakeup of Health and Safety.
ghost use Rattle.std.specs.Prelude.{◌≡◌, ◌≤◌, List, [], ◌∷◌, ◌++◌, length};
ghost use Rattle.std.specs.List.{AllPass};
ghost use Rattle.histories.specs.Entries.Entry.{Woken};
ghost use Rattle.bus_pipes.specs.Counted.{is_item_counted};
ghost use Rattle.hs_monitors.specs.Histories.{HsEntry, Setup, input_of, tables_after};
ghost use Rattle.hs_monitors.specs.Step.{hs_items};
ghost use Rattle.hs_monitors.specs.State.{Stands};

use crate::duty::Duty;
use crate::housekeeping::housekeeping;
use crate::input::HsInput;
use crate::instructions::Instruction;
use crate::state::Hs;
use crate::verdicts::Refusal;
use bus_pipes::{Counts, Outbox};
use commands::{Commanded, handle_all};
use hs_tables::HsTables;
use packet_forms::{Counter, Packet};

/// How many items a wakeup gives at most.
pub const MOST_ITEMS: u32 = 1104;

/// What is read beside the packets.
#[derive(Clone, Copy)]
struct Reads<'a> {
    tables: &'a HsTables,
    counters: &'a [Counter],
}

impl<'a> Commanded<Reads<'a>> for Duty {
    ghost use Rattle.std.specs.Prelude.{◌≡◌, refl};
    ghost use Rattle.hs_monitors.specs.Verdicts.{hs_protocol};
    ghost use Rattle.hs_monitors.specs.Histories.{tables_after};
    ghost use Rattle.hs_monitors.specs.Attempts.{past_in};
    ghost use Rattle.hs_monitors.specs.Step.{Turn, hs_answers};
    ghost use Rattle.hs_monitors.specs.State.{DutyStands};

    type Instruction = Instruction;

    type Refusal = Refusal;

    type Left = ();

    ghost Basis = { Unit {0} };

    ghost Turn = { Turn };

    ghost protocol = { hs_protocol };

    ghost answers = { hs_answers };

    ghost basis = { λ turn. tt };

    ghost belongs = { λ turn reads now. (reads.tables.now ≡ tables_after turn.setup turn.history)
        × (reads.counters.now ≡ turn.input.seen.counters) × (turn.input.time ≡ now) };

    ghost stands = { λ turn orders duty left. DutyStands turn.setup turn.history orders
        (past_in turn.setup turn.history orders) duty };

    ghost most = { 0 };

    ghost speaks = { refl };

    ghost numbers = { refl };

    ghost still_safe = { λ reads n duty left safe. safe };

    ghost timed = { λ turn reads now belongs. belongs.2 };

    fn refusal(&self, instruction: &Instruction, reads: Reads<'a>, now: u32) -> Option<Refusal> {
        None
    }

    fn housekeeping(&self, counts: Counts, reads: Reads<'a>, now: u32) -> Packet {
        let shown = self.shown(&reads.tables.apps);
        housekeeping(
            counts,
            shown,
            &self.actions,
            &reads.tables.counts,
            reads.counters,
            now,
        )
    }

    fn obey(
        &mut self,
        instruction: &Instruction,
        reads: Reads<'a>,
        now: u32,
        left: &mut (),
        out: &mut Outbox,
    ) {
        Duty::obey(self, &reads.tables.apps, instruction);
    }
}

impl Hs {
    /// `advance` on a copy: this state stays, and the state after the wakeup goes to `next`.
    pub fn step(
        &self,
        tables: &HsTables,
        input: &HsInput<'_>,
        now: u32,
        next: &mut Hs,
        out: &mut Outbox,
    )
        requires commands { length input.now.commands.now ≤ 16 }
        requires events { length input.now.events.now ≤ 32 }
        requires empty { out.old.items ≡ [] }
        requires room { MOST_ITEMS ≤ out.old.room }
        ensures stands { (setup : Setup) (history : List HsEntry)
            → tables.now ≡ tables_after setup history → Stands setup history self.now
            → Stands setup (history ++ Woken (input_of now input.now) ∷ []) next.new }
        ensures items { (setup : Setup) (history : List HsEntry)
            → tables.now ≡ tables_after setup history → Stands setup history self.now
            → out.new.items ≡ hs_items setup history (input_of now input.now) }
        ensures counted { AllPass is_item_counted out.new.items }
        ensures few { length out.new.items ≤ MOST_ITEMS }
        ensures room { out.new.room ≡ out.old.room }
    {
        *next = *self;
        next.advance(tables, input, now, out);
    }

    /// A wakeup at the time `now`, in seconds. Each cooldown goes down by one. The packets of the command pipe, at most 16, are handled in
    /// order: a request is answered with housekeeping, a command with its event. Where application monitoring is on, the application
    /// monitors are checked in table order by the counters. Where event monitoring is on, the packets of the event pipe, at most 32, are
    /// compared with the event monitors, packet by packet and in table order. What is sent goes to `out`, which is empty and has room for
    /// 1,104 items. The tables are those in force.
    pub fn advance(&mut self, tables: &HsTables, input: &HsInput<'_>, now: u32, out: &mut Outbox)
        requires commands { length input.now.commands.now ≤ 16 }
        requires events { length input.now.events.now ≤ 32 }
        requires empty { out.old.items ≡ [] }
        requires room { MOST_ITEMS ≤ out.old.room }
        ensures stands { (setup : Setup) (history : List HsEntry)
            → tables.now ≡ tables_after setup history → Stands setup history self.old
            → Stands setup (history ++ Woken (input_of now input.now) ∷ []) self.new }
        ensures items { (setup : Setup) (history : List HsEntry)
            → tables.now ≡ tables_after setup history → Stands setup history self.old
            → out.new.items ≡ hs_items setup history (input_of now input.now) }
        ensures counted { AllPass is_item_counted out.new.items }
        ensures few { length out.new.items ≤ MOST_ITEMS }
        ensures room { out.new.room ≡ out.old.room }
    {
        self.duty.tick();
        let reads = Reads {
            tables,
            counters: input.counters,
        };
        handle_all(
            &mut self.counts,
            &mut self.duty,
            input.commands,
            reads,
            now,
            &mut (),
            out,
        );
        self.duty.check_apps(tables, input.counters, now, out);
        self.duty.hear_events(tables, input.events, now, out);
    }
}
