//! A wakeup of Stored Command.
ghost use Rattle.std.specs.Prelude.{◌≡◌, ◌≤◌, List, [], ◌∷◌, ◌++◌, length};
ghost use Rattle.std.specs.List.{AllPass};
ghost use Rattle.histories.specs.Entries.Entry.{Woken};
ghost use Rattle.bus_pipes.specs.Counted.{is_item_counted};
ghost use Rattle.sc_sequences.specs.Histories.{ScEntry, Beginning, input_of, tables_after};
ghost use Rattle.sc_sequences.specs.Step.{sc_items};
ghost use Rattle.sc_sequences.specs.State.{Stands, IsReady};

use crate::duty::Duty;
use crate::housekeeping::{housekeeping, report_on};
use crate::instructions::Instruction;
use crate::orders;
use crate::state::Sc;
use crate::verdicts::{Refusal, own_refusal};
use bus_pipes::{Counts, Outbox};
use commands::{Commanded, handle_all};
use packet_forms::Packet;
use sc_tables::ScTables;

/// How many items a wakeup gives at most.
pub const MOST_ITEMS: u32 = 32;

/// What is read beside the packets.
#[derive(Clone, Copy)]
struct Reads<'a> {
    tables: &'a ScTables<'a>,
}

impl<'a> Commanded<Reads<'a>> for Duty {
    ghost use Rattle.std.specs.Prelude.{◌≡◌, refl};
    ghost use Rattle.sc_sequences.specs.Verdicts.{Basis, sc_protocol};
    ghost use Rattle.sc_sequences.specs.Turns.{Sequences};
    ghost use Rattle.sc_sequences.specs.Histories.{sequences_of, tables_after, basis_of, ordered};
    ghost use Rattle.sc_sequences.specs.Step.{Turn, sc_answers};
    ghost use Rattle.sc_sequences.specs.State.{DutyStands};

    type Instruction = Instruction;

    type Refusal = Refusal;

    type Left = ();

    ghost Basis = { Basis };

    ghost Turn = { Turn };

    ghost protocol = { sc_protocol };

    ghost answers = { sc_answers };

    ghost basis = { λ wakeup. basis_of (sequences_of wakeup.setup wakeup.history) wakeup.input };

    ghost belongs = { λ wakeup reads now. (reads.tables.now
        ≡ tables_after wakeup.setup wakeup.history) × (wakeup.input.time ≡ now) };

    ghost stands = { λ wakeup orders duty left. DutyStands
        (tables_after wakeup.setup wakeup.history)
        (ordered wakeup.input.time orders (sequences_of wakeup.setup wakeup.history)) duty };

    ghost is_safe = { λ reads n duty left. (s : Sequences) × DutyStands reads.tables.now s duty };

    ghost most = { 0 };

    ghost speaks = { refl };

    ghost numbers = { refl };

    ghost still_safe = { λ reads n duty left safe. safe };

    ghost timed = { λ wakeup reads now belongs. belongs.1 };

    fn refusal(&self, instruction: &Instruction, reads: Reads<'a>, now: u32) -> Option<Refusal> {
        own_refusal(&self.cursors, reads.tables, instruction, now)
    }

    fn housekeeping(&self, counts: Counts, reads: Reads<'a>, now: u32) -> Packet {
        housekeeping(counts, &report_on(self, reads.tables), now)
    }

    fn obey(
        &mut self,
        instruction: &Instruction,
        reads: Reads<'a>,
        now: u32,
        left: &mut (),
        out: &mut Outbox,
    ) {
        orders::obey(&mut self.cursors, reads.tables, instruction, now);
    }
}

impl Sc {
    /// `advance` on a copy: this state stays, and the state after the wakeup goes to `next`.
    pub fn step(
        &self,
        tables: &ScTables<'_>,
        commands: &[Packet],
        now: u32,
        next: &mut Sc,
        out: &mut Outbox,
    )
        requires commands { length commands.now ≤ 16 }
        requires empty { out.old.items ≡ [] }
        requires room { MOST_ITEMS ≤ out.old.room }
        requires ready { IsReady tables.now self.now }
        ensures stands { (begin : Beginning) (history : List ScEntry)
            → tables.now ≡ tables_after begin history → Stands begin history self.now
            → Stands begin (history ++ Woken (input_of now commands.now) ∷ []) next.new }
        ensures items { (begin : Beginning) (history : List ScEntry)
            → tables.now ≡ tables_after begin history → Stands begin history self.now
            → out.new.items ≡ sc_items begin history (input_of now commands.now) }
        ensures ready { IsReady tables.now next.new }
        ensures counted { AllPass is_item_counted out.new.items }
        ensures few { length out.new.items ≤ MOST_ITEMS }
        ensures room { out.new.room ≡ out.old.room }
    {
        *next = *self;
        next.advance(tables, commands, now, out);
    }

    /// A wakeup at the time `now`, in seconds. The packets of the pipe, at most 16, are handled in order: a request is answered with
    /// housekeeping, a command with its event. Then at most eight turns are taken: in each, of the next commands of all sequences that are
    /// due, the first by time leaves, then absolute before relative, then the lower number. One with a right checksum is sent as it is
    /// stored. A wrong checksum gives event 101 in an absolute sequence, and event 102 in a relative one, which stops. A sequence that ends
    /// gives event 103 or 104. What is sent goes to `out`, which is empty and has room for 32 items. The tables are those in force, on
    /// which the state was started or which were activated since.
    pub fn advance(
        &mut self,
        tables: &ScTables<'_>,
        commands: &[Packet],
        now: u32,
        out: &mut Outbox,
    )
        requires commands { length commands.now ≤ 16 }
        requires empty { out.old.items ≡ [] }
        requires room { MOST_ITEMS ≤ out.old.room }
        requires ready { IsReady tables.now self.old }
        ensures stands { (begin : Beginning) (history : List ScEntry)
            → tables.now ≡ tables_after begin history → Stands begin history self.old
            → Stands begin (history ++ Woken (input_of now commands.now) ∷ []) self.new }
        ensures items { (begin : Beginning) (history : List ScEntry)
            → tables.now ≡ tables_after begin history → Stands begin history self.old
            → out.new.items ≡ sc_items begin history (input_of now commands.now) }
        ensures ready { IsReady tables.now self.new }
        ensures counted { AllPass is_item_counted out.new.items }
        ensures few { length out.new.items ≤ MOST_ITEMS }
        ensures room { out.new.room ≡ out.old.room }
    {
        let reads = Reads { tables };
        handle_all(
            &mut self.counts,
            &mut self.duty,
            commands,
            reads,
            now,
            &mut (),
            out,
        );
        self.duty.take_turns(tables, now, out);
    }
}
