//! A wakeup of MD.
ghost use Rattle.std.specs.Prelude.{◌≡◌, ◌≤◌, List, [], ◌∷◌, ◌++◌, length};
ghost use Rattle.std.specs.List.{AllPass};
ghost use Rattle.histories.specs.Entries.Entry.{Woken};
ghost use Rattle.bus_pipes.specs.Counted.{is_item_counted};
ghost use Rattle.memory_window.specs.Memory.{regions_of};
ghost use Rattle.memory_window.specs.Window.{seen};
ghost use Rattle.md_dwell.specs.Tables.{DwellTable};
ghost use Rattle.md_dwell.specs.Orders.{input_of};
ghost use Rattle.md_dwell.specs.Histories.{MdEntry};
ghost use Rattle.md_dwell.specs.Step.{md_items};
ghost use Rattle.md_dwell.specs.State.{Stands, AllGiven};

use crate::duty::Duty;
use crate::housekeeping::housekeeping;
use crate::instructions::Instruction;
use crate::state::Md;
use crate::verdicts::{Refusal, own_refusal};
use bus_pipes::{Counts, Outbox};
use commands::{Commanded, handle_all};
use histories::bits_of;
use memory_window::Window;
use packet_forms::Packet;

/// How many items a wakeup gives at most.
pub const MOST_ITEMS: u32 = 20;

/// What is read beside the packets.
#[derive(Clone, Copy)]
struct Reads<'a> {
    window: Window<'a>,
}

impl<'a> Commanded<Reads<'a>> for Duty {
    ghost use Rattle.std.specs.Prelude.{◌≡◌, None, refl};
    ghost use Rattle.memory_window.specs.Memory.{Memory, regions_of};
    ghost use Rattle.memory_window.specs.Window.{seen};
    ghost use Rattle.md_dwell.specs.Verdicts.{own_refusal, md_protocol};
    ghost use Rattle.md_dwell.specs.Step.{Turn, md_answers};
    ghost use Rattle.md_dwell.specs.State.{DutyStands, StreamsGiven};

    type Instruction = Instruction;

    type Refusal = Refusal;

    type Left = ();

    ghost Basis = { Memory };

    ghost Turn = { Turn };

    ghost protocol = { md_protocol };

    ghost answers = { md_answers };

    ghost basis = { λ turn. turn.input.seen };

    ghost belongs = { λ turn reads now. (turn.input.seen ≡ seen reads.window)
        × (turn.input.time ≡ now) };

    ghost stands = { λ turn orders duty left. DutyStands turn.setup turn.history orders duty };

    ghost is_safe = { λ reads n duty left. StreamsGiven
        (regions_of (seen reads.window).areas) duty };

    ghost can_obey = { λ reads duty instruction. own_refusal (seen reads.window) instruction
        ≡ None };

    ghost most = { 0 };

    ghost speaks = { refl };

    ghost numbers = { refl };

    ghost still_safe = { λ reads n duty left safe. safe };

    ghost timed = { λ turn reads now belongs. belongs.1 };

    fn refusal(&self, instruction: &Instruction, reads: Reads<'a>, now: u32) -> Option<Refusal> {
        own_refusal(reads.window, instruction)
    }

    fn housekeeping(&self, counts: Counts, reads: Reads<'a>, now: u32) -> Packet {
        let enabled = bits_of(&[
            self.first.enabled(),
            self.second.enabled(),
            self.third.enabled(),
            self.fourth.enabled(),
        ]) as u8;
        housekeeping(counts, enabled, now)
    }

    fn obey(
        &mut self,
        instruction: &Instruction,
        reads: Reads<'a>,
        now: u32,
        left: &mut (),
        out: &mut Outbox,
    ) {
        self.first.obey(1, instruction);
        self.second.obey(2, instruction);
        self.third.obey(3, instruction);
        self.fourth.obey(4, instruction);
    }
}

impl Md {
    /// `advance` on a copy: this state stays, and the state after the wakeup goes to `next`.
    pub fn step(
        &self,
        commands: &[Packet],
        window: Window<'_>,
        now: u32,
        next: &mut Md,
        out: &mut Outbox,
    )
        requires commands { length commands.now ≤ 16 }
        requires empty { out.old.items ≡ [] }
        requires room { MOST_ITEMS ≤ out.old.room }
        requires gives { AllGiven (regions_of (seen window).areas) self.now }
        ensures stands { (tables : List DwellTable) (history : List MdEntry)
            → Stands tables history self.now → Stands tables (history
            ++ Woken (input_of now commands.now window.entry) ∷ []) next.new }
        ensures items { (tables : List DwellTable) (history : List MdEntry)
            → Stands tables history self.now → out.new.items
            ≡ md_items tables history (input_of now commands.now window.entry) }
        ensures gives { AllGiven (regions_of (seen window.entry).areas) next.new }
        ensures counted { AllPass is_item_counted out.new.items }
        ensures few { length out.new.items ≤ MOST_ITEMS }
        ensures room { out.new.room ≡ out.old.room }
    {
        *next = *self;
        next.advance(commands, window, now, out);
    }

    /// A wakeup at the time `now`, in seconds. The packets of the pipe, at most 16, are handled in order: a request is answered with
    /// housekeeping (accepted, errors, enabled tables), a command with its event. Then the four streams are served, table 1 first: the
    /// entries that are due are read, and where the last one of a round was read the packet of table n (id 0x0890 + n) is sent, with n,
    /// the number of its bytes, and the values of the round, each in its length with the most significant byte first. What is sent goes
    /// to `out`, which is empty and has room for 20 items. All reading is by the window, which gives the entries of the state.
    pub fn advance(&mut self, commands: &[Packet], window: Window<'_>, now: u32, out: &mut Outbox)
        requires commands { length commands.now ≤ 16 }
        requires empty { out.old.items ≡ [] }
        requires room { MOST_ITEMS ≤ out.old.room }
        requires gives { AllGiven (regions_of (seen window).areas) self.old }
        ensures stands { (tables : List DwellTable) (history : List MdEntry)
            → Stands tables history self.old → Stands tables (history
            ++ Woken (input_of now commands.now window.entry) ∷ []) self.new }
        ensures items { (tables : List DwellTable) (history : List MdEntry)
            → Stands tables history self.old → out.new.items
            ≡ md_items tables history (input_of now commands.now window.entry) }
        ensures gives { AllGiven (regions_of (seen window.entry).areas) self.new }
        ensures counted { AllPass is_item_counted out.new.items }
        ensures few { length out.new.items ≤ MOST_ITEMS }
        ensures room { out.new.room ≡ out.old.room }
    {
        handle_all(
            &mut self.counts,
            &mut self.duty,
            commands,
            Reads { window },
            now,
            &mut (),
            out,
        );
        self.duty.first.serve(1, &window, now, out);
        self.duty.second.serve(2, &window, now, out);
        self.duty.third.serve(3, &window, now, out);
        self.duty.fourth.serve(4, &window, now, out);
    }
}
