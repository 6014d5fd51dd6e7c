//! A wakeup of CS.
ghost use Rattle.std.specs.Prelude.{◌≡◌, ◌+◌, ◌<◌, ◌≤◌, List, [], ◌∷◌, ◌++◌, length, Some};
ghost use Rattle.std.specs.List.{AllPass};
ghost use Rattle.histories.specs.Entries.Entry.{Woken};
ghost use Rattle.bus_pipes.specs.Held.{adding};
ghost use Rattle.bus_pipes.specs.Counted.{is_item_counted};
ghost use Rattle.memory_window.specs.Memory.{regions_of};
ghost use Rattle.memory_window.specs.Window.{seen};
ghost use Rattle.cs_slices.specs.Tables.{TablePair, pair_of, entry_in};
ghost use Rattle.cs_slices.specs.Given.{SegmentsGiven};
ghost use Rattle.cs_slices.specs.Instructions.{IsNamed};
ghost use Rattle.cs_slices.specs.Happenings.{Happening, slices_among, since_slice, reading};
ghost use Rattle.cs_slices.specs.Happenings.Happening.{Read};
ghost use Rattle.cs_slices.specs.Slices.{offset_at, slice_from, next_slice};
ghost use Rattle.cs_slices.specs.Wakeups.{input_of};
ghost use Rattle.cs_slices.specs.Histories.{CsEntry, tables_after};
ghost use Rattle.cs_slices.specs.Answers.{slice_items};
ghost use Rattle.cs_slices.specs.Step.{cs_items};
ghost use Rattle.cs_slices.specs.State.{DutyStands, Stands};

use crate::answers::{put_event, reply};
use crate::duty::Duty;
use crate::housekeeping::housekeeping;
use crate::instructions::Instruction;
use crate::messages::Event;
use crate::passing::Passing;
use crate::reading::{entry_bytes, part, slice_size};
use crate::segments::{Segments, entry_in};
use crate::state::Cs;
use crate::verdicts::{Refusal, own_refusal};
use bus_pipes::{Counts, Outbox};
use commands::{Commanded, handle_all};
use memory_window::Window;
use packet_forms::Packet;

/// How many items a wakeup gives at most.
pub const MOST_ITEMS: u32 = 33;

/// What is read beside the packets: the tables in force.
#[derive(Clone, Copy)]
struct Reads<'a> {
    eeprom: &'a Segments,
    memory: &'a Segments,
}

impl<'a> Commanded<Reads<'a>> for Duty {
    ghost use Rattle.std.specs.Prelude.{◌≡◌, refl};
    ghost use Rattle.cs_slices.specs.Tables.{TablePair, pair_of};
    ghost use Rattle.cs_slices.specs.Instructions.{IsNamed};
    ghost use Rattle.cs_slices.specs.Verdicts.{own_refusal, cs_protocol};
    ghost use Rattle.cs_slices.specs.Histories.{tables_after};
    ghost use Rattle.cs_slices.specs.Step.{Turn, happened_in, cs_answers};
    ghost use Rattle.cs_slices.specs.State.{DutyStands};

    type Instruction = Instruction;

    type Refusal = Refusal;

    type Left = ();

    ghost Basis = { TablePair };

    ghost Turn = { Turn };

    ghost protocol = { cs_protocol };

    ghost answers = { cs_answers };

    ghost basis = { λ turn. tables_after turn.setup turn.history };

    ghost belongs = { λ turn reads now. (pair_of reads.eeprom.now reads.memory.now
        ≡ tables_after turn.setup turn.history) × (turn.input.time ≡ now) };

    ghost stands = { λ turn orders duty left. DutyStands (tables_after turn.setup turn.history)
        (happened_in turn orders) duty };

    ghost can_obey = { λ reads duty instruction. IsNamed instruction };

    ghost most = { 1 };

    ghost speaks = { refl };

    ghost numbers = { refl };

    ghost still_safe = { λ reads n duty left safe. safe };

    ghost timed = { λ turn reads now belongs. belongs.1 };

    fn refusal(&self, instruction: &Instruction, reads: Reads<'a>, now: u32) -> Option<Refusal> {
        own_refusal(reads.eeprom, reads.memory, instruction)
    }

    fn housekeeping(&self, counts: Counts, reads: Reads<'a>, now: u32) -> Packet {
        housekeeping(counts, &self.switches, &self.tally, now)
    }

    fn obey(
        &mut self,
        instruction: &Instruction,
        reads: Reads<'a>,
        now: u32,
        left: &mut (),
        out: &mut Outbox,
    ) {
        reply(&self.tally, instruction, now, out);
        self.switches.obey(instruction);
        self.passing.obey(instruction);
    }
}

impl Cs {
    /// `advance` on a copy: this state stays, and the state after the wakeup goes to `next`.
    pub fn step(
        &self,
        eeprom: &Segments,
        memory: &Segments,
        commands: &[Packet],
        window: Window<'_>,
        now: u32,
        next: &mut Cs,
        out: &mut Outbox,
    )
        requires commands { length commands.now ≤ 16 }
        requires empty { out.old.items ≡ [] }
        requires room { MOST_ITEMS ≤ out.old.room }
        requires gives { SegmentsGiven (regions_of (seen window).areas) eeprom.now
            × SegmentsGiven (regions_of (seen window).areas) memory.now }
        ensures stands { (tables : TablePair) (history : List CsEntry)
            → pair_of eeprom.now memory.now ≡ tables_after tables history
            → Stands tables history self.now
            → Stands tables (history ++ Woken (input_of now commands.now window.entry)
            ∷ []) next.new }
        ensures items { (tables : TablePair) (history : List CsEntry)
            → pair_of eeprom.now memory.now ≡ tables_after tables history
            → Stands tables history self.now
            → out.new.items ≡ cs_items tables history (input_of now commands.now window.entry) }
        ensures counted { AllPass is_item_counted out.new.items }
        ensures few { length out.new.items ≤ MOST_ITEMS }
        ensures room { out.new.room ≡ out.old.room }
    {
        *next = *self;
        next.advance(eeprom, memory, commands, window, now, out);
    }

    /// Handles the packets of the pipe, at most 16, at the time `now`, in seconds, and then reads one slice, at most 1,024 bytes, of the next
    /// entry that takes part. What is sent goes to `out`, which is empty and has room for 33 items. The tables are those in force, and the
    /// window gives the bytes of every entry that isn't empty.
    pub fn advance(
        &mut self,
        eeprom: &Segments,
        memory: &Segments,
        commands: &[Packet],
        window: Window<'_>,
        now: u32,
        out: &mut Outbox,
    )
        requires commands { length commands.now ≤ 16 }
        requires empty { out.old.items ≡ [] }
        requires room { MOST_ITEMS ≤ out.old.room }
        requires gives { SegmentsGiven (regions_of (seen window).areas) eeprom.now
            × SegmentsGiven (regions_of (seen window).areas) memory.now }
        ensures stands { (tables : TablePair) (history : List CsEntry)
            → pair_of eeprom.now memory.now ≡ tables_after tables history
            → Stands tables history self.old
            → Stands tables (history ++ Woken (input_of now commands.now window.entry)
            ∷ []) self.new }
        ensures items { (tables : TablePair) (history : List CsEntry)
            → pair_of eeprom.now memory.now ≡ tables_after tables history
            → Stands tables history self.old
            → out.new.items ≡ cs_items tables history (input_of now commands.now window.entry) }
        ensures counted { AllPass is_item_counted out.new.items }
        ensures few { length out.new.items ≤ MOST_ITEMS }
        ensures room { out.new.room ≡ out.old.room }
    {
        let reads = Reads { eeprom, memory };
        handle_all(
            &mut self.counts,
            &mut self.duty,
            commands,
            reads,
            now,
            &mut (),
            out,
        );
        read_next(&mut self.duty, eeprom, memory, window, now, out);
    }
}

/// Reads the next slice, where a place takes part.
#[tactic(auto, using(bus_pipes::proofs::Deliveries::adding_none))]
fn read_next(
    duty: &mut Duty,
    eeprom: &Segments,
    memory: &Segments,
    window: Window<'_>,
    now: u32,
    out: &mut Outbox,
)
    requires room { length out.old.items < out.old.room }
    ensures stands { (happened : List Happening)
        → DutyStands (pair_of eeprom.now memory.now) happened duty.old
        → DutyStands (pair_of eeprom.now memory.now) (happened
        ++ reading (next_slice (pair_of eeprom.now memory.now) happened (seen window.entry)))
        duty.new }
    ensures items { (happened : List Happening)
        → DutyStands (pair_of eeprom.now memory.now) happened duty.old
        → out.new ≡ adding out.old (slice_items now happened
        (next_slice (pair_of eeprom.now memory.now) happened (seen window.entry))) }
    ensures counted { AllPass is_item_counted out.old.items
        → AllPass is_item_counted out.new.items }
    ensures few { length out.new.items ≤ length out.old.items + 1 }
    ensures room { out.new.room ≡ out.old.room }
{
    match duty.passing.next_place(&duty.switches) {
        None => {}
        Some(place) => read_slice(duty, eeprom, memory, place, window, now, out),
    }
}

/// Reads the next slice of a place.
#[tactic(auto, using(bus_pipes::proofs::Deliveries::adding_none))]
fn read_slice(
    duty: &mut Duty,
    eeprom: &Segments,
    memory: &Segments,
    place: u8,
    window: Window<'_>,
    now: u32,
    out: &mut Outbox,
)
    requires within { place < 32 }
    requires room { length out.old.items < out.old.room }
    ensures stands { (happened : List Happening)
        → DutyStands (pair_of eeprom.now memory.now) happened duty.old
        → DutyStands (pair_of eeprom.now memory.now) (happened
        ++ Read (slice_from (seen window.entry)
        (entry_in (pair_of eeprom.now memory.now) place) place
        (offset_at place (slices_among happened) (since_slice happened))) ∷ []) duty.new }
    ensures items { (happened : List Happening)
        → DutyStands (pair_of eeprom.now memory.now) happened duty.old
        → out.new ≡ adding out.old (slice_items now happened
        (Some (slice_from (seen window.entry)
        (entry_in (pair_of eeprom.now memory.now) place) place
        (offset_at place (slices_among happened) (since_slice happened))))) }
    ensures counted { AllPass is_item_counted out.old.items
        → AllPass is_item_counted out.new.items }
    ensures few { length out.new.items ≤ length out.old.items + 1 }
    ensures room { out.new.room ≡ out.old.room }
{
    let segment = entry_in(eeprom, memory, place);
    let from = duty.passing.offset_at(place);
    let size = slice_size(segment, from);
    let bytes = part(entry_bytes(window, segment), from, size);
    let check = duty.passing.check_after(place, from, bytes);
    if from + size != segment.len {
        duty.passing = Passing::begun(place, from + size, check);
        return;
    }
    duty.passing = Passing::behind(place);
    if !duty.tally.judge(place, check) {
        return;
    }
    put_event(Event::Miscompare, now, out);
}
