//! The packets of a wakeup, in order.
ghost use Rattle.std.specs.Prelude.{◌≡◌, ◌+◌, ◌*◌, ◌≤◌, ◌<◌, ℕ, List, [], ◌∷◌, ◌++◌, length, true};
ghost use Rattle.std.specs.List.{AllPass};
ghost use Rattle.bus_pipes.specs.Held.{adding};
ghost use Rattle.bus_pipes.specs.Counted.{is_item_counted};
ghost use Rattle.packet_forms.specs.Packets.{payload_of};
ghost use Rattle.commands.specs.Rows.{row_of, is_allowed};
ghost use Rattle.commands.specs.Verdicts.{orders_in, verdict_by_form, verdict_at, verdicts_on};
ghost use Rattle.commands.specs.Counting.{counts_of};
ghost use Rattle.commands.specs.Answering.{packet_items, command_items};
ghost use Rattle.commands.specs.declared.verdicts.Verdict.{Verdict};

use crate::commanded::{Command, Commanded, Reason};
use crate::counting::{note_accepted, note_refused};
use crate::verdicts::{Verdict, is_length_allowed, row_of};
use bus_pipes::{Counts, Out, Outbox, push_event};
use packet_forms::Packet;

/// Handles the packets of a wakeup, at most 16, in order: each is judged, answered and counted. What is sent goes to `out`, which is
/// empty, and what is left beside it to `left`.
pub fn handle_all<R: Copy + Drop, S: Commanded<R>>(
    counts: &mut Counts,
    state: &mut S,
    packets: &[Packet],
    reads: R,
    now: u32,
    left: &mut S::Left,
    out: &mut Outbox,
)
    requires packets { length packets.now ≤ 16 }
    requires safe { S.is_safe reads 0 state.old left.old }
    requires empty { out.old.items ≡ [] }
    requires room { (1 + S.most) * 16 ≤ out.old.room }
    ensures counts { (turn : S.Turn) → S.belongs turn reads now
        → S.stands turn [] state.old left.old → counts.old ≡ counts_of (S.answers.earlier turn)
        → counts.new ≡ counts_of (S.answers.earlier turn
        ++ verdicts_on S.protocol (S.basis turn) packets.now) }
    ensures stands { (turn : S.Turn) → S.belongs turn reads now
        → S.stands turn [] state.old left.old
        → S.stands turn (orders_in (verdicts_on S.protocol (S.basis turn) packets.now)) state.new
        left.new }
    ensures items { (turn : S.Turn) → S.belongs turn reads now → S.stands turn [] state.old left.old
        → counts.old ≡ counts_of (S.answers.earlier turn)
        → out.new ≡ adding out.old (command_items S.answers S.Instruction.language.name turn
        (verdicts_on S.protocol (S.basis turn) packets.now)) }
    ensures safe { S.is_safe reads (length packets.now) state.new left.new }
    ensures counted { AllPass is_item_counted out.new.items }
    ensures few { length out.new.items ≤ (1 + S.most) * length packets.now }
    ensures room { out.new.room ≡ out.old.room }
{
    for packet in packets {
        handle(counts, state, packet, reads, now, left, out);
    }
}

/// Handles one packet. What a command asks for is decoded into one place and lent from there on, since it may carry many bytes.
#[tactic(auto, using(bus_pipes::proofs::Deliveries::adding_none), unfolding(bus_pipes::specs::Held::adding))]
fn handle<R: Copy + Drop, S: Commanded<R>>(
    counts: &mut Counts,
    state: &mut S,
    packet: &Packet,
    reads: R,
    now: u32,
    left: &mut S::Left,
    out: &mut Outbox,
)
    requires safe { (n : ℕ) × (n < 16) × S.is_safe reads n state.old left.old }
    requires room { length out.old.items + (1 + S.most) ≤ out.old.room }
    ensures counts { (turn : S.Turn) (heard : List (Verdict S.Instruction))
        → S.belongs turn reads now → S.stands turn (orders_in heard) state.old left.old
        → counts.old ≡ counts_of (S.answers.earlier turn ++ heard)
        → counts.new ≡ counts_of ((S.answers.earlier turn ++ heard)
        ++ verdict_at S.protocol (S.basis turn) (orders_in heard) packet.now ∷ []) }
    ensures stands { (turn : S.Turn) (heard : List (Verdict S.Instruction))
        → S.belongs turn reads now → S.stands turn (orders_in heard) state.old left.old
        → S.stands turn (orders_in (heard ++ verdict_at S.protocol (S.basis turn)
        (orders_in heard) packet.now ∷ [])) state.new left.new }
    ensures items { (turn : S.Turn) (heard : List (Verdict S.Instruction))
        → S.belongs turn reads now → S.stands turn (orders_in heard) state.old left.old
        → counts.old ≡ counts_of (S.answers.earlier turn ++ heard)
        → out.new ≡ adding out.old (packet_items S.answers S.Instruction.language.name turn heard
        (verdict_at S.protocol (S.basis turn) (orders_in heard) packet.now)) }
    ensures safe { (n : ℕ) → n < 16 → S.is_safe reads n state.old left.old
        → S.is_safe reads (n + 1) state.new left.new }
    ensures counted { AllPass is_item_counted out.old.items
        → AllPass is_item_counted out.new.items }
    ensures few { length out.new.items ≤ length out.old.items + (1 + S.most) }
    ensures room { out.new.room ≡ out.old.room }
{
    match judge::<R, S>(packet) {
        Verdict::Other => {}
        Verdict::Request => out.push(Out::Made(state.housekeeping(*counts, reads, now))),
        Verdict::Refused(reason) => {
            push_event(out, S::Instruction::name(), u16::from(reason), 3, now);
            note_refused::<S::Instruction>(counts);
        }
        Verdict::Accepted(code, _) => {
            let instruction = S::Instruction::decode(code, packet.payload());
            if let Some(reason) = state.refusal(&instruction, reads, now) {
                push_event(
                    out,
                    S::Instruction::name(),
                    u16::from(reason.number()),
                    3,
                    now,
                );
                note_refused::<S::Instruction>(counts);
                return;
            }
            state.obey(&instruction, reads, now, left, out);
            push_event(out, S::Instruction::name(), 16 + u16::from(code), 2, now);
            note_accepted::<S::Instruction>(counts, code);
        }
    }
}

/// What a packet is by its form: a command that is accepted here is still to be judged by what it asks for.
#[tactic(auto, unfolding(crate::specs::Verdicts::verdict_at))]
fn judge<R: Copy + Drop, S: Commanded<R>>(packet: &Packet) -> Verdict<()>
    ensures verdict { (basis : S.Basis) (orders : List S.Instruction)
        → verdict_at S.protocol basis orders packet.now
        ≡ verdict_by_form S.protocol basis orders (payload_of packet.now) result }
    ensures allowed { (code : ℕ) (form : Unit {0}) → result ≡ Verdict.Accepted code form
        → is_allowed (row_of S.Instruction.language.codes code) (payload_of packet.now) ≡ true }
{
    let terms = S::Instruction::terms();
    let id = packet.mid();
    if id == terms.request_id {
        return Verdict::Request;
    }
    if id != terms.command_id {
        return Verdict::Other;
    }
    if !packet.checksum_ok() {
        return Verdict::Refused(1);
    }
    let code = packet.code();
    let Some(row) = row_of(terms.codes, code) else {
        return Verdict::Refused(2);
    };
    if !is_length_allowed(row, packet.payload()) {
        return Verdict::Refused(3);
    }
    Verdict::Accepted(code, ())
}
