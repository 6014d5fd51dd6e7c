//! What a command is answered with before its event, and what is told of a slice.
ghost use Rattle.std.specs.Prelude.{◌≡◌, ◌+◌, ◌<◌, ◌≤◌, List, [], ◌∷◌, length, true};
ghost use Rattle.std.specs.List.{AllPass};
ghost use Rattle.bus_pipes.specs.Held.{adding};
ghost use Rattle.bus_pipes.specs.Counted.{is_item_counted};
ghost use Rattle.bus_pipes.specs.declared.names.Out.TheVariants as outs;
ghost use Rattle.cs_slices.specs.Instructions.{IsNamed};
ghost use Rattle.cs_slices.specs.Happenings.{Happening};
ghost use Rattle.cs_slices.specs.Answers.{baseline_packet, replies_to, cs_event};
ghost use Rattle.cs_slices.specs.State.{TallyStands};

use crate::instructions::{Instruction, entry_place};
use crate::messages::{Event, name};
use crate::tally::Tally;
use bus_pipes::{Out, Outbox, push_event};
use packet_forms::message_ids::CS_BASELINE;
use packet_forms::{Packet, telemetry};

/// Puts the packets of an accepted command behind the items: a report has one.
#[tactic(auto, using(bus_pipes::proofs::Deliveries::adding_none, commands::proofs::Heard::one_more_counted), unfolding(bus_pipes::specs::Held::adding))]
pub(crate) fn reply(tally: &Tally, order: &Instruction, now: u32, out: &mut Outbox)
    requires named { IsNamed order.now }
    requires room { length out.old.items < out.old.room }
    ensures items { (happened : List Happening) → TallyStands happened tally.now
        → out.new ≡ adding out.old (replies_to now happened order.now) }
    ensures counted { AllPass is_item_counted out.old.items
        → AllPass is_item_counted out.new.items }
    ensures few { length out.new.items ≤ length out.old.items + 1 }
    ensures room { out.new.room ≡ out.old.room }
{
    let Instruction::Report { table, number } = order else {
        return;
    };
    let base = tally.baseline(entry_place(*table, *number));
    out.push(Out::Made(baseline_packet(*table, *number, base, now)));
}

/// The packet that reports the baseline of an entry.
#[tactic(auto, unfolding(crate::specs::Answers::baseline_packet, packet_forms::specs::Numbers::be16_bytes, bus_pipes::specs::Counted::is_counted))]
fn baseline_packet(table: u16, number: u16, base: Option<u16>, now: u32) -> Packet
    ensures packet { result ≡ baseline_packet now table number base }
    ensures counted { is_item_counted (outs.Made result) ≡ true }
{
    let [a, b] = table.to_be_bytes();
    let [c, d] = number.to_be_bytes();
    match base {
        None => telemetry(CS_BASELINE, now, &[a, b, c, d, 0, 0, 0, 0]),
        Some(check) => {
            let [e, f] = check.to_be_bytes();
            telemetry(CS_BASELINE, now, &[a, b, c, d, 0, 1, e, f])
        }
    }
}

/// Puts an event behind the items.
#[tactic(auto, using(commands::proofs::Heard::event_behind))]
pub(crate) fn put_event(event: Event, now: u32, out: &mut Outbox)
    requires room { length out.old.items < out.old.room }
    ensures items { out.new ≡ adding out.old (cs_event event now ∷ []) }
    ensures counted { AllPass is_item_counted out.old.items
        → AllPass is_item_counted out.new.items }
    ensures few { length out.new.items ≡ length out.old.items + 1 }
    ensures room { out.new.room ≡ out.old.room }
{
    push_event(out, name(), event.number(), event.kind(), now);
}
