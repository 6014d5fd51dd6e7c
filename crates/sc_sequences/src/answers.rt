//! What a command of a sequence gives that leaves.
ghost use Rattle.std.specs.Prelude.{◌≡◌, ◌+◌, ◌≤◌, ◌<◌, List, [], ◌∷◌, not, length};
ghost use Rattle.std.specs.List.{AllPass};
ghost use Rattle.bus_pipes.specs.Held.{adding};
ghost use Rattle.bus_pipes.specs.Counted.{is_item_counted};
ghost use Rattle.sc_tables.specs.Commands.{TimedCommand};
ghost use Rattle.sc_sequences.specs.Sequences.{has_some};
ghost use Rattle.sc_sequences.specs.Answers.{sc_event, ending_items, head_items};

use crate::messages::{Event, name};
use crate::places::is_relative;
use bus_pipes::{Out, Outbox, push_event};
use packet_forms::Packet;

/// Puts what a command gives that leaves: its packet, or the event of its wrong checksum, and then the end of its sequence.
#[tactic(auto, using(commands::proofs::Heard::one_more_counted), unfolding(crate::specs::Answers::head_items, bus_pipes::specs::Held::adding))]
pub(crate) fn put_head(
    place: usize,
    right: bool,
    packet: &Packet,
    ends: bool,
    now: u32,
    out: &mut Outbox,
)
    requires room { length out.old.items + 2 ≤ out.old.room }
    ensures items { (left : List TimedCommand) → ends ≡ not (has_some left)
        → out.new ≡ adding out.old (head_items place now right packet.now left) }
    ensures counted { AllPass is_item_counted out.old.items
        → AllPass is_item_counted out.new.items }
    ensures few { length out.new.items ≤ length out.old.items + 2 }
    ensures room { out.new.room ≡ out.old.room }
{
    if right {
        out.push(Out::Stored(*packet));
        put_end(place, ends, now, out);
        return;
    }
    if is_relative(place) {
        put_event(Event::WrongInRts, now, out);
        return;
    }
    put_event(Event::WrongInAts, now, out);
    put_end(place, ends, now, out);
}

/// Puts the event of a sequence that ends, where it does.
#[tactic(auto, unfolding(bus_pipes::specs::Held::adding))]
fn put_end(place: usize, ends: bool, now: u32, out: &mut Outbox)
    requires room { length out.old.items < out.old.room }
    ensures items { (left : List TimedCommand) → ends ≡ not (has_some left)
        → out.new ≡ adding out.old (ending_items place now left) }
    ensures counted { AllPass is_item_counted out.old.items
        → AllPass is_item_counted out.new.items }
    ensures few { length out.new.items ≤ length out.old.items + 1 }
    ensures room { out.new.room ≡ out.old.room }
{
    if !ends {
        return;
    }
    if is_relative(place) {
        put_event(Event::RtsEnded, now, out);
        return;
    }
    put_event(Event::AtsEnded, now, out);
}

/// Puts an event behind the items.
#[tactic(auto, using(commands::proofs::Heard::event_behind))]
fn put_event(event: Event, now: u32, out: &mut Outbox)
    requires room { length out.old.items < out.old.room }
    ensures items { out.new ≡ adding out.old (sc_event event now ∷ []) }
    ensures counted { AllPass is_item_counted out.old.items
        → AllPass is_item_counted out.new.items }
    ensures few { length out.new.items ≡ length out.old.items + 1 }
    ensures room { out.new.room ≡ out.old.room }
{
    push_event(out, name(), event.number(), event.kind(), now);
}
