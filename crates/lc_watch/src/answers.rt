//! What an actionpoint gives that fires.
ghost use Rattle.std.specs.Prelude.{◌≡◌, ◌<◌, ◌≤◌, ◌+◌, [], ◌∷◌, length};
ghost use Rattle.std.specs.List.{AllPass};
ghost use Rattle.bus_pipes.specs.Held.{adding};
ghost use Rattle.bus_pipes.specs.Counted.{is_item_counted};
ghost use Rattle.bus_pipes.specs.declared.names.Out.TheVariants as outs;
ghost use Rattle.lc_watch.specs.Answers.{lc_event, start_of};
ghost use Rattle.lc_watch.specs.declared.messages.Event.TheVariants.{Fired};

use crate::messages::{Event, START_RTS, name};
use bus_pipes::{Out, Outbox, push_event};
use packet_forms::message_ids::SC_COMMAND;
use packet_forms::{Packet, command};

/// Puts what a firing gives behind the items.
#[inline(never)]
pub(crate) fn put_firing(rts: u16, now: u32, out: &mut Outbox)
    requires room { length out.old.items + 2 ≤ out.old.room }
    ensures items { out.new ≡ adding out.old (outs.Stored (start_of rts) ∷ lc_event Fired now
        ∷ []) }
    ensures counted { AllPass is_item_counted out.old.items
        → AllPass is_item_counted out.new.items }
    ensures few { length out.new.items ≤ length out.old.items + 2 }
    ensures room { out.new.room ≡ out.old.room }
{
    out.push(Out::Stored(start_command(rts)));
    put_event(Event::Fired, now, out);
}

/// The command that starts a relative sequence.
#[tactic(auto, unfolding(crate::specs::Answers::start_of, packet_forms::specs::Numbers::be16_bytes))]
fn start_command(rts: u16) -> Packet
    ensures { result ≡ start_of rts }
{
    command(SC_COMMAND, START_RTS, &rts.to_be_bytes())
}

/// Puts an event behind the items.
#[tactic(auto, using(commands::proofs::Heard::event_behind))]
fn put_event(event: Event, now: u32, out: &mut Outbox)
    requires room { length out.old.items < out.old.room }
    ensures items { out.new ≡ adding out.old (lc_event event now ∷ []) }
    ensures counted { AllPass is_item_counted out.old.items
        → AllPass is_item_counted out.new.items }
    ensures few { length out.new.items ≡ length out.old.items + 1 }
    ensures room { out.new.room ≡ out.old.room }
{
    push_event(out, name(), event.number(), event.kind(), now);
}
