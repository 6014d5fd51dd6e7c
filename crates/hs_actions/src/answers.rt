//! What an attempt puts into the outbox.
ghost use Rattle.std.specs.Prelude.{◌≡◌, ◌+◌, ◌<◌, ◌≤◌, ◌∷◌, [], length, if◌then◌else◌};
ghost use Rattle.bus_pipes.specs.Held.{adding};
ghost use Rattle.bus_pipes.specs.declared.names.Out.TheVariants as outs;
ghost use Rattle.hs_tables.specs.Actions.{entry_of};
ghost use Rattle.hs_actions.specs.Happenings.{HasPlace};
ghost use Rattle.hs_actions.specs.Outcomes.{act_at};
ghost use Rattle.hs_actions.specs.Messages.{event_place};
ghost use Rattle.hs_actions.specs.Answers.{event_out, report_items, message_items, performed};
ghost use Rattle.hs_actions.specs.declared.messages.Event.TheVariants.{ResetAsked, RestartAsked, NoResetLeft};

use crate::action::{Action, Source};
use crate::messages::{Event, hs_name};
use bus_pipes::{Out, Outbox, push_event};
use hs_tables::MsgActs;
use packet_forms::Name;

/// The state of an entry of the message actions whose packet is sent without an event.
const QUIET: u16 = 2;

/// Puts what an attempt gives, by whether it goes.
pub(crate) fn put_items(
    from: Source,
    name: Name,
    action: Action,
    acts: &MsgActs,
    went: bool,
    now: u32,
    out: &mut Outbox,
)
    requires place { HasPlace action }
    requires room { length out.old.items + 2 ≤ out.old.room }
    ensures items { out.new ≡ adding out.old (performed now acts.now from name action went) }
    ensures few { length out.new.items ≤ length out.old.items + 2 }
    ensures room { out.new.room ≡ out.old.room }
{
    match action {
        Action::Reset => put_reset(from, went, now, out),
        Action::Restart => put_restart(from, name, now, out),
        Action::Report => put_report(from, name, now, out),
        Action::Message(place) => put_message(from, place, acts, went, now, out),
    }
}

#[tactic(auto, unfolding(bus_pipes::specs::Held::adding))]
fn put_reset(from: Source, went: bool, now: u32, out: &mut Outbox)
    requires room { length out.old.items + 2 ≤ out.old.room }
    ensures items { out.new ≡ adding out.old (if went
        then event_out now from (event_place ResetAsked) ∷ outs.Reset ∷ []
        else event_out now from (event_place NoResetLeft) ∷ []) }
    ensures few { length out.new.items ≤ length out.old.items + 2 }
    ensures room { out.new.room ≡ out.old.room }
{
    if went {
        put_event(from, Event::ResetAsked, now, out);
        out.push(Out::Reset);
        return;
    }
    put_event(from, Event::NoResetLeft, now, out);
}

#[tactic(auto, unfolding(bus_pipes::specs::Held::adding))]
fn put_restart(from: Source, name: Name, now: u32, out: &mut Outbox)
    requires room { length out.old.items + 2 ≤ out.old.room }
    ensures items { out.new ≡ adding out.old (event_out now from (event_place RestartAsked)
        ∷ outs.Restart name ∷ []) }
    ensures few { length out.new.items ≤ length out.old.items + 2 }
    ensures room { out.new.room ≡ out.old.room }
{
    put_event(from, Event::RestartAsked, now, out);
    out.push(Out::Restart(name));
}

#[tactic(auto, unfolding(bus_pipes::specs::Held::adding))]
fn put_report(from: Source, name: Name, now: u32, out: &mut Outbox)
    requires room { length out.old.items + 2 ≤ out.old.room }
    ensures items { out.new ≡ adding out.old (report_items now from name) }
    ensures few { length out.new.items ≤ length out.old.items + 2 }
    ensures room { out.new.room ≡ out.old.room }
{
    match from {
        Source::AppMonitor => put_event(Source::AppMonitor, Event::Reported, now, out),
        Source::EventMonitor => {
            put_event(Source::EventMonitor, Event::Reported, now, out);
            out.push(Out::Delete(name));
        }
    }
}

#[tactic(auto, using(bus_pipes::proofs::Deliveries::adding_none), unfolding(bus_pipes::specs::Held::adding))]
fn put_message(from: Source, place: u16, acts: &MsgActs, went: bool, now: u32, out: &mut Outbox)
    requires place { place < 8 }
    requires room { length out.old.items + 2 ≤ out.old.room }
    ensures items { out.new ≡ adding out.old (if went
        then message_items now from (entry_of (act_at acts.now place)) else []) }
    ensures few { length out.new.items ≤ length out.old.items + 2 }
    ensures room { out.new.room ≡ out.old.room }
{
    if !went {
        return;
    }
    let Some(entry) = acts.entry(u32::from(place) + 1) else {
        return;
    };
    out.push(Out::Stored(entry.packet));
    if entry.state != QUIET {
        put_event(from, Event::MessageSent, now, out);
    }
}

/// Puts an event of a monitor.
#[tactic(auto, unfolding(crate::specs::Answers::event_out))]
fn put_event(from: Source, event: Event, now: u32, out: &mut Outbox)
    requires room { length out.old.items < out.old.room }
    ensures items { out.new ≡ adding out.old (event_out now from (event_place event) ∷ []) }
    ensures few { length out.new.items ≡ length out.old.items + 1 }
    ensures room { out.new.room ≡ out.old.room }
{
    push_event(out, hs_name(), event.number(from), event.kind(), now);
}
