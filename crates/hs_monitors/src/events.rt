//! The event monitors, packet by packet and entry by entry.
ghost use Rattle.std.specs.Prelude.{◌≡◌, ◌+◌, ◌<◌, ◌≤◌, length, true};
ghost use Rattle.std.specs.List.{flat_map, AllPass};
ghost use Rattle.bus_pipes.specs.Counted.{is_item_counted};
ghost use Rattle.hs_actions.specs.Performs.{Performs};
ghost use Rattle.hs_monitors.specs.Heads.{head_of, AreHeaded};
ghost use Rattle.hs_monitors.specs.Events.{is_event, event_sender, is_matched, row_at, sender_at, SendersStand, event_attempt, event_attempts};

use crate::heads::{Heads, head_in};
use crate::watches::is_same;
use bus_pipes::Outbox;
use hs_actions::{Actions, Source};
use hs_tables::{EventEntry, EventMon, HsTables};
use packet_forms::message_ids::EVENT;
use packet_forms::{Packet, be16};

/// How many bytes an event message has.
const EVENT_BYTES: usize = 44;

/// Where the names of all used entries stand.
pub(crate) fn senders_of(events: &EventMon) -> Heads
    ensures { SendersStand events.now result }
{
    let mut heads = Heads::none();
    for place in 0..events.len() {
        note(events, place as u8, &mut heads);
    }
    heads
}

/// Notes the name of the entry in a place, where it is used.
fn note(events: &EventMon, place: u8, heads: &mut Heads)
    requires { place < 16 }
    ensures { AreHeaded (sender_at events.now) place heads.old
        → AreHeaded (sender_at events.now) (place + 1) heads.new }
{
    if let Some(entry) = events.entry(place as u32 + 1) {
        heads.note(place, &entry.name);
    }
}

/// Compares the packets of the event pipe, at most 32, with the entries, and performs the actions of those that match.
pub(crate) fn hear_all(
    tables: &HsTables,
    senders: &Heads,
    events: &[Packet],
    now: u32,
    actions: &mut Actions,
    out: &mut Outbox,
)
    requires few { length events.now ≤ 32 }
    requires room { length out.old.items + 1024 ≤ out.old.room }
    ensures performs { SendersStand tables.now.events senders.now
        → Performs tables.now.acts now
        (λ k. flat_map (event_attempts k tables.now.events) events.now) actions.old actions.new
        out.old out.new }
    ensures counted { AllPass is_item_counted out.old.items
        → AllPass is_item_counted out.new.items }
    ensures few { length out.new.items ≤ length out.old.items + 1024 }
    ensures room { out.new.room ≡ out.old.room }
{
    if !tables.events.has_entries() {
        return;
    }
    for packet in events {
        hear(tables, senders, packet, now, actions, out);
    }
}

/// Compares a packet of the event pipe with the entries, where it is an event message.
#[tactic(auto, unfolding(crate::specs::Events::event_attempts))]
fn hear(
    tables: &HsTables,
    senders: &Heads,
    packet: &Packet,
    now: u32,
    actions: &mut Actions,
    out: &mut Outbox,
)
    requires room { length out.old.items + 32 ≤ out.old.room }
    ensures performs { SendersStand tables.now.events senders.now
        → Performs tables.now.acts now
        (λ k. event_attempts k tables.now.events packet.now) actions.old actions.new
        out.old out.new }
    ensures counted { AllPass is_item_counted out.old.items
        → AllPass is_item_counted out.new.items }
    ensures few { length out.new.items ≤ length out.old.items + 32 }
    ensures room { out.new.room ≡ out.old.room }
{
    if !is_event(packet) {
        return;
    }
    compare_all(tables, senders, packet, now, actions, out);
}

/// Compares an event message with the entries that may have its sender's name.
fn compare_all(
    tables: &HsTables,
    senders: &Heads,
    packet: &Packet,
    now: u32,
    actions: &mut Actions,
    out: &mut Outbox,
)
    requires message { is_event packet.now ≡ true }
    requires room { length out.old.items + 32 ≤ out.old.room }
    ensures performs { SendersStand tables.now.events senders.now
        → Performs tables.now.acts now
        (λ k. flat_map (event_attempt k packet.now) tables.now.events) actions.old actions.new
        out.old out.new }
    ensures counted { AllPass is_item_counted out.old.items
        → AllPass is_item_counted out.new.items }
    ensures few { length out.new.items ≤ length out.old.items + 32 }
    ensures room { out.new.room ≡ out.old.room }
{
    let head = sender_head(packet);
    let stretch = senders.stretch(head);
    let end = u32::from(stretch.end).min(tables.events.len());
    let start = u32::from(stretch.from).min(end);
    for place in start..end {
        if !senders.has(place as u8, head) {
            continue;
        }
        compare(tables, place, packet, now, actions, out);
    }
}

/// The head of the name of an event message's sender.
#[inline(always)]
fn sender_head(packet: &Packet) -> u32
    requires { length packet.now ≡ 44 }
    ensures { result ≡ head_of (event_sender packet.now) }
{
    head_in(&packet.bytes()[12..32])
}

/// Compares an event message with the entry in a place, where it is used.
#[tactic(auto, unfolding(crate::specs::Events::event_attempt))]
fn compare(
    tables: &HsTables,
    place: u32,
    packet: &Packet,
    now: u32,
    actions: &mut Actions,
    out: &mut Outbox,
)
    requires place { place < 16 }
    requires message { is_event packet.now ≡ true }
    requires room { length out.old.items + 2 ≤ out.old.room }
    ensures performs { Performs tables.now.acts now
        (λ k. event_attempt k packet.now (row_at tables.now.events place)) actions.old actions.new
        out.old out.new }
    ensures counted { AllPass is_item_counted out.old.items
        → AllPass is_item_counted out.new.items }
    ensures few { length out.new.items ≤ length out.old.items + 2 }
    ensures room { out.new.room ≡ out.old.room }
{
    let Some(entry) = tables.events.entry(place + 1) else {
        return;
    };
    if !is_matched(packet, &entry) {
        return;
    }
    actions.perform(
        Source::EventMonitor,
        entry.name,
        entry.action,
        &tables.acts,
        now,
        out,
    );
}

/// Whether a packet is an event message.
#[tactic(auto, unfolding(crate::specs::Events::is_event))]
#[inline(always)]
fn is_event(packet: &Packet) -> bool
    ensures { result ≡ is_event packet.now }
{
    packet.mid() == EVENT && packet.bytes().len() == EVENT_BYTES
}

/// Whether an entry has the name and the id of an event message.
#[tactic(auto, unfolding(crate::specs::Events::is_matched))]
fn is_matched(packet: &Packet, entry: &EventEntry) -> bool
    requires { length packet.now ≡ 44 }
    ensures { result ≡ is_matched packet.now entry.now }
{
    let bytes = packet.bytes();
    if be16(bytes, 32) != entry.id {
        return false;
    }
    is_same(&bytes[12..32], entry.name.bytes())
}
