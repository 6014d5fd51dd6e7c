//! The housekeeping packet.
ghost use Rattle.std.specs.Prelude.{◌≡◌, ◌+◌, ◌<◌, ◌++◌, true, List, length};
ghost use Rattle.std.specs.List.{flat_map};
ghost use Rattle.packet_forms.specs.declared.name.Counter.{Counter};
ghost use Rattle.bus_pipes.specs.Counted.{is_item_counted};
ghost use Rattle.bus_pipes.specs.declared.names.Out.TheVariants as outs;
ghost use Rattle.hs_actions.specs.State.{resets_made, resets_most, actions_sent};
ghost use Rattle.hs_tables.specs.Counters.{entry_of as name_of};
ghost use Rattle.hs_tables.specs.declared.apps.AppEntry.{AppEntry};
ghost use Rattle.hs_tables.specs.Apps.{entry_of};
ghost use Rattle.hs_monitors.specs.Monitors.{row_at, is_watching};
ghost use Rattle.hs_monitors.specs.Entries.{EntryStands, EntriesStand};
ghost use Rattle.hs_monitors.specs.Housekeeping.{flag_of, watching_bits, count_at, shown_of, shown_bytes, actions_bytes, housekeeping_of};

use crate::apps::PLACES;
use crate::watches::{Watched, counter_in};
use bus_pipes::Counts;
use histories::bits_of;
use hs_actions::Actions;
use hs_tables::{AppMon, ExeCount};
use packet_forms::message_ids::HS_HOUSEKEEPING;
use packet_forms::{ByteList, Counter, Packet, telemetry};

/// The payload: both counts, two flags, three numbers and a zero, a mask, and 32 counters.
type Payload = ByteList<144>;

/// What is shown of the monitors: whether both monitorings are on, and the mask of the application monitors that watch.
#[derive(Clone, Copy)]
pub(crate) struct Shown {
    pub(crate) monitoring: bool,
    pub(crate) listening: bool,
    pub(crate) watching: u32,
}

/// The packet with both counts, whether both monitorings are on, the resets made, their maximum, the message actions sent, the watching
/// monitors, and the counters of the frame.
#[tactic(auto, unfolding(crate::specs::Housekeeping::housekeeping_of, packet_forms::specs::Numbers::be32_bytes, bus_pipes::specs::Counted::is_counted))]
pub(crate) fn housekeeping(
    counts: Counts,
    shown: Shown,
    actions: &Actions,
    names: &ExeCount,
    counters: &[Counter],
    now: u32,
) -> Packet
    ensures packet { result ≡ housekeeping_of now counts shown.monitoring shown.listening
        (resets_made actions.now) (resets_most actions.now)
        (actions_sent actions.now) shown.watching names.now counters.now }
    ensures counted { is_item_counted (outs.Made result) ≡ true }
{
    let mut payload = Payload::new();
    payload.append(&[
        counts.accepted,
        counts.errors,
        flag_of(shown.monitoring),
        flag_of(shown.listening),
    ]);
    append_actions(&mut payload, actions);
    payload.append(&shown.watching.to_be_bytes());
    show_counters(&mut payload, names, counters);
    telemetry(HS_HOUSEKEEPING, now, payload.bytes())
}

fn flag_of(on: bool) -> u8
    ensures { result ≡ flag_of on }
{
    if on { 1 } else { 0 }
}

/// Puts the resets made, their maximum, the message actions sent and 0 behind the bytes.
#[tactic(auto, unfolding(packet_forms::specs::Numbers::be16_bytes))]
fn append_actions(payload: &mut Payload, actions: &Actions)
    requires { length payload.old ≡ 4 }
    ensures bytes { payload.new ≡ payload.old
        ++ actions_bytes (resets_made actions.now) (resets_most actions.now)
        (actions_sent actions.now) }
    ensures size { length payload.new ≡ 12 }
{
    let (made, max) = actions.resets();
    let [a, b] = made.to_be_bytes();
    let [c, d] = max.to_be_bytes();
    let [e, f] = actions.sent().to_be_bytes();
    payload.append(&[a, b, c, d, e, f, 0, 0]);
}

/// Puts the counters of all names behind the bytes.
fn show_counters(payload: &mut Payload, names: &ExeCount, counters: &[Counter])
    requires { length payload.old ≡ 16 }
    ensures bytes { payload.new ≡ payload.old ++ flat_map (shown_bytes counters.now) names.now }
    ensures size { length payload.new ≡ 144 }
{
    for place in 0..names.len() {
        let shown = shown_in(names, place, counters);
        payload.append(&shown.to_be_bytes());
    }
}

/// The counter that is shown of an entry.
fn shown_in(names: &ExeCount, place: u32, counters: &[Counter]) -> u32
    requires { place < 32 }
    ensures { result ≡ shown_of counters.now (name_of (count_at names.now place)) }
{
    match names.entry(place + 1) {
        Some(name) => counter_in(counters, &name).unwrap_or(u32::MAX),
        None => u32::MAX,
    }
}

/// The mask of the application monitors that watch.
#[tactic(auto, unfolding(crate::specs::Housekeeping::watching_bits))]
pub(crate) fn watching_bits(apps: &AppMon, kept: &[Watched; PLACES]) -> u32
    ensures { (checks : List (List Counter)) → EntriesStand apps.now (λ place. checks) kept.now
        → result ≡ watching_bits apps.now checks }
{
    let mut bits = [false; PLACES];
    for place in 0..apps.len() {
        bits[place as usize] = is_watching(apps, place, kept[place as usize]);
    }
    bits_of(&bits) as u32
}

/// Whether an entry is used and counts down.
fn is_watching(apps: &AppMon, place: u32, watched: Watched) -> bool
    requires { place < 32 }
    ensures { (checks : List (List Counter)) → ((e : AppEntry)
        → entry_of (row_at apps.now place) ≡ Some e → EntryStands e checks watched)
        → result ≡ is_watching checks (row_at apps.now place) }
{
    match apps.entry(place + 1) {
        Some(_) => watched.countdown != 0,
        None => false,
    }
}
