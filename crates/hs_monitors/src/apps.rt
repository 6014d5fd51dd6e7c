//! The application monitors, entry by entry.
ghost use Rattle.std.specs.Prelude.{◌≡◌, ◌+◌, ◌<◌, ◌≤◌, if◌then◌else◌, List, [], ◌∷◌, ◌++◌, length, Some};
ghost use Rattle.std.specs.List.{flat_map, AllPass};
ghost use Rattle.bus_pipes.specs.Counted.{is_item_counted};
ghost use Rattle.packet_forms.specs.declared.name.Counter.{Counter};
ghost use Rattle.hs_tables.specs.Apps.{entry_of};
ghost use Rattle.hs_tables.specs.declared.apps.AppEntry.{AppEntry};
ghost use Rattle.hs_actions.specs.Performs.{Performs};
ghost use Rattle.hs_monitors.specs.Monitors.{row_at, name_at, is_entry, places_of, attempt_of, app_attempt};
ghost use Rattle.hs_monitors.specs.Heads.{AreHeaded};
ghost use Rattle.hs_monitors.specs.Entries.{EntryStands, EntriesStand, HeadsStand};

use crate::heads::Heads;
use crate::watches::Watched;
use bus_pipes::Outbox;
use hs_actions::{Actions, Source};
use hs_tables::{AppEntry, AppMon, HsTables, MsgActs};
use packet_forms::Counter;

/// How many entries the table has.
pub(crate) const PLACES: usize = 32;

/// How many places there are up to the last used entry.
pub(crate) fn places_in(apps: &AppMon) -> u8
    ensures { result ≡ places_of apps.now }
{
    let mut places = 0;
    for place in 0..apps.len() {
        places = places_with(apps, place, places);
    }
    places
}

/// How many places there are up to the last used entry, once one place more was looked at.
fn places_with(apps: &AppMon, place: u32, places: u8) -> u8
    requires { place < 32 }
    ensures { result ≡ (if is_entry (row_at apps.now place) then place + 1 else places) }
{
    match apps.entry(place + 1) {
        Some(_) => place as u8 + 1,
        None => places,
    }
}

/// What is kept of all entries before the first check of a watch, and where their names stand.
pub(crate) fn begin_all(apps: &AppMon) -> ([Watched; PLACES], Heads)
    ensures stands { EntriesStand apps.now (λ place. []) result.0 }
    ensures heads { HeadsStand apps.now result.1 }
    ensures whole { length apps.now ≡ 32 }
{
    let mut kept = [Watched::UNUSED; PLACES];
    let mut heads = Heads::none();
    for place in 0..apps.len() {
        kept[place as usize] = begin(apps, place as u8, &mut heads);
    }
    (kept, heads)
}

/// What is kept of the entry in a place; its name is noted, where it is used.
fn begin(apps: &AppMon, place: u8, heads: &mut Heads) -> Watched
    requires { place < 32 }
    ensures stands { (e : AppEntry) → entry_of (row_at apps.now place) ≡ Some e
        → EntryStands e [] result }
    ensures heads { AreHeaded (name_at apps.now) place heads.old
        → AreHeaded (name_at apps.now) (place + 1) heads.new }
{
    match apps.entry(place as u32 + 1) {
        Some(entry) => {
            heads.note(place, &entry.name);
            Watched::begun(&entry)
        }
        None => Watched::UNUSED,
    }
}

/// Checks all entries, of which the last used one has place `places`, counted from 1, and performs the actions of those that act.
pub(crate) fn check_all(
    tables: &HsTables,
    places: u8,
    kept: &mut [Watched; PLACES],
    counters: &[Counter],
    now: u32,
    actions: &mut Actions,
    out: &mut Outbox,
)
    requires room { length out.old.items + 64 ≤ out.old.room }
    ensures stands { (checks : List (List Counter)) → places ≡ places_of tables.now.apps
        → EntriesStand tables.now.apps (λ place. checks) kept.old
        → EntriesStand tables.now.apps (λ place. checks ++ counters.now ∷ []) kept.new }
    ensures performs { (checks : List (List Counter)) → places ≡ places_of tables.now.apps
        → EntriesStand tables.now.apps (λ place. checks) kept.old
        → Performs tables.now.acts now (λ k. flat_map (app_attempt k (checks ++ counters.now
        ∷ [])) tables.now.apps) actions.old actions.new out.old out.new }
    ensures counted { AllPass is_item_counted out.old.items
        → AllPass is_item_counted out.new.items }
    ensures few { length out.new.items ≤ length out.old.items + 64 }
    ensures room { out.new.room ≡ out.old.room }
{
    let end = u32::from(places).min(tables.apps.len());
    for place in 0..end {
        let watched = kept[place as usize];
        kept[place as usize] = check_place(tables, place, watched, counters, now, actions, out);
    }
}

/// Checks the entry in a place, where it is used.
#[tactic(auto, unfolding(crate::specs::Monitors::app_attempt))]
fn check_place(
    tables: &HsTables,
    place: u32,
    watched: Watched,
    counters: &[Counter],
    now: u32,
    actions: &mut Actions,
    out: &mut Outbox,
) -> Watched
    requires place { place < 32 }
    requires room { length out.old.items + 2 ≤ out.old.room }
    ensures stands { (checks : List (List Counter)) (e : AppEntry)
        → entry_of (row_at tables.now.apps place) ≡ Some e → EntryStands e checks watched
        → EntryStands e (checks ++ counters.now ∷ []) result }
    ensures performs { (checks : List (List Counter))
        → ((e : AppEntry) → entry_of (row_at tables.now.apps place) ≡ Some e
        → EntryStands e checks watched)
        → Performs tables.now.acts now (λ k. app_attempt k (checks ++ counters.now
        ∷ []) (row_at tables.now.apps place)) actions.old actions.new out.old out.new }
    ensures counted { AllPass is_item_counted out.old.items
        → AllPass is_item_counted out.new.items }
    ensures few { length out.new.items ≤ length out.old.items + 2 }
    ensures room { out.new.room ≡ out.old.room }
{
    // The entry isn't used, or it acted.
    if watched.countdown == 0 {
        return watched;
    }
    // Without counters the check is unchanged, whatever the entry is.
    if counters.is_empty() && watched.countdown > 1 {
        return Watched {
            last: watched.last,
            countdown: watched.countdown - 1,
        };
    }
    match tables.apps.entry(place + 1) {
        None => watched,
        Some(entry) => check_entry(&entry, watched, counters, &tables.acts, now, actions, out),
    }
}

/// Checks an entry, and performs its action where it acts.
fn check_entry(
    entry: &AppEntry,
    watched: Watched,
    counters: &[Counter],
    acts: &MsgActs,
    now: u32,
    actions: &mut Actions,
    out: &mut Outbox,
) -> Watched
    requires cycles { 0 < entry.now.cycles }
    requires action { (1 ≤ entry.now.action) × (entry.now.action ≤ 11) }
    requires room { length out.old.items + 2 ≤ out.old.room }
    ensures stands { (checks : List (List Counter)) → EntryStands entry.now checks watched
        → EntryStands entry.now (checks ++ counters.now ∷ []) result }
    ensures performs { (checks : List (List Counter)) → EntryStands entry.now checks watched
        → Performs acts.now now (λ k. attempt_of k (checks ++ counters.now
        ∷ []) entry.now) actions.old actions.new out.old out.new }
    ensures counted { AllPass is_item_counted out.old.items
        → AllPass is_item_counted out.new.items }
    ensures few { length out.new.items ≤ length out.old.items + 2 }
    ensures room { out.new.room ≡ out.old.room }
{
    let checked = watched.check(entry, counters);
    if !checked.acts {
        return checked.watched;
    }
    actions.perform(Source::AppMonitor, entry.name, entry.action, acts, now, out);
    checked.watched
}
