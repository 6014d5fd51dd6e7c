//! What is kept of all application monitors together, and their checks.
ghost use Rattle.std.specs.Prelude.{◌≡◌, ℕ, ◌+◌, ◌<◌, ◌≤◌, true, false, List, [], ◌∷◌, ◌++◌, length, Some, nat_lt};
ghost use Rattle.std.specs.List.{flat_map, AllPass};
ghost use Rattle.bus_pipes.specs.Counted.{is_item_counted};
ghost use Rattle.packet_forms.specs.declared.name.Counter.{Counter};
ghost use Rattle.hs_tables.specs.Apps.{entry_of};
ghost use Rattle.hs_tables.specs.declared.apps.AppRow.{AppRow};
ghost use Rattle.hs_tables.specs.declared.apps.AppEntry.{AppEntry};
ghost use Rattle.hs_actions.specs.Performs.{Performs};
ghost use Rattle.hs_monitors.specs.Monitors.{row_at, places_of, app_attempt};
ghost use Rattle.hs_monitors.specs.Entries.{EntryStands, EntriesStand, KeptStands, watched_at, later, kept_with};
ghost use Rattle.hs_monitors.specs.Renewing.{IsNth, Renewing};

use crate::apps::{PLACES, begin_all, check_all};
use crate::heads::{Heads, head_of};
use crate::watches::{Watched, counter_in};
use bus_pipes::Outbox;
use hs_actions::Actions;
use hs_tables::{AppEntry, AppMon, HsTables};
use packet_forms::Counter;

/// What is kept of all entries. A check in which no countdown can end takes none of them down and is only counted.
#[derive(Clone, Copy, Debug, PartialEq, Eq)]
pub(crate) struct Kept {
    /// Where the names of the entries stand.
    heads: Heads,
    /// What is kept of each entry, with a countdown that is too high by the checks that passed.
    watched: [Watched; PLACES],
    /// How many checks passed since the countdowns were taken down.
    passed: u16,
    /// No countdown is below this number but one that is over.
    least: u16,
}

impl Kept {
    /// Before the first check of a watch.
    pub(crate) fn begun(apps: &AppMon) -> Kept
        ensures { KeptStands apps.now [] result }
    {
        let (watched, heads) = begin_all(apps);
        let least = least_of(&watched);
        Kept {
            heads,
            watched,
            passed: 0,
            least,
        }
    }

    /// Checks all entries, of which the last used one has place `places`, counted from 1, and performs the actions of those that act.
    #[inline(always)]
    pub(crate) fn check(
        &mut self,
        tables: &HsTables,
        places: u8,
        counters: &[Counter],
        now: u32,
        actions: &mut Actions,
        out: &mut Outbox,
    )
        requires room { length out.old.items + 64 ≤ out.old.room }
        ensures stands { (checks : List (List Counter)) → places ≡ places_of tables.now.apps
            → KeptStands tables.now.apps checks self.old
            → KeptStands tables.now.apps (checks ++ counters.now ∷ []) self.new }
        ensures performs { (checks : List (List Counter)) → places ≡ places_of tables.now.apps
            → KeptStands tables.now.apps checks self.old
            → Performs tables.now.acts now (λ k. flat_map (app_attempt k (checks ++ counters.now
            ∷ [])) tables.now.apps) actions.old actions.new out.old out.new }
        ensures counted { AllPass is_item_counted out.old.items
            → AllPass is_item_counted out.new.items }
        ensures few { length out.new.items ≤ length out.old.items + 64 }
        ensures room { out.new.room ≡ out.old.room }
    {
        if self.passed as u32 + 1 < self.least as u32 {
            self.pass(&tables.apps, counters);
            return;
        }
        self.check_each(tables, places, counters, now, actions, out);
    }

    /// Whether no countdown can end in a check.
    #[inline(always)]
    pub(crate) fn ends_none(&self) -> bool
        ensures { result ≡ nat_lt (self.now.passed + 1) self.now.least }
    {
        self.passed as u32 + 1 < self.least as u32
    }

    /// Counts a check without counters in which no countdown ends.
    #[inline(always)]
    pub(crate) fn count(&mut self)
        requires { self.old.passed + 1 < self.old.least }
        ensures { self.new ≡ record self.old { passed = self.old.passed + 1 } }
    {
        let passed = self.passed;
        self.passed = passed + 1;
    }

    /// A check in which no countdown ends: those of entries whose counters changed begin anew.
    #[inline(always)]
    fn pass(&mut self, apps: &AppMon, counters: &[Counter])
        requires { self.old.passed + 1 < self.old.least }
        ensures { (checks : List (List Counter)) → KeptStands apps.now checks self.old
            → KeptStands apps.now (checks ++ counters.now ∷ []) self.new }
    {
        let passed = self.passed;
        self.passed = passed + 1;
        if counters.is_empty() {
            return;
        }
        self.least = renew_all(
            apps,
            &self.heads,
            &mut self.watched,
            counters,
            passed,
            self.least,
        );
    }

    /// Checks all entries one by one.
    fn check_each(
        &mut self,
        tables: &HsTables,
        places: u8,
        counters: &[Counter],
        now: u32,
        actions: &mut Actions,
        out: &mut Outbox,
    )
        requires room { length out.old.items + 64 ≤ out.old.room }
        ensures stands { (checks : List (List Counter)) → places ≡ places_of tables.now.apps
            → KeptStands tables.now.apps checks self.old
            → KeptStands tables.now.apps (checks ++ counters.now ∷ []) self.new }
        ensures performs { (checks : List (List Counter)) → places ≡ places_of tables.now.apps
            → KeptStands tables.now.apps checks self.old
            → Performs tables.now.acts now (λ k. flat_map (app_attempt k (checks ++ counters.now
            ∷ [])) tables.now.apps) actions.old actions.new out.old out.new }
        ensures counted { AllPass is_item_counted out.old.items
            → AllPass is_item_counted out.new.items }
        ensures few { length out.new.items ≤ length out.old.items + 64 }
        ensures room { out.new.room ≡ out.old.room }
    {
        let mut watched = self.settled();
        check_all(tables, places, &mut watched, counters, now, actions, out);
        self.least = least_of(&watched);
        self.watched = watched;
        self.passed = 0;
    }

    /// What is kept of each entry, once the checks that passed are taken off the countdowns.
    pub(crate) fn settled(&self) -> [Watched; PLACES]
        ensures { (rows : List AppRow) (checks : List (List Counter))
            → KeptStands rows checks self.now → EntriesStand rows (λ place. checks) result }
    {
        let mut watched = [Watched::UNUSED; PLACES];
        for place in 0..PLACES {
            watched[place] = self.watched[place].later(self.passed);
        }
        watched
    }
}

/// Begins the countdowns of all entries whose counters changed anew, in a check behind those that passed. Gives a number that no countdown
/// is below.
fn renew_all(
    apps: &AppMon,
    heads: &Heads,
    watched: &mut [Watched; PLACES],
    counters: &[Counter],
    passed: u16,
    least: u16,
) -> u16
    requires { passed + 1 < least }
    ensures { (checks : List (List Counter))
        → KeptStands apps.now checks (kept_with heads.now watched.old passed least)
        → KeptStands apps.now (checks ++ counters.now
        ∷ []) (kept_with heads.now watched.new (passed + 1) result) }
{
    let mut fewest = least;
    for counter in counters {
        fewest = renew_named(apps, heads, watched, counter, counters, passed, fewest);
    }
    fewest
}

/// Begins the countdowns of the entries anew that have the name of one of the counters, where their counter changed. Gives a number that no
/// countdown is below.
fn renew_named(
    apps: &AppMon,
    heads: &Heads,
    watched: &mut [Watched; PLACES],
    counter: &Counter,
    counters: &[Counter],
    passed: u16,
    least: u16,
) -> u16
    requires { 0 < least }
    ensures some { 0 < result }
    ensures renewing { (checks : List (List Counter)) (n most : ℕ) (from : List Watched)
        → KeptStands apps.now checks (kept_with heads.now from passed most) → passed + 1 < most
        → IsNth counters.now n counter.now
        → Renewing apps.now checks counters.now n passed from watched.old least
        → Renewing apps.now checks counters.now (n + 1) passed from watched.new result }
{
    let head = head_of(&counter.name);
    let stretch = heads.stretch(head);
    let mut fewest = least;
    for place in stretch.from..stretch.end.min(PLACES as u8) {
        if !heads.has(place, head) {
            continue;
        }
        let one = renew(apps, place, watched[place as usize], counters, passed);
        watched[place as usize] = one;
        fewest = least_with(fewest, one.countdown);
    }
    fewest
}

/// Begins the countdown of the entry in a place anew, where its counter changed and it didn't act.
fn renew(apps: &AppMon, place: u8, watched: Watched, counters: &[Counter], passed: u16) -> Watched
    requires { place < 32 }
    ensures stands { (checks : List (List Counter)) (e : AppEntry)
        → entry_of (row_at apps.now place) ≡ Some e
        → (0 < watched.countdown → passed + 1 < watched.countdown)
        → EntryStands e checks (later passed watched)
        → EntryStands e (checks ++ counters.now ∷ []) (later (passed + 1) result) }
    ensures again { (checks : List (List Counter)) (e : AppEntry)
        → entry_of (row_at apps.now place) ≡ Some e
        → (0 < watched.countdown → passed + 1 < watched.countdown)
        → EntryStands e (checks ++ counters.now ∷ []) (later (passed + 1) watched)
        → EntryStands e (checks ++ counters.now ∷ []) (later (passed + 1) result) }
    ensures far { (0 < watched.countdown → passed + 1 < watched.countdown)
        → 0 < result.countdown → passed + 1 < result.countdown }
{
    if watched.countdown == 0 {
        return watched;
    }
    match apps.entry(place as u32 + 1) {
        None => watched,
        Some(entry) => renewed(&entry, watched, counters, passed),
    }
}

/// What is kept of an entry whose countdown begins anew where its counter changed.
fn renewed(entry: &AppEntry, watched: Watched, counters: &[Counter], passed: u16) -> Watched
    requires cycles { 0 < entry.now.cycles }
    ensures stands { (checks : List (List Counter)) → passed + 1 < watched.countdown
        → EntryStands entry.now checks (later passed watched)
        → EntryStands entry.now (checks ++ counters.now ∷ []) (later (passed + 1) result) }
    ensures again { (checks : List (List Counter)) → passed + 1 < watched.countdown
        → EntryStands entry.now (checks ++ counters.now ∷ []) (later (passed + 1) watched)
        → result ≡ watched }
    ensures far { passed + 1 < watched.countdown → passed + 1 < result.countdown }
{
    let last = counter_in(counters, &entry.name).unwrap_or(watched.last);
    if last == watched.last {
        return watched;
    }
    Watched {
        last,
        countdown: entry.cycles as u32 + passed as u32 + 1,
    }
}

/// The least countdown of those that aren't 0, and 65,535 where all are.
fn least_of(watched: &[Watched; PLACES]) -> u16
    ensures some { 0 < result }
    ensures least { (k : ℕ) → k < 32 → 0 < (watched_at watched.now k).countdown
        → result ≤ (watched_at watched.now k).countdown }
{
    let mut least = u16::MAX;
    for place in 0..PLACES {
        least = least_with(least, watched[place].countdown);
    }
    least
}

/// The least countdown, once one countdown more was looked at.
fn least_with(least: u16, countdown: u32) -> u16
    requires { 0 < least }
    ensures some { 0 < result }
    ensures before { result ≤ least }
    ensures here { 0 < countdown → result ≤ countdown }
    ensures above { (n : ℕ) → n < least → (0 < countdown → n < countdown) → n < result }
{
    if countdown == 0 || countdown >= least as u32 {
        return least;
    }
    countdown as u16
}
