//! Where each sequence stands, and which comes next.
ghost use Rattle.std.specs.Prelude.{◌≡◌, ◌*◌, ◌<◌, ℕ, List, Option, None, false, length, slice_set, replicate, IfSome};
ghost use Rattle.sc_sequences.specs.Cursors.{next_times, due_of, lowest_from, lowest_each, AreSmall};
ghost use Rattle.sc_sequences.specs.Turns.{soonest, place_due};

use crate::kept::{KEYS_A_SECOND, KeptCursor, NO_KEY};
use std::marker::Model;

/// How many sequences there are: two absolute and 64 relative ones. Absolute sequence n stands in place n - 1, relative sequence n in place
/// n + 1.
pub(crate) const PLACES: usize = 66;

/// How many places a group has, and how many groups there are.
const GROUP: usize = 6;

const GROUPS: usize = 11;

/// Where a sequence stands.
#[derive(Clone, Copy, Debug, PartialEq, Eq)]
pub(crate) struct Cursor {
    /// The time of its next command, in seconds; none where it doesn't run.
    pub(crate) next: Option<u64>,
    /// Which command is the next, counted from 0.
    pub(crate) at: u32,
    /// Whether it may be started, where it is a relative one.
    pub(crate) enabled: bool,
}

/// The command that comes next of all: its time, and the place of its sequence.
#[derive(Clone, Copy, Debug, PartialEq, Eq)]
pub(crate) struct Due {
    pub(crate) time: u64,
    pub(crate) place: u8,
}

/// The cursors of all sequences, seen as their list. Which comes next is kept, so that a wakeup in which none is due asks for one time. The
/// lowest key of each group of places is kept too, so that a change of one cursor asks for the times of its group alone.
#[derive(Clone, Copy, Debug, PartialEq, Eq)]
pub(crate) struct Cursors {
    all: [KeptCursor; PLACES],
    lowest: [u64; GROUPS],
    due: Option<Due>,
}

impl Model for Cursors {
    ghost use Rattle.std.specs.Prelude.{◌≡◌, List, length};
    ghost use Rattle.sc_sequences.specs.Cursors.{next_times, lowest_each, AreSmall};
    ghost use Rattle.sc_sequences.specs.Turns.{soonest};
    ghost use Rattle.sc_sequences.specs.declared.cursors.Cursor.{Cursor};

    ghost Value = { List Cursor };

    ghost view = { λ c. c.all };

    ghost invariant = { λ c. (length c.all ≡ 66) × AreSmall (next_times c.all)
        × (c.lowest ≡ lowest_each (next_times c.all)) × (c.due ≡ soonest (next_times c.all)) };

    ghost inverse = { λ all. record {
      all = all;
      lowest = lowest_each (next_times all);
      due = soonest (next_times all);
    } };
}

impl Cursors {
    ghost use Rattle.sc_sequences.specs.Cursors.{cursor_in};

    /// The cursors of sequences that don't run and may not be started.
    pub(crate) fn waiting() -> Cursors
        ensures { result ≡ replicate 66 (record { next = None; at = 0; enabled = false }) }
    {
        Cursors {
            all: [KeptCursor::waiting(); PLACES],
            lowest: [NO_KEY; GROUPS],
            due: None,
        }
    }

    /// The cursor in a place.
    #[inline(always)]
    pub(crate) fn get(&self, place: usize) -> Cursor
        requires { place < 66 }
        ensures cursor { result ≡ cursor_in self.now place }
        ensures at { result.at < 65536 }
        ensures time { IfSome result.next (λ time. time < 8589934592) }
    {
        let kept = self.all[place];
        kept.cursor()
    }

    /// Changes the cursor in a place.
    pub(crate) fn set(&mut self, place: usize, cursor: Cursor)
        requires place { place < 66 }
        requires at { cursor.at < 65536 }
        requires time { IfSome cursor.next (λ time. time < 8589934592) }
        ensures { self.new ≡ slice_set self.old place cursor }
    {
        self.all[place] = KeptCursor::of(cursor);
        let group = place / GROUP;
        self.lowest[group] = lowest_in(&self.all, group);
        self.due = soonest(&self.lowest);
    }

    /// The place of the command that leaves next, where one is due.
    #[inline(always)]
    pub(crate) fn due(&self, now: u32) -> Option<usize>
        ensures place { result ≡ place_due now (soonest (next_times self.now)) }
    {
        let Some(due) = self.due else {
            return None;
        };
        if due.time > u64::from(now) {
            return None;
        }
        Some(usize::from(due.place))
    }
}

/// The lowest key of a group of places.
fn lowest_in(all: &[KeptCursor], group: usize) -> u64
    requires all { length all.now ≡ 66 }
    requires group { group < 11 }
    ensures { result ≡ lowest_from (next_times all.now) (6 * group) 6 }
{
    let mut lowest = NO_KEY;
    for k in 0..GROUP {
        let place = GROUP * group + k;
        lowest = lowest.min(all[place].key(place));
    }
    lowest
}

/// The soonest command by the lowest keys of all groups.
fn soonest(lowest: &[u64]) -> Option<Due>
    requires { length lowest.now ≡ 11 }
    ensures { (times : List (Option ℕ)) → length times ≡ 66 → AreSmall times
        → lowest.now ≡ lowest_each times → result ≡ soonest times }
{
    let mut first = NO_KEY;
    for group in 0..GROUPS {
        first = first.min(lowest[group]);
    }
    due_of(first)
}

/// The time and the place of a key.
fn due_of(key: u64) -> Option<Due>
    ensures { result ≡ due_of key }
{
    if key == NO_KEY {
        return None;
    }
    Some(Due {
        time: key / KEYS_A_SECOND,
        place: (key % KEYS_A_SECOND) as u8,
    })
}
