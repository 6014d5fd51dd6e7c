//! What is kept of an application monitor, and its checks.
ghost use Rattle.std.specs.Prelude.{◌≡◌, ◌<◌, List, [], ◌∷◌, ◌++◌};
ghost use Rattle.packet_forms.specs.declared.name.Counter.{Counter};
ghost use Rattle.hs_monitors.specs.Acting.{is_same, counter_in, changes, acts_now};
ghost use Rattle.hs_monitors.specs.Entries.{EntryStands, later};

use hs_tables::AppEntry;
use packet_forms::{Counter, Name};

/// The last counter that an entry saw, and how many unchanged checks in a row are left until it acts, 0 once it acted.
#[derive(Clone, Copy, Debug, PartialEq, Eq)]
pub(crate) struct Watched {
    pub(crate) last: u32,
    pub(crate) countdown: u32,
}

/// What a check leaves, and whether the entry acts at it.
#[derive(Clone, Copy, Debug, PartialEq, Eq)]
pub(crate) struct Checked {
    pub(crate) watched: Watched,
    pub(crate) acts: bool,
}

impl Watched {
    /// What is kept of an entry that isn't used.
    pub(crate) const UNUSED: Watched = Watched {
        last: 0,
        countdown: 0,
    };

    /// Before the first check of a watch.
    pub(crate) fn begun(entry: &AppEntry) -> Watched
        ensures { EntryStands entry.now [] result }
    {
        let countdown = entry.cycles as u32;
        Watched { last: 0, countdown }
    }

    /// What is kept once so many checks are taken off the countdown.
    pub(crate) fn later(self, passed: u16) -> Watched
        ensures { result ≡ later passed self }
    {
        Watched {
            last: self.last,
            countdown: self.countdown.saturating_sub(passed as u32),
        }
    }

    /// Checks the entry by the counters of a frame: a counter of its name that isn't the last one begins the countdown anew, and any other
    /// check takes one off it.
    pub(crate) fn check(self, entry: &AppEntry, counters: &[Counter]) -> Checked
        requires { 0 < entry.now.cycles }
        ensures stands { (checks : List (List Counter)) → EntryStands entry.now checks self
            → EntryStands entry.now (checks ++ counters.now ∷ []) result.watched }
        ensures acts { (checks : List (List Counter)) → EntryStands entry.now checks self
            → result.acts ≡ acts_now entry.now.cycles (changes entry.now.name (checks
            ++ counters.now ∷ [])) }
    {
        if self.countdown == 0 {
            return Checked {
                watched: self,
                acts: false,
            };
        }
        let last = counter_in(counters, &entry.name).unwrap_or(self.last);
        if last != self.last {
            return Checked {
                watched: Watched {
                    last,
                    countdown: entry.cycles as u32,
                },
                acts: false,
            };
        }
        let countdown = self.countdown - 1;
        Checked {
            watched: Watched { last, countdown },
            acts: countdown == 0,
        }
    }
}

/// The counter of a name, the first where there are several.
pub(crate) fn counter_in(counters: &[Counter], name: &Name) -> Option<u32>
    ensures { result ≡ counter_in counters.now name.now }
{
    for counter in counters {
        if is_same(counter.name.bytes(), name.bytes()) {
            return Some(counter.value);
        }
    }
    None
}

/// Whether these are the bytes of one name.
#[tactic(auto, unfolding(crate::specs::Acting::is_same))]
#[inline(always)]
pub(crate) fn is_same(name: &[u8], other: &[u8]) -> bool
    ensures { result ≡ is_same name.now other.now }
{
    *name == *other
}
