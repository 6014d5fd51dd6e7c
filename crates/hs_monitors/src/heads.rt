//! Short numbers of names, by which the places of a table are found whose names may be a given one.
ghost use Rattle.std.specs.Prelude.{◌≡◌, ◌<◌, ◌≤◌, ◌+◌, ◌%◌, ◌==◌, ℕ, List, length, Option, Some, get_or};
ghost use Rattle.hs_monitors.specs.Heads.{head_of, slot_stretch, AreHeaded};

use packet_forms::{Name, be32};

/// How many places are noted at most.
const PLACES: usize = 32;

/// How many slots there are. A name's slot is what its head leaves, divided by their number, which is a prime.
const SLOTS: usize = 251;

/// Places of a table: `from` and those behind it, before `end`.
#[derive(Clone, Copy, Debug, PartialEq, Eq)]
pub(crate) struct Stretch {
    pub(crate) from: u8,
    pub(crate) end: u8,
}

/// The heads of the names in the places of a table, 0 where none stands, and between which places those of each slot stand.
#[derive(Clone, Copy, Debug, PartialEq, Eq)]
pub(crate) struct Heads {
    heads: [u32; PLACES],
    stretches: [Stretch; SLOTS],
}

impl Stretch {
    /// No place.
    const NONE: Stretch = Stretch { from: 0, end: 0 };

    /// These places, another one, and what stands between.
    fn with(self, place: u8) -> Stretch
        requires { place < 32 }
        ensures here { (result.from ≤ place) × (place < result.end) }
        ensures others { (k : ℕ) → self.from ≤ k → k < self.end
            → (result.from ≤ k) × (k < result.end) }
    {
        let end = self.end.max(place + 1);
        if self.end == 0 {
            return Stretch { from: place, end };
        }
        Stretch {
            from: self.from.min(place),
            end,
        }
    }
}

impl Heads {
    /// No name stands in any place.
    pub(crate) fn none() -> Heads
        ensures { (named : ℕ → Option (List ℕ)) → AreHeaded named 0 result }
    {
        Heads {
            heads: [0; PLACES],
            stretches: [Stretch::NONE; SLOTS],
        }
    }

    /// Notes the name in a place behind those that were noted.
    pub(crate) fn note(&mut self, place: u8, name: &Name)
        requires { place < 32 }
        ensures { (named : ℕ → Option (List ℕ)) → named place ≡ Some name.now
            → AreHeaded named place self.old → AreHeaded named (place + 1) self.new }
    {
        let head = head_of(name);
        let slot = slot_of(head);
        self.heads[place as usize] = head;
        self.stretches[slot] = self.stretches[slot].with(place);
    }

    /// Between which places names with this head stand.
    #[inline(always)]
    pub(crate) fn stretch(&self, head: u32) -> Stretch
        ensures { result ≡ slot_stretch self.now head }
    {
        self.stretches[slot_of(head)]
    }

    /// Whether a name with this head stands in a place.
    #[inline(always)]
    pub(crate) fn has(&self, place: u8, head: u32) -> bool
        requires { place < 32 }
        ensures { result ≡ (get_or self.now.heads place 0 == head) }
    {
        self.heads[place as usize] == head
    }
}

/// The head of a name: its first eight bytes, put together into four.
#[inline(always)]
pub(crate) fn head_of(name: &Name) -> u32
    ensures { result ≡ head_of name.now }
{
    head_in(name.bytes())
}

/// The head of the name that these bytes are.
#[tactic(auto, unfolding(crate::specs::Heads::head_of))]
#[inline(always)]
pub(crate) fn head_in(bytes: &[u8]) -> u32
    requires { 8 ≤ length bytes.now }
    ensures { result ≡ head_of bytes.now }
{
    be32(bytes, 0) ^ be32(bytes, 4)
}

/// The slot of a head.
#[inline(always)]
fn slot_of(head: u32) -> usize
    ensures slot { result ≡ head % 251 }
    ensures within { result < SLOTS }
{
    head as usize % SLOTS
}
