//! An absolute time sequence: the commands of its payload, by time and then by number.
ghost use Rattle.std.specs.Prelude.{◌≡◌, ◌≤◌, ◌<◌, length, take};
ghost use Rattle.std.proofs.Props.{props};
ghost use Rattle.sc_tables.specs.Places.{timed_in, ArePlaced, AreInOrder};

use crate::absolute::{Place, Timed};

/// The most commands that a sequence has: as many as there are numbers.
pub(crate) const COMMANDS: usize = 1_000;

/// An absolute time sequence. It borrows the payload, and keeps where each command stands, by time and then by number.
/// (After the ATS of the Stored Command application of NASA's Core Flight System; the layout is this project's own.)
#[derive(Clone, Copy, Debug)]
pub struct Ats<'f> {
    payload: &'f [u8],
    places: [Place; COMMANDS],
    count: usize,
    ghost few: { count ≤ 1000 },
    ghost placed: { ArePlaced payload.now (take count places) } by { Prim.hlevel props },
    ghost in_order: { AreInOrder (timed_in payload.now
        (take count places)) } by { Prim.hlevel props },
}

impl<'f> Ats<'f> {
    ghost use Rattle.std.specs.Prelude.{slice_index_or};
    ghost use Rattle.sc_tables.specs.Absolute.{no_timed};
    ghost use Rattle.sc_tables.specs.Sequences.{timed_commands};

    /// The sequence whose commands stand in the first `count` of these places.
    pub(crate) fn of(payload: &'f [u8], places: [Place; COMMANDS], count: usize) -> Ats<'f>
        requires few { count ≤ 1000 }
        requires placed { ArePlaced payload.now (take count places) }
        requires in_order { AreInOrder (timed_in payload.now (take count places)) }
        ensures { timed_commands result ≡ timed_in payload.now (take count places) }
    {
        Ats {
            payload,
            places,
            count,
        }
    }

    /// The number of commands.
    pub fn len(&self) -> u32
        ensures count { result ≡ length (timed_commands self.now) }
        ensures few { result ≤ 1000 }
        ensures in_order { AreInOrder (timed_commands self.now) }
    {
        self.count as u32
    }

    /// Command k by time and then by number, from 0.
    pub fn command(&self, k: u32) -> Timed
        requires { k < length (timed_commands self.now) }
        ensures { result ≡ slice_index_or (timed_commands self.now) k no_timed }
    {
        let place = self.places[k as usize];
        Timed::read(&self.payload[place.at as usize..])
    }

    /// The time of command k.
    pub fn tag(&self, k: u32) -> u32
        requires { k < length (timed_commands self.now) }
        ensures { result ≡ (slice_index_or (timed_commands self.now) k no_timed).tag }
    {
        self.places[k as usize].tag
    }
}
