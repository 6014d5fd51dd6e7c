//! A relative time sequence: the commands of its payload, as they are stored.
ghost use Rattle.std.specs.Prelude.{◌≡◌, ◌≤◌, ◌<◌, length, take};
ghost use Rattle.std.proofs.Props.{props};
ghost use Rattle.sc_tables.specs.Places.{relatives_in, AreWhole};

use crate::relative::Relative;
use packet_forms::be16;

/// The most commands of a payload: an entry has 10 bytes at least.
pub(crate) const COMMANDS: usize = 204;

/// A relative time sequence. It borrows the payload, and keeps where each command stands.
/// (After the RTS of the Stored Command application of NASA's Core Flight System; the layout is this project's own.)
#[derive(Clone, Copy, Debug)]
pub struct Rts<'f> {
    payload: &'f [u8],
    places: [u16; COMMANDS],
    count: usize,
    ghost few: { count ≤ 204 },
    ghost whole: { AreWhole payload.now (take count places) } by { Prim.hlevel props },
}

impl<'f> Rts<'f> {
    ghost use Rattle.std.specs.Prelude.{slice_index_or, true, is_none};
    ghost use Rattle.sc_tables.specs.Relative.{relative_at, relative_reason, no_relative};
    ghost use Rattle.sc_tables.specs.Sequences.{relative_commands};

    /// The sequence whose commands stand in the first `count` of these places.
    pub(crate) fn of(payload: &'f [u8], places: [u16; COMMANDS], count: usize) -> Rts<'f>
        requires few { count ≤ 204 }
        requires whole { AreWhole payload.now (take count places) }
        ensures { relative_commands result ≡ relatives_in payload.now (take count places) }
    {
        Rts {
            payload,
            places,
            count,
        }
    }

    /// The number of commands.
    pub fn len(&self) -> u32
        ensures count { result ≡ length (relative_commands self.now) }
        ensures few { result ≤ 204 }
    {
        self.count as u32
    }

    /// Command k as stored, from 0.
    pub fn command(&self, k: u32) -> Relative
        requires { k < length (relative_commands self.now) }
        ensures { result ≡ slice_index_or (relative_commands self.now) k no_relative }
    {
        Relative::read(self.from_entry(k))
    }

    /// The seconds of command k.
    #[tactic(auto, unfolding(crate::specs::Relative::relative_at))]
    pub fn tag(&self, k: u32) -> u16
        requires { k < length (relative_commands self.now) }
        ensures { result ≡ (slice_index_or (relative_commands self.now) k no_relative).tag }
    {
        be16(self.from_entry(k), 0)
    }

    /// The bytes of the payload from the entry of command k on.
    fn from_entry(&self, k: u32) -> &[u8]
        requires { k < length (relative_commands self.now) }
        ensures whole { is_none (relative_reason result.now) ≡ true }
        ensures long { 10 ≤ length result.now }
        ensures command { relative_at result.now
            ≡ slice_index_or (relative_commands self.now) k no_relative }
    {
        &self.payload[self.places[k as usize] as usize..]
    }
}
