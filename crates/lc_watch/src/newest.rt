//! The newest packets of a wakeup, by message id.
ghost use Rattle.std.specs.Prelude.{◌≡◌, ◌<◌, ◌≤◌, ◌+◌, ◌%◌, length, drop};
ghost use Rattle.lc_watch.specs.Newest.{AreNoted, IsNewest, up_to_newest};

use packet_forms::Packet;

/// How many slots there are for message ids. An id's slot is its lowest six bits: no two ids of the applications' own telemetry share one.
const SLOTS: usize = 64;

/// How many packets are noted at most, so that each place is a byte.
const NOTED: usize = 255;

/// Where the newest packets of a wakeup are. Its last 255 are noted: for each slot, how many of these stand up to the newest whose id has
/// the slot, that one counted, and 0 where none has it.
#[derive(Drop)]
pub(crate) struct Newest {
    /// How many packets stand before those that are noted.
    before: usize,
    places: [u8; SLOTS],
}

impl Newest {
    /// Where the newest of these packets are.
    #[inline(always)]
    pub(crate) fn of(telemetry: &[Packet]) -> Newest
        ensures { IsNewest telemetry.now result }
    {
        let before = count_before(telemetry.len());
        Newest {
            before,
            places: places_of(&telemetry[before..]),
        }
    }

    /// How many packets stand up to the newest that can have an id: behind them no packet has it.
    #[inline(always)]
    pub(crate) fn up_to(&self, id: u16, telemetry: &[Packet]) -> usize
        requires { IsNewest telemetry.now self.now }
        ensures newest { result ≡ self.now.before
            + up_to_newest (id % 64) (drop self.now.before telemetry.now) }
        ensures within { result ≤ length telemetry.now }
    {
        self.before + usize::from(self.places[slot_of(id)])
    }
}

/// The places of these packets, which are noted in their order, so that a later one takes the slot of an earlier.
#[inline(always)]
fn places_of(packets: &[Packet]) -> [u8; SLOTS]
    requires { length packets.now ≤ NOTED }
    ensures { AreNoted packets.now result }
{
    let mut places = [0; SLOTS];
    for place in 0..packets.len() {
        places[slot_of(packets[place].mid())] = (place + 1) as u8;
    }
    places
}

/// How many of so many packets stand before those that are noted.
#[inline(always)]
fn count_before(count: usize) -> usize
    ensures within { result ≤ count }
    ensures few { count ≤ result + NOTED }
{
    if count <= NOTED {
        return 0;
    }
    count - NOTED
}

/// The slot of a message id.
#[inline(always)]
fn slot_of(id: u16) -> usize
    ensures slot { result ≡ id % 64 }
    ensures within { result < SLOTS }
{
    usize::from(id) % SLOTS
}
