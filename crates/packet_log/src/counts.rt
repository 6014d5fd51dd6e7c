//! The sequence counts of the telemetry that is made in a run.

ghost use Rattle.std.specs.Prelude.{◌≡◌, ◌<◌, ◌++◌, ℕ, List, [], ◌∷◌, true, Some};
ghost use Rattle.fsw_outside.specs.Told.{WhereTold};
ghost use Rattle.fsw_outside.specs.Causes.{HasCause};
ghost use Rattle.fsw_outside.specs.Written.{WritesAll};
ghost use Rattle.packet_forms.specs.Packets.{message_id};
ghost use Rattle.bus_pipes.specs.Counted.{is_counted, is_item_counted};
ghost use Rattle.packet_log.specs.Counts.{count_place, count_of, stamped};
ghost use Rattle.packet_log.specs.Sent.{makes, as_sent};
ghost use Rattle.packet_log.specs.Standing.{Stands};

use crate::writing::put_text;
use bus_pipes::Out;
use fsw_outside::{Failed, Sink};
use packet_forms::Packet;
use packet_forms::message_ids::{
    CS_BASELINE, CS_HOUSEKEEPING, EVENT, HS_HOUSEKEEPING, LC_HOUSEKEEPING, MD_DWELL,
    MD_HOUSEKEEPING, MM_DUMP, MM_HOUSEKEEPING, MM_PEEK, SC_HOUSEKEEPING,
};
use std::marker::Model;

/// The ids that get sequence counts: events, the housekeeping of HS, CS, SC, MM and MD, peek, dump, the four dwell
/// tables, baseline, the housekeeping of LC.
const COUNTED_IDS: [u16; 14] = [
    EVENT,
    HS_HOUSEKEEPING,
    CS_HOUSEKEEPING,
    SC_HOUSEKEEPING,
    MM_HOUSEKEEPING,
    MD_HOUSEKEEPING,
    MM_PEEK,
    MM_DUMP,
    MD_DWELL + 1,
    MD_DWELL + 2,
    MD_DWELL + 3,
    MD_DWELL + 4,
    CS_BASELINE,
    LC_HOUSEKEEPING,
];

/// The log of a run, seen as the counts of the packets that were stamped, each modulo 16,384.
#[derive(Clone, Copy, Debug)]
pub struct Log {
    counts: [u16; 14],
}

impl Model for Log {
    ghost use Rattle.std.specs.Prelude.{List, ℕ};
    ghost use Rattle.packet_log.specs.Standing.{AreSmall};

    ghost Value = { List ℕ };

    ghost view = { λ a. a.counts };

    ghost invariant = { λ a. AreSmall a.counts };

    ghost inverse = { λ counts. record { counts = counts } };
}

impl Log {
    /// A log in which nothing was stamped.
    pub fn start() -> Log
        ensures { Stands [] result }
    {
        Log { counts: [0; 14] }
    }

    /// A packet with its sequence count: the number of the packets of its id that were stamped before, modulo 16,384.
    pub fn stamp(&mut self, packet: &Packet) -> Packet
        requires { is_counted (message_id packet.now) ≡ true }
        ensures value { (made : List (List ℕ)) → Stands made self.old
            → result ≡ stamped made packet.now }
        ensures stands { (made : List (List ℕ)) → Stands made self.old
            → Stands (made ++ packet.now ∷ []) self.new }
    {
        let mut counted = *packet;
        self.stamp_in_place(&mut counted);
        counted
    }

    /// Writes a packet's sequence count into it: the number of the packets of its id that were stamped before, modulo 16,384.
    pub fn stamp_in_place(&mut self, packet: &mut Packet)
        requires { is_counted (message_id packet.old) ≡ true }
        ensures value { (made : List (List ℕ)) → Stands made self.old
            → packet.new ≡ stamped made packet.old }
        ensures stands { (made : List (List ℕ)) → Stands made self.old
            → Stands (made ++ packet.old ∷ []) self.new }
    {
        let count = self.next_count(packet.mid());
        packet.set_sequence(count);
    }

    /// Makes an item what is sent: a packet that was made gets its sequence count, where it stands.
    pub fn stamp_item(&mut self, item: &mut Out)
        requires { is_item_counted item.old ≡ true }
        ensures sent { (made : List (List ℕ)) → Stands made self.old
            → item.new ≡ as_sent made item.old }
        ensures stands { (made : List (List ℕ)) → Stands made self.old
            → Stands (made ++ makes item.old) self.new }
    {
        match item {
            Out::Made(packet) => self.stamp_in_place(packet),
            Out::Stored(_) => {}
            Out::Reset => {}
            Out::Restart(_) => {}
            Out::Delete(_) => {}
        }
    }

    /// The count of the next packet of an id, which is counted with it.
    fn next_count(&mut self, id: u16) -> u16
        requires { is_counted id ≡ true }
        ensures small { result < 16384 }
        ensures value { (made : List (List ℕ)) → Stands made self.old → result ≡ count_of made id }
        ensures stands { (made : List (List ℕ)) (packet : List ℕ) → message_id packet ≡ id
            → Stands made self.old → Stands (made ++ packet ∷ []) self.new }
    {
        let place = count_place(id);
        let count = self.counts[place];
        self.counts[place] = (count + 1) % 16384;
        count
    }

    /// Writes all of the text, or a proper first part of it where the sink fails.
    pub fn put<O: Sink>(&mut self, sink: &mut O, text: &str) -> Result<(), Failed>
        ensures content { WhereTold (O.held sink.old) (O.held sink.new)
            (WritesAll result text.now) }
        ensures cause { HasCause (O.held sink.new) (O.faults sink.old) (O.faults sink.new) result }
        ensures same { self.new ≡ self.old }
    {
        put_text(sink, text)
    }
}

/// The place of an id that gets sequence counts.
fn count_place(id: u16) -> usize
    requires { is_counted id ≡ true }
    ensures place { count_place id ≡ Some result }
    ensures bound { result < 14 }
{
    match find_place(id) {
        Some(place) => place,
        None => unreachable!(),
    }
}

/// The place of an id in the table of counts, if it stands there.
#[tactic(auto, unfolding(crate::specs::Counts::count_place))]
fn find_place(id: u16) -> Option<usize>
    ensures { result ≡ count_place id }
{
    COUNTED_IDS.iter().position(|counted| *counted == id)
}
