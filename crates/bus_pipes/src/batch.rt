//! The packets that a wakeup takes from a pipe.

ghost use Rattle.std.specs.Prelude.{◌≡◌, ◌≤◌, ◌+◌, ◌++◌, [], length, take};
ghost use Rattle.circular_buffer.specs.Buffer.{buffer};

use circular_buffer::HeapCircularBuffer;
use packet_forms::Packet;
use std::marker::Model;

/// Up to 32 packets, seen as their list.
#[derive(Drop)]
pub struct Batch {
    count: usize,
    places: [Packet; 32],
}

impl Model for Batch {
    ghost use Rattle.std.specs.Prelude.{◌≤◌, List, ℕ, take};

    ghost Value = { List (List ℕ) };

    ghost view = { λ a. take a.count a.places };

    ghost invariant = { λ a. a.count ≤ 32 };
}

impl Batch {
    /// No packets.
    pub fn new() -> Batch
        ensures { result ≡ [] }
    {
        Batch {
            count: 0,
            places: [Packet::default(); 32],
        }
    }

    /// The packets in order.
    pub fn packets(&self) -> &[Packet]
        ensures value { result.now ≡ self.now }
        ensures few { length result.now ≤ 32 }
    {
        &self.places[..self.count]
    }

    /// Leaves no packets.
    pub(crate) fn clear(&mut self)
        ensures { self.new ≡ [] }
    {
        self.count = 0;
    }

    /// Takes all packets of a ring that has places for at most 32. They are copied one by one, since most are short.
    pub(crate) fn fill(&mut self, ring: &mut HeapCircularBuffer<Packet>)
        requires { ring.old.capacity ≤ 32 }
        ensures taken { self.new ≡ ring.old.items }
        ensures few { length self.new ≤ ring.old.capacity }
        ensures left { ring.new ≡ buffer [] ring.old.capacity }
    {
        let few = ring.len();
        prove!(few <= 32);
        let (front, back) = ring.as_slices();
        copy_over(&mut self.places, 0, front);
        copy_over(&mut self.places, front.len(), back);
        self.count = front.len() + back.len();
        ring.clear();
    }
}

/// Writes packets over those from place `from` on.
fn copy_over(places: &mut [Packet], from: usize, packets: &[Packet])
    requires { from + length packets.now ≤ length places.old }
    ensures written { take (from + length packets.now) places.new ≡ take from places.old
        ++ packets.now }
    ensures size { length places.new ≡ length places.old }
{
    'packets: for i in 0..packets.len() {
        places[from + i].copy_from(&packets[i]);
    }
}
