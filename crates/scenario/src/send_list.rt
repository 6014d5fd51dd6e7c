//! The packets that a frame sends.
ghost use Rattle.std.specs.Prelude.{◌≡◌, ◌≤◌, ◌<◌, ◌++◌, ◌∷◌, [], true, false, length, Ok};
ghost use Rattle.scenario.specs.Sentences.{packet_of};

use packet_forms::Packet;
use std::marker::Model;

/// At most 64 packets, in order. What lies behind them isn't wiped, so that clearing costs nothing.
#[derive(Drop)]
pub(crate) struct SendList {
    places: [Packet; 64],
    count: usize,
}

impl Model for SendList {
    ghost use Rattle.std.specs.Prelude.{◌≡◌, ◌≤◌, List, ℕ, length, take};

    ghost Value = { List (List ℕ) };

    ghost view = { λ s. take s.count s.places };

    ghost invariant = { λ s. (s.count ≤ 64) × (length s.places ≡ 64) };
}

impl SendList {
    pub(crate) fn new() -> Self
        ensures { result ≡ [] }
    {
        let shortest = Packet::default();
        SendList {
            places: [shortest; 64],
            count: 0,
        }
    }

    pub(crate) fn as_slice(&self) -> &[Packet]
        ensures value { result.now ≡ self.now }
        ensures limit { length result.now ≤ 64 }
    {
        &self.places[..self.count]
    }

    pub(crate) fn len(&self) -> usize
        ensures value { result ≡ length self.now }
        ensures limit { result ≤ 64 }
    {
        self.count
    }

    pub(crate) fn push(&mut self, packet: &Packet)
        requires { length self.old < 64 }
        ensures { self.new ≡ self.old ++ packet.now ∷ [] }
    {
        self.places[self.count].copy_from(packet);
        self.count += 1;
    }

    /// Puts the packet of these bytes behind the others, and answers whether they are one. Where they aren't nothing changes.
    pub(crate) fn push_bytes(&mut self, bytes: &[u8]) -> bool
        requires { length self.old < 64 }
        ensures pushed { result ≡ true → (packet_of bytes.now ≡ Ok bytes.now)
            × (self.new ≡ self.old ++ bytes.now ∷ []) }
        ensures kept { result ≡ false → self.new ≡ self.old }
    {
        match self.places[self.count].set_bytes(bytes) {
            Ok(()) => {
                self.count += 1;
                true
            }
            Err(_) => false,
        }
    }

    pub(crate) fn clear(&mut self)
        ensures { self.new ≡ [] }
    {
        self.count = 0;
    }
}
