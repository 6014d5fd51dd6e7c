//! The line that has begun.
ghost use Rattle.std.specs.Prelude.{◌≡◌, ◌≤◌, ◌+◌, ◌*◌, ◌++◌, [], length, take};
ghost use Rattle.scenario.specs.Drill.{upper_hex};

use packet_forms::{place, place_hex};
use std::marker::Model;
use std::simd::prelude::*;

/// How many bytes are looked at and copied at once; most lines have fewer.
pub(crate) const NEAR: usize = 64;

/// One byte more than the longest line.
pub(crate) const LINE_ROOM: usize = 641;

/// The bytes of a line that has begun. They are made once and written again and again.
#[derive(Drop)]
pub(crate) struct LineBuffer {
    len: usize,
    places: [u8; LINE_ROOM],
}

impl Model for LineBuffer {
    ghost use Rattle.std.specs.Prelude.{◌≡◌, ◌≤◌, List, ℕ, length, take};

    ghost Value = { List ℕ };

    ghost view = { λ a. take a.len a.places };

    ghost invariant = { λ a. (a.len ≤ 641) × (length a.places ≡ 641) };
}

impl LineBuffer {
    pub(crate) fn new() -> Self
        ensures { result ≡ [] }
    {
        LineBuffer {
            len: 0,
            places: [0; LINE_ROOM],
        }
    }

    pub(crate) fn bytes(&self) -> &[u8]
        ensures value { result.now ≡ self.now }
        ensures few { length result.now ≤ 641 }
    {
        &self.places[..self.len]
    }

    pub(crate) fn len(&self) -> usize
        ensures value { result ≡ length self.now }
        ensures few { result ≤ 641 }
    {
        self.len
    }

    pub(crate) fn append(&mut self, piece: &[u8])
        requires { length self.old + length piece.now ≤ 641 }
        ensures { self.new ≡ self.old ++ piece.now }
    {
        place(&mut self.places, self.len, piece);
        self.len += piece.len();
    }

    /// Appends the first of these bytes. A short line that begins here is copied with what lies behind it, since that takes fewer
    /// steps.
    #[inline(always)]
    pub(crate) fn append_front(&mut self, bytes: &[u8], count: usize)
        requires within { count ≤ length bytes.now }
        requires room { length self.old + count ≤ 641 }
        ensures { self.new ≡ self.old ++ take count bytes.now }
    {
        if self.len == 0 && count <= NEAR && bytes.len() >= NEAR {
            place_near(&mut self.places, bytes);
            self.len = count;
            return;
        }
        self.append(&bytes[..count]);
    }

    /// Appends the bytes in hexadecimal digits.
    pub(crate) fn append_hex(&mut self, bytes: &[u8])
        requires { length self.old + 2 * length bytes.now ≤ 641 }
        ensures value { self.new ≡ self.old ++ upper_hex bytes.now }
        ensures size { length self.new ≡ length self.old + 2 * length bytes.now }
    {
        place_hex(&mut self.places, self.len, bytes);
        self.len += 2 * bytes.len();
    }

    pub(crate) fn clear(&mut self)
        ensures { self.new ≡ [] }
    {
        self.len = 0;
    }
}

/// Writes the first 64 bytes over those of other bytes.
#[inline(always)]
fn place_near(places: &mut [u8], bytes: &[u8])
    requires places { NEAR ≤ length places.old }
    requires bytes { NEAR ≤ length bytes.now }
    ensures near { take NEAR places.new ≡ take NEAR bytes.now }
    ensures size { length places.new ≡ length places.old }
{
    u8x64::from_slice(bytes).copy_to_slice(places);
}
