//! A short run of bytes that an operation carries with it.
ghost use Rattle.std.specs.Prelude.{◌≡◌, ◌<◌, ◌≤◌, length};

use packet_forms::ByteList;
use std::marker::Model;

const MOST_BYTES: usize = 200;

/// 1 to 200 bytes.
#[derive(Clone, Copy, Debug)]
pub struct Chunk {
    list: ByteList<MOST_BYTES>,
}

impl Model for Chunk {
    ghost use Rattle.std.specs.Prelude.{◌<◌, List, ℕ, length};

    ghost Value = { List ℕ };

    ghost view = { λ c. c.list };

    ghost invariant = { λ c. 0 < length c.list };

    ghost inverse = { λ xs. record { list = xs } };
}

impl Chunk {
    /// A copy of the bytes.
    pub fn new(bytes: &[u8]) -> Chunk
        requires { (0 < length bytes.now) × (length bytes.now ≤ 200) }
        ensures { result ≡ bytes.now }
    {
        Chunk {
            list: ByteList::copy_of(bytes),
        }
    }

    /// How many bytes there are.
    pub fn len(&self) -> u32
        ensures { result ≡ length self.now }
    {
        self.list.len() as u32
    }

    /// The bytes.
    pub fn bytes(&self) -> &[u8]
        ensures bytes { result.now ≡ self.now }
        ensures some { 0 < length self.now }
        ensures few { length self.now ≤ 200 }
    {
        self.list.bytes()
    }
}
