//! The block as a list of bytes, with no pointer in sight.
ghost use Rattle.std.specs.Prelude.{◌≡◌, ℕ, ◌+◌, ◌<◌, ◌≤◌, ◌^◌, length, take, drop, IfOk};
ghost use Rattle.std.specs.Borrow.{sem};
ghost use Rattle.memory_block.specs.Zeros.{zeros};

use crate::block::{Bytes, Deed, allocate, deallocate};
use std::alloc::{AllocError, Global};
use std::marker::Model;

/// A block of bytes of a fixed length.
pub struct Store {
    ptr: *mut u8,
    size: usize,
    bytes: Bytes,
    deed: Deed<Global>,
    alloc: Global,
}

impl Model for Store {
    ghost use Rattle.std.specs.Prelude.{◌≡◌, ℕ, ◌^◌, ◌<◌, List, length};

    ghost Value = { List ℕ };

    ghost view = { λ s. s.bytes.items };

    ghost invariant = { λ s. (s.ptr ≡ s.bytes.at) × (length s.bytes.items ≡ s.size)
        × (s.bytes.spare ≡ 0) × (s.deed.at ≡ s.ptr) × (s.deed.len ≡ s.size)
        × (s.deed.alloc ≡ s.alloc) × (s.size < 2 ^ 63) };
}

impl Store {
    ghost use Rattle.memory_block.specs.Parts.{lends_part};

    /// A block of `size` zeros, or an error where there is no memory for it. Nothing is left behind then.
    #[tactic(auto, unfolding(crate::specs::Zeros::zeros))]
    pub fn zeroed(alloc: Global, size: usize) -> Result<Store, AllocError>
        requires { size < 2 ^ 63 }
        ensures zeros { IfOk result (λ store. store ≡ zeros size) }
        ensures len { IfOk result (λ store. length store ≡ size) }
    {
        let (ptr, mut bytes, deed) = allocate(&alloc, size)?;
        for len in 0..size {
            bytes.append(ptr, len, 0);
        }
        Ok(Store {
            ptr,
            size,
            bytes,
            deed,
            alloc,
        })
    }

    /// How many bytes there are.
    pub fn len(&self) -> usize
        ensures { result ≡ length self.now }
    {
        self.size
    }

    /// The `len` bytes from the place `from` on.
    pub fn part(&self, from: usize, len: usize) -> &[u8]
        requires { from + len ≤ length self.now }
        ensures { result.now ≡ take len (drop from self.now) }
    {
        self.bytes.slice(self.ptr, from, len)
    }

    /// The `len` bytes from the place `from` on, to be written.
    pub fn part_mut(&mut self, from: usize, len: usize) -> &mut [u8]
        requires { from + len ≤ length self.old }
        ensures* writes_back { sem 𝓛 (lends_part self.entry from len result) }
        ensures value { result.now ≡ take len (drop from self.old) }
    {
        self.bytes.slice_mut(self.ptr, from, len)
    }
}

impl Drop for Store {
    fn drop(self) {
        let Store {
            ptr,
            size,
            bytes,
            deed,
            alloc,
        } = self;
        deallocate(&alloc, ptr, size, bytes, deed);
    }
}
