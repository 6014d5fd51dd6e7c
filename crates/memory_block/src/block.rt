//! The pointer's functions: an owner of the bytes and a right to free them, both of no size.
ghost use Rattle.std.specs.Prelude.{◌≡◌, ℕ, ◌+◌, ◌<◌, ◌≤◌, ◌^◌, List, [], ◌∷◌, ◌++◌, length, take, drop, IfOk};
ghost use Rattle.std.specs.Borrow.{sem};
ghost use base.Fml.{ftrue};
ghost use denote.RawPtr.{Ptr};
ghost use Rattle.memory_block.specs.Ownership.{bytes_own, bytes_lent, deed_owns};

use std::alloc::{AllocError, Allocator};
use std::marker::{Model, PhantomData};
use std::slice;

/// The owner of a block's bytes. It takes no space: the pointer is passed beside it.
pub(crate) struct Bytes {
    ghost at: { Ptr },
    // The bytes that were written so far.
    ghost items: { List ℕ },
    // How many places after them hold nothing yet.
    ghost spare: { ℕ },
}

impl Model for Bytes {
    ghost also_owns = { λ c. bytes_own c.at c.items c.spare };

    ghost also_shares = { λ c _ κ. bytes_lent c.at c.items c.spare κ };
}

/// The right to give the block of `len` bytes at `at` back to `alloc`. It takes no space.
pub(crate) struct Deed<A: Allocator> {
    mark: PhantomData<*const A>,
    ghost at: { Ptr },
    ghost len: { ℕ },
    ghost alloc: { A },
}

impl<A: Allocator> Model for Deed<A> {
    ghost also_owns = { λ d. deed_owns (A.dealloc_token d.alloc) d.at d.len };

    ghost also_shares = { λ _ _ _. ftrue };
}

/// A new block of `len` bytes that hold nothing yet.
pub(crate) fn allocate<A: Allocator>(
    alloc: &A,
    len: usize,
) -> Result<(*mut u8, Bytes, Deed<A>), AllocError>
    requires { len < 2 ^ 63 }
    ensures { IfOk result (λ r. (r.1.at ≡ r.0) × (r.1.items ≡ []) × (r.1.spare ≡ len)
        × (r.2.at ≡ r.0) × (r.2.len ≡ len) × (r.2.alloc ≡ alloc.now)) }
{
    match alloc.allocate(len, 1) {
        Ok(ptr) => Ok((ptr, Bytes {}, Deed { mark: PhantomData })),
        Err(error) => Err(error),
    }
}

/// Gives the block back.
pub(crate) fn deallocate<A: Allocator>(
    alloc: &A,
    ptr: *mut u8,
    len: usize,
    bytes: Bytes,
    deed: Deed<A>,
)
    requires { (bytes.at ≡ ptr) × (length bytes.items ≡ len) × (bytes.spare ≡ 0) × (deed.at ≡ ptr)
        × (deed.len ≡ len) × (deed.alloc ≡ alloc.now) }
{
    let Bytes {} = bytes;
    let Deed { mark: _ } = deed;
    unsafe {
        alloc.deallocate(ptr, len, 1);
    }
}

impl Bytes {
    ghost use Rattle.memory_block.specs.Lends.{lends_run};

    /// Writes the first place that holds nothing yet.
    pub(crate) fn append(&mut self, ptr: *mut u8, len: usize, byte: u8)
        requires { (ptr ≡ self.old.at) × (len ≡ length self.old.items) × (0 < self.old.spare) }
        ensures { (self.new.at ≡ self.old.at) × (self.new.items ≡ self.old.items ++ byte ∷ [])
            × (self.new.spare + 1 ≡ self.old.spare) }
    {
        unsafe { *ptr.add(len) = byte }
    }

    /// The `len` bytes from `from` on.
    pub(crate) fn slice(&self, ptr: *mut u8, from: usize, len: usize) -> &[u8]
        requires { (ptr ≡ self.now.at) × (from + len ≤ length self.now.items) }
        ensures { result.now ≡ take len (drop from self.now.items) }
    {
        unsafe { slice::from_raw_parts(ptr.add(from), len) }
    }

    /// The `len` bytes from `from` on, to be written.
    pub(crate) fn slice_mut(&mut self, ptr: *mut u8, from: usize, len: usize) -> &mut [u8]
        requires { (ptr ≡ self.old.at) × (from + len ≤ length self.old.items) }
        ensures* writes_back { sem 𝓛 (lends_run self.entry from len result) }
        ensures value { result.now ≡ take len (drop from self.old.items) }
    {
        unsafe { slice::from_raw_parts_mut(ptr.add(from), len) }
    }
}
