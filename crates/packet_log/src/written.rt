//! The bytes that were written, of which only proofs read.

ghost use Rattle.std.specs.Prelude.{◌≡◌, ℕ, List, [], ◌++◌};
ghost use Rattle.std.specs.Borrow.{ftrue};

use std::marker::{Model, PhantomData};

/// All bytes that were written, in order. It takes no memory, and its calls do nothing as the program runs.
#[derive(Drop)]
pub(crate) struct Written {
    marker: PhantomData<u8>,
    pub ghost bytes: { List ℕ },
}

impl Model for Written {
    ghost also_owns = { λ _. ftrue };
}

impl Written {
    pub(crate) fn nothing() -> Written
        ensures { result.bytes ≡ [] }
    {
        Written {
            marker: PhantomData,
        }
    }

    pub(crate) fn add(&mut self, _piece: &[u8])
        ensures { self.new.bytes ≡ self.old.bytes ++ _piece.now }
    {}
}
