//! A bounded list of operations.
ghost use Rattle.std.specs.Prelude.{◌≡◌, ◌==◌, ◌<◌, ◌≤◌, [], ◌∷◌, ◌++◌, length};

use crate::MemOp;
use std::marker::Model;

const MOST_OPS: usize = 16;

/// A list of at most 16 operations.
#[derive(Drop)]
pub struct Ops {
    items: [MemOp; MOST_OPS],
    count: usize,
}

impl Model for Ops {
    ghost use Rattle.std.specs.Prelude.{◌≡◌, ◌≤◌, List, length, take};
    ghost use Rattle.memory_window.specs.declared.operations.MemOp.{MemOp};

    ghost Value = { List MemOp };

    ghost view = { λ o. take o.count o.items };

    ghost invariant = { λ o. (o.count ≤ 16) × (length o.items ≡ 16) };
}

impl Ops {
    /// No operation.
    pub fn new() -> Ops
        ensures { result ≡ [] }
    {
        let nothing = MemOp::Protect {
            region: 0,
            on: false,
        };
        Ops {
            items: [nothing; MOST_OPS],
            count: 0,
        }
    }

    /// How many operations there are, at most 16.
    pub fn len(&self) -> usize
        ensures len { result ≡ length self.now }
        ensures few { length self.now ≤ 16 }
    {
        self.count
    }

    /// Whether there is none.
    pub fn is_empty(&self) -> bool
        ensures { result ≡ (length self.now == 0) }
    {
        self.count == 0
    }

    /// Appends an operation.
    pub fn push(&mut self, op: MemOp)
        requires { length self.old < 16 }
        ensures { self.new ≡ self.old ++ op ∷ [] }
    {
        self.items[self.count] = op;
        self.count += 1;
    }

    /// Takes all operations away.
    pub fn clear(&mut self)
        ensures { self.new ≡ [] }
    {
        self.count = 0;
    }

    /// The operations, in the order in which they were pushed.
    pub fn items(&self) -> &[MemOp]
        ensures items { result.now ≡ self.now }
        ensures few { length self.now ≤ 16 }
    {
        &self.items[..self.count]
    }
}
