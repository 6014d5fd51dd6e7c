//! Gates and words that threads share.

use fsw_outside::Gate;
use std::sync::atomic::{AtomicU64, Ordering};
use std::thread;

/// How often a thread looks whether the others came, before it gives up.
const TURNS: u64 = 100_000_000;

/// Enters a bit, and waits until all these have entered, or for very many turns. Answers whether they came.
pub fn meet(entered: &AtomicU64, bit: u64, awaited: u64) -> bool {
    entered.fetch_or(bit, Ordering::SeqCst);
    for _ in 0..TURNS {
        if entered.load(Ordering::SeqCst) & awaited == awaited {
            return true;
        }
        thread::yield_now();
    }
    false
}

/// Counts how often each of the first eight jobs or banks enters, in a byte each.
#[derive(Drop)]
pub struct Counting {
    entered: AtomicU64,
}

impl Counting {
    pub fn new() -> Counting {
        Counting {
            entered: AtomicU64::new(0),
        }
    }

    pub fn entered(&self) -> u64 {
        self.entered.load(Ordering::SeqCst)
    }
}

impl Gate for Counting {
    fn enter(&self, job: u32) {
        self.entered
            .fetch_add(1u64 << (8 * (job % 8)), Ordering::SeqCst);
    }
}

/// Holds some jobs until those awaited have entered, or for very many turns. Jobs are bits.
#[derive(Drop)]
pub struct Meeting {
    entered: AtomicU64,
    met: AtomicU64,
    held: u64,
    awaited: u64,
}

impl Meeting {
    pub fn new(held: u64, awaited: u64) -> Meeting {
        Meeting {
            entered: AtomicU64::new(0),
            met: AtomicU64::new(0),
            held,
            awaited,
        }
    }

    /// The held jobs whose wait was no longer than very many turns.
    pub fn met(&self) -> u64 {
        self.met.load(Ordering::SeqCst)
    }
}

impl Gate for Meeting {
    fn enter(&self, job: u32) {
        let bit = 1u64 << (job % 64);
        if self.held & bit == 0 {
            self.entered.fetch_or(bit, Ordering::SeqCst);
            return;
        }
        if meet(&self.entered, bit, self.awaited) {
            self.met.fetch_or(bit, Ordering::SeqCst);
        }
    }
}
