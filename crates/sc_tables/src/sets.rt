//! The relative time sequences that are named.
ghost use Rattle.std.specs.Prelude.{◌≡◌, ◌≢◌, ℕ, ◌≤◌, Some};
ghost use Rattle.std.specs.Option.{option_copied};
ghost use Rattle.sc_tables.specs.Sequences.{named_rts, with_rts, no_rts};

use crate::rts::Rts;

/// How many relative time sequences there may be.
const SEQUENCES: usize = 64;

/// The relative time sequences 1 to 64, of which any may be named.
#[derive(Clone, Copy, Debug)]
pub struct RtsSet<'f> {
    all: [Option<Rts<'f>>; SEQUENCES],
}

impl<'f> RtsSet<'f> {
    /// The set in which none is named.
    pub fn empty() -> RtsSet<'f>
        ensures { result ≡ no_rts }
    {
        RtsSet {
            all: [None; SEQUENCES],
        }
    }

    /// Sequence n, from 1 to 64; None exactly where it isn't named.
    pub fn get(&self, n: u8) -> Option<&Rts<'f>>
        requires { (1 ≤ n) × (n ≤ 64) }
        ensures { option_copied result ≡ named_rts self.now n }
    {
        let all = &self.all[..];
        match &all[n as usize - 1] {
            Some(rts) => Some(rts),
            None => None,
        }
    }

    /// Names sequence n, from 1 to 64: it is `rts` from now on, and all others stay.
    pub fn put(&mut self, n: u8, rts: Rts<'f>)
        requires { (1 ≤ n) × (n ≤ 64) }
        ensures set { self.new ≡ with_rts self.old n rts.entry }
        ensures named { named_rts self.new n ≡ Some rts.entry }
        ensures others { (m : ℕ) → 1 ≤ m → m ≢ n → named_rts self.new m ≡ named_rts self.old m }
    {
        let all = &mut self.all[..];
        all[n as usize - 1] = Some(rts);
    }
}
