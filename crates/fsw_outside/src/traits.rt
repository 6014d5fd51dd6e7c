//! What a bench asks of the outside.

ghost use Rattle.std.specs.Prelude.{◌≡◌, ℕ, ◌<◌, ◌≤◌, Bool, List, [], length, Option, Some, IsTrue, IsFalse, IfOk, is_ok};
ghost use Rattle.fsw_outside.specs.Told.{WhereTold};
ghost use Rattle.fsw_outside.specs.Causes.{HasCause};
ghost use Rattle.fsw_outside.specs.Files.{Content, Opens, Reads};
ghost use Rattle.fsw_outside.specs.Bytes.{Writes};
ghost use Rattle.fsw_outside.specs.Tally.{Tally, tally_of, Adds};

use std::alloc::{AllocError, AllocFailed};

/// The outside failed.
#[derive(Clone, Copy, Debug, PartialEq, Eq)]
pub struct Failed;

/// Memory ran out.
#[derive(Clone, Copy, Debug, PartialEq, Eq)]
pub struct NoMemory;

impl From<AllocError> for NoMemory {
    fn from(_: AllocError) -> Self {
        NoMemory
    }
}

impl<T: Drop> From<AllocFailed<T>> for NoMemory {
    fn from(_: AllocFailed<T>) -> Self {
        NoMemory
    }
}

/// Files by name, one of which may be open.
pub trait Shelf {
    /// The files, the rest of the open one and the last opening, where they are told.
    ghost told: { Self → Option Content };

    /// Whether a file is open.
    ghost is_open: { Self → Bool };

    /// How often the shelf has failed.
    ghost faults: { Self → ℕ };

    /// What that count was as the last `open` began.
    ghost mark: { Self → ℕ };

    /// Opens a file at its first byte, and closes the one before.
    fn open(&mut self, name: &str) -> Result<(), Failed>
        ensures content { WhereTold (told self.old) (told self.new) (Opens name.now result) }
        ensures cause { HasCause (told self.new) (faults self.old) (faults self.new) result }
        ensures is_open { is_open self.new ≡ is_ok result }
        ensures mark { mark self.new ≡ faults self.old };

    /// Puts the next bytes of the open file at the front of `buf`, and answers how many.
    fn next(&mut self, buf: &mut [u8]) -> Result<usize, Failed>
        requires opened { IsTrue (is_open self.old) }
        requires room { 0 < length buf.old }
        ensures bound { IfOk result (λ n. n ≤ length buf.new) }
        ensures content { WhereTold (told self.old) (told self.new) (Reads result buf.new) }
        ensures cause { HasCause (told self.new) (faults self.old) (faults self.new) result }
        ensures is_open { IsTrue (is_open self.new) }
        ensures mark { mark self.new ≡ mark self.old };

    /// Nothing is left to read where no file is open.
    ghost nothing_left: { (shelf : Self) → (content : Content) → told shelf ≡ Some content
        → IsFalse (is_open shelf) → content.rest ≡ [] };
}

/// Where bytes go.
pub trait Sink {
    /// The bytes that it holds, where they are told.
    ghost held: { Self → Option (List ℕ) };

    /// The tally of all bytes that were written since the sink was made, where it is told.
    ghost tally: { Self → Option Tally };

    /// How often the sink has failed.
    ghost faults: { Self → ℕ };

    /// Takes some bytes from the front of the piece, and answers how many.
    fn write(&mut self, piece: &[u8]) -> Result<usize, Failed>
        requires { 0 < length piece.now }
        ensures count { IfOk result (λ n. (0 < n) × (n ≤ length piece.now)) }
        ensures content { WhereTold (held self.old) (held self.new) (Writes result piece.now) }
        ensures tally { WhereTold (tally self.old) (tally self.new) (Adds result piece.now) }
        ensures cause { HasCause (held self.new) (faults self.old) (faults self.new) result };

    /// What is tallied is the tally of the bytes that are told. So each clause that tells bytes tells their tally too.
    ghost tallied: { (sink : Self) → (t : Tally) → tally sink ≡ Some t → (bytes : List ℕ)
        × (held sink ≡ Some bytes) × (t ≡ tally_of bytes) };
}

/// Is told of each job, on the thread that does it.
pub trait Gate: Sync {
    /// Comes before the job: a number below 64 for a job, 64 and the place of a bank for a bank.
    fn enter(&self, job: u32);
}

/// A gate that holds nothing.
#[derive(Clone, Copy, Debug)]
pub struct OpenGate;

impl Gate for OpenGate {
    fn enter(&self, _job: u32) {}
}
