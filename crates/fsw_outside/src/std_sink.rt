//! A sink over a writer of std.

ghost use Rattle.std.specs.Prelude.{◌≡◌, ℕ, ◌+◌, ◌-◌, ◌^◌, ◌<◌, ◌≤◌, min, List, length, take, None, is_ok, if◌then◌else◌, IfOk};
ghost use Rattle.std.specs.Io.KnownBytes.{Appends};
ghost use Rattle.fsw_outside.specs.Told.{WhereTold};
ghost use Rattle.fsw_outside.specs.Causes.{HasCause};
ghost use Rattle.fsw_outside.specs.Bytes.{Writes};
ghost use Rattle.fsw_outside.specs.Tally.{Tally, Adds};
ghost use Rattle.fsw_outside.specs.TallyLaws.{tallied_of};
ghost use Rattle.fsw_outside.specs.StdSink.{writer_of, fault_count};

use crate::traits::{Failed, Sink};
use std::io::Write;

/// A sink that hands its bytes to a writer, and flushes it behind each piece. It tells no bytes.
#[derive(Drop)]
pub struct StdSink<W: Write + Drop> {
    writer: W,
    faults: u64,
}

impl<W: Write + Drop> StdSink<W> {
    /// A sink with no faults over this writer.
    pub fn new(writer: W) -> StdSink<W>
        ensures writer { writer_of result ≡ writer }
        ensures faults { fault_count result ≡ 0 }
    {
        StdSink { writer, faults: 0 }
    }
}

impl<W: Write + Drop> Sink for StdSink<W> {
    ghost held = { λ sink. None };

    ghost tally = { λ sink. None };

    ghost faults = { λ sink. fault_count sink };

    ghost tallied = { λ sink t tells. tallied_of None t tells };

    fn write(&mut self, piece: &[u8]) -> Result<usize, Failed>
        requires { 0 < length piece.now }
        ensures count { IfOk result (λ n. (0 < n) × (n ≤ length piece.now)) }
        ensures content { WhereTold {A = List ℕ} None None (Writes result piece.now) }
        ensures tally { WhereTold {A = Tally} None None (Adds result piece.now) }
        ensures cause { HasCause {A = List ℕ} None (fault_count self.old)
            (fault_count self.new) result }
        ensures counted { fault_count self.new
            ≡ (if is_ok result then fault_count self.old
            else min (fault_count self.old + 1) (2 ^ 64 - 1)) }
        // What it took stands in the writer, where that one tells its bytes.
        ensures handed_on { IfOk result (λ n. Appends (W.contents (writer_of self.old))
            (W.contents (writer_of self.new)) (take n piece.now)) }
    {
        let count = match self.writer.write(piece) {
            Ok(0) | Err(_) => {
                self.faults = self.faults.saturating_add(1);
                return Err(Failed);
            }
            Ok(count) => count,
        };
        match self.writer.flush() {
            Ok(()) => Ok(count),
            Err(_) => {
                self.faults = self.faults.saturating_add(1);
                Err(Failed)
            }
        }
    }
}
