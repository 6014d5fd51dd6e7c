//! A log that is made into something, with those of its lines told that are none.

ghost use Rattle.std.specs.Prelude.{◌≡◌, ◌<◌, ◌≤◌, ℕ, List, Some, length, take, IfOk, OnOk};
ghost use Rattle.std.specs.Io.KnownBytes.{Appends, Consumes, IsAtEnd};
ghost use Rattle.ground_logs.specs.Making.{Stands, Writes, IsMadeOf, is_log};
ghost use Rattle.ground_logs.specs.Told.{IsSentence};

use crate::line_maker::LineMaker;
use crate::log_maker::LogMaker;
use crate::sentences::Sentences;
use crate::strange_lines::StrangeLines;
use ground_files::Fault;
use packet_forms::{behind, front};
use std::alloc::Global;
use std::io::{self, Read, Write};

/// How many bytes of a log are read at once.
const PIECE: usize = 16_384;

/// A log whose lines are told in words.
#[derive(Drop)]
pub struct Telling<'a, E: Eprint> {
    /// Where lines are told that are none of a log's.
    pub rt: &'a E,
    pub alloc: Global,
    /// The log's name for people.
    pub name: &'a str,
}

/// Reads the next piece of a log; nothing is read at its end.
fn read_piece<R: Read>(log: &mut R, piece: &mut [u8]) -> Result<usize, Fault>
    ensures read { IfOk result (λ count. Consumes (R.remaining log.old) (R.remaining log.new)
        (take count piece.new)) }
    ensures end { IfOk result (λ count. count ≡ 0 → 0 < length piece.new
        → IsAtEnd (R.remaining log.new)) }
{
    match log.read(piece) {
        Ok(count) => Ok(count),
        Err(error) => Err(Fault::Read(error)),
    }
}

/// Writes bytes that were made of a log.
pub fn write_made<W: Write>(bytes: &[u8], out: &mut W) -> Result<(), Fault>
    ensures { OnOk result (Appends (W.contents out.old) (W.contents out.new) bytes.now) }
{
    match out.write_all(bytes) {
        Ok(()) => Ok(()),
        Err(error) => Err(Fault::Write(error)),
    }
}

impl<'a, E: Eprint> Telling<'a, E> {
    /// Writes what is made of the lines that end in a piece, as far as the first one that is none of a log's, which it tells. Says how
    /// much of the piece this is.
    fn make_part<M: LineMaker + Drop, W: Write>(
        &self,
        lines: &mut LogMaker<M>,
        piece: &[u8],
        out: &mut W,
        strange: &mut StrangeLines,
    ) -> Result<usize, Fault>
        requires { 0 < length piece.now }
        ensures made { IfOk result (λ taken. Writes M.makes lines.old lines.new
            (take taken piece.now) (W.contents out.old) (W.contents out.new)) }
        ensures taken { IfOk result (λ taken. taken ≤ length piece.now) }
        ensures some { IfOk result (λ taken. 0 < taken) }
    {
        let mut made: Vec<u8> = Vec::new(self.alloc);
        let told = lines.take(piece, &mut made)?;
        write_made(made.as_slice(), out)?;
        if let Some(fault) = told.fault {
            strange.tell(self, fault, piece, told.taken)?;
        }
        Ok(told.taken)
    }

    /// Writes what is made of the lines that end in a piece, and tells those that are none of a log's.
    fn make_piece<M: LineMaker + Drop, W: Write>(
        &self,
        lines: &mut LogMaker<M>,
        piece: &[u8],
        out: &mut W,
        strange: &mut StrangeLines,
    ) -> Result<(), Fault>
        ensures { OnOk result (Writes M.makes lines.old lines.new piece.now
            (W.contents out.old) (W.contents out.new)) }
    {
        let mut taken = 0;
        'parts: while taken < piece.len() {
            let part = self.make_part(lines, behind(piece, taken), out, strange)?;
            taken += part;
        }
        Ok(())
    }

    /// Tells a last line that is cut off, and how many lines are none of a log's that weren't told. Says whether all lines are a log's.
    /// `piece` was read last.
    fn end<M: LineMaker + Drop>(
        &self,
        lines: &LogMaker<M>,
        piece: &[u8],
        strange: &mut StrangeLines,
    ) -> Result<bool, Fault>
        ensures { IfOk result (λ whole. (text bytes : List ℕ) → Stands M.makes lines.now text bytes
            → whole ≡ is_log text) }
    {
        match lines.finish() {
            Some(fault) => {
                strange.tell(self, fault, piece, 0)?;
                strange.tell_rest(self)?;
                Ok(false)
            }
            None => {
                strange.tell_rest(self)?;
                Ok(lines.is_whole())
            }
        }
    }

    /// Writes what `maker` makes of a log's lines, in the order in which they stand. Says whether all of them are a log's: those that are
    /// none are told to standard error, the first few by their numbers and why they are none, and of the others something is made all the
    /// same.
    pub fn make<M: LineMaker + Drop, R: Read, W: Write>(
        &self,
        maker: M,
        log: &mut R,
        out: &mut W,
    ) -> Result<bool, Fault>
        ensures { IfOk result (λ whole. (text : List ℕ) → R.remaining log.old ≡ Some text
            → IsMadeOf (M.makes maker) text whole (W.contents out.old) (W.contents out.new)) }
    {
        let mut lines = LogMaker::new(maker);
        let mut strange = StrangeLines::new();
        let mut piece = [0u8; PIECE];
        'pieces: for _turn in 0..u64::MAX {
            let count = read_piece(log, &mut piece)?;
            if count == 0 {
                return self.end(&lines, &piece, &mut strange);
            }
            self.make_piece(&mut lines, front(&piece, count), out, &mut strange)?;
        }
        Err(Fault::Read(io::Error::from(io::ErrorKind::FileTooLarge)))
    }

    /// Tells a log to its end in sentences, as `make` makes something of it: by the seconds behind `epoch`, the time of frame 0, where it
    /// is known, and else by frames.
    pub fn tell<R: Read, W: Write>(
        &self,
        epoch: Option<u32>,
        log: &mut R,
        out: &mut W,
    ) -> Result<bool, Fault>
        ensures { IfOk result (λ whole. (text : List ℕ) → R.remaining log.old ≡ Some text
            → IsMadeOf (IsSentence epoch) text whole (W.contents out.old) (W.contents out.new)) }
    {
        self.make(Sentences::new(epoch), log, out)
    }
}
