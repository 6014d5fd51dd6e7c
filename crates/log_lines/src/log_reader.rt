//! A log that comes in pieces.

ghost use Rattle.std.specs.Prelude.{◌≡◌, ◌≤◌, ◌<◌, ◌==◌, ◌++◌, [], ℕ, List, take, length};
ghost use Rattle.std.specs.List.{position};

use crate::fault::{LineFault, LogFault};
use crate::line::LogLine;
use crate::reading::{LINE_BYTES, read_line};
use packet_forms::{ByteList, front};

/// One byte more than the longest line that is read.
const LINE_ROOM: usize = LINE_BYTES + 1;

/// Reads the lines of a log in pieces of any size. It keeps the line that has begun, and of a line that is too long its first 641
/// bytes, so its memory is bounded and lies in the value.
#[derive(Drop)]
pub struct LogReader {
    lines: u64,
    kept: ByteList<LINE_ROOM>,
}

/// What a piece gave.
#[derive(Clone, Copy, Debug, PartialEq, Eq)]
pub enum Answer {
    /// No line ended in it.
    More,
    /// A line of the log.
    Line,
    /// A line that is none of the log's. The lines behind it can be read all the same.
    Fault(LogFault),
}

/// How many bytes of a piece were taken, and what they gave.
#[derive(Clone, Copy, Debug, PartialEq, Eq)]
pub struct Fed {
    pub taken: usize,
    pub answer: Answer,
}

/// The place of the first LF.
fn find_lf(bytes: &[u8]) -> Option<usize>
    ensures { result ≡ position (λ b. b == 10) bytes.now }
{
    bytes.iter().position(|b| *b == b'\n')
}

impl LogReader {
    ghost use Rattle.log_lines.specs.declared.log_reader.Answer.TheVariants.{More};
    ghost use Rattle.log_lines.specs.Lines.{line_said};
    ghost use Rattle.log_lines.specs.Logs.{Said, Stands, log_said, cut_in, given, number_behind, IsNumbered, Tells};

    /// A reader of a log of which nothing was fed yet.
    pub fn new() -> LogReader
        ensures { Stands result [] [] }
    {
        LogReader {
            lines: 0,
            kept: ByteList::new(),
        }
    }

    /// Takes a first part of the piece: as far as the first LF, or all of it where there is none. A line of the log that ended there
    /// is written to `said`.
    pub fn feed(&mut self, piece: &[u8], said: &mut LogLine) -> Fed
        ensures stands { (text : List ℕ) (gave : List Said) → Stands self.old text gave
            → Stands self.new (text ++ take result.taken piece.now)
            (gave ++ given result.answer said.new) }
        ensures numbered { (text : List ℕ) (gave : List Said) → Stands self.old text gave
            → IsNumbered (length gave) result.answer }
        ensures taken { result.taken ≤ length piece.now }
        ensures some { 0 < length piece.now → 0 < result.taken }
        ensures more { result.answer ≡ More → result.taken ≡ length piece.now }
    {
        match find_lf(piece) {
            Some(at) => {
                self.keep(front(piece, at));
                Fed {
                    taken: at + 1,
                    answer: self.end_line(said),
                }
            }
            None => {
                self.keep(piece);
                Fed {
                    taken: piece.len(),
                    answer: Answer::More,
                }
            }
        }
    }

    /// Says that no more bytes come: what was given are the lines of the whole text, and the fault is that of a last line without LF.
    pub fn finish(&self) -> Option<LogFault>
        ensures { (text : List ℕ) (gave : List Said) → Stands self.now text gave
            → (gave ≡ log_said text) × (result ≡ cut_in text) }
    {
        if self.kept.len() == 0 {
            return None;
        }
        Some(self.fault(LineFault::Cut))
    }

    /// Keeps the bytes behind those of the line so far, as far as there is room.
    fn keep(&mut self, bytes: &[u8])
        ensures kept { (last : List ℕ) → self.old.kept ≡ take 641 last
            → self.new.kept ≡ take 641 (last ++ bytes.now) }
        ensures lines { self.new.lines ≡ self.old.lines }
    {
        let room = LINE_ROOM - self.kept.len();
        self.kept.append(front(bytes, room));
    }

    /// Reads the line that ended, and begins the next one.
    fn end_line(&mut self, said: &mut LogLine) -> Answer
        ensures answer { Tells self.old.lines (line_said self.old.kept) said.new result }
        ensures lines { self.new.lines ≡ number_behind self.old.lines }
        ensures kept { self.new.kept ≡ [] }
    {
        let answer = self.read_kept(said);
        self.lines = self.lines.saturating_add(1);
        self.kept.set(&[]);
        answer
    }

    /// What the line says that ended.
    fn read_kept(&self, said: &mut LogLine) -> Answer
        ensures { Tells self.now.lines (line_said self.now.kept) said.new result }
    {
        match read_line(self.kept.bytes()) {
            Ok(line) => {
                *said = line;
                Answer::Line
            }
            Err(fault) => Answer::Fault(self.fault(fault)),
        }
    }

    /// A fault of the line that has begun.
    fn fault(&self, fault: LineFault) -> LogFault
        ensures line { result.line ≡ number_behind self.now.lines }
        ensures fault { result.fault ≡ fault }
    {
        LogFault {
            line: self.lines.saturating_add(1),
            fault,
        }
    }
}
