//! A log that is told in words as it comes.
ghost use Rattle.std.specs.Prelude.{◌≡◌, ◌≤◌, ◌<◌, ◌++◌, [], ℕ, List, Option, None, take, length, IfOk};
ghost use Rattle.log_words.specs.Sentences.{IsGood};

use log_lines::{Answer, LineItem, LogFault, LogLine, LogReader};
use log_words::{Vocabulary, show_line};
use packet_forms::behind;
use std::alloc::AllocError;

/// Tells the lines of a log in words, a sentence a line. Between two pieces it keeps at most 641 bytes.
#[derive(Drop)]
pub struct LogTeller {
    vocabulary: Vocabulary,
    epoch: Option<u32>,
    reader: LogReader,
    // the line that was read last: a packet is read into its place
    line: LogLine,
    ghost good: { IsGood vocabulary },
}

/// How much of a piece was told, and the line behind that which is none of the log's, where there is one.
#[derive(Clone, Copy, Debug, PartialEq, Eq)]
pub struct Told {
    pub taken: usize,
    pub fault: Option<LogFault>,
}

impl LogTeller {
    ghost use Rattle.log_words.specs.Sentences.{sentence_of};
    ghost use Rattle.log_lines.specs.declared.line.LogLine.{LogLine};
    ghost use Rattle.log_lines.specs.Logs.{cut_in, log_said, Stands as ReaderStands};
    ghost use Rattle.log_words.specs.Worked.{own_words};
    ghost use Rattle.ground_tools.specs.Telling.{Stands, KeepsNames, TellsOn};

    /// A teller of a log of which nothing came yet, in the names of the bench's applications. Lines are told by the seconds behind
    /// `epoch`, the time of frame 0, where it is known, and else by their frames.
    pub fn new(epoch: Option<u32>) -> LogTeller
        ensures stands { Stands result [] [] [] }
        ensures epoch { result.epoch ≡ epoch }
        ensures words { (e : Option ℕ) (line : LogLine)
            → sentence_of result.vocabulary e line ≡ sentence_of own_words e line }
    {
        LogTeller {
            vocabulary: Vocabulary::of_applications(),
            epoch,
            reader: LogReader::new(),
            line: LogLine {
                frame: 0,
                item: LineItem::Reset,
            },
        }
    }

    /// Appends the sentences of the lines that end in a piece, as far as the first line that is none of the log's; what is behind it
    /// may be given next. After an error the teller is of no use.
    pub fn tell(&mut self, piece: &[u8], out: &mut Vec<u8>) -> Result<Told, AllocError>
        ensures told { (front text : List ℕ) → Stands self.old front text out.old.items
            → IfOk result (λ told. Stands self.new front (text
            ++ take told.taken piece.now) out.new.items) }
        ensures taken { IfOk result (λ told. told.taken ≤ length piece.now) }
        ensures whole { IfOk result (λ told. told.fault ≡ None → told.taken ≡ length piece.now) }
        ensures some { IfOk result (λ told. 0 < length piece.now → 0 < told.taken) }
        ensures names { KeepsNames self.old self.new }
    {
        let mut taken = 0;
        'lines: while taken < piece.len() {
            let step = self.step(behind(piece, taken), out)?;
            taken += step.taken;
            if step.fault.is_some() {
                return Ok(Told {
                    taken,
                    fault: step.fault,
                });
            }
        }
        Ok(Told { taken, fault: None })
    }

    /// The frame of the line that was told last.
    pub(crate) fn last_frame(&self) -> u32 {
        self.line.frame
    }

    /// Takes a first part of a piece: as far as the end of a line, whose sentence is appended, or all of it where no line ends there.
    pub(crate) fn step(&mut self, piece: &[u8], out: &mut Vec<u8>) -> Result<Told, AllocError>
        requires { 0 < length piece.now }
        ensures told { (text : List ℕ) → ReaderStands self.old.reader text (log_said text)
            → IfOk result (λ told. TellsOn self.old self.new text
            (take told.taken piece.now) out.old.items out.new.items) }
        ensures taken { IfOk result (λ told. told.taken ≤ length piece.now) }
        ensures some { IfOk result (λ told. 0 < told.taken) }
        ensures names { KeepsNames self.old self.new }
    {
        let fed = self.reader.feed(piece, &mut self.line);
        match fed.answer {
            Answer::More => Ok(Told {
                taken: fed.taken,
                fault: None,
            }),
            Answer::Line => {
                show_line(&self.vocabulary, self.epoch, &self.line, out)?;
                out.push(b'\n')?;
                Ok(Told {
                    taken: fed.taken,
                    fault: None,
                })
            }
            Answer::Fault(fault) => Ok(Told {
                taken: fed.taken,
                fault: Some(fault),
            }),
        }
    }

    /// Says that no more comes: the fault of a last line that has no LF.
    pub fn finish(&self) -> Option<LogFault>
        ensures { (front text out : List ℕ) → Stands self.now front text out
            → result ≡ cut_in text }
    {
        self.reader.finish()
    }
}
