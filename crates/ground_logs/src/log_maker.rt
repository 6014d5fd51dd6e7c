//! A log that is made into something as it comes.

ghost use Rattle.std.specs.Prelude.{◌≡◌, ◌≤◌, ◌<◌, [], ℕ, List, None, take, length, IfOk};

use crate::line_maker::LineMaker;
use ground_tools::Told;
use log_lines::{Answer, LineItem, LogFault, LogLine, LogReader};
use packet_forms::behind;
use std::alloc::AllocError;

/// Makes something of each line of a log. Between two pieces it keeps at most 641 bytes.
#[derive(Drop)]
pub struct LogMaker<M: LineMaker + Drop> {
    maker: M,
    reader: LogReader,
    // the line that was read last: a packet is read into its place
    line: LogLine,
    is_whole: bool,
}

impl<M: LineMaker + Drop> LogMaker<M> {
    ghost use Rattle.log_lines.specs.Logs.{cut_in};
    ghost use Rattle.ground_logs.specs.Making.{Stands, Appended};

    /// What makes of a log of which nothing came yet what `maker` makes of its lines.
    pub fn new(maker: M) -> LogMaker<M>
        ensures stands { Stands M.makes result [] [] }
        ensures maker { result.maker ≡ maker }
    {
        LogMaker {
            maker,
            reader: LogReader::new(),
            line: LogLine {
                frame: 0,
                item: LineItem::Reset,
            },
            is_whole: true,
        }
    }

    /// Appends what is made of the lines that end in a piece, as far as the first line that is none of the log's; what is behind it
    /// may be given next. After an error the value is of no use.
    pub fn take(&mut self, piece: &[u8], out: &mut Vec<u8>) -> Result<Told, AllocError>
        ensures made { IfOk result (λ told. Appended M.makes self.old self.new
            (take told.taken piece.now) out.old.items out.new.items) }
        ensures taken { IfOk result (λ told. told.taken ≤ length piece.now) }
        ensures whole { IfOk result (λ told. told.fault ≡ None → told.taken ≡ length piece.now) }
        ensures some { IfOk result (λ told. 0 < length piece.now → 0 < told.taken) }
    {
        let mut taken = 0;
        'lines: while taken < piece.len() {
            let step = self.step(behind(piece, taken), out)?;
            taken += step.taken;
            if step.fault.is_some() {
                return Ok(Told {
                    taken,
                    fault: step.fault,
                });
            }
        }
        Ok(Told { taken, fault: None })
    }

    /// Takes a first part of a piece: as far as the end of a line, or all of it where no line ends there.
    fn step(&mut self, piece: &[u8], out: &mut Vec<u8>) -> Result<Told, AllocError>
        requires { 0 < length piece.now }
        ensures made { IfOk result (λ told. Appended M.makes self.old self.new
            (take told.taken piece.now) out.old.items out.new.items) }
        ensures taken { IfOk result (λ told. told.taken ≤ length piece.now) }
        ensures some { IfOk result (λ told. 0 < told.taken) }
    {
        let fed = self.reader.feed(piece, &mut self.line);
        match fed.answer {
            Answer::More => Ok(Told {
                taken: fed.taken,
                fault: None,
            }),
            Answer::Line => {
                self.maker.make(&self.line, out)?;
                Ok(Told {
                    taken: fed.taken,
                    fault: None,
                })
            }
            Answer::Fault(fault) => {
                self.is_whole = false;
                Ok(Told {
                    taken: fed.taken,
                    fault: Some(fault),
                })
            }
        }
    }

    /// Says that no more comes: the fault of a last line that has no LF.
    pub fn finish(&self) -> Option<LogFault>
        ensures { (text bytes : List ℕ) → Stands M.makes self.now text bytes
            → result ≡ cut_in text }
    {
        self.reader.finish()
    }

    /// Whether all lines that ended were a log's.
    pub fn is_whole(&self) -> bool
        ensures { result ≡ self.now.is_whole }
    {
        self.is_whole
    }
}
