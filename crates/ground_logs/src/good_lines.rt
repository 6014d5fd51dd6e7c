//! A log's lines, with those told that are none of a log's.

ghost use Rattle.std.specs.Prelude.{◌≡◌, ℕ, Bool, List, Some, IfOk};
ghost use Rattle.log_lines.specs.declared.line.LogLine.{LogLine};

use crate::log_source::{LogSource, Next};
use crate::strange_lines::StrangeLines;
use crate::telling::Telling;
use ground_files::Fault;
use log_lines::LogLine;
use std::io::{self, ErrorKind, Read};

/// A log's lines. Those that are none of a log's are told to standard error and passed over.
#[derive(Drop)]
pub struct GoodLines<'a, L: Read + Drop, E: Eprint> {
    telling: &'a Telling<'a, E>,
    source: LogSource<L>,
    strange: StrangeLines,
    is_whole: bool,
}

impl<'a, L: Read + Drop, E: Eprint> GoodLines<'a, L, E> {
    ghost use Rattle.ground_logs.specs.Making.{lines_of, is_log};
    ghost use Rattle.ground_logs.specs.Coming.{HasLines, GivesLine};

    /// The lines of a log of which nothing was read yet.
    pub fn new(telling: &'a Telling<'a, E>, log: L) -> GoodLines<'a, L, E>
        ensures { (text : List ℕ) → L.remaining log ≡ Some text
            → HasLines L.remaining result (lines_of text) (is_log text) }
    {
        GoodLines {
            telling,
            source: LogSource::new(log),
            strange: StrangeLines::new(),
            is_whole: true,
        }
    }

    /// Whether all lines so far were a log's.
    pub fn is_whole(&self) -> bool
        ensures { result ≡ self.now.is_whole }
    {
        self.is_whole
    }

    /// The next line; none at the log's end.
    pub fn next(&mut self) -> Result<Option<LogLine>, Fault>
        ensures { IfOk result (λ next. (lines : List LogLine) (whole : Bool)
            → HasLines L.remaining self.old lines whole
            → GivesLine L.remaining self.new lines whole next) }
    {
        'lines: for _turn in 0..u64::MAX {
            let next = match self.source.next() {
                Ok(next) => next,
                Err(error) => return Err(Fault::Read(error)),
            };
            match next {
                Next::Line(line) => return Ok(Some(line)),
                Next::Fault(fault) => {
                    self.is_whole = false;
                    let (piece, end) = self.source.piece();
                    self.strange.tell(self.telling, fault, piece, end)?;
                }
                Next::End => {
                    self.strange.tell_rest(self.telling)?;
                    return Ok(None);
                }
            }
        }
        Err(Fault::Read(io::Error::from(ErrorKind::FileTooLarge)))
    }
}
