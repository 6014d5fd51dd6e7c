//! A log that is read line by line.

ghost use Rattle.std.specs.Prelude.{◌≡◌, ◌≤◌, ℕ, List, Some, false, IfOk, OnOk};
ghost use Rattle.std.specs.Io.KnownBytes.{IsAtEnd};

use log_lines::{Answer, LineItem, LogFault, LogLine, LogReader};
use packet_forms::{behind, front};
use std::io::{self, ErrorKind, Read};

/// How many bytes of a log are read at once.
const PIECE: usize = 16_384;

/// What comes next in a log.
#[derive(Clone, Copy, Debug)]
pub enum Next {
    Line(LogLine),
    /// A line that is none of a log's. Lines may follow.
    Fault(LogFault),
    End,
}

/// What a source took of its log.
#[derive(Clone, Copy, Debug)]
enum Taken {
    /// Bytes in which no line ended.
    More,
    /// The rest of a line, which stands in the source.
    Line,
    Fault(LogFault),
    End,
}

/// A log that is read line by line, in bounded memory.
#[derive(Drop)]
pub struct LogSource<L: Read + Drop> {
    log: L,
    piece: [u8; PIECE],
    at: usize,
    count: usize,
    reader: LogReader,
    line: LogLine,
    has_ended: bool,
}

impl<L: Read + Drop> LogSource<L> {
    ghost use Rattle.log_lines.specs.Logs.{Said};
    ghost use Rattle.ground_logs.specs.Coming.{all_said, IsToSay, GivesNext, TakesNext};

    /// A log of which nothing was read yet.
    pub fn new(log: L) -> LogSource<L>
        ensures { (text : List ℕ) → L.remaining log ≡ Some text
            → IsToSay L.remaining result (all_said text) }
    {
        LogSource {
            log,
            piece: [0; PIECE],
            at: 0,
            count: 0,
            reader: LogReader::new(),
            line: LogLine {
                frame: 0,
                item: LineItem::Reset,
            },
            has_ended: false,
        }
    }

    /// The next line, or why it is none; the end comes last, and again from then on.
    pub fn next(&mut self) -> io::Result<Next>
        ensures { IfOk result (λ next. (said : List Said) → IsToSay L.remaining self.old said
            → GivesNext L.remaining self.new said next) }
    {
        'pieces: for _turn in 0..u64::MAX {
            let taken = self.advance()?;
            match taken {
                Taken::More => {}
                Taken::Line => return Ok(Next::Line(self.line)),
                Taken::Fault(fault) => return Ok(Next::Fault(fault)),
                Taken::End => return Ok(Next::End),
            }
        }
        Err(io::Error::from(ErrorKind::FileTooLarge))
    }

    /// The piece that was read last, and where in it that ends which `next` took.
    pub(crate) fn piece(&self) -> (&[u8], usize) {
        (&self.piece, self.at)
    }

    /// Takes what is left of the piece, or else of the next one, as far as the end of a line.
    fn advance(&mut self) -> io::Result<Taken>
        ensures { IfOk result (λ taken. (said : List Said) → IsToSay L.remaining self.old said
            → TakesNext L.remaining self.new said taken) }
    {
        if self.has_ended {
            return Ok(Taken::End);
        }
        self.fill()?;
        if self.count == 0 {
            return Ok(self.end());
        }
        Ok(self.feed())
    }

    /// Reads the next piece where nothing is left of the last; it is empty at the end of the log.
    fn fill(&mut self) -> io::Result<()>
        ensures left { OnOk result ((said : List Said) → IsToSay L.remaining self.old said
            → IsToSay L.remaining self.new said) }
        ensures end { OnOk result (self.new.count ≡ 0 → IsAtEnd (L.remaining self.new.log)) }
        ensures ended { OnOk result (self.new.has_ended ≡ self.old.has_ended) }
    {
        if self.at < self.count {
            return Ok(());
        }
        self.at = 0;
        self.count = 0;
        self.count = self.log.read(&mut self.piece)?;
        Ok(())
    }

    /// Takes what is left of the piece, as far as the end of a line.
    fn feed(&mut self) -> Taken
        ensures { self.old.has_ended ≡ false → (said : List Said)
            → IsToSay L.remaining self.old said → TakesNext L.remaining self.new said result }
    {
        let rest = behind(front(&self.piece, self.count), self.at);
        let fed = self.reader.feed(rest, &mut self.line);
        self.at = self.at.saturating_add(fed.taken);
        match fed.answer {
            Answer::More => Taken::More,
            Answer::Line => Taken::Line,
            Answer::Fault(fault) => Taken::Fault(fault),
        }
    }

    /// What the end of the log is: a last line may be cut off.
    fn end(&mut self) -> Taken
        ensures { self.old.has_ended ≡ false → self.old.count ≡ 0
            → IsAtEnd (L.remaining self.old.log) → (said : List Said)
            → IsToSay L.remaining self.old said → TakesNext L.remaining self.new said result }
    {
        self.has_ended = true;
        match self.reader.finish() {
            Some(fault) => Taken::Fault(fault),
            None => Taken::End,
        }
    }
}
