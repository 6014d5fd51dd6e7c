//! How a rehearsal ended, and the line that tells it.

ghost use Rattle.std.specs.Prelude.{◌≡◌, ◌+◌, ◌≤◌, ◌++◌, length, decimal};
ghost use Rattle.fsw_outside.specs.Told.{WhereTold};
ghost use Rattle.rehearsal.specs.Report.{error_line, Tells};

use arrayvec::ArrayString;
use fsw_outside::Sink;
use itoa::Buffer;
use packet_log::put_text;

/// How a rehearsal ended. The numbers are the program's exit statuses.
#[derive(Clone, Copy, Debug, PartialEq, Eq)]
pub enum Status {
    /// The scenario ended well, and the whole log was written.
    Done = 0,
    /// The words are refused, and nothing was read.
    WordsRefused = 1,
    /// A file is refused.
    FileRefused = 2,
    /// The scenario's text has a bad line, or no `end`.
    ScenarioRefused = 3,
    /// The shelf failed.
    ReadFailed = 4,
    /// The output failed.
    WriteFailed = 5,
    /// Memory ran out before the first frame.
    NoMemory = 6,
}

/// How a rehearsal ended, and where. Fields that a status doesn't name are 0.
#[derive(Clone, Copy, Debug, PartialEq, Eq)]
pub struct Report {
    pub status: Status,
    /// The number of a FILE word, from 1; 0 is the scenario.
    pub file: u32,
    /// A line of the scenario, from 1, or an entry of a table.
    pub line: u32,
    /// Why a file or a line is refused.
    pub reason: u8,
    /// How many frames there were whose lines were all written.
    pub frames: u32,
}

impl Report {
    /// A report without a place: how it ended, and after how many frames.
    pub fn at(status: Status, frames: u32) -> Report
        ensures { result ≡ record {
          status = status;
          file = 0;
          line = 0;
          reason = 0;
          frames = frames;
        } }
    {
        Report {
            status,
            file: 0,
            line: 0,
            reason: 0,
            frames,
        }
    }

    /// The scenario is refused at a line, after this many frames.
    pub fn refused(line: u32, reason: u8, frames: u32) -> Report
        ensures { result ≡ record {
          status = Status.ScenarioRefused;
          file = 0;
          line = line;
          reason = reason;
          frames = frames;
        } }
    {
        Report {
            status: Status::ScenarioRefused,
            file: 0,
            line,
            reason,
            frames,
        }
    }

    /// A FILE is refused before the first frame: its number from 1, an entry of its table or 0, and why.
    pub fn file_refused(file: u32, entry: u32, reason: u8) -> Report
        ensures { result ≡ record {
          status = Status.FileRefused;
          file = file;
          line = entry;
          reason = reason;
          frames = 0;
        } }
    {
        Report {
            status: Status::FileRefused,
            file,
            line: entry,
            reason,
            frames: 0,
        }
    }

    /// The shelf failed on a FILE: its number from 1.
    pub fn file_unread(file: u32) -> Report
        ensures { result ≡ record {
          status = Status.ReadFailed;
          file = file;
          line = 0;
          reason = 0;
          frames = 0;
        } }
    {
        Report {
            status: Status::ReadFailed,
            file,
            line: 0,
            reason: 0,
            frames: 0,
        }
    }
}

/// A line for the error output.
pub type ErrorLine = ArrayString<256>;

/// Appends a number in decimal digits.
fn push_number(line: &mut ErrorLine, number: u32)
    requires { length line.old.bytes ≤ 216 }
    ensures value { line.new.bytes ≡ line.old.bytes ++ decimal number }
    ensures short { length line.new.bytes ≤ length line.old.bytes + 40 }
{
    let mut buffer = Buffer::new();
    line.push_str(buffer.format(number));
}

/// The line of a report; it is empty where all went well.
#[tactic(auto, unfolding(crate::specs::Report::error_line))]
pub fn line_of(report: &Report) -> ErrorLine
    ensures { result.bytes ≡ error_line report.now }
{
    let mut line = ErrorLine::new();
    match report.status {
        Status::Done => return line,
        Status::WordsRefused => {
            line.push_str("vigil: words refused\n");
            return line;
        }
        Status::FileRefused => {
            line.push_str("vigil: file ");
            push_number(&mut line, report.file);
            line.push_str(" refused, reason ");
            push_number(&mut line, u32::from(report.reason));
            line.push_str(", entry ");
            push_number(&mut line, report.line);
            line.push_str("\n");
            return line;
        }
        Status::ScenarioRefused => {
            line.push_str("vigil: scenario refused at line ");
            push_number(&mut line, report.line);
            line.push_str(", reason ");
            push_number(&mut line, u32::from(report.reason));
            line.push_str("\n");
            return line;
        }
        Status::ReadFailed => {
            line.push_str("vigil: read failed on file ");
            push_number(&mut line, report.file);
            line.push_str("\n");
            return line;
        }
        Status::WriteFailed => {
            line.push_str("vigil: write failed\n");
            return line;
        }
        Status::NoMemory => {
            line.push_str("vigil: out of memory\n");
            return line;
        }
    }
}

/// Tells a report by its line. A sink that fails changes nothing else.
pub fn tell<E: Sink>(err: &mut E, report: &Report)
    ensures { WhereTold (E.held err.old) (E.held err.new)
        (Tells (E.faults err.old) (E.faults err.new) (error_line report.now)) }
{
    let line = line_of(report);
    match put_text(err, line.as_str()) {
        Ok(()) => {}
        Err(_) => {}
    }
}
