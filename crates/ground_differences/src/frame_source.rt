//! A log that is read frame by frame.

ghost use Rattle.std.specs.Prelude.{◌≡◌, ℕ, Bool, List, Some, IfOk, OnOk};
ghost use Rattle.log_lines.specs.declared.line.LogLine.{LogLine};

use ground_files::Fault;
use ground_logs::{GoodLines, Telling};
use log_lines::LogLine;
use std::alloc::AllocError;
use std::io::Read;

/// How many lines of a frame are compared at once. A frame of a rehearsal has at most 3,082.
const MOST_LINES: usize = 4_096;

/// A log that is read frame by frame.
#[derive(Drop)]
pub struct FrameSource<'a, L: Read + Drop, E: Eprint> {
    source: GoodLines<'a, L, E>,
    /// The line behind those that were read.
    next: Option<LogLine>,
    lines: Vec<LogLine>,
}

impl<'a, L: Read + Drop, E: Eprint> FrameSource<'a, L, E> {
    ghost use Rattle.ground_logs.specs.Making.{lines_of, is_log};
    ghost use Rattle.ground_differences.specs.Frames.{HasLeft, ReadsFrame};

    /// A log that is read up to its first line.
    pub fn begin(telling: &'a Telling<'a, E>, log: L) -> Result<FrameSource<'a, L, E>, Fault>
        ensures { IfOk result (λ source. (text : List ℕ) → L.remaining log ≡ Some text
            → HasLeft L.remaining source (lines_of text) (is_log text)) }
    {
        let mut source = GoodLines::new(telling, log);
        let next = source.next()?;
        let lines = Vec::new(telling.alloc);
        Ok(FrameSource {
            source,
            next,
            lines,
        })
    }

    /// The line behind those that were read; none at the log's end.
    pub fn next(&self) -> Option<LogLine>
        ensures { result ≡ self.now.next }
    {
        self.next
    }

    /// The lines that `read_frame` read.
    pub fn lines(&self) -> &[LogLine]
        ensures { result.now ≡ self.now.lines.items }
    {
        self.lines.as_slice()
    }

    /// Whether all lines so far were a log's.
    pub fn is_whole(&self) -> bool
        ensures { result ≡ self.now.source.is_whole }
    {
        self.source.is_whole()
    }

    /// Reads the lines of this frame that come next, at most 4,096 of them.
    pub fn read_frame(&mut self, frame: u32) -> Result<(), Fault>
        ensures { OnOk result ((lines : List LogLine) (whole : Bool)
            → HasLeft L.remaining self.old lines whole
            → ReadsFrame L.remaining self.new frame lines whole) }
    {
        self.lines.clear();
        'lines: for _count in 0..MOST_LINES {
            let Some(line) = self.next else {
                return Ok(());
            };
            if line.frame != frame {
                return Ok(());
            }
            self.lines.push(line).map_err(AllocError::from)?;
            self.next = self.source.next()?;
        }
        Ok(())
    }
}
