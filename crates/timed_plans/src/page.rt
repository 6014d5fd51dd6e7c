//! The lines of the scenario, as its text.
ghost use Rattle.std.specs.Prelude.{◌≡◌, ◌+◌, ◌++◌, ◌∷◌, [], OnOk, replicate};
ghost use Rattle.timed_plans.specs.Schedules.{held_in};
ghost use Rattle.timed_plans.specs.Pages.{written_on, with_rows, row, rows_of, tick_row, end_row, merged};

use crate::scheduled::ScheduledLine;
use std::alloc::{AllocError, Global};

/// The text of lines, and of each the number of the plan's line that says it.
#[derive(Debug, Drop)]
pub(crate) struct Page {
    pub(crate) text: Vec<u8>,
    pub(crate) numbers: Vec<u32>,
}

impl Page {
    /// A page without lines.
    pub(crate) fn new(alloc: Global) -> Page
        ensures { written_on result ≡ record { text = []; numbers = [] } }
    {
        Page {
            text: Vec::new(alloc),
            numbers: Vec::new(alloc),
        }
    }

    /// Appends a line, by its text.
    fn put(&mut self, number: u32, text: &[u8]) -> Result<(), AllocError>
        ensures { OnOk result (written_on self.new
            ≡ with_rows (written_on self.old) (row number text.now ∷ [])) }
    {
        self.text.extend_from_slice(text)?;
        self.numbers.push(number)?;
        Ok(())
    }

    /// Appends so many lines `tick`.
    fn put_ticks(&mut self, count: u64, number: u32) -> Result<(), AllocError>
        ensures { OnOk result (written_on self.new
            ≡ with_rows (written_on self.old) (replicate count (tick_row number))) }
    {
        for _done in 0..count {
            self.put(number, b"tick\n")?;
        }
        Ok(())
    }

    /// Appends the lines of the header.
    pub(crate) fn put_head(&mut self, lines: &[ScheduledLine]) -> Result<(), AllocError>
        ensures { OnOk result (written_on self.new
            ≡ with_rows (written_on self.old) (rows_of (held_in lines.now))) }
    {
        for line in lines {
            self.put(line.number, line.text.as_slice())?;
        }
        Ok(())
    }

    /// Appends frames, whose lines stand in the frames' order, and the end.
    pub(crate) fn put_frames(
        &mut self,
        lines: &[ScheduledLine],
        frames: u32,
        number: u32,
    ) -> Result<(), AllocError>
        ensures { OnOk result (written_on self.new
            ≡ with_rows (written_on self.old) (merged 0 frames number (held_in lines.now)
            ++ end_row number ∷ [])) }
    {
        let mut come = 0;
        for line in lines {
            self.put_ticks(line.frame.saturating_sub(come), number)?;
            self.put(line.number, line.text.as_slice())?;
            come = line.frame;
        }
        self.put_ticks(u64::from(frames).saturating_sub(come), number)?;
        self.put(number, b"end\n")
    }
}
