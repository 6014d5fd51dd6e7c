//! Why a text is no plan.

use calendar_dates::DateFault;
use row_forms::RowFault;
use std::alloc::AllocError;
use telecommands::CommandFault;
use thiserror::Error;

/// What a scenario's reader finds wrong with a line.
#[derive(Clone, Copy, Debug, PartialEq, Eq, Error)]
pub enum LineReason {
    #[error("it has too few words or too many, or a kind, an application or a name isn't in its form: a name has 1 to 19 letters, digits and underscores")]
    Words,
    #[error("a number isn't in its form or is too large")]
    Number,
    #[error("the bytes are no packet")]
    Packet,
    #[error("the regions make no map (there are 1 to 8, they share no address, begin and end at multiples of 4, and have at most 4194304 bytes together), or the address lies in none of them")]
    Map,
    #[error("it is the 65th item of its frame")]
    Items,
    #[error("the line, the scenario or the number of frames is too large")]
    Long,
    #[error("the scenario doesn't end")]
    Unended,
}

/// What is wrong with a line of a plan.
#[derive(Clone, Copy, Debug, PartialEq, Eq, Error)]
pub enum PlanReason {
    /// A word of the line.
    #[error("{0}")]
    Row(RowFault),
    /// The words of a telecommand.
    #[error("{0}")]
    Command(CommandFault),
    /// The first word is none that a plan's line begins with.
    #[error("no line of a plan begins with this word")]
    Word,
    /// The line can't stand here.
    #[error("the line stands out of its place")]
    Place,
    /// The epoch is no number, or too large.
    #[error("the epoch is no number from 0 to 4294000000")]
    Epoch,
    /// A date or a time of day, by the number of its word.
    #[error("word {0}: {1}")]
    Date(usize, DateFault),
    /// The time lies before the epoch.
    #[error("the time is before the epoch")]
    Early,
    /// The time or the frame lies before the frame that has come.
    #[error("an earlier line has a later frame")]
    Past,
    /// The frame of this time has items, so the scenario can't end before it.
    #[error("the frame of this time has items already")]
    Begun,
    /// The 65th item of a frame.
    #[error("a frame has at most 64 items")]
    Items,
    /// The 100,001st frame.
    #[error("a scenario has at most 100000 frames")]
    Frames,
    /// The text has no `end`.
    #[error("`end` is missing")]
    End,
    /// Something is said behind `end`.
    #[error("behind `end` nothing may stand")]
    Behind,
    /// A span in another form.
    #[error("it is `from TIME to TIME`, or `every 10s from TIME to TIME`")]
    Span,
    /// The period of `every` is out of form, or too long.
    #[error("the period is no number of seconds from 1s to 100000s")]
    Period,
    /// The span has no frame.
    #[error("the span ends before it begins, or where it begins")]
    Backward,
    /// A hold in another form.
    #[error("it is `hold APP`, or `hold APP for N` with N from 1 to 100000")]
    Hold,
    /// A counter in another form.
    #[error("it is `counter NAME counts`, `counter NAME stays` or `counter NAME = N`")]
    Counter,
    /// More lines than a scenario of this size can have.
    #[error("a scenario has at most 16777216 bytes")]
    Long,
    /// What the reader of the scenario that is made finds at the line.
    #[error("{0}")]
    Line(LineReason),
}

/// The first fault of a plan: its line, counted from 1, and what is wrong there.
#[derive(Clone, Copy, Debug, PartialEq, Eq, Error)]
#[error("line {line}: {reason}")]
pub struct PlanFault {
    pub line: u32,
    pub reason: PlanReason,
}

/// Why a line wasn't read.
#[derive(Clone, Copy, Debug, PartialEq, Eq)]
pub enum LineError {
    Memory(AllocError),
    Because(PlanReason),
}

/// Why a plan wasn't read.
#[derive(Clone, Copy, Debug, PartialEq, Eq, Error)]
pub enum PlanError {
    #[error("out of memory")]
    Memory(AllocError),
    #[error("{0}")]
    Plan(PlanFault),
}
