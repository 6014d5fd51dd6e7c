//! Why a text is no table.

use row_forms::RowFault;
use std::alloc::AllocError;
use telecommands::CommandFault;
use thiserror::Error;

/// What is wrong with a line of a table's text.
#[derive(Clone, Copy, Debug, PartialEq, Eq, Error)]
pub enum LineFault {
    /// A word of the line.
    #[error("{0}")]
    Row(RowFault),
    /// The line begins with no number of an entry.
    #[error("an entry's number, `raw` or `end` is wanted here")]
    Entry,
    /// An earlier line has this entry or a later one.
    #[error("the entry's number isn't higher than that of the line before")]
    Order,
    /// The bytes behind `raw` are more or fewer than an entry has.
    #[error("an entry has another number of bytes")]
    Size,
    /// The line begins with none of a sequence's words.
    #[error("`command`, `raw` or `end` is wanted here")]
    Word,
    /// The words of a telecommand.
    #[error("{0}")]
    Command(CommandFault),
    /// The telecommand is longer than its place.
    #[error("the telecommand is too long for its entry")]
    Long,
    /// The text has no `end`.
    #[error("`end` is missing")]
    End,
    /// Something is said behind `end`.
    #[error("behind `end` nothing may stand")]
    Behind,
}

/// The first fault of a text: its line, counted from 1, and what is wrong there.
#[derive(Clone, Copy, Debug, PartialEq, Eq, Error)]
#[error("line {line}: {fault}")]
pub struct TextFault {
    pub line: u32,
    pub fault: LineFault,
}

/// Why a line wasn't read.
#[derive(Clone, Copy, Debug, PartialEq, Eq)]
pub(crate) enum LineError {
    Memory(AllocError),
    Fault(LineFault),
}

/// Why a text wasn't read.
#[derive(Clone, Copy, Debug, PartialEq, Eq, Error)]
pub enum TextError {
    #[error("out of memory")]
    Memory(AllocError),
    #[error("{0}")]
    Text(TextFault),
}
