//! Why a text is no file of a table.
ghost use Rattle.std.specs.Prelude.{◌≡◌};
ghost use Rattle.table_forms.specs.Payloads.{row_error};

use row_forms::RowFault;
use std::alloc::AllocError;
use table_files::{EntryFault, FileFault, TableKind};
use table_texts::{LineFault, TextFault};
use thiserror::Error;

/// Why a text is no file of a table that is taken. Lines are counted from 1.
#[derive(Clone, Copy, Debug, PartialEq, Eq, Error)]
pub enum TableFault {
    /// A line of the text, or one of its words.
    #[error("{0}")]
    Text(TextFault),
    /// The first line that says something doesn't begin with `table`.
    #[error("line {0}: `table` and a table's name are wanted here")]
    Table(u32),
    /// No table has this name.
    #[error("line {0}: no table has this name")]
    Name(u32),
    /// The description hasn't 32 bytes.
    #[error("line {0}: the description has 32 bytes")]
    Description(u32),
    /// The line behind the first one isn't the head of a dwell table.
    #[error("line {0}: `head` is wanted here")]
    Head(u32),
    /// The file is refused.
    #[error("{0}")]
    File(FileFault),
    /// An entry of the table is refused, by its loader's reason.
    #[error("entry {entry}: reason {reason}", entry = .1.entry, reason = .1.reason)]
    Entry(TableKind, EntryFault),
}

/// Why no file was made of a text.
#[derive(Clone, Copy, Debug, PartialEq, Eq, Error)]
pub enum ReadError {
    #[error("out of memory")]
    Memory(AllocError),
    #[error("{0}")]
    Fault(TableFault),
}

/// A word of the line of this number.
pub(crate) fn row_error(line: u32, fault: RowFault) -> ReadError
    ensures { result ≡ row_error line fault }
{
    let fault = LineFault::Row(fault);
    ReadError::Fault(TableFault::Text(TextFault { line, fault }))
}
