//! Why a text is no file to be loaded.
ghost use Rattle.std.specs.Prelude.{◌≡◌};
ghost use Rattle.table_texts.specs.Endings.{row_fault};
ghost use Rattle.load_texts.specs.Headers.{line_error};

use row_forms::{Reason, RowFault};
use std::alloc::AllocError;
use table_texts::{LineFault, TextFault};
use thiserror::Error;

/// Why a text is no file to be loaded. Lines are counted from 1.
#[derive(Clone, Copy, Debug, PartialEq, Eq, Error)]
pub enum LoadFault {
    /// A line of the text, or one of its words.
    #[error("{0}")]
    Text(TextFault),
    /// The description in the headers hasn't 32 bytes.
    #[error("line {0}: the description has 32 bytes")]
    Description(u32),
    /// The first line that says something doesn't begin with `load`.
    #[error("line {0}: `load` and an address are wanted here")]
    Load(u32),
    /// The line begins with no word of a load, or asks for a file behind other lines.
    #[error("line {0}: `bytes` or `end` is wanted here, or in the second line `file=`")]
    Word(u32),
    /// So many bytes can't be loaded.
    #[error("1 to 65536 bytes can be loaded from a file, and these are {0}")]
    Size(usize),
}

/// Why no file was made of a text.
#[derive(Clone, Copy, Debug, PartialEq, Eq, Error)]
pub enum ReadError {
    #[error("out of memory")]
    Memory(AllocError),
    #[error("{0}")]
    Fault(LoadFault),
}

/// A fault of the line of this number.
pub(crate) fn line_error(line: u32, fault: LineFault) -> ReadError
    ensures { result ≡ line_error line fault }
{
    ReadError::Fault(LoadFault::Text(TextFault { line, fault }))
}

/// A fault of a word of the line of this number.
pub(crate) fn word_error(line: u32, word: usize, reason: Reason) -> ReadError
    ensures { result ≡ line_error line (row_fault word reason) }
{
    line_error(line, LineFault::Row(RowFault { word, reason }))
}
