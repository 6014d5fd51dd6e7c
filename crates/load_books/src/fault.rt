//! Why a text is no book.

use load_texts::LoadFault;
use plan_text::PlanFault;
use std::alloc::AllocError;
use table_forms::TableFault;
use thiserror::Error;

/// What is wrong with a line of a book that is no part's own.
#[derive(Clone, Copy, Debug, PartialEq, Eq, Error)]
pub enum BookReason {
    /// The first line isn't `book NAME`.
    #[error("`book` and the book's name are wanted here: 1 to 64 letters, digits, `_`, `.` and `-`, the first of them a letter")]
    Book,
    /// A line that says something stands between the first one and the first part.
    #[error("`part` is wanted here")]
    Part,
    /// The words behind `part` name no kind of part, or are too many.
    #[error("a part is `part table NAME`, `part load NAME` or `part plan`")]
    Kind,
    /// The name is none.
    #[error("a name has 1 to 64 letters, digits, `_`, `.` and `-`, and begins with a letter")]
    Name,
    /// Two files have one name.
    #[error("an earlier part has this name")]
    Twice,
    /// There are two plans.
    #[error("an earlier part is the plan")]
    Plans,
    /// There is no plan.
    #[error("the book has no plan")]
    Planless,
    /// A load asks for a file.
    #[error("the bytes of a load stand in the book: `file=` isn't for it")]
    Asks,
    /// The plan names a file that isn't there.
    #[error("no part of the book has this name")]
    Unknown,
    /// The plan activates a load.
    #[error("`activate` takes the name of a table, and this is the name of a load")]
    Activates,
    /// The plan loads a table.
    #[error("`mm.load_file` takes the name of a load, and this is the name of a table")]
    Loads,
    /// The part is too long.
    #[error("a part has at most 16777216 bytes")]
    Long,
}

/// Why a line wasn't read.
#[derive(Clone, Copy, Debug, PartialEq, Eq)]
pub(crate) enum LineError {
    Memory(AllocError),
    Because(BookReason),
}

/// The first fault of a book, with the number of its line in the book, counted from 1. A fault of a whole file has the line of its part
/// alone.
#[derive(Clone, Copy, Debug, PartialEq, Eq, Error)]
pub enum BookFault {
    /// A line of the book's own, or one that it says of a part.
    #[error("line {0}: {1}")]
    Line(u32, BookReason),
    /// The table whose part begins at this line.
    #[error("part of line {0}: {1}")]
    Table(u32, TableFault),
    /// The load whose part begins at this line.
    #[error("part of line {0}: {1}")]
    Load(u32, LoadFault),
    /// The plan, whose part begins at this line.
    #[error("part of line {0}: {1}")]
    Plan(u32, PlanFault),
}

/// Why a book wasn't read.
#[derive(Clone, Copy, Debug, PartialEq, Eq, Error)]
pub enum BookError {
    #[error("out of memory")]
    Memory(AllocError),
    #[error("{0}")]
    Book(BookFault),
}
