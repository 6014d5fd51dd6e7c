//! What is odd in a table.

use packet_forms::Name;
use thiserror::Error;

/// An entry of a table.
#[derive(Clone, Copy, Debug, PartialEq, Eq, Error)]
pub enum Place {
    /// By its place, counted from 1.
    #[error("entry {0}")]
    Entry(u32),
    /// Of an absolute sequence, by the command's number.
    #[error("command {0}")]
    Number(u16),
}

/// What is odd in a table that is taken. None of it is a reason to refuse the table.
#[derive(Clone, Copy, Debug, PartialEq, Eq, Error)]
pub enum Warning {
    /// An unused entry, before and behind which used ones stand.
    #[error("entry {0} is unused, and used ones stand before and behind it")]
    Gap(u32),
    /// An entry of length 0 in a dwell table, behind which used ones stand: they are never read.
    #[error("entry {0} has length 0 and ends the list: the entries behind it are never read")]
    Unread(u32),
    #[error("all delays of the list are 0: the table reads nothing")]
    NoDelay,
    #[error("entry {0} starts its own sequence")]
    StartsItself(u32),
    #[error("{0} has a wrong checksum, so that it is refused where its sequence comes to it")]
    WrongChecksum(Place),
    #[error("{0} is later than a command that ends its sequence")]
    BehindEnd(Place),
    #[error("{0} is the ninth of its second, and at most eight leave in a wakeup")]
    Crowded(Place),
    /// A watchpoint's entry and its message id.
    #[error("entry {0} never has a result: no packet of id 0x{1:04X} comes to the limit checker")]
    Unwatched(u32, u16),
    /// An entry of a table of Health and Safety, and its name.
    #[error("entry {0} names {name}, which is no application of the bench and stands in no counter or event of the scenario", name = .1.text())]
    Unknown(u32, Name),
    /// An entry of a checksum table.
    #[error("entry {0} begins in one region of memory and ends in another, so that it can't be used")]
    Split(u32),
}
