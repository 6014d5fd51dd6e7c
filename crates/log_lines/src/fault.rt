//! Why a line is none of the log's.

use packet_forms::PacketFault;
use thiserror::Error;

/// The first fault of a line. The log's lines are told in docs/SCENARIO.md.
#[derive(Clone, Copy, Debug, PartialEq, Eq, Error)]
pub enum LineFault {
    #[error("the line has over 640 bytes")]
    Long,
    #[error("the first word is no number of a frame in decimal digits")]
    Frame,
    #[error("the second word is none of pkt, drop, reset, restart and delete")]
    Word,
    #[error("a word is missing at the end of the line")]
    Missing,
    #[error("there is a word too many at the end of the line")]
    Extra,
    #[error("the pipe is none of HS, HS.EV, CS, SC, MM, MD, LC and LC.TLM")]
    Pipe,
    #[error("the cause is neither limit nor full")]
    Cause,
    #[error("the name isn't made of 1 to 19 letters, digits and underscores")]
    Name,
    #[error("the bytes aren't made of pairs of the digits 0 to 9 and A to F")]
    Digits,
    #[error("the bytes are no space packet ({0:?})")]
    Packet(PacketFault),
    /// The text ends within the line.
    #[error("the line is cut off")]
    Cut,
}

/// A line of a log that is none, by its number, counted from 1.
#[derive(Clone, Copy, Debug, PartialEq, Eq, Error)]
#[error("line {line}: {fault}")]
pub struct LogFault {
    pub line: u64,
    pub fault: LineFault,
}
