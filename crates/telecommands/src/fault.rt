//! Why words are no telecommand.

use packet_forms::PacketFault;
use row_forms::RowFault;
use std::alloc::AllocError;
use thiserror::Error;

/// Why words are no telecommand. Words are counted from that of the name on.
#[derive(Clone, Copy, Debug, PartialEq, Eq, Error)]
pub enum CommandFault {
    /// A word of the row, or no word at all.
    #[error("{0}")]
    Row(RowFault),
    /// The word is no name of a command.
    #[error("word {0}: there is no command of this name")]
    Name(usize),
    /// The payload has over 248 bytes.
    #[error("the payload has over 248 bytes")]
    Long,
    /// The bytes behind `packet=` are no packet.
    #[error("word {0}: the bytes are no packet ({1:?})")]
    Packet(usize, PacketFault),
}

/// Why a telecommand wasn't read.
#[derive(Clone, Copy, Debug, PartialEq, Eq, Error)]
pub enum ReadError {
    #[error("out of memory")]
    Memory(AllocError),
    #[error("{0}")]
    Fault(CommandFault),
}
