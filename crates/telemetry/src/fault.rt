//! Why words are no telemetry.

use packet_forms::PacketFault;
use row_forms::RowFault;
use std::alloc::AllocError;
use thiserror::Error;

/// Why words are no telemetry. Words are counted from that of the name on.
#[derive(Clone, Copy, Debug, PartialEq, Eq, Error)]
pub enum TelemetryFault {
    /// A word of the row, or no word at all.
    #[error("{0}")]
    Row(RowFault),
    /// The word is no name of a telemetry packet.
    #[error("word {0}: there is no telemetry of this name")]
    Name(usize),
    /// The payload has over 244 bytes.
    #[error("the payload has over 244 bytes")]
    Long,
    /// The sequence count is over 16,383.
    #[error("the sequence count is over 16383")]
    Count,
    /// The bytes behind `packet=` are no packet.
    #[error("word {0}: the bytes are no packet ({1:?})")]
    Packet(usize, PacketFault),
}

/// Why telemetry wasn't read.
#[derive(Clone, Copy, Debug, PartialEq, Eq, Error)]
pub enum ReadError {
    #[error("out of memory")]
    Memory(AllocError),
    #[error("{0}")]
    Fault(TelemetryFault),
}
