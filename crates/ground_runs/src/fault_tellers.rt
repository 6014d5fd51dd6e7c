//! Sinks that may tell why they failed.

use fsw_outside::Sink;
use packet_log::Summary;
use std::io;

/// A sink that may tell why it failed.
pub(crate) trait FaultTeller: Sink {
    /// The first error of its writes, where one is known.
    fn error(&self) -> Option<&io::Error>;
}

impl FaultTeller for Summary {
    fn error(&self) -> Option<&io::Error> {
        None
    }
}
