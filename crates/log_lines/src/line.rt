//! What a line of the log says.

use bus_pipes::Dropped;
use packet_forms::{Name, Packet};

/// What happened, and in which frame.
#[derive(Clone, Copy, Debug, PartialEq, Eq)]
pub struct LogLine {
    pub frame: u32,
    pub item: LineItem,
}

/// What a line of the log tells of.
#[derive(Clone, Copy, Debug, PartialEq, Eq)]
pub enum LineItem {
    /// A packet that an application sent.
    Packet(Packet),
    /// A packet that a pipe refused.
    Drop(Dropped),
    /// Health and Safety asks for a processor reset.
    Reset,
    /// It asks to restart an application.
    Restart(Name),
    /// It asks to delete an application.
    Delete(Name),
}
