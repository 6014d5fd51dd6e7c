//! The plain types of the bus.

use crate::reserved::ReservedList;
use packet_forms::{Name, Packet};

/// How many packets a pipe holds at most, all together as well as of one id.
pub const PIPE_DEPTH: u32 = 16;
/// How many packets the pipe of events holds at most, all together as well as of one id.
pub const EVENT_PIPE_DEPTH: u32 = 32;
/// How many packets the pipe of the telemetry that LC watches holds at most, all together as well as of one id.
pub const TELEMETRY_PIPE_DEPTH: u32 = 256;

/// The list that an application fills in a step.
pub type Outbox = ReservedList<Out>;

/// The list of the telemetry that LC takes in a wakeup.
pub type Telemetry = ReservedList<Packet>;

/// The list of the packets that pipes refused.
pub type Drops = ReservedList<Dropped>;

/// A pipe of the bus.
#[derive(Clone, Copy, Debug, PartialEq, Eq)]
pub enum PipeName {
    Hs,
    HsEv,
    Cs,
    Sc,
    Mm,
    Md,
    Lc,
    LcTlm,
}

/// What became of a packet that was offered to a pipe.
#[derive(Clone, Copy, Debug, PartialEq, Eq)]
pub enum Offer {
    /// It is the last one of the pipe.
    Kept,
    /// The pipe holds as many packets of its id as it may.
    Limit,
    /// The pipe holds as many packets as it may.
    Full,
}

/// A packet that a pipe refused: `full` for its depth, else for the limit of the packet's id.
#[derive(Clone, Copy, Debug, PartialEq, Eq)]
pub struct Dropped {
    pub pipe: PipeName,
    pub full: bool,
    pub packet: Packet,
}

/// What an application gives.
#[derive(Clone, Copy, Debug, PartialEq, Eq)]
pub enum Out {
    /// Telemetry that it made, which gets a sequence count.
    Made(Packet),
    /// A packet that was stored, which is sent as it is.
    Stored(Packet),
    /// It asks for a processor reset.
    Reset,
    /// It asks to restart an application.
    Restart(Name),
    /// It asks to delete an application.
    Delete(Name),
}

/// The accepted and the refused commands of an application, each modulo 256.
#[derive(Clone, Copy, Debug, Default, PartialEq, Eq)]
pub struct Counts {
    pub accepted: u8,
    pub errors: u8,
}
