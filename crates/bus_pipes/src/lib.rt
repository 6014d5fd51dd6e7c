//! Bounded pipes of packets, the bus that routes to them, and the lists that applications fill.
#![tactic(auto)]

mod batch;
mod bus;
pub mod laws;
mod made;
mod names;
mod pipe;
mod reserved;
mod telemetry;
mod watch;

pub use batch::Batch;
pub use bus::Bus;
pub use made::{push_event, push_telemetry};
pub use names::{
    Counts, Dropped, Drops, EVENT_PIPE_DEPTH, Offer, Out, Outbox, PIPE_DEPTH, PipeName,
    TELEMETRY_PIPE_DEPTH, Telemetry,
};
pub use pipe::Pipe;
pub use reserved::ReservedList;
