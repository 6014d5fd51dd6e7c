//! What a scenario does in a frame, in lines that stand among the sentences of the log.
#![tactic(auto)]

mod counters;
mod holds;
mod inputs;
pub mod laws;

pub use counters::CounterWatch;
pub use holds::HoldWatch;
pub use inputs::{FrameTime, GivenFile, tell_files, tell_inputs};
