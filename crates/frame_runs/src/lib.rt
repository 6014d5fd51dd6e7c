//! A frame and a run as definitions over what a scenario says, and their laws; and what a crowd obeys of a frame.
#![tactic(auto)]

mod crowds;
pub mod laws;

pub use crowds::obey_frame;
