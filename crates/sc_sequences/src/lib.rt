//! Stored Command: absolute and relative sequences, and the commands on both.
#![tactic(auto)]

mod answers;
mod cursors;
mod duty;
mod heads;
mod housekeeping;
mod instructions;
mod kept;
pub mod laws;
mod messages;
mod orders;
mod places;
mod state;
mod step;
mod turns;
mod verdicts;

pub use state::Sc;
pub use step::MOST_ITEMS;
