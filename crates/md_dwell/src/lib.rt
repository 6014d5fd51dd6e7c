//! MD: memory dwell, the reading of values of memory at set wakeups, and their packets.
#![tactic(auto)]

mod answers;
mod duty;
mod giving;
mod housekeeping;
mod instructions;
pub mod laws;
mod loading;
mod messages;
mod payload;
mod reading;
mod state;
mod step;
mod streams;
mod tables;
mod verdicts;

pub use loading::load_dwell;
pub use state::Md;
pub use step::MOST_ITEMS;
pub use tables::{Dwell, DwellEntry};
