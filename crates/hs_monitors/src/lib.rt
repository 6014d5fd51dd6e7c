//! Health and Safety: application monitors by execution counters, event monitors over event messages, and the commands on both.
#![tactic(auto)]

mod apps;
mod duty;
mod events;
mod heads;
mod housekeeping;
mod input;
mod instructions;
mod kept;
pub mod laws;
mod messages;
mod state;
mod step;
mod verdicts;
mod watches;

pub use input::HsInput;
pub use state::Hs;
pub use step::MOST_ITEMS;
