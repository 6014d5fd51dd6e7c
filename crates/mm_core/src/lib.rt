//! MM: memory is read and written by command, as a value, as bytes and from files, and EEPROM regions are protected.
#![tactic(auto)]

mod answers;
mod duty;
mod housekeeping;
mod instructions;
pub mod laws;
mod messages;
mod reading;
mod state;
mod step;
mod verdicts;

pub use state::Mm;
pub use step::MOST_ITEMS;
