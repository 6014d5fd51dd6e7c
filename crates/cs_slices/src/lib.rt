//! CS: background checksums of memory, slice by slice.
#![tactic(auto)]

mod answers;
mod duty;
mod giving;
mod housekeeping;
mod instructions;
pub mod laws;
mod loading;
mod messages;
mod passing;
mod reading;
mod segments;
mod state;
mod step;
mod switches;
mod tally;
mod verdicts;

pub use loading::load_segments;
pub use segments::{Segment, Segments};
pub use state::Cs;
pub use step::MOST_ITEMS;
