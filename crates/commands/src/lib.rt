//! The step of one packet of a command pipe, which the applications share: its verdict, what it asks for, both counts, and the event
//! that answers it.
#![tactic(auto)]

mod commanded;
mod counting;
pub mod laws;
mod step;
mod verdicts;

pub use commanded::{Command, Commanded, Reason, Terms};
pub use counting::{note_accepted, note_refused, start_counts};
pub use step::handle_all;
pub use verdicts::{CodeRow, Verdict};
