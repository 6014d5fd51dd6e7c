//! Tables as text: lines, entries by their numbers, and the bytes that they are.
#![tactic(auto)]

mod ending;
mod entries;
mod fault;
mod fronts;
pub mod laws;
mod layout;
mod lines;
mod sequences;
mod sequences_shown;
mod showing;

pub use entries::read_entries;
pub use fault::{LineFault, TextError, TextFault};
pub use layout::{Layout, TableForm};
pub use lines::{Line, next_line};
pub use sequences::{SequenceForm, read_sequence};
pub use sequences_shown::show_sequence;
pub use showing::show_entries;
