//! What is odd in tables that are taken.
#![tactic(auto)]

mod adding;
mod commands;
mod dwelling;
mod finding;
pub mod laws;
mod names;
mod ranges;
mod sequences;
mod used;
mod warning;
mod watched;

pub use finding::find_warnings;
pub use names::find_unknown_names;
pub use ranges::find_split_ranges;
pub use warning::{Place, Warning};
