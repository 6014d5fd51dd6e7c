//! A frame of the bench: upsets, wakeups, items in order, pipes, landing, lines.
#![tactic(auto)]

mod applications;
mod bench;
mod cut;
mod idling;
mod in_place;
mod kind;
mod lines;
mod memory;
mod opening;
mod steps;
mod wires;
mod yielded;

pub use active_tables::{OpenFault, Tables, TablesFault};
pub use bench::Bench;
pub use cut::Cut;
