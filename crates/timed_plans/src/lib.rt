//! Plans whose lines stand in any order of time, with spans, periods and counters, and the scenarios that they are.
#![tactic(auto)]

mod check;
mod course;
mod dated;
mod header;
mod heading;
mod kind;
pub mod laws;
mod line;
mod page;
mod plan;
mod scheduled;
mod stage;
mod times;
mod words;

pub use plan::schedule_plan;
