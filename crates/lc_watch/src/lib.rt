//! LC, the Limit Checker: watchpoints over telemetry, actionpoints over watchpoints, and the sequences that they start.
#![tactic(auto)]

mod actionpoints;
mod answers;
mod duty;
mod evaluation;
mod expressions;
mod housekeeping;
mod instructions;
pub mod laws;
mod loading;
mod messages;
mod newest;
mod outcomes;
mod points;
mod state;
mod step;
mod verdicts;
mod watchpoints;

pub use actionpoints::{ActRow, Adt};
pub use expressions::Word;
pub use loading::{load_adt, load_wdt};
pub use state::Lc;
pub use step::MOST_ITEMS;
pub use watchpoints::{Operator, WatchRow, Wdt};
