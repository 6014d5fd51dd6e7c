//! Scenarios shown as plans.
#![tactic(auto)]

mod check;
pub mod laws;
mod line;
mod plain;
mod plan;

pub use check::{ScenarioFault, is_scenario_text};
pub use plan::{ShowError, show_plan};
