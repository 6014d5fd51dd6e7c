//! The actions of Health and Safety: resets up to a maximum, restarts, deletions, and message actions with their cooldowns.
#![tactic(auto)]

mod action;
mod answers;
pub mod laws;
mod messages;
mod state;

pub use action::Source;
pub use messages::hs_name;
pub use state::Actions;
