//! Simulated flight applications, and crowds of them that are cycled on workers.
#![tactic(auto)]

mod crowd;
mod hanging;
pub mod laws;
mod listed;
mod own;
mod seat;
mod steady;
mod subject;

pub use crowd::Crowd;
pub use hanging::Hanging;
pub use listed::{Listed, PlanFault};
pub use own::{Own, own_subjects};
pub use steady::Steady;
pub use subject::Subject;
