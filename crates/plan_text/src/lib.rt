//! Plans: a load as text, with telecommands in words and with times, and the scenario that it is.
#![tactic(auto)]

mod fault;
pub mod laws;
mod line;
mod plan;
mod stage;
mod times;
mod verb;
mod writing;

pub use fault::{LineError, LineReason, PlanError, PlanFault, PlanReason};
pub use line::{last_word, no_word, read_sent, word_fault};
pub use plan::{error_on, make_scenario};
pub use times::{frame_of_time, read_time};
pub use writing::{put_line, put_sent};
