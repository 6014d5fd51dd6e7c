//! Workers that do a list of jobs, each job once, and give the results in the order of the jobs. Which worker does which job is
//! drawn from one word that threads change together, the claim board.
#![tactic(auto)]

mod board;
mod claim;
mod crew;
mod draw;
pub mod laws;
mod results;
mod row;
mod run;
mod seats;
mod task;
mod way;
mod work;

pub use crew::Crew;
pub use task::{Scratch, Task};
pub use way::Way;
