//! Two logs, and the lines in which they differ in more than sequence counts.
#![tactic(auto)]

mod comparing;
mod frame_source;
mod frame_teller;
mod same_lines;

pub use comparing::{LogPair, compare_logs};
pub use frame_teller::Found;
