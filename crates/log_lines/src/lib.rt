//! Lines of the log, and what they say: one line, and a whole log that comes in pieces.
#![tactic(auto)]

mod fault;
pub mod laws;
mod line;
mod log_reader;
mod numbers;
mod parts;
mod reading;

pub use fault::{LineFault, LogFault};
pub use line::{LineItem, LogLine};
pub use log_reader::{Answer, Fed, LogReader};
pub use reading::read_line;
