//! Logs that are read from a file or a stream: line by line, and made into something.
#![tactic(auto)]

mod good_lines;
mod line_maker;
mod log_maker;
mod log_source;
mod other_files;
mod sentences;
mod strange_lines;
mod telling;

pub use good_lines::GoodLines;
pub use line_maker::LineMaker;
pub use log_maker::LogMaker;
pub use log_source::{LogSource, Next};
pub use telling::{Telling, write_made};
