//! A rehearsal: the words, the scenario's text piece by piece, the run of its frames, and the report.
#![tactic(auto)]

mod drill;
mod files;
pub mod laws;
mod rehearsing;
mod report;
mod run;
mod source;
mod text;
mod words;

pub use rehearsing::{vigil, vigil_with};
pub use report::{ErrorLine, Report, Status, line_of, tell};
pub use source::Source;
pub use words::{Plan, Words, accept};
