//! The words of groundkit's command line: its verbs, and what stands behind them.
#![tactic(auto)]

mod arguments;
mod command_line;
mod logs;
mod making;
mod pages;
mod running;
mod verbs;

pub use command_line::command;
pub use verbs::Verb;
