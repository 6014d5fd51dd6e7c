//! The lines of a table's text in which its entries stand.
#![tactic(auto)]

mod commands;
mod entries;
mod finding;
pub mod laws;
mod words;

pub use commands::command_line;
pub use entries::entry_line;
pub use finding::find_line;
pub use words::Sought;
