//! Telecommands in words, and the packets that they are.
#![tactic(auto)]

mod command;
mod dictionary;
mod fault;
pub mod laws;
mod reading;
mod showing;

pub use command::Command;
pub use dictionary::commands;
pub use fault::{CommandFault, ReadError};
pub use reading::read_command;
pub use showing::show_command;
