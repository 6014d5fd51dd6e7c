//! The log in sentences: what a line says, in words that need no document.
#![tactic(auto)]

pub mod laws;
mod packets;
mod sentences;
mod vocabulary;

pub use packets::show_packet;
pub use sentences::{push_time, show_line};
pub use vocabulary::Vocabulary;
