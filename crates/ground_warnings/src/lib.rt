//! What `groundkit` tells of tables that are odd, with the lines of their texts.
#![tactic(auto)]

mod action_packets;
mod command_sizes;
mod sent_packets;
mod sequence_packets;
mod telling;
mod warning_lines;

pub use sent_packets::warn_of_sends;
pub use telling::{PlacedText, entry_line_number, warn_of_table, warn_of_text};
pub use warning_lines::warning_line;
