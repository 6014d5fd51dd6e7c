//! What the texts of tables mean: laws that tie the words of a table's text to the entries that its loader reads.
#![tactic(auto)]

pub mod rows;
pub mod texts;
pub mod worked;
