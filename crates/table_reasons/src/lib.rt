//! Why entries of tables are refused, in words.
#![tactic(auto)]

pub mod laws;
mod reasons;
mod told;

pub use reasons::{Place, ReasonWords, reason_words};
pub use told::tell_fault;
