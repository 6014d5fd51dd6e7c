//! What a log holds in all, in words, and which of it the words of an operator allow.
#![tactic(auto)]

mod allow_words;
mod allowed;
mod counted;
mod summary;

pub use allow_words::refused_allow;
pub use allowed::unwanted_of;
pub use summary::summary_of;
