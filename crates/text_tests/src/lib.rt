//! Tests of the crates on words: that what a person writes is read, and what is told is shown, where there is memory. A call that gave up
//! for want of it would be proved too. The library itself is empty.
#![tactic(auto)]

#[cfg(test)]
mod tests;
