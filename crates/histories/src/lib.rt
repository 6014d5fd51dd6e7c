//! Words over lists of inputs, the oldest first, and their laws at one more element; histories whose entries are wakeups and
//! activations; and masks.
#![tactic(auto)]

mod bits;
pub mod laws;

pub use bits::bits_of;
