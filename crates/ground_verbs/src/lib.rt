//! The verbs of groundkit: what its words ask for, and the one call that does it.
#![tactic(auto)]

mod asked;
mod describing;
mod verbs;

pub use asked::{Asked, Description, Page};
pub use verbs::{carry_out, groundkit};
