//! Dates of the Gregorian calendar, and the seconds of a clock that is bound to one of them.
#![tactic(auto)]

mod date;
mod day;
mod epoch;
mod fault;
pub mod laws;
mod reading;

pub use date::{Date, TimeOfDay};
pub use epoch::{Epoch, second_said};
pub use fault::DateFault;
pub use reading::read_instant;
