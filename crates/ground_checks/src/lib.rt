//! The verb that looks at files as the program does: their faults, what the memory of a scenario refuses, what is odd in them, and their order.
#![tactic(auto)]

mod book_checks;
mod checking;
mod file_checks;
mod file_order;
mod finding;
pub mod laws;
mod map_files;
mod map_words;
mod order_warnings;
mod read_faults;
mod scenario_names;

pub use book_checks::{tell_book_reads, warn_of_book};
pub use checking::{Check, check_files};
pub use finding::{FoundFault, find_faults};
pub use order_warnings::warn_of_order;
