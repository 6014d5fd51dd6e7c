//! The outside of a flight bench: shelves of files, sinks of bytes, and the gate of each job.
#![tactic(auto)]

mod file_shelf;
mod mem_shelf;
mod mem_sink;
mod std_sink;
mod traits;

pub use file_shelf::FileShelf;
pub use mem_shelf::MemShelf;
pub use mem_sink::MemSink;
pub use std_sink::StdSink;
pub use traits::{Failed, Gate, NoMemory, OpenGate, Shelf, Sink};
