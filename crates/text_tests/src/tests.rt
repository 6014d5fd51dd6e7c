//! One file a crate.

mod books;
mod command_words;
mod dated;
mod lines;
mod loads;
mod plans;
mod rows;
mod sentences;
mod shown;
mod tables;
mod telemetry_words;
mod timed;
mod told_lines;
mod warnings;
