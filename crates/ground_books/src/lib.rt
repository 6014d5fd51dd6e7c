//! The verb of groundkit that writes the files of a book.
#![tactic(auto)]

mod book_files;
mod building;
mod manifest;

pub use book_files::{BuiltFile, built_files};
pub use building::{Build, build_book};
