//! Table files and files to be loaded: their headers, the kinds of tables, and the files that were handed over.
#![tactic(auto)]

mod fault;
mod files;
mod headers;
mod kinds;
mod known_file;
pub mod laws;
mod loading;

pub use fault::{AddFault, EntryFault, FileFault};
pub use files::Files;
pub use headers::{FileImage, read_file};
pub use kinds::TableKind;
pub use loading::{Entry, first_fault, read_in_place, store_entries};
