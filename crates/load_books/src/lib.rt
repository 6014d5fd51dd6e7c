//! Books: one text that holds a whole load, as files of tables, files to be loaded, and the scenario of its plan.
#![tactic(auto)]

mod contents;
mod cuts;
mod fault;
mod files;
mod forms;
pub mod laws;
mod lines;
mod manifest;
mod naming;
mod reading;
mod scenarios;
mod titles;

pub use fault::{BookError, BookFault, BookReason};
pub use files::BookFile;
pub use forms::{BookForms, book_forms};
pub use manifest::book_manifest;
pub use reading::{Book, is_book_text, read_book};
pub use scenarios::text_epoch;
pub use titles::FileKind;
