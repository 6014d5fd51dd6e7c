//! Rehearsals of books: a book's files on a shelf in memory, and the verb that rehearses them.
#![tactic(auto)]

mod book_causes;
mod book_names;
mod epochs;
pub mod laws;
mod running_books;
mod shelved_books;
mod shelves;

pub use book_names::{epoch_of_run, names_book};
pub use running_books::run_book;
pub use shelved_books::{ShelvedBook, shelve_book};
