//! A book on a shelf in memory, and the words that ask for its rehearsal.

ghost use Rattle.std.specs.Prelude.{◌≡◌, ◌<◌, ◌+◌, ◌^◌, length, true, IfOk};
ghost use Rattle.telecommands.specs.Commands.{are_good};
ghost use Rattle.table_forms.specs.Layouts.{are_layouts};
ghost use Rattle.load_texts.specs.Headers.{is_header};
ghost use Rattle.load_books.specs.Books.{book_made, book_said};
ghost use Rattle.book_rehearsals.specs.ShelvedBooks.{IsShelved, GivesShelved};

use crate::shelves::shelve_files;
use fsw_outside::{MemShelf, NoMemory};
use load_books::{Book, BookError, BookForms, read_book};
use rehearsal::Words;
use std::alloc::{AllocError, Global};

/// A book, and a shelf that has its scenario and its files.
#[derive(Drop)]
pub struct ShelvedBook<'a> {
    pub book: Book<'a>,
    pub shelf: MemShelf,
}

/// Puts a book on a shelf, and the names behind the words.
fn shelve<'a>(alloc: Global, book: Book<'a>, words: &mut Words) -> Result<ShelvedBook<'a>, NoMemory>
    ensures book { IfOk result (λ s. s.book ≡ book.entry) }
    ensures shelved { IfOk result (λ s. IsShelved (book_made s.book) words.old s.shelf words.new) }
{
    let mut shelf = MemShelf::new(alloc, &[])?;
    let scenario = book.scenario.as_slice();
    shelve_files(scenario, book.files.as_slice(), &mut shelf, words)?;
    Ok(ShelvedBook { book, shelf })
}

/// Puts the book that a text says on a shelf in memory: the scenario under the name 0, and the files under the names 1, 2 and so on in the
/// order of their parts; these names are put behind the words, as a rehearsal takes them. Or the first fault of the text.
pub fn shelve_book<'a>(
    alloc: Global,
    forms: &BookForms<'_>,
    text: &'a [u8],
    words: &mut Words,
) -> Result<ShelvedBook<'a>, BookError>
    requires commands { are_good forms.now.commands.now ≡ true }
    requires layouts { are_layouts forms.now.layouts.now ≡ true }
    requires fields { is_header forms.now.fields.now ≡ true }
    requires short { 1 + length text.now < 2 ^ 32 }
    ensures { GivesShelved (book_said forms.now text.now) words.old words.new result }
{
    let book = match read_book(alloc, forms, text) {
        Ok(book) => book,
        Err(error) => return Err(error),
    };
    match shelve(alloc, book, words) {
        Ok(shelved) => Ok(shelved),
        Err(NoMemory) => Err(BookError::Memory(AllocError)),
    }
}
