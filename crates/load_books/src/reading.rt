//! A whole book.
ghost use Rattle.std.specs.Prelude.{◌≡◌, ◌<◌, ◌+◌, ◌^◌, length, map, true, None, Some, IfOk, MatchOption};
ghost use Rattle.row_forms.specs.Words.{words};
ghost use Rattle.telecommands.specs.Commands.{are_good};
ghost use Rattle.table_forms.specs.Layouts.{are_layouts};
ghost use Rattle.load_texts.specs.Headers.{is_header};
ghost use Rattle.table_texts.specs.Lines.{kept_of};
ghost use Rattle.load_books.specs.Files.{file_made, AreAccepted};
ghost use Rattle.load_books.specs.Contents.{held_by};
ghost use Rattle.load_books.specs.Books.{name_alone, head_said, planned, book_said, is_book_text, head_of, GivesHead, GivesBook};

use crate::contents::{BookParts, read_parts};
use crate::cuts::{behind_word, cut_front};
use crate::fault::{BookError, BookFault, BookReason};
use crate::files::{BookFile, MOST, make_files};
use crate::forms::BookForms;
use crate::scenarios::{make_scenario, text_epoch};
use crate::titles::is_part_name;
use row_forms::split_word;
use std::alloc::Global;
use table_texts::next_line;

/// What a book says: its name, its files in the order of their parts, and the scenario of its plan.
#[derive(Debug, Drop)]
pub struct Book<'a> {
    pub name: &'a [u8],
    pub files: Vec<BookFile<'a>>,
    pub scenario: Vec<u8>,
}

/// The first line of a book: its number, and the book's name.
#[derive(Clone, Copy, Debug)]
struct BookHead<'a> {
    number: u32,
    name: &'a [u8],
}

/// The name of a book, as the words behind `book` say it.
fn book_name(behind: &[u8]) -> Option<&[u8]>
    ensures { MatchOption result (name_alone (words behind.now)
        ≡ None) (λ name. name_alone (words behind.now) ≡ Some name.now) }
{
    let Some((name, rest)) = split_word(behind) else {
        return None;
    };
    if split_word(rest).is_some() || !is_part_name(name) {
        return None;
    }
    Some(name)
}

/// Reads the lines in front of a book's first part.
fn read_head(text: &[u8]) -> Result<BookHead<'_>, BookFault>
    requires { 1 + length text.now < 2 ^ 32 }
    ensures { GivesHead (head_said (kept_of 1 text.now)) result }
{
    let Some(line) = next_line(text, 1) else {
        return Err(BookFault::Line(1, BookReason::Book));
    };
    let Some(behind) = behind_word(b"book", line.bytes) else {
        return Err(BookFault::Line(line.number, BookReason::Book));
    };
    let Some(name) = book_name(behind) else {
        return Err(BookFault::Line(line.number, BookReason::Book));
    };
    match next_line(line.rest, line.number + 1) {
        Some(other) => Err(BookFault::Line(other.number, BookReason::Part)),
        None => Ok(BookHead {
            number: line.number,
            name,
        }),
    }
}

/// Makes the files and the scenario of a book's parts.
fn make_book<'a>(
    alloc: Global,
    forms: &BookForms<'_>,
    head: &BookHead<'a>,
    parts: &BookParts<'a>,
) -> Result<Book<'a>, BookError>
    requires commands { are_good forms.now.commands.now ≡ true }
    requires layouts { are_layouts forms.now.layouts.now ≡ true }
    requires fields { is_header forms.now.fields.now ≡ true }
    ensures said { GivesBook (planned forms.now (head_of head.now) (held_by parts.now)) result }
    ensures accepted { IfOk result (λ book. AreAccepted (map file_made book.files.items)) }
{
    let Some(plan) = parts.plan else {
        let fault = BookFault::Line(head.number, BookReason::Planless);
        return Err(BookError::Book(fault));
    };
    if plan.text.len() > MOST {
        let fault = BookFault::Line(plan.number, BookReason::Long);
        return Err(BookError::Book(fault));
    }
    let epoch = text_epoch(plan.text);
    let files = match make_files(alloc, forms, epoch, parts.files.as_slice()) {
        Ok(files) => files,
        Err(error) => return Err(error),
    };
    match make_scenario(alloc, forms.commands, parts.files.as_slice(), &plan) {
        Ok(scenario) => Ok(Book {
            name: head.name,
            files,
            scenario,
        }),
        Err(error) => Err(error),
    }
}

/// Reads a book (docs/BOOKS.md): one text whose parts are tables, loads and a plan. Its files are those that the parts say, in the parts'
/// order, and its scenario that of the plan, in which the names of files give way to their numbers. The first fault is told by the line of
/// the book: of the lines that begin parts, else of the files in their order, else of the plan; then nothing is given.
pub fn read_book<'a>(
    alloc: Global,
    forms: &BookForms<'_>,
    text: &'a [u8],
) -> Result<Book<'a>, BookError>
    requires commands { are_good forms.now.commands.now ≡ true }
    requires layouts { are_layouts forms.now.layouts.now ≡ true }
    requires fields { is_header forms.now.fields.now ≡ true }
    requires short { 1 + length text.now < 2 ^ 32 }
    ensures said { GivesBook (book_said forms.now text.now) result }
    ensures accepted { IfOk result (λ book. AreAccepted (map file_made book.files.items)) }
{
    let front = cut_front(text, 1);
    let head = match read_head(front.text) {
        Ok(head) => head,
        Err(fault) => return Err(BookError::Book(fault)),
    };
    match read_parts(alloc, front.part) {
        Ok(parts) => make_book(alloc, forms, &head, &parts),
        Err(error) => Err(error),
    }
}

/// Whether a text is a book: whether its first line that says something begins with `book`.
#[tactic(auto, unfolding(crate::specs::Books::is_book_text))]
pub fn is_book_text(text: &[u8]) -> bool
    requires { 1 + length text.now < 2 ^ 32 }
    ensures { result ≡ is_book_text text.now }
{
    match next_line(text, 1) {
        Some(line) => behind_word(b"book", line.bytes).is_some(),
        None => false,
    }
}
