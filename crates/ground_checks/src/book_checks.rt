//! What is wrong with a book, in words.

ghost use Rattle.std.specs.Prelude.{◌≡◌, ◌⊎◌, ◌+◌, ◌<◌, ◌^◌, length, true, IfOk, IfErr};
ghost use Rattle.ground_files.specs.declared.verb_status.Status.TheVariants as statuses;
ghost use Rattle.load_books.specs.Books.{is_book_text};
ghost use Rattle.ground_checks.specs.Checked.{is_of_files};

use crate::checking::{earlier, seen_at, tell_count};
use crate::file_checks::{LookedFile, tell_faults, tell_file};
use crate::file_order::{SeenFile, warn_of_place};
use crate::map_files::MOST_TEXT;
use crate::scenario_names::{Known, known_names, known_of};
use ground_faults::{PartText, part_texts, scenario_map, tell_book, tell_line_ends};
use ground_files::{Status, tell_no_memory};
use ground_warnings::{PlacedText, warn_of_sends, warn_of_table};
use load_books::{Book, BookError, BookFile, book_forms, is_book_text, read_book};
use std::alloc::{AllocError, Global};
use std::str::from_utf8;

/// Whether bytes are the text of a book, and no more than one has.
pub(crate) fn is_book(bytes: &[u8]) -> bool
    ensures short { result ≡ true → 1 + length bytes.now < 2 ^ 32 }
    ensures book { result ≡ true → is_book_text bytes.now ≡ true }
{
    bytes.len() <= MOST_TEXT && is_book_text(bytes)
}

/// Tells why a book isn't read, of entries of its tables all that are refused, and answers the status.
pub(crate) fn tell_unread_book<R: Eprint + AllocGlobal>(
    rt: &R,
    name: &str,
    text: &[u8],
    error: &BookError,
) -> Status
    ensures { (result ≡ statuses.FileRefused) ⊎ (result ≡ statuses.NoMemory) }
{
    match error {
        BookError::Memory(_) => tell_no_memory(rt),
        BookError::Book(fault) => {
            tell_line_ends(rt, name, text);
            tell_book(rt, name, text, fault)
        }
    }
}

/// A book that is looked at: its files, the texts of its parts, and what its plan says.
#[derive(Drop)]
struct LookedBook<'a> {
    book: Book<'a>,
    parts: Vec<PartText<'a>>,
    known: Known,
}

/// A book with what its plan says.
fn with_plan<'a>(
    alloc: Global,
    book: Book<'a>,
    text: &'a [u8],
) -> Result<LookedBook<'a>, AllocError> {
    let Ok(map) = scenario_map(alloc, book.scenario.as_slice()) else {
        return Err(AllocError);
    };
    let known = known_of(alloc, map, book.scenario.as_slice())?;
    let parts = part_texts(alloc, text)?;
    Ok(LookedBook { book, parts, known })
}

/// A book that is looked at, or the status, once it was told why it is refused.
fn looked_book<'a, R: Eprint + AllocGlobal>(
    rt: &R,
    name: &str,
    text: &'a [u8],
) -> Result<LookedBook<'a>, Status>
    requires { 1 + length text.now < 2 ^ 32 }
    ensures { IfErr result (λ status. (status ≡ statuses.FileRefused)
        ⊎ (status ≡ statuses.NoMemory)) }
{
    let book = match read_book(rt.alloc(), &book_forms(), text) {
        Ok(book) => book,
        Err(error) => return Err(tell_unread_book(rt, name, text, &error)),
    };
    match with_plan(rt.alloc(), book, text) {
        Ok(looked) => Ok(looked),
        Err(_) => Err(tell_no_memory(rt)),
    }
}

/// The text of a file in the book of this name.
fn text_of<'b>(
    name: &'b str,
    parts: &[PartText<'b>],
    file: &BookFile<'_>,
) -> Option<PlacedText<'b>> {
    for part in parts {
        if part.name == file.name {
            return Some(PlacedText {
                name,
                before: part.line,
                text: part.text,
            });
        }
    }
    None
}

/// Looks at a file of a book, with the map of its own plan, and at its place behind others.
fn tell_part_file<'a, R: Eprint + AllocGlobal>(
    rt: &R,
    looked: &LookedBook<'_>,
    name: &str,
    file: &'a BookFile<'_>,
    seen: &mut Vec<SeenFile<'a>>,
) -> Result<Status, AllocError>
    ensures { IfOk result (λ status. is_of_files status ≡ true) }
{
    let part = from_utf8(file.name).unwrap_or("");
    let title = format!(in rt.alloc(); "{name}: {part}")?;
    let bytes = file.bytes.as_slice();
    let names = known_names(&looked.known);
    let placed = text_of(name, looked.parts.as_slice(), file);
    let status = tell_file(
        rt,
        Some(&looked.known.map),
        names,
        title.as_str(),
        placed,
        bytes,
    );
    let is_taken = status == Status::Done;
    let place = String::from_str(rt.alloc(), part)?;
    let one = seen_at(rt.alloc(), part, place, bytes, is_taken)?;
    if is_taken {
        warn_of_place(rt, title.as_str(), seen.as_slice(), &one);
    }
    seen.push(one)?;
    Ok(status)
}

/// Looks at the files of a book, with the map of its own plan. The first status that isn't `Done` stands.
fn tell_files<R: Eprint + AllocGlobal>(
    rt: &R,
    looked: &LookedBook<'_>,
    name: &str,
) -> Result<Status, AllocError>
    ensures { IfOk result (λ status. is_of_files status ≡ true) }
{
    let files = looked.book.files.as_slice();
    let mut seen = Vec::new(rt.alloc());
    let mut status = tell_count(rt, name, files.len());
    'files: for file in files {
        let one = tell_part_file(rt, looked, name, file, &mut seen)?;
        status = earlier(status, one);
    }
    Ok(status)
}

/// Looks at a book: tells why it is refused, or what is odd in its tables and what the memory of its plan doesn't give.
pub(crate) fn tell_book_file<R: Eprint + AllocGlobal>(rt: &R, name: &str, text: &[u8]) -> Status
    requires { 1 + length text.now < 2 ^ 32 }
    ensures { is_of_files result ≡ true }
{
    let looked = match looked_book(rt, name, text) {
        Ok(looked) => looked,
        Err(status) => return status,
    };
    if warn_of_sends(rt, name, text).is_err() {
        return tell_no_memory(rt);
    }
    match tell_files(rt, &looked, name) {
        Ok(status) => status,
        Err(_) => tell_no_memory(rt),
    }
}

/// Tells the entries of a book's file whose reads the memory of the book's plan doesn't give, each with its line.
fn tell_reads<R: Eprint + AllocGlobal>(
    rt: &R,
    looked: &LookedBook<'_>,
    name: &str,
    kind: &str,
    file: &BookFile<'_>,
) -> Result<(), AllocError> {
    let part = from_utf8(file.name).unwrap_or("");
    let title = format!(in rt.alloc(); "{name}: {part}{kind}")?;
    let one = LookedFile {
        title: title.as_str(),
        placed: text_of(name, looked.parts.as_slice(), file),
        bytes: file.bytes.as_slice(),
    };
    tell_faults(rt, Some(&looked.known.map), &one)
}

/// Tells what the program refuses of a file of a book, which the memory of the book's plan doesn't give, and what is odd in it.
fn warn_of_part<R: Eprint + AllocGlobal>(
    rt: &R,
    looked: &LookedBook<'_>,
    name: &str,
    file: &BookFile<'_>,
) -> Result<(), AllocError> {
    tell_reads(rt, looked, name, ": warning", file)?;
    let map = Some(&looked.known.map);
    let names = known_names(&looked.known);
    let placed = text_of(name, looked.parts.as_slice(), file);
    warn_of_table(rt, map, names, name, placed, file.bytes.as_slice())
}

/// Tells what the program refuses of the files of a book and what is odd in them.
fn warn_of_files<R: Eprint + AllocGlobal>(
    rt: &R,
    looked: &LookedBook<'_>,
    name: &str,
) -> Result<(), AllocError> {
    'files: for file in looked.book.files.as_slice() {
        warn_of_part(rt, looked, name, file)?;
    }
    Ok(())
}

/// Tells what the program refuses of a book's files and what is odd in them, unless the book is refused.
fn warn_of_text<R: Eprint + AllocGlobal>(rt: &R, name: &str, text: &[u8]) -> Result<(), AllocError>
    requires { 1 + length text.now < 2 ^ 32 }
{
    let book = match read_book(rt.alloc(), &book_forms(), text) {
        Ok(book) => book,
        Err(BookError::Memory(error)) => return Err(error),
        Err(BookError::Book(_)) => return Ok(()),
    };
    let looked = with_plan(rt.alloc(), book, text)?;
    warn_of_sends(rt, name, text)?;
    warn_of_files(rt, &looked, name)
}

/// Tells what is odd in the tables of a book, with its lines and by its own plan, and the entries that the memory of the plan refuses. Of a
/// text that isn't a book, and of a book that is refused, nothing is told. Which of its tables stand by isn't told.
pub fn warn_of_book<R: Eprint + AllocGlobal>(rt: &R, name: &str, text: &[u8]) -> Status
    ensures { (result ≡ statuses.Done) ⊎ (result ≡ statuses.NoMemory) }
{
    if !is_book(text) {
        return Status::Done;
    }
    match warn_of_text(rt, name, text) {
        Ok(()) => Status::Done,
        Err(_) => tell_no_memory(rt),
    }
}

/// Tells the entries of all files of a book whose reads the memory of its plan doesn't give, each with its line.
fn tell_all_reads<R: Eprint + AllocGlobal>(
    rt: &R,
    looked: &LookedBook<'_>,
    name: &str,
) -> Result<(), AllocError> {
    'files: for file in looked.book.files.as_slice() {
        tell_reads(rt, looked, name, "", file)?;
    }
    Ok(())
}

/// Tells the entries of a book's tables whose reads the memory of its plan doesn't give, each with its line. Of a text that isn't a book, and of a
/// book that is refused, nothing is told.
pub fn tell_book_reads<R: Eprint + AllocGlobal>(
    rt: &R,
    name: &str,
    text: &[u8],
) -> Result<(), AllocError> {
    if !is_book(text) {
        return Ok(());
    }
    match read_book(rt.alloc(), &book_forms(), text) {
        Ok(book) => {
            let looked = with_plan(rt.alloc(), book, text)?;
            tell_all_reads(rt, &looked, name)
        }
        Err(_) => Ok(()),
    }
}
