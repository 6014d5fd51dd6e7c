//! The files that are written of a book.

ghost use Rattle.std.specs.Prelude.{◌≡◌, ◌<◌, ◌+◌, ◌^◌, ◌++◌, ◌∷◌, [], length, map, true, IfOk, OnOk};
ghost use Rattle.telecommands.specs.Commands.{are_good};
ghost use Rattle.table_forms.specs.Layouts.{are_layouts};
ghost use Rattle.load_texts.specs.Headers.{is_header};
ghost use Rattle.load_books.specs.Files.{file_made};
ghost use Rattle.load_books.specs.Books.{book_made, book_said};
ghost use Rattle.ground_books.specs.Built.{built_seen, file_built, built_said, GivesBuilt};

use crate::manifest::{ending_of, files_manifest};
use load_books::{Book, BookError, BookFile, BookForms, read_book};
use std::alloc::{AllocError, Global};

/// A file that is written of a book: its name in the folder, and its bytes.
#[derive(Debug, Drop)]
pub struct BuiltFile {
    pub name: Vec<u8>,
    pub bytes: Vec<u8>,
}

/// A name and its ending.
fn whole_name(alloc: Global, name: &[u8], ending: &[u8]) -> Result<Vec<u8>, AllocError>
    ensures { IfOk result (λ whole. whole.items ≡ name.now ++ ending.now) }
{
    let mut whole = Vec::new(alloc);
    whole.extend_from_slice(name)?;
    whole.extend_from_slice(ending)?;
    Ok(whole)
}

/// Adds a file of this name.
fn add_file(name: Vec<u8>, bytes: Vec<u8>, out: &mut Vec<BuiltFile>) -> Result<(), AllocError>
    ensures { OnOk result (map built_seen out.new.items ≡ map built_seen out.old.items
        ++ (record { name = name.items; bytes = bytes.items }) ∷ []) }
{
    out.push(BuiltFile { name, bytes })?;
    Ok(())
}

/// Adds a file of the book.
fn add_part(alloc: Global, file: BookFile<'_>, out: &mut Vec<BuiltFile>) -> Result<(), AllocError>
    ensures { OnOk result (map built_seen out.new.items ≡ map built_seen out.old.items
        ++ file_built (file_made file.entry) ∷ []) }
{
    let name = whole_name(alloc, file.name, ending_of(file.kind))?;
    add_file(name, file.bytes, out)
}

/// Adds the files of the book's parts.
fn add_parts(
    alloc: Global,
    files: Vec<BookFile<'_>>,
    out: &mut Vec<BuiltFile>,
) -> Result<(), AllocError>
    ensures { OnOk result (map built_seen out.new.items ≡ map built_seen out.old.items
        ++ map file_built (map file_made files.entry.items)) }
{
    for file in files {
        add_part(alloc, file, out)?;
    }
    Ok(())
}

/// The files of a book, the scenario and the manifest.
fn files_of(alloc: Global, book: Book<'_>) -> Result<Vec<BuiltFile>, AllocError>
    ensures { IfOk result (λ files. map built_seen files.items
        ≡ built_said (book_made book.entry)) }
{
    let manifest = files_manifest(alloc, &book)?;
    let mut out = Vec::new(alloc);
    let Book {
        name,
        files,
        scenario,
    } = book;
    add_parts(alloc, files, &mut out)?;
    add_file(whole_name(alloc, name, b".scenario")?, scenario, &mut out)?;
    add_file(whole_name(alloc, name, b".manifest")?, manifest, &mut out)?;
    Ok(out)
}

/// The files that are written of a book's text: each table as `NAME.table` and each load as `NAME.load`, in the order of their parts, then
/// the scenario as `BOOKNAME.scenario` and the manifest as `BOOKNAME.manifest`; or the first fault of the text.
pub fn built_files(
    alloc: Global,
    forms: &BookForms<'_>,
    text: &[u8],
) -> Result<Vec<BuiltFile>, BookError>
    requires commands { are_good forms.now.commands.now ≡ true }
    requires layouts { are_layouts forms.now.layouts.now ≡ true }
    requires fields { is_header forms.now.fields.now ≡ true }
    requires short { 1 + length text.now < 2 ^ 32 }
    ensures { GivesBuilt (book_said forms.now text.now) result }
{
    let book = match read_book(alloc, forms, text) {
        Ok(book) => book,
        Err(error) => return Err(error),
    };
    match files_of(alloc, book) {
        Ok(files) => Ok(files),
        Err(error) => Err(BookError::Memory(error)),
    }
}
