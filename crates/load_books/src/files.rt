//! The files of a book.
ghost use Rattle.std.specs.Prelude.{◌≡◌, ◌<◌, ◌+◌, ◌^◌, length, map, true, IfOk};
ghost use Rattle.telecommands.specs.Commands.{are_good};
ghost use Rattle.table_forms.specs.Layouts.{are_layouts};
ghost use Rattle.table_forms.specs.Reading.{table_said};
ghost use Rattle.load_texts.specs.Headers.{is_header};
ghost use Rattle.load_books.specs.Contents.{file_text};
ghost use Rattle.load_books.specs.Files.{as_table, load_filed, file_said, files_said, file_made, IsAccepted, AreAccepted, GivesBytes, GivesFiles};

use crate::contents::FilePart;
use crate::fault::{BookError, BookFault, BookReason};
use crate::forms::BookForms;
use crate::lines::{book_line, load_fault, table_fault};
use crate::titles::FileKind;
use load_texts::{asked_file, read_load};
use row_forms::Field;
use std::alloc::Global;
use table_forms::{TextForms, read_table};

/// How many bytes a part has at most.
pub(crate) const MOST: usize = 16_777_216;

/// A file of a book: a table's, or one to be loaded.
#[derive(Debug, Drop)]
pub struct BookFile<'a> {
    pub kind: FileKind,
    pub name: &'a [u8],
    /// What `read_file` accepts.
    pub bytes: Vec<u8>,
}

/// Makes the file of a table.
fn make_table(
    alloc: Global,
    forms: &TextForms<'_>,
    part: &FilePart<'_>,
) -> Result<Vec<u8>, BookError>
    requires commands { are_good forms.now.commands.now ≡ true }
    requires layouts { are_layouts forms.now.layouts.now ≡ true }
    requires short { 1 + length part.now.text.now < 2 ^ 32 }
    ensures said { GivesBytes (as_table part.now.number (table_said forms.now part.now.text.now))
        result }
    ensures accepted { IfOk result (λ bytes. IsAccepted FileKind.Table bytes.items) }
{
    match read_table(alloc, forms, part.text) {
        Ok(bytes) => Ok(bytes),
        Err(table_forms::ReadError::Memory(error)) => Err(BookError::Memory(error)),
        Err(table_forms::ReadError::Fault(fault)) => {
            let fault = table_fault(part.number, fault);
            Err(BookError::Book(BookFault::Table(part.number, fault)))
        }
    }
}

/// Makes a file to be loaded.
fn make_load(alloc: Global, fields: &[Field], part: &FilePart<'_>) -> Result<Vec<u8>, BookError>
    requires fields { is_header fields.now ≡ true }
    requires short { 1 + length part.now.text.now < 2 ^ 32 }
    ensures said { GivesBytes (load_filed fields.now part.now.number part.now.text.now) result }
    ensures accepted { IfOk result (λ bytes. IsAccepted FileKind.Load bytes.items) }
{
    if let Some(asked) = asked_file(part.text) {
        let line = book_line(part.number, asked.line);
        return Err(BookError::Book(BookFault::Line(line, BookReason::Asks)));
    }
    match read_load(alloc, fields, &[], part.text) {
        Ok(bytes) => Ok(bytes),
        Err(load_texts::ReadError::Memory(error)) => Err(BookError::Memory(error)),
        Err(load_texts::ReadError::Fault(fault)) => {
            let fault = load_fault(part.number, fault);
            Err(BookError::Book(BookFault::Load(part.number, fault)))
        }
    }
}

/// Makes the file of a part, with times counted from `epoch`.
fn make_file(
    alloc: Global,
    forms: &BookForms<'_>,
    epoch: Option<u32>,
    part: &FilePart<'_>,
) -> Result<Vec<u8>, BookError>
    requires commands { are_good forms.now.commands.now ≡ true }
    requires layouts { are_layouts forms.now.layouts.now ≡ true }
    requires fields { is_header forms.now.fields.now ≡ true }
    ensures said { GivesBytes (file_said forms.now epoch (file_text part.now)) result }
    ensures accepted { IfOk result (λ bytes. IsAccepted part.now.kind bytes.items) }
{
    if part.text.len() > MOST {
        let fault = BookFault::Line(part.number, BookReason::Long);
        return Err(BookError::Book(fault));
    }
    match part.kind {
        FileKind::Table => {
            let forms = TextForms {
                epoch,
                commands: forms.commands,
                layouts: forms.layouts,
            };
            make_table(alloc, &forms, part)
        }
        FileKind::Load => make_load(alloc, forms.fields, part),
    }
}

/// Makes the files of parts, in their order, with times counted from `epoch`.
pub(crate) fn make_files<'a>(
    alloc: Global,
    forms: &BookForms<'_>,
    epoch: Option<u32>,
    parts: &[FilePart<'a>],
) -> Result<Vec<BookFile<'a>>, BookError>
    requires commands { are_good forms.now.commands.now ≡ true }
    requires layouts { are_layouts forms.now.layouts.now ≡ true }
    requires fields { is_header forms.now.fields.now ≡ true }
    ensures said { GivesFiles (files_said forms.now epoch (map file_text parts.now)) result }
    ensures accepted { IfOk result (λ files. AreAccepted (map file_made files.items)) }
{
    let mut files = Vec::new(alloc);
    for part in parts {
        let bytes = match make_file(alloc, forms, epoch, part) {
            Ok(bytes) => bytes,
            Err(error) => return Err(error),
        };
        let file = BookFile {
            kind: part.kind,
            name: part.name,
            bytes,
        };
        match files.push(file) {
            Ok(()) => {}
            Err(error) => return Err(BookError::Memory(error.into())),
        }
    }
    Ok(files)
}
