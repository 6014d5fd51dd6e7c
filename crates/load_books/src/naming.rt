//! The lines of a plan, in which names of files give way to their numbers.
ghost use Rattle.std.specs.Prelude.{◌≡◌, ◌<◌, ◌+◌, ◌^◌, ◌++◌, ◌∷◌, length, map, decimal, codes, OnOk};
ghost use Rattle.row_forms.specs.Words.{words};
ghost use Rattle.row_forms.specs.Rows.{with_front};
ghost use Rattle.plan_text.specs.Lines.{line_text};
ghost use Rattle.load_books.specs.Cuts.{whole_lines};
ghost use Rattle.load_books.specs.Contents.{file_text};
ghost use Rattle.load_books.specs.Naming.{numbered, name_said, word_shown, line_shown, onto_line, activate_others, load_others, send_others, line_said, plan_said, shown_text, GivesShown, GivesLine, GivesPlan};

use crate::contents::{FilePart, Place, error_on, find_place};
use crate::cuts::{behind_word, split_line};
use crate::fault::{BookError, BookReason, LineError};
use crate::lines::book_line;
use crate::titles::{FileKind, is_part_name};
use itoa::Buffer;
use plan_text::put_line;
use row_forms::{behind_key, split_word};
use std::alloc::AllocError;

/// A line of a plan: how it begins, a word as it stands or a key with the number that it stands for, and the words behind it.
#[derive(Clone, Copy, Debug)]
struct ShownLine<'a> {
    begin: &'a [u8],
    key: &'a [u8],
    word: &'a [u8],
    number: Option<usize>,
    rest: &'a [u8],
}

/// The number of a file of the kind that is wanted: among all files, or among loads.
fn numbered(wanted: FileKind, place: Option<Place>) -> Result<usize, BookReason>
    ensures { result ≡ numbered wanted place }
{
    let Some(place) = place else {
        return Err(BookReason::Unknown);
    };
    match (wanted, place.kind) {
        (FileKind::Table, FileKind::Table) => Ok(place.file),
        (FileKind::Table, FileKind::Load) => Err(BookReason::Activates),
        (FileKind::Load, FileKind::Table) => Err(BookReason::Loads),
        (FileKind::Load, FileKind::Load) => Ok(place.load),
    }
}

/// The number that a word stands for, where it is a name.
fn name_number(
    wanted: FileKind,
    files: &[FilePart<'_>],
    word: &[u8],
) -> Result<Option<usize>, BookReason>
    ensures { result ≡ name_said wanted (map file_text files.now) word.now }
{
    if !is_part_name(word) {
        return Ok(None);
    }
    match numbered(wanted, find_place(files, word)) {
        Ok(number) => Ok(Some(number)),
        Err(reason) => Err(reason),
    }
}

/// Appends the decimal digits of a file's number.
pub(crate) fn push_number(number: usize, out: &mut Vec<u8>) -> Result<(), AllocError>
    ensures { OnOk result (out.new.items ≡ out.old.items ++ decimal number) }
{
    let mut buffer = Buffer::new();
    out.extend_from_slice(buffer.format(number).as_bytes())
}

/// Appends a word as it stands, or behind a key the number that it stands for.
fn put_word(
    key: &[u8],
    word: &[u8],
    number: Option<usize>,
    out: &mut Vec<u8>,
) -> Result<(), AllocError>
    ensures { OnOk result (out.new.items ≡ out.old.items ++ word_shown key.now word.now number) }
{
    match number {
        None => out.extend_from_slice(word),
        Some(number) => {
            out.extend_from_slice(key)?;
            push_number(number, out)
        }
    }
}

/// Appends a line of a plan.
fn put_shown(line: &ShownLine<'_>, out: &mut Vec<u8>) -> Result<(), AllocError>
    ensures { OnOk result (out.new.items ≡ out.old.items ++ shown_text line.now) }
{
    out.extend_from_slice(line.begin)?;
    put_word(line.key, line.word, line.number, out)?;
    put_line(&[], line.rest, out)
}

/// A line without names, by its first word and the others.
fn plain_line<'a>(first: &'a [u8], others: &'a [u8]) -> ShownLine<'a>
    ensures { shown_text result ≡ line_text (first.now ∷ words others.now) }
{
    ShownLine {
        begin: first,
        key: &[],
        word: &[],
        number: None,
        rest: others,
    }
}

/// `activate` and the words behind it.
fn show_activation<'a>(
    files: &[FilePart<'_>],
    others: &'a [u8],
) -> Result<ShownLine<'a>, BookReason>
    ensures { GivesShown (line_shown (onto_line (codes "activate")
        (activate_others (map file_text files.now) (words others.now)))) result }
{
    let Some((word, rest)) = split_word(others) else {
        return Ok(plain_line(b"activate", others));
    };
    match name_number(FileKind::Table, files, word) {
        Ok(number) => Ok(ShownLine {
            begin: b"activate ",
            key: &[],
            word,
            number,
            rest,
        }),
        Err(reason) => Err(reason),
    }
}

/// `send mm.load_file` and the words behind it.
fn show_loading<'a>(files: &[FilePart<'_>], others: &'a [u8]) -> Result<ShownLine<'a>, BookReason>
    ensures { GivesShown (line_shown (onto_line (codes "send")
        (onto_line (codes "mm.load_file") (load_others (map file_text files.now)
        (words others.now))))) result }
{
    let Some((word, rest)) = split_word(others) else {
        return Ok(plain_line(b"send mm.load_file", others));
    };
    let Some(name) = behind_key("load", word) else {
        return Ok(ShownLine {
            begin: b"send mm.load_file ",
            key: &[],
            word,
            number: None,
            rest,
        });
    };
    match name_number(FileKind::Load, files, name) {
        Ok(number) => Ok(ShownLine {
            begin: b"send mm.load_file ",
            key: b"load=",
            word,
            number,
            rest,
        }),
        Err(reason) => Err(reason),
    }
}

/// `send` and the words behind it.
fn show_sending<'a>(files: &[FilePart<'_>], others: &'a [u8]) -> Result<ShownLine<'a>, BookReason>
    ensures { GivesShown (line_shown (onto_line (codes "send")
        (send_others (map file_text files.now) (words others.now)))) result }
{
    match behind_word(b"mm.load_file", others) {
        Some(rest) => show_loading(files, rest),
        None => Ok(plain_line(b"send", others)),
    }
}

/// A line of a plan that is none of these.
fn show_other(line: &[u8]) -> ShownLine<'_>
    ensures { shown_text result ≡ line_text (words line.now) }
{
    match split_word(line) {
        Some((first, others)) => plain_line(first, others),
        None => ShownLine {
            begin: &[],
            key: &[],
            word: &[],
            number: None,
            rest: line,
        },
    }
}

/// A line of a plan, with numbers in place of names.
fn show_line<'a>(files: &[FilePart<'_>], line: &'a [u8]) -> Result<ShownLine<'a>, BookReason>
    ensures { GivesShown (line_shown (line_said (map file_text files.now)
        (words line.now))) result }
{
    if let Some(others) = behind_word(b"activate", line) {
        return show_activation(files, others);
    }
    match behind_word(b"send", line) {
        Some(others) => show_sending(files, others),
        None => Ok(show_other(line)),
    }
}

/// Appends a line of a plan, with numbers in place of names.
fn put_replaced(files: &[FilePart<'_>], line: &[u8], out: &mut Vec<u8>) -> Result<(), LineError>
    ensures { GivesLine (with_front out.old.items
        (line_shown (line_said (map file_text files.now) (words line.now)))) out.new.items result }
{
    let shown = match show_line(files, line) {
        Ok(shown) => shown,
        Err(reason) => return Err(LineError::Because(reason)),
    };
    match put_shown(&shown, out) {
        Ok(()) => Ok(()),
        Err(error) => Err(LineError::Memory(error)),
    }
}

/// Appends the lines of the plan whose part begins at this line of the book, with numbers in place of names.
pub(crate) fn put_plan(
    part: u32,
    files: &[FilePart<'_>],
    text: &[u8],
    out: &mut Vec<u8>,
) -> Result<(), BookError>
    requires { 1 + length text.now < 2 ^ 32 }
    ensures { GivesPlan (with_front out.old.items
        (plan_said part (map file_text files.now) 1 (whole_lines text.now))) out.new.items result }
{
    let mut rest = text;
    let mut number = 1;
    'lines: while !rest.is_empty() {
        let line = split_line(rest);
        match put_replaced(files, line.bytes, out) {
            Ok(()) => {
                rest = line.rest;
                number += 1;
            }
            Err(error) => return Err(error_on(book_line(part, number), error)),
        }
    }
    Ok(())
}
