//! The bytes to be loaded, as the lines of a text say them.
ghost use Rattle.std.specs.Prelude.{◌≡◌, ◌<◌, ◌+◌, ◌^◌, ℕ, List, [], length, true, false, Some, None, MatchOption};
ghost use Rattle.row_forms.specs.Words.{words, hex_said};
ghost use Rattle.row_forms.specs.Rows.{with_front};
ghost use Rattle.table_texts.specs.Lines.{kept_of};
ghost use Rattle.table_texts.specs.Endings.{ended, behind_first};
ghost use Rattle.table_texts.specs.Sequences.{some_bytes};
ghost use Rattle.load_texts.specs.Loaded.{as_load, on_line, line_said, loaded_said, path_said, file_asked, behind_named, body_said, named_by, GivesLoaded};

use crate::fault::{LoadFault, ReadError, line_error, word_error};
use crate::headers::behind_word;
use row_forms::{Reason, behind_key, read_block, split_word};
use table_texts::{LineFault, next_line};

/// The file that a text asks for: the number of the line, and the file's name.
#[derive(Clone, Copy, Debug)]
pub struct NamedFile<'a> {
    pub line: u32,
    pub path: &'a [u8],
}

/// The name of the file that a line asks for.
fn path_in(line: &[u8]) -> Option<&[u8]>
    ensures { MatchOption result
        (path_said (words line.now) ≡ None)
        (λ path. path_said (words line.now) ≡ Some path.now) }
{
    match split_word(line) {
        Some((word, _)) => behind_key("file", word),
        None => None,
    }
}

/// The file whose bytes a text asks for in its second line by a word `file=PATH`, where it does. Whoever calls `read_load` gets them.
pub fn asked_file(text: &[u8]) -> Option<NamedFile<'_>>
    requires { 1 + length text.now < 2 ^ 32 }
    ensures { MatchOption result
        (file_asked text.now ≡ None)
        (λ file. file_asked text.now ≡ Some (named_by file)) }
{
    let Some(first) = next_line(text, 1) else {
        return None;
    };
    let Some(second) = next_line(first.rest, first.number + 1) else {
        return None;
    };
    match path_in(second.bytes) {
        Some(path) => Some(NamedFile {
            line: second.number,
            path,
        }),
        None => None,
    }
}

/// What stands behind a word `file=PATH`, where the line begins with one.
fn behind_path(line: &[u8]) -> Option<&[u8]>
    ensures { MatchOption result
        (path_said (words line.now) ≡ None)
        (λ behind. ((path : List ℕ) × (path_said (words line.now) ≡ Some path))
        × (words behind.now ≡ behind_first (words line.now))) }
{
    match split_word(line) {
        Some((word, behind)) => match behind_key("file", word) {
            Some(_) => Some(behind),
            None => None,
        },
        None => None,
    }
}

/// Reads the bytes to be loaded, up to the line `end`, and appends them. `named` are those of the file that the first line may ask for.
pub(crate) fn read_body(
    named: &[u8],
    line: u32,
    text: &[u8],
    out: &mut Vec<u8>,
) -> Result<(), ReadError>
    requires { line + length text.now < 2 ^ 32 }
    ensures { GivesLoaded (with_front out.old.items
        (body_said named.now line (kept_of line text.now))) out.new.items result }
{
    match next_line(text, line) {
        Some(next) => match behind_path(next.bytes) {
            Some(behind) => read_named(named, next.number, behind, next.rest, out),
            None => read_lines(line, text, out),
        },
        None => read_lines(line, text, out),
    }
}

/// Appends the bytes of a named file, and those of the lines behind the one that asks for it.
fn read_named(
    named: &[u8],
    line: u32,
    behind: &[u8],
    rest: &[u8],
    out: &mut Vec<u8>,
) -> Result<(), ReadError>
    requires { line + 1 + length rest.now < 2 ^ 32 }
    ensures { GivesLoaded (with_front out.old.items
        (behind_named named.now line (words behind.now) (kept_of (line + 1) rest.now)))
        out.new.items result }
{
    if split_word(behind).is_some() {
        return Err(word_error(line, 2, Reason::Extra));
    }
    match out.extend_from_slice(named) {
        Ok(()) => read_lines(line + 1, rest, out),
        Err(error) => Err(ReadError::Memory(error)),
    }
}

/// Reads lines of bytes up to the line `end`, and appends the bytes.
fn read_lines(line: u32, text: &[u8], out: &mut Vec<u8>) -> Result<(), ReadError>
    requires { line + length text.now < 2 ^ 32 }
    ensures { GivesLoaded (with_front out.old.items (loaded_said line (kept_of line text.now)))
        out.new.items result }
{
    let mut rest = text;
    let mut number = line;
    'lines: while let Some(next) = next_line(rest, number) {
        if let Some(behind) = behind_word(b"end", next.bytes) {
            return end_lines(next.number, behind, next.rest);
        }
        match read_line(next.number, next.bytes, out) {
            Ok(()) => {
                rest = next.rest;
                number = next.number + 1;
            }
            Err(error) => return Err(error),
        }
    }
    Err(line_error(number, LineFault::End))
}

/// Reads a line of bytes, and appends them.
fn read_line(number: u32, line: &[u8], out: &mut Vec<u8>) -> Result<(), ReadError>
    ensures { GivesLoaded (with_front out.old.items (line_said number (words line.now)))
        out.new.items result }
{
    let Some(behind) = behind_word(b"bytes", line) else {
        return Err(ReadError::Fault(LoadFault::Word(number)));
    };
    let Some((digits, rest)) = split_word(behind) else {
        return Err(word_error(number, 2, Reason::Missing));
    };
    match split_word(rest) {
        Some(_) => Err(word_error(number, 3, Reason::Extra)),
        None => read_digits(number, digits, out),
    }
}

/// Reads the hexadecimal digits of a line, and appends the bytes that they say.
fn read_digits(number: u32, digits: &[u8], out: &mut Vec<u8>) -> Result<(), ReadError>
    ensures { GivesLoaded (with_front out.old.items
        (on_line number (some_bytes (hex_said digits.now)))) out.new.items result }
{
    match read_block(digits, out) {
        Ok(true) => Ok(()),
        Ok(false) => Err(word_error(number, 2, Reason::Block)),
        Err(error) => Err(ReadError::Memory(error)),
    }
}

/// Ends a text: no word stands behind `end`, and no line that says anything.
fn end_lines(line: u32, behind: &[u8], rest: &[u8]) -> Result<(), ReadError>
    requires { line + 1 + length rest.now < 2 ^ 32 }
    ensures { (old : List ℕ) → GivesLoaded (with_front old
        (as_load (ended [] line (words behind.now) (kept_of (line + 1) rest.now)))) old result }
{
    if split_word(behind).is_some() {
        return Err(word_error(line, 2, Reason::Extra));
    }
    match next_line(rest, line + 1) {
        Some(next) => Err(line_error(next.number, LineFault::Behind)),
        None => Ok(()),
    }
}
