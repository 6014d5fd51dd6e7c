//! The parts of a book, as its text has them.

use packet_forms::{behind, front};
use row_forms::split_word;
use std::alloc::{AllocError, Global};

/// A line of a text that says something: its number, where it begins in the text, and its bytes without the LF.
#[derive(Clone, Copy, Debug)]
struct SaidLine<'a> {
    number: u32,
    start: usize,
    bytes: &'a [u8],
}

/// Whether a line says something.
fn is_said(line: &[u8]) -> bool {
    match split_word(line) {
        Some((word, _)) => word.first() != Some(&b'#'),
        None => false,
    }
}

/// The lines of a text that say something; what stands behind the last LF is none.
fn said_lines(alloc: Global, text: &[u8]) -> Result<Vec<SaidLine<'_>>, AllocError> {
    let mut lines = Vec::new(alloc);
    let mut start: usize = 0;
    let mut number: u32 = 1;
    'bytes: for place in 0..text.len() {
        if text[place] == b'\n' {
            let bytes = front(behind(text, start), place.saturating_sub(start));
            if is_said(bytes) {
                lines.push(SaidLine {
                    number,
                    start,
                    bytes,
                })?;
            }
            start = place.saturating_add(1);
            number = number.saturating_add(1);
        }
    }
    Ok(lines)
}

/// A part of a book: the number of the line that begins it, whether it is a table, its name, which a plan has none of, and the
/// text behind that line, up to the next part.
#[derive(Clone, Copy, Debug)]
pub struct PartText<'a> {
    pub line: u32,
    pub is_table: bool,
    pub name: &'a [u8],
    pub text: &'a [u8],
}

/// What stands behind a word, where a line begins with it.
fn behind_word<'a>(wanted: &[u8], line: &'a [u8]) -> Option<&'a [u8]> {
    match split_word(line) {
        Some((word, rest)) if word == wanted => Some(rest),
        _ => None,
    }
}

/// The lines of a book that begin its parts.
fn title_lines(alloc: Global, text: &[u8]) -> Result<Vec<SaidLine<'_>>, AllocError> {
    let lines = said_lines(alloc, text)?;
    let mut titles = Vec::new(alloc);
    for line in lines.as_slice() {
        if behind_word(b"part", line.bytes).is_some() {
            titles.push(*line)?;
        }
    }
    Ok(titles)
}

/// What the line that begins a part says of it: whether it is a table, and its name.
fn title_of(line: &[u8]) -> (bool, &[u8]) {
    let Some(rest) = behind_word(b"part", line) else {
        return (false, &[]);
    };
    let Some((kind, rest)) = split_word(rest) else {
        return (false, &[]);
    };
    let is_table = kind == b"table".as_slice();
    match split_word(rest) {
        Some((name, _)) => (is_table, name),
        None => (is_table, &[]),
    }
}

/// The part that begins at a line, where the next one begins at `end` of the text.
fn part_of<'a>(text: &'a [u8], title: &SaidLine<'a>, end: usize) -> PartText<'a> {
    let start = title
        .start
        .saturating_add(title.bytes.len())
        .saturating_add(1);
    let (is_table, name) = title_of(title.bytes);
    PartText {
        line: title.number,
        is_table,
        name,
        text: behind(front(text, end), start),
    }
}

/// The parts of a book in their order.
pub fn part_texts(alloc: Global, text: &[u8]) -> Result<Vec<PartText<'_>>, AllocError> {
    let titles = title_lines(alloc, text)?;
    let mut parts = Vec::new(alloc);
    'titles: for place in 0..titles.len() {
        let end = match titles.get(place + 1) {
            Some(next) => next.start,
            None => text.len(),
        };
        parts.push(part_of(text, &titles[place], end))?;
    }
    Ok(parts)
}
