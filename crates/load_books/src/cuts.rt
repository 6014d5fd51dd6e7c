//! A book's text, cut in front of the lines that begin its parts.
ghost use Rattle.std.specs.Prelude.{◌≡◌, ◌<◌, ◌≤◌, ◌+◌, ◌^◌, ◌∷◌, ◌==◌, length, take, drop, false, IfSome, MatchOption};
ghost use Rattle.std.specs.List.{position};
ghost use Rattle.row_forms.specs.Words.{words};
ghost use Rattle.load_books.specs.Cuts.{whole_lines, bare, begins, cut_of, parts_from};

use packet_forms::{behind, front};
use row_forms::split_word;

/// A line of a text: its bytes without the LF, how many it has with it, and the text behind it.
#[derive(Clone, Copy, Debug)]
pub(crate) struct TextLine<'a> {
    pub(crate) bytes: &'a [u8],
    pub(crate) size: usize,
    pub(crate) rest: &'a [u8],
}

/// A line that begins a part: its number, what stands behind `part`, and the text behind the line.
#[derive(Clone, Copy, Debug)]
pub(crate) struct PartLine<'a> {
    pub(crate) number: u32,
    pub(crate) title: &'a [u8],
    pub(crate) rest: &'a [u8],
}

/// The lines of a text in front of the first part, and the line that begins it, where there is one.
#[derive(Clone, Copy, Debug)]
pub(crate) struct Front<'a> {
    pub(crate) text: &'a [u8],
    pub(crate) part: Option<PartLine<'a>>,
}

/// The place of the first LF.
fn first_end(text: &[u8]) -> Option<usize>
    ensures { result ≡ position (λ b. b == 10) text.now }
{
    text.iter().position(|b| *b == b'\n')
}

/// The first line of a text.
pub(crate) fn split_line(text: &[u8]) -> TextLine<'_>
    requires { 0 < length text.now }
    ensures line { whole_lines text.now ≡ take result.size text.now ∷ whole_lines result.rest.now }
    ensures bytes { bare (take result.size text.now) ≡ result.bytes.now }
    ensures rest { result.rest.now ≡ drop result.size text.now }
    ensures some { 0 < result.size }
    ensures few { result.size ≤ length text.now }
{
    match first_end(text) {
        Some(at) => TextLine {
            bytes: front(text, at),
            size: at + 1,
            rest: behind(text, at + 1),
        },
        None => TextLine {
            bytes: text,
            size: text.len(),
            rest: behind(text, text.len()),
        },
    }
}

/// What stands behind a word, where a line begins with it.
pub(crate) fn behind_word<'a>(wanted: &[u8], line: &'a [u8]) -> Option<&'a [u8]>
    ensures { MatchOption result
        (begins wanted.now (words line.now) ≡ false)
        (λ behind. words line.now ≡ wanted.now ∷ words behind.now) }
{
    match split_word(line) {
        Some((word, behind)) if word == wanted => Some(behind),
        _ => None,
    }
}

/// Cuts a text, whose first line has this number, in front of its first part.
pub(crate) fn cut_front(text: &[u8], number: u32) -> Front<'_>
    requires { number + length text.now < 2 ^ 32 }
    ensures front { (cut_of number text.now).front ≡ result.text.now }
    ensures parts { (cut_of number text.now).parts ≡ parts_from result.part }
    ensures room { IfSome result.part (λ part. part.number + 1 + length part.rest.now ≤ number
        + length text.now) }
    ensures small { length result.text.now ≤ length text.now }
    ensures shorter { IfSome result.part (λ part. length part.rest.now < length text.now) }
{
    let mut size = 0;
    let mut rest = text;
    let mut next = number;
    'lines: while !rest.is_empty() {
        let line = split_line(rest);
        if let Some(title) = behind_word(b"part", line.bytes) {
            let part = PartLine {
                number: next,
                title,
                rest: line.rest,
            };
            return Front {
                text: front(text, size),
                part: Some(part),
            };
        }
        size += line.size;
        rest = line.rest;
        next += 1;
    }
    Front { text, part: None }
}
