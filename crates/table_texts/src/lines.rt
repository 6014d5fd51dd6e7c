//! The lines of a text that say something.
ghost use Rattle.std.specs.Prelude.{◌≡◌, ◌<◌, ◌≤◌, ◌+◌, ◌^◌, ◌∷◌, [], ◌==◌, ℕ, length, true, IfSome, MatchOption};
ghost use Rattle.std.specs.List.{position};
ghost use Rattle.row_forms.specs.Words.{words};
ghost use Rattle.table_texts.specs.Lines.{kept_of, unless_skipped, is_skipped};

use packet_forms::{behind, front};
use row_forms::split_word;

/// A line that says something: its number, its bytes without the LF, and the text behind it.
#[derive(Clone, Copy, Debug)]
pub struct Line<'a> {
    pub number: u32,
    pub bytes: &'a [u8],
    pub rest: &'a [u8],
}

/// The place of the first LF.
fn first_end(text: &[u8]) -> Option<usize>
    ensures { result ≡ position (λ b. b == 10) text.now }
{
    text.iter().position(|b| *b == b'\n')
}

/// The first line of a text, and what stands behind its LF: nothing where it has none.
fn split_line(text: &[u8]) -> (&[u8], &[u8])
    requires { 0 < length text.now }
    ensures line { (n : ℕ) → kept_of n text.now
        ≡ unless_skipped n (words result.0.now) (kept_of (n + 1) result.1.now) }
    ensures shorter { length result.1.now < length text.now }
{
    match first_end(text) {
        Some(at) => (front(text, at), behind(text, at + 1)),
        None => (text, &[]),
    }
}

/// Whether a line says nothing.
fn is_skipped(line: &[u8]) -> bool
    ensures { result ≡ is_skipped (words line.now) }
{
    match split_word(line) {
        Some((word, _)) => word[0] == b'#',
        None => true,
    }
}

/// The first line of a text that isn't skipped, where the text's first line has this number.
pub fn next_line(text: &[u8], number: u32) -> Option<Line<'_>>
    requires { number + length text.now < 2 ^ 32 }
    ensures line { MatchOption result
        (kept_of number text.now ≡ [])
        (λ line. kept_of number text.now ≡ record
        { number = line.number; words = words line.bytes.now }
        ∷ kept_of (line.number + 1) line.rest.now) }
    ensures shorter { IfSome result (λ line. length line.rest.now < length text.now) }
    ensures room { IfSome result (λ line. line.number + 1 + length line.rest.now ≤ number
        + length text.now) }
{
    let mut rest = text;
    let mut next = number;
    'lines: while !rest.is_empty() {
        let (bytes, more) = split_line(rest);
        if !is_skipped(bytes) {
            return Some(Line {
                number: next,
                bytes,
                rest: more,
            });
        }
        rest = more;
        next += 1;
    }
    None
}
