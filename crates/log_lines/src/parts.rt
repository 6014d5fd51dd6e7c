//! The words of a line, which stand between single spaces.

ghost use Rattle.std.specs.Prelude.{◌≡◌, ◌==◌, ◌<◌, ◌≤◌, ◌∷◌, ℕ, length, IfSome, IfOk, MatchResult, Ok, Err};
ghost use Rattle.std.specs.List.{position};
ghost use Rattle.log_lines.specs.Lines.{line_words, words_behind, last_word};

use crate::fault::LineFault;
use packet_forms::{behind, front};

/// The place of the first space.
fn first_space(text: &[u8]) -> Option<usize>
    ensures { result ≡ position (λ b. b == 32) text.now }
{
    text.iter().position(|b| *b == b' ')
}

/// The first word, and what comes behind the space that follows it.
pub(crate) fn cut_word(text: &[u8]) -> (&[u8], Option<&[u8]>)
    ensures words { line_words text.now ≡ result.0.now ∷ words_behind result.1 }
    ensures size { length result.0.now ≤ length text.now }
    ensures rest { IfSome result.1 (λ rest. length rest.now ≤ length text.now) }
{
    match first_space(text) {
        Some(at) => (front(text, at), Some(behind(text, at + 1))),
        None => (text, None),
    }
}

/// The last word of a line.
pub(crate) fn last_word(words: Option<&[u8]>) -> Result<&[u8], LineFault>
    ensures word { MatchResult result
        (λ word. last_word (words_behind words.entry) ≡ Ok word.now)
        (λ fault. last_word (words_behind words.entry) ≡ Err fault) }
    ensures size { (most : ℕ) → IfSome words.entry (λ text. length text.now ≤ most)
        → IfOk result (λ word. length word.now ≤ most) }
{
    let Some(words) = words else {
        return Err(LineFault::Missing);
    };
    let (word, more) = cut_word(words);
    match more {
        Some(_) => Err(LineFault::Extra),
        None => Ok(word),
    }
}
