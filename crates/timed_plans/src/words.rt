//! Words of lines.
ghost use Rattle.std.specs.Prelude.{◌≡◌, ◌<◌, ◌≤◌, IfSome, MatchOption};
ghost use Rattle.row_forms.specs.Words.{words, number};
ghost use Rattle.timed_plans.specs.Plans.{before_s, period_said, positive, held_for};

use packet_forms::front;
use row_forms::{number, split_word};

/// What stands before the last byte, where that is an `s`.
fn before_s(word: &[u8]) -> Option<&[u8]>
    ensures { MatchOption result (before_s word.now ≡ None) (λ digits. before_s word.now
        ≡ Some digits.now) }
{
    let count = word.len();
    if count > 0 && word[count - 1] == b's' {
        return Some(front(word, count - 1));
    }
    None
}

/// The seconds of a period such as `10s`.
#[tactic(auto, unfolding(crate::specs::Plans::period_said))]
pub(crate) fn read_period(word: &[u8]) -> Option<u32>
    ensures value { result ≡ period_said word.now }
    ensures some { IfSome result (λ n. 0 < n) }
{
    match before_s(word) {
        Some(digits) => positive_number(digits),
        None => None,
    }
}

/// A number from 1 to 100,000.
fn positive_number(digits: &[u8]) -> Option<u32>
    ensures value { result ≡ positive (number 100000 digits.now) }
    ensures some { IfSome result (λ n. 0 < n) }
    ensures few { IfSome result (λ n. n ≤ 100000) }
{
    match number(100_000, digits) {
        Some(0) => None,
        Some(seconds) => Some(seconds),
        None => None,
    }
}

/// The frames of `for N`.
pub(crate) fn read_for(word: &[u8], line: &[u8]) -> Option<u32>
    ensures value { result ≡ held_for word.now (words line.now) }
    ensures few { IfSome result (λ n. n ≤ 100000) }
{
    let (span, rest) = split_word(line)?;
    if split_word(rest).is_some() || word != b"for".as_slice() {
        return None;
    }
    positive_number(span)
}
