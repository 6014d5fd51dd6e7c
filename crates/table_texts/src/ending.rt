//! The end of a text, and its faults.
ghost use Rattle.std.specs.Prelude.{◌≡◌, ◌<◌, ◌+◌, ◌^◌, ℕ, List, true, false, length, MatchOption};
ghost use Rattle.row_forms.specs.Words.{words};
ghost use Rattle.table_texts.specs.Lines.{kept_of};
ghost use Rattle.table_texts.specs.Endings.{is_end, behind_first, ended, as_ended, error_on};

use crate::fault::{LineError, LineFault, TextError, TextFault};
use crate::lines::next_line;
use row_forms::{Reason, RowFault, split_word};

/// A fault of the line of this number.
pub(crate) fn text_fault(line: u32, fault: LineFault) -> TextError
    ensures { result ≡ TextError.Text (record { line = line; fault = fault }) }
{
    TextError::Text(TextFault { line, fault })
}

/// Why the line of this number wasn't read.
pub(crate) fn error_on(line: u32, error: LineError) -> TextError
    ensures { result ≡ error_on line error }
{
    match error {
        LineError::Memory(error) => TextError::Memory(error),
        LineError::Fault(fault) => text_fault(line, fault),
    }
}

/// A fault of the word of this number.
pub(crate) fn row_fault(word: usize, reason: Reason) -> LineError
    ensures { result ≡ LineError.Fault (LineFault.Row (record { word = word; reason = reason })) }
{
    LineError::Fault(LineFault::Row(RowFault { word, reason }))
}

/// What stands behind the word `end`, where the line begins with it.
pub(crate) fn behind_end(line: &[u8]) -> Option<&[u8]>
    ensures { MatchOption result
        (is_end (words line.now) ≡ false)
        (λ behind. (is_end (words line.now) ≡ true)
        × (words behind.now ≡ behind_first (words line.now))) }
{
    match split_word(line) {
        Some((word, behind)) if word == b"end".as_slice() => Some(behind),
        _ => None,
    }
}

/// Ends a text: no word stands behind `end`, and no line that says anything.
pub(crate) fn end_of_text(line: u32, behind: &[u8], rest: &[u8]) -> Result<(), TextFault>
    requires { line + 1 + length rest.now < 2 ^ 32 }
    ensures { (left : List ℕ) → ended left line (words behind.now) (kept_of (line + 1) rest.now)
        ≡ as_ended left result }
{
    if split_word(behind).is_some() {
        let extra = RowFault {
            word: 2,
            reason: Reason::Extra,
        };
        return Err(TextFault {
            line,
            fault: LineFault::Row(extra),
        });
    }
    match next_line(rest, line + 1) {
        Some(next) => Err(TextFault {
            line: next.number,
            fault: LineFault::Behind,
        }),
        None => Ok(()),
    }
}
