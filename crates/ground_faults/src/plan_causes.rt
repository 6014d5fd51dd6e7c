//! Why a scenario's reader refuses a line of a plan, in words.

use crate::line_causes::LineCause;
use crate::line_words::{has_behind, word_at};
use crate::number_causes::number_cause;
use crate::region_faults::region_fault;
use crate::word_causes::{held_cause, name_cause, region_words_cause};
use plan_text::LineReason;

/// Why the words of a line are refused, as far as the line shows it.
fn words_cause(line: &[u8]) -> Option<&'static str> {
    match word_at(line, 0) {
        b"region" => region_words_cause(line),
        b"app" if !has_behind(line, 2) => Some("`app` takes two words: NAME N"),
        b"app" | b"counter" => name_cause(word_at(line, 1)),
        b"hold" => held_cause(word_at(line, 1)),
        b"upset" if !has_behind(line, 2) => {
            Some("`upset` takes two words: an address, and a byte from 0 to 255")
        }
        b"activate" if !has_behind(line, 1) => {
            Some(
                "`activate` takes one word, the number of a FILE, or in a book the name of a table",
            )
        }
        _ => None,
    }
}

/// Why the regions before a line, or an upset's address, are refused.
fn map_cause(text: &[u8], number: u32, line: &[u8]) -> Option<LineCause> {
    match word_at(line, 0) {
        b"start" => Some(LineCause::Regions(region_fault(text, number)?)),
        b"upset" => Some(LineCause::Words("the address lies in no region")),
        b"region" => Some(LineCause::Words("it is the ninth region, and 8 are the most")),
        _ => None,
    }
}

/// Why a line of a plan, or of a book's plan, is refused, by its text and number; none where the line doesn't show it.
pub(crate) fn plan_cause(
    text: &[u8],
    number: u32,
    reason: LineReason,
    line: &[u8],
) -> Option<LineCause> {
    match reason {
        LineReason::Words => Some(LineCause::Words(words_cause(line)?)),
        LineReason::Number => Some(LineCause::Words(number_cause(line))),
        LineReason::Map => map_cause(text, number, line),
        LineReason::Packet | LineReason::Items | LineReason::Long | LineReason::Unended => None,
    }
}
