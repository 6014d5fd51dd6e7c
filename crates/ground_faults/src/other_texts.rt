//! What is wrong with a text as a whole, as a line shows it that is refused.

use crate::file_kinds::{is_capture, is_rows};
use crate::line_words::word_at;
use scenario::digits;

/// A byte order mark, which some editors put in front of a text.
const ORDER_MARK: &[u8] = b"\xEF\xBB\xBF";

/// The first four bytes of the file of a table or of a load.
const FILE_MARK: &[u8] = b"cFE1";

/// Whether a text begins as one in UTF-16.
fn has_wide_mark(line: &[u8]) -> bool {
    line.starts_with(b"\xFF\xFE") || line.starts_with(b"\xFE\xFF")
}

/// Whether a line has a no-break space, in UTF-8.
fn has_no_break_space(line: &[u8]) -> bool {
    let mut last = 0;
    for byte in line {
        if last == 0xC2 && *byte == 0xA0 {
            return true;
        }
        last = *byte;
    }
    false
}

/// Whether a line has a tab or a no-break space.
fn has_other_blank(line: &[u8]) -> bool {
    line.iter().any(|byte| *byte == b'\t') || has_no_break_space(line)
}

/// What is wrong with the characters of a refused line; none where they may stand in a scenario.
pub(crate) fn character_cause(line: &[u8]) -> Option<&'static str> {
    if line.starts_with(ORDER_MARK) {
        return Some("the text begins with a byte order mark: save it without");
    }
    if has_wide_mark(line) {
        return Some("the text is UTF-16: save it as UTF-8");
    }
    if line.starts_with(FILE_MARK) {
        return Some("it is a file of a table or of a load, where a scenario is wanted");
    }
    if has_other_blank(line) {
        return Some(
            "the line has a tab or a no-break space: words stand between spaces, and no other byte is one",
        );
    }
    if line.ends_with(b"\r") {
        return Some("the line ends with a carriage return: save the file with LF line ends");
    }
    None
}

/// The file of an export that a line begins, where a scenario is wanted; none of other lines.
pub(crate) fn export_cause(line: &[u8]) -> Option<&'static str> {
    if is_capture(line) {
        return Some("it is a capture of `groundkit pcap`, where a scenario is wanted");
    }
    if is_rows(line) {
        return Some("it is rows of `groundkit csv`, where a scenario is wanted");
    }
    None
}

/// Whether this is what a line of a log says behind its frame.
fn is_log_word(word: &[u8]) -> bool {
    matches!(word, b"pkt" | b"drop" | b"restart" | b"delete" | b"reset")
}

/// What other text than a scenario a line is of; none where that isn't known.
pub(crate) fn other_text(line: &[u8]) -> Option<&'static str> {
    let word = word_at(line, 0);
    if word == b"table".as_slice() || word == b"load".as_slice() {
        return Some(
            "it is the text of a table or of a load, or a manifest, where a scenario is wanted",
        );
    }
    if word == b"part".as_slice() {
        return Some(
            "`part` stands in a book, whose first line, `book NAME`, may be missing before this line",
        );
    }
    if digits(10, 10, word).is_some() && is_log_word(word_at(line, 1)) {
        return Some("it is a log, where a scenario is wanted");
    }
    None
}
