//! What a file is that was given in the place of a log.

use packet_forms::front;
use row_forms::split_word;
use table_texts::next_line;

/// How many bytes of a file are looked at.
const MOST_BYTES: usize = 4_096;

/// The first four bytes of the file of a table or of a load.
const FILE_MARK: &[u8] = b"cFE1";

/// A byte order mark, which some editors put in front of a text.
const ORDER_MARK: &[u8] = b"\xEF\xBB\xBF";

/// The first four bytes of a capture.
const CAPTURE_MARK: &[u8] = b"\xA1\xB2\xC3\xD4";

/// What the rows of a log begin with.
const ROWS_BEGIN: &[u8] = b"frame,kind,";

/// What a text is by the first word of its first line.
fn text_kind(word: &[u8]) -> Option<&'static str> {
    if word == b"epoch".as_slice() {
        return Some(
            "it is a scenario or a plan, where a log is wanted: `groundkit run` rehearses a scenario",
        );
    }
    if word == b"book".as_slice() {
        return Some("it is a book, where a log is wanted: `groundkit run` rehearses it");
    }
    if word == b">".as_slice() || word == b"frame".as_slice() || word == b"time".as_slice() {
        return Some(
            "it is a log in sentences, where the log itself is wanted: `groundkit run --log FILE` keeps it",
        );
    }
    if word == b"table".as_slice() || word == b"load".as_slice() {
        return Some(
            "it is the text of a table or of a load, or the manifest of a book, where a log is wanted",
        );
    }
    None
}

/// What a file is that isn't a log, by its first bytes; none where that isn't known.
pub(crate) fn other_file(begin: &[u8]) -> Option<&'static str> {
    if begin.starts_with(ORDER_MARK) {
        return Some("it begins with a byte order mark: save it without");
    }
    if begin.starts_with(FILE_MARK) {
        return Some(
            "it is the file of a table or of a load, where a log is wanted: `groundkit show` shows it",
        );
    }
    if begin.starts_with(CAPTURE_MARK) {
        return Some("it is a capture of `groundkit pcap`, where the log itself is wanted");
    }
    if begin.starts_with(ROWS_BEGIN) {
        return Some("it is rows of `groundkit csv`, where the log itself is wanted");
    }
    let line = next_line(front(begin, MOST_BYTES), 1)?;
    let (word, _) = split_word(line.bytes)?;
    text_kind(word)
}
