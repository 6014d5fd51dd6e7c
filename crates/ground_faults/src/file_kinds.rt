//! What a file is that stands in the place of another, by its first bytes or words.

use crate::said_entries::MOST_TEXT;
use row_forms::split_word;
use table_texts::next_line;
use thiserror::Error;

/// The first four bytes of the file of a table or of a load.
const FILE_START: &[u8] = b"cFE1";

/// What a file is.
#[derive(Clone, Copy, Debug, PartialEq, Eq, Error)]
pub(crate) enum FileKind {
    #[error("a file of a table or of a load")]
    Image,
    #[error("the manifest of a book")]
    Manifest,
    #[error("the text of a table or of a load")]
    Text,
    #[error("a scenario or a plan")]
    Scenario,
    #[error("a scenario or a plan whose first line, `epoch N`, is missing")]
    Unbegun,
    #[error("a book")]
    Book,
    #[error("a book whose first line, `book NAME`, is missing")]
    Parts,
    #[error("a log")]
    Log,
    #[error("rows of `groundkit csv`")]
    Rows,
    #[error("a capture of `groundkit pcap`")]
    Capture,
}

impl FileKind {
    /// Whether it is a scenario or a plan, with its first line or without.
    fn is_scenario(self) -> bool {
        matches!(self, FileKind::Scenario | FileKind::Unbegun)
    }

    /// Whether it is a book, with its first line or without.
    fn is_book(self) -> bool {
        matches!(self, FileKind::Book | FileKind::Parts)
    }
}

/// What text is wanted.
#[derive(Clone, Copy, Debug, PartialEq, Eq, Error)]
pub enum WantedText {
    #[error("the text of a table or of a load")]
    Table,
    #[error("a plan")]
    Plan,
    #[error("a scenario")]
    Scenario,
    #[error("a book")]
    Book,
    /// One that has a map of memory.
    #[error("a scenario, a plan or a book")]
    Mapped,
}

impl WantedText {
    /// Whether a file of this kind may be what is wanted.
    fn may_be(self, kind: FileKind) -> bool {
        match self {
            WantedText::Table => kind == FileKind::Text,
            WantedText::Plan | WantedText::Scenario => kind.is_scenario(),
            WantedText::Book => kind.is_book(),
            WantedText::Mapped => kind.is_scenario() || kind.is_book(),
        }
    }
}

/// Whether bytes begin as the file of a table or of a load does.
pub(crate) fn is_image(bytes: &[u8]) -> bool {
    bytes.starts_with(FILE_START)
}

/// Whether bytes begin as a capture does.
pub(crate) fn is_capture(bytes: &[u8]) -> bool {
    bytes.starts_with(b"\xA1\xB2\xC3\xD4")
}

/// Whether bytes begin as the rows of a log do.
pub(crate) fn is_rows(bytes: &[u8]) -> bool {
    bytes.starts_with(b"frame,kind,")
}

/// Whether a word is a number in decimal.
fn is_decimal(word: &[u8]) -> bool {
    word.iter().all(|byte| byte.is_ascii_digit())
}

/// Whether a line is one of a manifest, by what stands behind its first word: the third word counts bytes, where a text has a key.
fn is_in_manifest(rest: &[u8]) -> bool {
    let Some((_, rest)) = split_word(rest) else {
        return false;
    };
    match split_word(rest) {
        Some((third, _)) => is_decimal(third),
        None => false,
    }
}

/// Whether a line is one of a log, by its first word and what stands behind it.
fn is_in_log(word: &[u8], rest: &[u8]) -> bool {
    let Some((verb, _)) = split_word(rest) else {
        return false;
    };
    is_decimal(word)
        && match verb {
            b"pkt" | b"drop" | b"restart" | b"delete" | b"reset" => true,
            _ => false,
        }
}

/// What a file is, by the first line that says something; none where that isn't known.
fn line_kind(line: &[u8]) -> Option<FileKind> {
    let Some((word, rest)) = split_word(line) else {
        return None;
    };
    match word {
        b"table" | b"load" if is_in_manifest(rest) => Some(FileKind::Manifest),
        b"table" | b"load" => Some(FileKind::Text),
        b"epoch" => Some(FileKind::Scenario),
        b"region" | b"start" => Some(FileKind::Unbegun),
        b"book" => Some(FileKind::Book),
        b"part" => Some(FileKind::Parts),
        _ if is_in_log(word, rest) => Some(FileKind::Log),
        _ => None,
    }
}

/// What a file is; none where that isn't known.
pub(crate) fn file_kind(bytes: &[u8]) -> Option<FileKind> {
    if is_image(bytes) {
        return Some(FileKind::Image);
    }
    if is_capture(bytes) {
        return Some(FileKind::Capture);
    }
    if is_rows(bytes) {
        return Some(FileKind::Rows);
    }
    if bytes.len() > MOST_TEXT {
        return None;
    }
    match next_line(bytes, 1) {
        Some(line) => line_kind(line.bytes),
        None => None,
    }
}

/// Tells of a refused text that it is something else than what is wanted, where its beginning shows it.
pub fn tell_kind<R: Eprint>(rt: &R, name: &str, text: &[u8], wanted: WantedText) {
    if text.is_empty() {
        // There is no other place to tell it.
        let _told = eprintln!(rt; "{name}: it is empty, where {wanted} is wanted");
    }
    let Some(kind) = file_kind(text) else {
        return;
    };
    if !wanted.may_be(kind) {
        // There is no other place to tell it.
        let _told = eprintln!(rt; "{name}: it is {kind}, where {wanted} is wanted");
    }
}
