//! Why the rehearsal of a book ended, in words.

use ground_checks::tell_book_reads;
use ground_faults::line_cause;
use ground_files::Workspace;
use ground_making::MOST_BYTES;
use ground_runs::{CauseTeller, find_line};
use rehearsal::{Report, Status as End};
use row_forms::split_word;
use std::io;
use std::str::from_utf8;
use table_texts::{Line, next_line};

/// Who tells why the rehearsal of a book ended.
#[derive(Clone, Copy, Drop)]
pub(crate) struct BookTeller<'a> {
    /// The book's name for people.
    pub(crate) name: &'a str,
    pub(crate) text: &'a [u8],
    pub(crate) scenario: &'a [u8],
}

/// Whether a line of a book begins the part of a file.
fn begins_file(line: &[u8]) -> bool {
    let Some((b"part", title)) = split_word(line) else {
        return false;
    };
    match split_word(title) {
        Some((kind, _)) => kind == b"table".as_slice() || kind == b"load".as_slice(),
        None => false,
    }
}

/// How many files a line leaves of those that are still to come.
fn files_left(left: u32, line: &[u8]) -> u32 {
    if begins_file(line) {
        left.saturating_sub(1)
    } else {
        left
    }
}

/// The line of a book's text that begins the part of the file with this number, counted from 1.
fn find_part(text: &[u8], number: u32) -> Option<Line<'_>> {
    if text.len() > MOST_BYTES {
        return None;
    }
    let mut rest = text;
    let mut next = 1;
    let mut left = number;
    'lines: while let Some(line) = next_line(rest, next) {
        left = files_left(left, line.bytes);
        if left == 0 {
            return Some(line);
        }
        rest = line.rest;
        next = line.number + 1;
    }
    None
}

impl BookTeller<'_> {
    /// Tells why a file is refused. It has no fault of its own, since the book was read, so that only what the scenario's memory gives can be
    /// missing: of that each entry is told, and where memory runs out for it the line of the file's part.
    fn tell_part<R: Eprint + AllocGlobal>(&self, rt: &R, report: &Report) -> io::Result<()> {
        if tell_book_reads(rt, self.name, self.text).is_ok() {
            return Ok(());
        }
        let name = self.name;
        let (number, entry, reason) = (report.file, report.line, report.reason);
        match find_part(self.text, number) {
            Some(line) => eprintln!(rt;
                "{name}: part of line {0}: entry {entry}: the memory of the scenario doesn't give what it reads (reason {reason})",
                line.number
            ),
            None => eprintln!(rt;
                "{name}: file {number}: entry {entry}: reason {reason} (docs/FILES.md)"
            ),
        }
    }

    /// Tells why the scenario is refused, and shows the line.
    fn tell_line<R: Eprint + AllocGlobal>(&self, rt: &R, report: &Report) -> io::Result<()> {
        let name = self.name;
        let (number, reason) = (report.line, report.reason);
        let mut line = Vec::new(rt.alloc());
        let mut text = self.scenario;
        let _found = find_line(&mut text, number, &mut line);
        let cause = line_cause(self.scenario, number, reason, line.as_slice());
        let said = from_utf8(line.as_slice()).unwrap_or("");
        eprintln!(rt; "{name}: line {number} of its scenario: {cause} (reason {reason}): {said:?}")
    }
}

impl CauseTeller for BookTeller<'_> {
    fn tell_cause<R: Eprint + AllocGlobal, W: Workspace>(
        &self,
        rt: &R,
        _workspace: &mut W,
        report: &Report,
    ) -> io::Result<()> {
        let name = self.name;
        match report.status {
            End::Done | End::WriteFailed => Ok(()),
            End::WordsRefused => eprintln!(rt;
                "{name}: the words are refused: `--workers` takes 1 to 16, and a book that is rehearsed has at most 100 files"
            ),
            End::FileRefused => self.tell_part(rt, report),
            End::ScenarioRefused => self.tell_line(rt, report),
            End::ReadFailed => eprintln!(rt; "{name}: it can't be read"),
            End::NoMemory => eprintln!(rt; "memory ran out"),
        }
    }
}
