//! Commands of a sequence that lines `raw` of its text say.

ghost use Rattle.std.specs.Prelude.{◌<◌, ◌+◌, ◌^◌, length};

use crate::command_details::{
    CommandBefore, PAST_END, command_before, command_detail, entry_start,
};
use crate::entry_details::Detail;
use crate::line_words::{begins_with, word_at};
use crate::said_entries::MOST_TEXT;
use row_forms::read_block;
use std::alloc::{AllocError, Global};
use table_files::{EntryFault, TableKind};
use table_texts::{Line, next_line};

/// The refused entry in lines `raw`: the line in which it begins, what more is known of it than its sentence says, and the command before it in
/// such lines.
#[derive(Clone, Copy, Debug)]
pub(crate) struct RawEntry<'a> {
    pub line: Line<'a>,
    pub detail: Option<Detail>,
    pub before: Option<CommandBefore>,
}

/// A line `raw`, and how many bytes those before it say.
#[derive(Clone, Copy, Debug)]
struct RawLine<'a> {
    line: Line<'a>,
    start: usize,
}

/// The first lines `raw` of a sequence's text that stand one behind another, what they say, how many lines `command` stand before them, and
/// whether the text ends behind them.
#[derive(Drop)]
struct RawLines<'a> {
    lines: Vec<RawLine<'a>>,
    bytes: Vec<u8>,
    before: u32,
    is_last: bool,
}

impl<'a> RawLines<'a> {
    /// Adds the next line of the text. Answers whether more may belong to these.
    fn add(&mut self, line: Line<'a>) -> Result<bool, AllocError> {
        if begins_with(line.bytes, b"raw") {
            let start = self.bytes.len();
            self.lines.push(RawLine { line, start })?;
            return read_block(word_at(line.bytes, 1), &mut self.bytes);
        }
        if self.lines.is_empty() && begins_with(line.bytes, b"command") {
            self.before = self.before.saturating_add(1);
            return Ok(true);
        }
        self.is_last = begins_with(line.bytes, b"end");
        Ok(false)
    }

    /// The line that says the byte in a place.
    fn line_at(&self, place: usize) -> Option<Line<'a>> {
        if place >= self.bytes.len() {
            return None;
        }
        let mut found = None;
        for raw in self.lines.as_slice() {
            if raw.start <= place {
                found = Some(raw.line);
            }
        }
        found
    }

    /// What more is known of the entry of a number among those that these lines say.
    fn detail(&self, kind: TableKind, fault: EntryFault) -> Option<Detail> {
        if fault.reason == PAST_END && !self.is_last {
            return None;
        }
        command_detail(kind, self.bytes.as_slice(), fault)
    }

    /// The command before it, by its number in the whole text.
    fn before(&self, kind: TableKind, fault: EntryFault) -> Option<CommandBefore> {
        let CommandBefore { entry, size } = command_before(kind, self.bytes.as_slice(), fault)?;
        Some(CommandBefore {
            entry: entry.saturating_add(self.before),
            size,
        })
    }
}

/// The first lines `raw` of a sequence's text, of which this is the first line.
fn raw_lines<'a>(alloc: Global, title: Line<'a>) -> Result<RawLines<'a>, AllocError>
    requires { title.number + 1 + length title.rest.now < 2 ^ 32 }
{
    let mut found = RawLines {
        lines: Vec::new(alloc),
        bytes: Vec::new(alloc),
        before: 0,
        is_last: false,
    };
    let mut rest = title.rest;
    let mut next = title.number + 1;
    'lines: while let Some(line) = next_line(rest, next) {
        if !found.add(line)? {
            return Ok(found);
        }
        rest = line.rest;
        next = line.number + 1;
    }
    Ok(found)
}

/// The refused entry of a sequence's text that begins in a line `raw`; none where another line says it, or a line of a command behind these.
pub(crate) fn raw_entry<'a>(
    alloc: Global,
    kind: TableKind,
    fault: EntryFault,
    text: &'a [u8],
) -> Result<Option<RawEntry<'a>>, AllocError> {
    if !matches!(kind, TableKind::Ats(_) | TableKind::Rts(_)) || text.len() > MOST_TEXT {
        return Ok(None);
    }
    let Some(title) = next_line(text, 1) else {
        return Ok(None);
    };
    let found = raw_lines(alloc, title)?;
    let among = EntryFault {
        entry: fault.entry.saturating_sub(found.before),
        reason: fault.reason,
    };
    let start = entry_start(kind, found.bytes.as_slice(), among.entry);
    match found.line_at(start) {
        Some(line) => Ok(Some(RawEntry {
            line,
            detail: found.detail(kind, among),
            before: found.before(kind, among),
        })),
        None => Ok(None),
    }
}
