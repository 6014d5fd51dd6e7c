//! Warnings of tables, in words.

use crate::action_packets::warn_of_actions;
use crate::sequence_packets::warned_checksums;
use crate::warning_lines::warning_line;
use entry_lines::entry_line;
use memory_window::Map;
use packet_forms::Name;
use std::alloc::AllocError;
use table_files::{FileImage, TableKind, read_file};
use table_warnings::{Warning, find_split_ranges, find_unknown_names, find_warnings};

/// The most bytes of a text: lines are counted in 32 bits.
pub(crate) const MOST_TEXT: usize = 4_294_967_294;

/// The text of a table: the name of the file in which it stands, how many lines stand in front of it there, and its bytes.
#[derive(Clone, Copy, Debug)]
pub struct PlacedText<'a> {
    pub name: &'a str,
    pub before: u32,
    pub text: &'a [u8],
}

/// The number of the line at which a warning is told, counted in the file.
fn line_number(placed: &PlacedText<'_>, warning: Warning) -> Option<u32> {
    if placed.text.len() > MOST_TEXT {
        return None;
    }
    match warning_line(warning, placed.text) {
        Some(line) => Some(placed.before.saturating_add(line.number)),
        None => None,
    }
}

/// The number of the line that says an entry of a table's text, counted in the file.
pub fn entry_line_number(
    placed: Option<PlacedText<'_>>,
    kind: TableKind,
    entry: u32,
) -> Option<u32> {
    let placed = placed?;
    if placed.text.len() > MOST_TEXT {
        return None;
    }
    let line = entry_line(kind, entry, placed.text)?;
    Some(placed.before.saturating_add(line.number))
}

/// Tells a warning of a file; of a command with a wrong checksum the right one, too.
fn tell_of_file<R: Eprint>(rt: &R, name: &str, payload: &[u8], warning: &Warning) {
    // There is no other place to tell it.
    let _told = match warned_checksums(payload, *warning) {
        Some(sums) => eprintln!(rt; "{name}: warning: {warning}: {sums}"),
        None => eprintln!(rt; "{name}: warning: {warning}"),
    };
}

/// Tells a warning at a line.
fn tell_at_line<R: Eprint>(rt: &R, name: &str, line: u32, payload: &[u8], warning: &Warning) {
    // There is no other place to tell it.
    let _told = match warned_checksums(payload, *warning) {
        Some(sums) => eprintln!(rt; "{name}: line {line}: warning: {warning}: {sums}"),
        None => eprintln!(rt; "{name}: line {line}: warning: {warning}"),
    };
}

/// Tells a warning of a text with its line, where that is known.
fn tell_placed<R: Eprint>(rt: &R, placed: &PlacedText<'_>, payload: &[u8], warning: &Warning) {
    match line_number(placed, *warning) {
        Some(line) => tell_at_line(rt, placed.name, line, payload, warning),
        None => tell_of_file(rt, placed.name, payload, warning),
    }
}

/// Tells warnings of a table: with the lines of its text, where it has one, and else by the name of its file.
fn tell_warnings<R: Eprint>(
    rt: &R,
    name: &str,
    placed: Option<PlacedText<'_>>,
    payload: &[u8],
    warnings: &[Warning],
) {
    for warning in warnings {
        match placed {
            Some(placed) => tell_placed(rt, &placed, payload, warning),
            None => tell_of_file(rt, name, payload, warning),
        }
    }
}

/// Tells what is odd in a table's file, also by the names and the map of a scenario where these are known: with the lines of the table's text,
/// where it has one, and else by the name of the file. Of other files nothing is told.
pub fn warn_of_table<R: Eprint + AllocGlobal>(
    rt: &R,
    map: Option<&Map>,
    names: Option<&[Name]>,
    name: &str,
    placed: Option<PlacedText<'_>>,
    file: &[u8],
) -> Result<(), AllocError> {
    let Ok(FileImage::Table { kind, payload }) = read_file(file) else {
        return Ok(());
    };
    let warnings = find_warnings(rt.alloc(), kind, payload)?;
    tell_warnings(rt, name, placed, payload, warnings.as_slice());
    if kind == TableKind::MsgActs {
        warn_of_actions(rt, name, placed, payload);
    }
    if let Some(names) = names {
        let unknown = find_unknown_names(rt.alloc(), kind, names, payload)?;
        tell_warnings(rt, name, placed, payload, unknown.as_slice());
    }
    if let Some(map) = map {
        let split = find_split_ranges(rt.alloc(), kind, map, payload)?;
        tell_warnings(rt, name, placed, payload, split.as_slice());
    }
    Ok(())
}

/// Tells what is odd in the file that was made of a table's text, with the lines of the text; no scenario is known.
pub fn warn_of_text<R: Eprint + AllocGlobal>(
    rt: &R,
    name: &str,
    text: &[u8],
    file: &[u8],
) -> Result<(), AllocError> {
    let placed = PlacedText {
        name,
        before: 0,
        text,
    };
    warn_of_table(rt, None, None, name, Some(placed), file)
}
