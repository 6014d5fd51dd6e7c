//! The lines of entries in a table's text.
ghost use Rattle.std.specs.Prelude.{◌≡◌, ◌<◌, ◌+◌, ◌^◌, length, option_map};
ghost use Rattle.table_texts.specs.Lines.{kept_of};
ghost use Rattle.entry_lines.specs.Found.{first_of, head_or_entry, line_behind, line_of_entry, seen};

use crate::commands::command_line;
use crate::finding::find_line;
use crate::words::Sought;
use table_files::TableKind;
use table_texts::{Line, next_line};

/// The first line of a text.
fn first_line(number: u32, text: &[u8]) -> Option<Line<'_>>
    requires { number + length text.now < 2 ^ 32 }
    ensures { option_map seen result ≡ first_of (kept_of number text.now) }
{
    next_line(text, number)
}

/// The line of an entry behind a dwell table's first line; entry 0 is the head.
fn dwell_line(entry: u32, number: u32, text: &[u8]) -> Option<Line<'_>>
    requires { number + length text.now < 2 ^ 32 }
    ensures { option_map seen result ≡ head_or_entry entry (kept_of number text.now) }
{
    if entry == 0 {
        return first_line(number, text);
    }
    find_line(Sought::Entry(entry), number, text)
}

/// The line of an entry behind the first line of a table.
fn line_behind(kind: TableKind, entry: u32, number: u32, text: &[u8]) -> Option<Line<'_>>
    requires { number + length text.now < 2 ^ 32 }
    ensures { option_map seen result ≡ line_behind kind entry (kept_of number text.now) }
{
    match kind {
        TableKind::Ats(_) | TableKind::Rts(_) => command_line(entry, number, text),
        TableKind::Dwell(_) => dwell_line(entry, number, text),
        TableKind::AppMon
        | TableKind::EventMon
        | TableKind::ExeCount
        | TableKind::MsgActs
        | TableKind::Eeprom
        | TableKind::Memory
        | TableKind::Wdt
        | TableKind::Adt => find_line(Sought::Entry(entry), number, text),
    }
}

/// The line of a table's text that says the entry of this number, counted from 1; entry 0 of a dwell table is its head. The entries of a
/// sequence are its commands by their places: none has a line where a line of bytes, which may hold several commands, stands before it.
#[tactic(auto, unfolding(crate::specs::Found::line_of_entry))]
pub fn entry_line(kind: TableKind, entry: u32, text: &[u8]) -> Option<Line<'_>>
    requires { 1 + length text.now < 2 ^ 32 }
    ensures { option_map seen result ≡ line_of_entry kind entry (kept_of 1 text.now) }
{
    let Some(title) = next_line(text, 1) else {
        return None;
    };
    line_behind(kind, entry, title.number + 1, title.rest)
}
