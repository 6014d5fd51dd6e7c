//! The lines of a table's text at which its warnings are told.
ghost use Rattle.std.specs.Prelude.{◌≡◌, ◌<◌, ◌+◌, ◌^◌, length, option_map};
ghost use Rattle.table_texts.specs.Lines.{kept_of};
ghost use Rattle.entry_lines.specs.Found.{seen};
ghost use Rattle.ground_warnings.specs.Lines.{line_from, line_of_place, line_of_odd, line_of_warning};

use entry_lines::{Sought, command_line, find_line};
use table_texts::{Line, next_line};
use table_warnings::{Place, Warning};

/// The line of an entry, or, of one that the text leaves out, the first line behind it that says an entry.
fn line_from(entry: u32, number: u32, text: &[u8]) -> Option<Line<'_>>
    requires { number + length text.now < 2 ^ 32 }
    ensures { option_map seen result ≡ line_from entry (kept_of number text.now) }
{
    match find_line(Sought::Entry(entry), number, text) {
        Some(line) => Some(line),
        None => find_line(Sought::Behind(entry), number, text),
    }
}

/// The line of a command.
fn line_of_place(place: Place, number: u32, text: &[u8]) -> Option<Line<'_>>
    requires { number + length text.now < 2 ^ 32 }
    ensures { option_map seen result ≡ line_of_place place (kept_of number text.now) }
{
    match place {
        Place::Entry(entry) => command_line(entry, number, text),
        Place::Number(command) => find_line(Sought::Command(command), number, text),
    }
}

/// The line of what is odd in a table, behind the table's first line.
fn line_of_odd(warning: Warning, number: u32, text: &[u8]) -> Option<Line<'_>>
    requires { number + length text.now < 2 ^ 32 }
    ensures { option_map seen result ≡ line_of_odd warning (kept_of number text.now) }
{
    match warning {
        Warning::Gap(entry)
        | Warning::Unread(entry)
        | Warning::Unwatched(entry, _)
        | Warning::Unknown(entry, _)
        | Warning::Split(entry) => line_from(entry, number, text),
        Warning::StartsItself(entry) => command_line(entry, number, text),
        Warning::WrongChecksum(place) | Warning::BehindEnd(place) | Warning::Crowded(place) => {
            line_of_place(place, number, text)
        }
        Warning::NoDelay => None,
    }
}

/// The line of a table's text at which a warning of the table is told: that of the entry or the command, of an entry that the text leaves out
/// the first line behind it that says one, and of the whole table, or a command whose line isn't known, the line `table NAME`. There is none
/// where the text says nothing.
#[tactic(auto, unfolding(crate::specs::Lines::line_of_warning))]
pub fn warning_line(warning: Warning, text: &[u8]) -> Option<Line<'_>>
    requires { 1 + length text.now < 2 ^ 32 }
    ensures { option_map seen result ≡ line_of_warning warning (kept_of 1 text.now) }
{
    let Some(title) = next_line(text, 1) else {
        return None;
    };
    match line_of_odd(warning, title.number + 1, title.rest) {
        Some(line) => Some(line),
        None => Some(title),
    }
}
