//! Lines of commands by their places in a sequence.
ghost use Rattle.std.specs.Prelude.{◌≡◌, ◌<◌, ◌+◌, ◌^◌, length, option_map};
ghost use Rattle.table_texts.specs.Lines.{kept_of};
ghost use Rattle.entry_lines.specs.Found.{line_of_command, seen};

use crate::words::is_first;
use table_texts::{Line, next_line};

/// The line of a command by its place, from 1, where the text's first line has this number. There is none where a line of bytes, which may
/// hold several commands, stands before it.
pub fn command_line(place: u32, number: u32, text: &[u8]) -> Option<Line<'_>>
    requires { number + length text.now < 2 ^ 32 }
    ensures { option_map seen result ≡ line_of_command place (kept_of number text.now) }
{
    let mut rest = text;
    let mut next = number;
    let mut left = place;
    'lines: while let Some(line) = next_line(rest, next) {
        if !is_first(b"command", line.bytes) {
            return None;
        }
        if left == 1 {
            return Some(line);
        }
        left = left.saturating_sub(1);
        rest = line.rest;
        next = line.number + 1;
    }
    None
}
