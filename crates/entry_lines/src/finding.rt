//! Lines of a text that are looked for by what they say.
ghost use Rattle.std.specs.Prelude.{◌≡◌, ◌<◌, ◌+◌, ◌^◌, length, option_map};
ghost use Rattle.table_texts.specs.Lines.{kept_of};
ghost use Rattle.entry_lines.specs.Found.{line_saying, seen};

use crate::words::{Sought, says};
use table_texts::{Line, next_line};

/// The first line of a text that says what is looked for, where the text's first line has this number.
pub fn find_line(sought: Sought, number: u32, text: &[u8]) -> Option<Line<'_>>
    requires { number + length text.now < 2 ^ 32 }
    ensures { option_map seen result ≡ line_saying sought (kept_of number text.now) }
{
    let mut rest = text;
    let mut next = number;
    'lines: while let Some(line) = next_line(rest, next) {
        if says(sought, line.bytes) {
            return Some(line);
        }
        rest = line.rest;
        next = line.number + 1;
    }
    None
}
