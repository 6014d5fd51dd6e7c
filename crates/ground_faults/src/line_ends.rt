//! What of a text isn't seen where it is edited: how its lines end, what stands in front of it, and what only looks like a space.

ghost use Rattle.std.specs.Prelude.{◌<◌, ◌+◌, ◌^◌, length};

use crate::file_kinds::is_image;
use crate::said_entries::MOST_TEXT;
use packet_forms::behind;
use table_texts::next_line;

/// A byte order mark, which some editors put in front of a text.
const ORDER_MARK: &[u8] = b"\xEF\xBB\xBF";

/// A no-break space.
const NO_BREAK: &[u8] = b"\xC2\xA0";

/// Whether a byte order mark stands in front of a text.
pub(crate) fn has_order_mark(text: &[u8]) -> bool {
    text.starts_with(ORDER_MARK)
}

/// Whether a text begins as one in UTF-16 does.
pub(crate) fn is_wide(text: &[u8]) -> bool {
    text.starts_with(b"\xFF\xFE") || text.starts_with(b"\xFE\xFF")
}

/// Whether these bytes stand somewhere in a line or a text.
fn has_bytes(text: &[u8], wanted: &[u8]) -> bool {
    for place in 0..text.len() {
        if behind(text, place).starts_with(wanted) {
            return true;
        }
    }
    false
}

/// The number of the first line that says something and has these bytes.
fn line_with(text: &[u8], wanted: &[u8]) -> Option<u32>
    requires { 1 + length text.now < 2 ^ 32 }
{
    let mut rest = text;
    let mut next = 1;
    'lines: while let Some(line) = next_line(rest, next) {
        if has_bytes(line.bytes, wanted) {
            return Some(line.number);
        }
        rest = line.rest;
        next = line.number + 1;
    }
    None
}

/// Tells the first line of a text that has a tab, and the first one that has a no-break space: these belong to their words.
fn tell_blanks<R: Eprint>(rt: &R, name: &str, text: &[u8]) {
    if text.len() > MOST_TEXT {
        return;
    }
    if let Some(line) = line_with(text, b"\t") {
        let _told = eprintln!(rt; "{name}: line {line} has a tab: words stand between spaces");
    }
    if let Some(line) = line_with(text, NO_BREAK) {
        let _told = eprintln!(rt;
            "{name}: line {line} has a no-break space, which looks like a space: words stand between spaces"
        );
    }
}

/// The first line that has a carriage return, of those that say something.
fn line_with_return(text: &[u8]) -> Option<u32> {
    if text.len() > MOST_TEXT {
        return None;
    }
    line_with(text, b"\r")
}

/// Tells that a text has carriage returns, and in which line the first one.
fn tell_returns<R: Eprint>(rt: &R, name: &str, text: &[u8]) {
    // There is no other place to tell it.
    let _told = match line_with_return(text) {
        Some(line) => eprintln!(rt;
            "{name}: line {line} has a carriage return, which belongs to its words: save the text with LF line ends"
        ),
        None => eprintln!(rt; "{name}: it has carriage returns: save it with LF line ends"),
    };
}

/// Tells what of a refused text isn't seen, where it is so: that it is UTF-16, that a byte order mark stands in front of it, that it has carriage
/// returns, and what looks like a space: its words then aren't what they look like. Of the file of a table or of a load nothing is
/// told.
pub fn tell_line_ends<R: Eprint>(rt: &R, name: &str, text: &[u8]) {
    if is_image(text) {
        return;
    }
    // There is no other place to tell it.
    if is_wide(text) {
        let _told = eprintln!(rt; "{name}: it is UTF-16: save it as UTF-8");
        return;
    }
    if has_order_mark(text) {
        let _told = eprintln!(rt; "{name}: it begins with a byte order mark: save it without");
    }
    if has_bytes(text, b"\r") {
        tell_returns(rt, name, text);
    }
    tell_blanks(rt, name, text);
}
