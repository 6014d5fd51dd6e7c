//! Which number of a scenario's line is refused, and what is wanted there.

use crate::line_words::word_at;
use row_forms::number;

/// Which number of a line `region` is refused.
fn region_number(line: &[u8]) -> &'static str {
    if number(u32::MAX, word_at(line, 2)).is_none() {
        return "the region's start isn't 1 to 10 decimal digits or 0x and 1 to 8 hexadecimal digits, below 4294967296";
    }
    "the region's length isn't 1 to 10 decimal digits or 0x and 1 to 8 hexadecimal digits, below 4294967296"
}

/// Which number of a line `upset` is refused.
fn upset_number(line: &[u8]) -> &'static str {
    if number(u32::MAX, word_at(line, 1)).is_none() {
        return "the address isn't 1 to 10 decimal digits or 0x and 1 to 8 hexadecimal digits, below 4294967296";
    }
    "the second word behind `upset` is a byte, a number from 0 to 255 in decimal digits or 0x and hexadecimal digits"
}

/// Which number of a line is refused.
pub(crate) fn number_cause(line: &[u8]) -> &'static str {
    match word_at(line, 0) {
        b"epoch" => {
            "`epoch` takes the time of frame 0 in seconds, a number from 0 to 4294000000; a date stands in a plan"
        }
        b"region" => region_number(line),
        b"app" => {
            "the second word behind `app` is its counter, a number from 0 to 4294967295 in decimal digits or 0x and hexadecimal digits"
        }
        b"upset" => upset_number(line),
        b"activate" => {
            "`activate` takes the number of a FILE, counted from 1, or in a book's plan the name of a part: 1 to 64 letters, digits, `_`, `.` and `-`, the first of them a letter"
        }
        b"" => {
            "a number isn't 1 to 10 decimal digits or 0x and 1 to 8 hexadecimal digits, or is too large, or the line ends with a carriage return"
        }
        _ => {
            "a number isn't 1 to 10 decimal digits or 0x and 1 to 8 hexadecimal digits, or is too large"
        }
    }
}
