//! Why the words of a scenario's line are refused where they stand.

use crate::line_words::{has_behind, stands_alone, word_at};
use crate::other_texts::other_text;

/// The most characters of a name.
const MOST_CHARACTERS: usize = 19;

/// Why a line of a frame is refused that has its words.
const OUT_OF_FRAME: &str =
    "the line stands in a frame, behind `start` and before `end`: `start` may be missing before this line";

/// Why a line `epoch` is refused.
fn epoch_cause(line: &[u8]) -> &'static str {
    if has_behind(line, 1) {
        return "`epoch N` stands once, before all other lines";
    }
    "`epoch` takes one number, the time of frame 0 in seconds; of a plan, `groundkit scenario` makes the scenario"
}

/// Whether a word is a kind of memory.
fn is_kind(word: &[u8]) -> bool {
    matches!(word, b"RAM" | b"EEPROM" | b"MEM8" | b"MEM16" | b"MEM32")
}

/// Why the words of a line `region` aren't those of a region.
pub(crate) fn region_words_cause(line: &[u8]) -> Option<&'static str> {
    if !has_behind(line, 3) {
        return Some("`region` takes three words: KIND START LEN");
    }
    if !is_kind(word_at(line, 1)) {
        return Some("the kind of a region is RAM, EEPROM, MEM8, MEM16 or MEM32");
    }
    None
}

/// Why a line `region` is refused.
fn region_cause(line: &[u8]) -> &'static str {
    region_words_cause(line).unwrap_or(
        "`region` stands behind `epoch` and before `start`: `epoch` may be missing before this line",
    )
}

/// Why a line `start` is refused.
fn start_cause(line: &[u8]) -> &'static str {
    if stands_alone(line) {
        return "`start` stands once, behind `epoch` and the regions: `epoch` may be missing before this line";
    }
    "`start` stands alone in its line"
}

/// Why a line `send` is refused.
fn send_cause(line: &[u8]) -> &'static str {
    if has_behind(line, 1) {
        return OUT_OF_FRAME;
    }
    "`send` takes one word, the bytes of one packet in hexadecimal digits; of a plan, `groundkit scenario` makes the scenario"
}

/// Why a word is no name of a counter.
pub(crate) fn name_cause(name: &[u8]) -> Option<&'static str> {
    if name.len() > MOST_CHARACTERS {
        return Some("the name has more than 19 characters");
    }
    if !name
        .iter()
        .all(|byte| byte.is_ascii_alphanumeric() || *byte == b'_')
    {
        return Some("a name is 1 to 19 letters, digits and underscores");
    }
    None
}

/// Why a line `app` is refused.
fn app_cause(line: &[u8]) -> &'static str {
    if !has_behind(line, 2) {
        return "`app` takes two words: NAME N";
    }
    name_cause(word_at(line, 1)).unwrap_or(OUT_OF_FRAME)
}

/// Why a line `upset` is refused.
fn upset_cause(line: &[u8]) -> &'static str {
    if has_behind(line, 2) {
        return OUT_OF_FRAME;
    }
    "`upset` takes two words: an address, and a byte from 0 to 255"
}

/// Why a word is no application that can be held.
pub(crate) fn held_cause(word: &[u8]) -> Option<&'static str> {
    match word {
        b"HS" | b"CS" | b"SC" | b"MM" | b"MD" => None,
        b"LC" => Some("Limit Checker can't be held: `hold` takes HS, CS, SC, MM or MD"),
        _ => Some("`hold` takes an application, which is HS, CS, SC, MM or MD"),
    }
}

/// Why a line `hold` is refused.
fn hold_cause(line: &[u8]) -> &'static str {
    if !has_behind(line, 1) {
        return "`hold` takes one word, HS, CS, SC, MM or MD; of a plan, `groundkit scenario` makes the scenario";
    }
    held_cause(word_at(line, 1)).unwrap_or(OUT_OF_FRAME)
}

/// Why a line `activate` is refused.
fn activate_cause(line: &[u8]) -> &'static str {
    if has_behind(line, 1) {
        return OUT_OF_FRAME;
    }
    "`activate` takes one word, the number of a FILE, counted from 1"
}

/// Why a line `tick` is refused.
fn tick_cause(line: &[u8]) -> &'static str {
    if stands_alone(line) {
        return OUT_OF_FRAME;
    }
    "`tick` stands alone in its line"
}

/// Why a line `end` is refused.
fn end_cause(line: &[u8]) -> &'static str {
    if stands_alone(line) {
        return "`end` stands once, directly behind `start` or a `tick`: a `tick` may be missing before this line";
    }
    "`end` stands alone in its line; of a plan, `groundkit scenario` makes the scenario"
}

/// Why a line is refused that begins with no word of a scenario.
fn unknown_cause(line: &[u8]) -> &'static str {
    match other_text(line) {
        Some(cause) => cause,
        None => {
            "no line of a scenario begins with this word; of a plan, `groundkit scenario` makes the scenario"
        }
    }
}

/// Why the words of a line are refused. Of a line of a pipe nothing is known.
pub(crate) fn word_cause(line: &[u8]) -> &'static str {
    match word_at(line, 0) {
        b"" => {
            "the line begins with no word of a scenario, stands out of its place, ends with a carriage return, or has words missing, too many or out of form; a book is given by its path, and of a plan `groundkit scenario` makes the scenario"
        }
        b"epoch" => epoch_cause(line),
        b"region" => region_cause(line),
        b"start" => start_cause(line),
        b"send" => send_cause(line),
        b"app" => app_cause(line),
        b"upset" => upset_cause(line),
        b"hold" => hold_cause(line),
        b"activate" => activate_cause(line),
        b"tick" => tick_cause(line),
        b"end" => end_cause(line),
        _ => unknown_cause(line),
    }
}
