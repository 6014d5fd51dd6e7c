//! Times in the text of a table, by how long they are behind an epoch.

use packet_forms::{behind, front};
use row_forms::{behind_key, number};
use std::alloc::{AllocError, Global};

/// The first span that has no text `+H:MM:SS`, in seconds: its hours have more than five digits.
const LONG_SPAN: u32 = 360_000_000;

/// How many seconds a word `time=SECONDS` is behind the epoch; none of another word or of a time before the epoch.
fn span_of(epoch: u32, word: &[u8]) -> Option<u32> {
    let Some(text) = behind_key("time", word) else {
        return None;
    };
    match number(u32::MAX, text) {
        Some(time) => time.checked_sub(epoch),
        None => None,
    }
}

/// Appends a word, a time as `time=+H:MM:SS` where it can be told so.
fn push_word(alloc: Global, epoch: u32, word: &[u8], out: &mut Vec<u8>) -> Result<(), AllocError> {
    match span_of(epoch, word) {
        Some(span) if span < LONG_SPAN => {
            let (hours, minutes, seconds) = (span / 3600, span / 60 % 60, span % 60);
            let time = format!(in alloc; "time=+{hours}:{minutes:02}:{seconds:02}")?;
            out.extend_from_slice(time.as_bytes())
        }
        _ => out.extend_from_slice(word),
    }
}

/// The text of a table whose times from the epoch on are told as `time=+H:MM:SS`, behind that epoch.
pub(crate) fn with_times(alloc: Global, epoch: u32, text: &[u8]) -> Result<Vec<u8>, AllocError> {
    let mut out = Vec::new(alloc);
    let mut start: usize = 0;
    'bytes: for place in 0..text.len() {
        let byte = text[place];
        if byte == b' ' || byte == b'\n' {
            let word = front(behind(text, start), place.saturating_sub(start));
            push_word(alloc, epoch, word, &mut out)?;
            out.push(byte)?;
            start = place.saturating_add(1);
        }
    }
    push_word(alloc, epoch, behind(text, start), &mut out)?;
    Ok(out)
}
