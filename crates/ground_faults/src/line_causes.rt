//! Why a scenario's line is refused, in words.

use crate::line_words::begins_with;
use crate::number_causes::number_cause;
use crate::other_texts::{character_cause, export_cause};
use crate::packet_causes::packet_cause;
use crate::region_faults::{RegionFault, end_before, region_fault};
use crate::word_causes::word_cause;
use thiserror::Error;

/// The reason of words that can't stand there.
const WORDS: u8 = 1;

/// The reason of regions that make no map, and of an upset outside of them (docs/SCENARIO.md).
const NO_MAP: u8 = 4;

/// Why a line is refused.
#[derive(Clone, Copy, Debug, PartialEq, Eq, Error)]
pub enum LineCause {
    #[error("{0}")]
    Words(&'static str),
    /// The line `start`: the regions before it make no map.
    #[error("{0}")]
    Regions(RegionFault),
    /// A line behind one that ends the scenario.
    #[error("`end` stands in line {0}, and behind it nothing may stand")]
    Behind(u32),
}

/// Why the regions, or an upset, are refused.
fn map_cause(line: &[u8]) -> &'static str {
    if line.is_empty() {
        return "the regions make no map, or an upset lies in none of them";
    }
    if begins_with(line, b"start") {
        return "the regions make no map: there are 1 to 8, they share no address, begin and end at multiples of 4, and have at most 4194304 bytes together";
    }
    if begins_with(line, b"upset") {
        return "the address lies in no region";
    }
    "this is the ninth region: there are 1 to 8, which share no address, begin and end at multiples of 4, and have at most 4194304 bytes together"
}

/// Why the form of a line is refused.
fn form_cause(reason: u8, line: &[u8]) -> &'static str {
    if let Some(cause) = character_cause(line) {
        return cause;
    }
    match reason {
        1 => word_cause(line),
        2 => number_cause(line),
        _ => packet_cause(line),
    }
}

/// Whether a line has a carriage return.
fn has_return(line: &[u8]) -> bool {
    line.iter().any(|byte| *byte == b'\r')
}

/// Why a line is refused, by its number of the reason and its text alone.
fn words_of(reason: u8, line: &[u8]) -> &'static str {
    match reason {
        1 | 2 | 3 => form_cause(reason, line),
        NO_MAP => map_cause(line),
        5 => "a frame has at most 64 lines `send`, `app`, `upset`, `hold` and `activate`",
        6 => "a line has at most 640 bytes, a scenario at most 16777216 bytes and 100000 frames",
        7 if has_return(line) => {
            "`end` is missing behind this line, which has carriage returns: save the file with LF line ends"
        }
        7 => "`end` is missing behind this line",
        _ => "it is refused",
    }
}

/// Why a line of a scenario is refused, by its number of the reason (docs/SCENARIO.md), the line and its number, and the scenario's text, of
/// which the beginning suffices. Nothing may be known of either.
pub fn line_cause(text: &[u8], number: u32, reason: u8, line: &[u8]) -> LineCause {
    if let Some(cause) = export_cause(line) {
        return LineCause::Words(cause);
    }
    if reason == NO_MAP && begins_with(line, b"start") {
        if let Some(fault) = region_fault(text, number) {
            return LineCause::Regions(fault);
        }
    }
    if reason == WORDS && !has_return(line) {
        if let Some(end) = end_before(text, number) {
            return LineCause::Behind(end);
        }
    }
    LineCause::Words(words_of(reason, line))
}
