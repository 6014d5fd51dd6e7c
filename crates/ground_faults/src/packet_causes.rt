//! Why the word behind `send` is no packet.

use crate::line_words::word_at;
use packet_forms::{behind, front};
use scenario::digits;

/// The fewest digits of a packet.
const FEWEST_DIGITS: usize = 16;

/// The most digits of a packet.
const MOST_DIGITS: usize = 512;

/// The number that some of a packet's digits write, and 0 where they aren't there.
fn digits_at(word: &[u8], at: usize, count: usize) -> u64 {
    digits(16, count.min(4), front(behind(word, at), count)).unwrap_or(0)
}

/// Why the bytes that digits write are no packet.
fn header_cause(word: &[u8]) -> &'static str {
    if word.len() < FEWEST_DIGITS {
        return "a packet has at least 8 bytes, two digits each";
    }
    if digits_at(word, 0, 1) > 1 {
        return "the packet's first three bits, its version, aren't 0";
    }
    if digits_at(word, 4, 1) < 12 {
        return "the packet's third byte doesn't begin with two bits of 1, its sequence flags";
    }
    "the packet's length field, its fifth and sixth byte, isn't the number of bytes behind them less one"
}

/// Why the word behind `send` is no packet. Of a line of a pipe nothing is known.
pub(crate) fn packet_cause(line: &[u8]) -> &'static str {
    let word = word_at(line, 1);
    if word.is_empty() {
        return "the digits aren't pairs of hexadecimal digits, their bytes are no space packet, or the line ends with a carriage return";
    }
    if !word.iter().all(|byte| byte.is_ascii_hexdigit()) {
        return "a character behind `send` is no hexadecimal digit: a command in words stands in a plan, of which `groundkit scenario` makes the scenario";
    }
    if word.len() > MOST_DIGITS {
        return "a packet has at most 256 bytes, two digits each";
    }
    if word.len() % 2 != 0 {
        return "the digits behind `send` aren't pairs: one is missing or too many";
    }
    header_cause(word)
}
