//! The words of a line, and what a word says.
ghost use Rattle.std.specs.Prelude.{◌≡◌, ◌≤◌, ◌<◌, ◌+◌, ◌*◌, ◌%◌, ◌==◌, ◌∷◌, [], Some, None, take, length, not, option_map, MatchOption, IfSome, IsTrue, codes, nat_eq};
ghost use Rattle.std.specs.List.{position, position_or_len, starts_with};
ghost use Rattle.std.specs.Char.{digit_value};
ghost use Rattle.scenario.specs.Words.{words, digits, any_number, number, hex, name_said, app_of, kind_of};

use crate::digit_lanes::{HALF_LANES, LANES, place_pairs};
use crate::digit_pairs::pair_value;
use crate::frame::App;
use memory_window::Kind;
use packet_forms::{Name, PACKET_BYTES};

/// The place of the first byte that is no space.
fn first_other(bytes: &[u8]) -> Option<usize>
    ensures { result ≡ position (λ b. not (b == 32)) bytes.now }
{
    bytes.iter().position(|b| !(*b == b' '))
}

/// The place of the first space.
fn first_space(bytes: &[u8]) -> Option<usize>
    ensures { result ≡ position (λ b. b == 32) bytes.now }
{
    bytes.iter().position(|b| *b == b' ')
}

/// How many bytes come before the first space.
fn word_len(bytes: &[u8]) -> usize
    ensures value { result ≡ position_or_len (λ b. b == 32) bytes.now }
    ensures bound { result ≤ length bytes.now }
{
    match first_space(bytes) {
        Some(len) => len,
        None => bytes.len(),
    }
}

/// What comes behind the spaces in front.
pub(crate) fn behind_spaces(line: &[u8]) -> &[u8]
    ensures { words result.now ≡ words line.now }
{
    match first_other(line) {
        Some(start) => {
            let (_, rest) = line.split_at(start);
            rest
        }
        None => line,
    }
}

/// The first word, and what comes behind it.
pub(crate) fn split_word(line: &[u8]) -> Option<(&[u8], &[u8])>
    ensures words { MatchOption result (words line.now ≡ []) (λ parts. words line.now ≡ parts.0.now
        ∷ words parts.1.now) }
    ensures size { IfSome result (λ parts. length parts.0.now + length parts.1.now
        ≤ length line.now) }
    ensures filled { IfSome result (λ parts. 0 < length parts.0.now) }
{
    match first_other(line) {
        Some(start) => {
            let (_, rest) = line.split_at(start);
            Some(rest.split_at(word_len(rest)))
        }
        None => None,
    }
}

/// The value of each byte as a digit: from 0 for `0` to 35 for `Z` and `z`, and 36 where it is no digit and no letter.
static DIGITS: [u8; 256] = [
    36, 36, 36, 36, 36, 36, 36, 36, 36, 36, 36, 36, 36, 36, 36, 36, 36, 36, 36, 36, 36, 36, 36, 36,
    36, 36, 36, 36, 36, 36, 36, 36, 36, 36, 36, 36, 36, 36, 36, 36, 36, 36, 36, 36, 36, 36, 36, 36,
    0, 1, 2, 3, 4, 5, 6, 7, 8, 9, 36, 36, 36, 36, 36, 36, 36, 10, 11, 12, 13, 14, 15, 16, 17, 18,
    19, 20, 21, 22, 23, 24, 25, 26, 27, 28, 29, 30, 31, 32, 33, 34, 35, 36, 36, 36, 36, 36, 36, 10,
    11, 12, 13, 14, 15, 16, 17, 18, 19, 20, 21, 22, 23, 24, 25, 26, 27, 28, 29, 30, 31, 32, 33, 34,
    35, 36, 36, 36, 36, 36, 36, 36, 36, 36, 36, 36, 36, 36, 36, 36, 36, 36, 36, 36, 36, 36, 36, 36,
    36, 36, 36, 36, 36, 36, 36, 36, 36, 36, 36, 36, 36, 36, 36, 36, 36, 36, 36, 36, 36, 36, 36, 36,
    36, 36, 36, 36, 36, 36, 36, 36, 36, 36, 36, 36, 36, 36, 36, 36, 36, 36, 36, 36, 36, 36, 36, 36,
    36, 36, 36, 36, 36, 36, 36, 36, 36, 36, 36, 36, 36, 36, 36, 36, 36, 36, 36, 36, 36, 36, 36, 36,
    36, 36, 36, 36, 36, 36, 36, 36, 36, 36, 36, 36, 36, 36, 36, 36, 36, 36, 36, 36, 36, 36, 36, 36,
    36, 36, 36, 36, 36, 36, 36, 36, 36, 36, 36, 36, 36, 36,
];

/// The value of a digit or a letter, from 0 for `0` to 35 for `Z` and `z`, and 36 for any other byte.
fn digit(byte: u8) -> u8
    ensures value { result ≡ digit_value byte }
    ensures bound { result ≤ 36 }
{
    DIGITS[byte as usize]
}

/// The number that 1 to `room` digits write in a base of at most 16; none where a byte is no digit, or
/// where there are none or too many. `room` is at most 10.
#[tactic(auto, unfolding(crate::specs::Words::digits))]
pub fn digits(base: u8, room: usize, word: &[u8]) -> Option<u64>
    requires base { base ≤ 16 }
    requires room { room ≤ 10 }
    ensures { result ≡ digits base room word.now }
{
    if word.is_empty() || word.len() > room {
        return None;
    }
    let mut value: u64 = 0;
    for byte in word {
        let digit = digit(*byte);
        if digit >= base {
            return None;
        }
        value = value * u64::from(base) + u64::from(digit);
    }
    Some(value)
}

fn is_hex_number(word: &[u8]) -> bool
    ensures value { result ≡ starts_with nat_eq word.now (codes "0x") }
    ensures long { IsTrue result → 2 ≤ length word.now }
{
    word.starts_with(b"0x")
}

fn any_number(word: &[u8]) -> Option<u64>
    ensures { result ≡ any_number word.now }
{
    if is_hex_number(word) {
        return digits(16, 8, &word[2..]);
    }
    digits(10, 10, word)
}

/// The number that a word writes, where it is at most `most`.
#[tactic(auto, unfolding(crate::specs::Words::number))]
pub(crate) fn number(most: u32, word: &[u8]) -> Option<u32>
    ensures value { result ≡ number most word.now }
    ensures bound { IfSome result (λ n. n ≤ most) }
{
    let number = any_number(word)?;
    if number <= u64::from(most) {
        return Some(number as u32);
    }
    None
}

/// Writes the bytes that pairs of hexadecimal digits write into the first places, and answers how many they are.
pub(crate) fn hex(word: &[u8], places: &mut [u8; PACKET_BYTES]) -> Option<usize>
    requires { length word.now ≤ 2 * PACKET_BYTES }
    ensures bytes { option_map (λ count. take count places.new) result ≡ hex word.now }
    ensures few { IfSome result (λ count. count ≤ PACKET_BYTES) }
{
    if word.len() % 2 != 0 {
        return None;
    }
    if word.len() < LANES {
        return short_hex(word, places);
    }
    long_hex(word, places)
}

/// Writes the bytes of at least eight pairs of digits, eight at once. The last eight may be read in part before.
fn long_hex(word: &[u8], places: &mut [u8; PACKET_BYTES]) -> Option<usize>
    requires even { length word.now % 2 ≡ 0 }
    requires long { LANES ≤ length word.now }
    requires short { length word.now ≤ 2 * PACKET_BYTES }
    ensures bytes { option_map (λ count. take count places.new) result ≡ hex word.now }
    ensures few { IfSome result (λ count. count ≤ PACKET_BYTES) }
{
    let count = word.len() / 2;
    'eights: for k in 0..(count - 1) / HALF_LANES {
        if !place_pairs(word, HALF_LANES * k, places) {
            return None;
        }
    }
    if !place_pairs(word, count - HALF_LANES, places) {
        return None;
    }
    Some(count)
}

/// Writes the bytes of pairs of digits, one pair after another.
fn short_hex(word: &[u8], places: &mut [u8; PACKET_BYTES]) -> Option<usize>
    requires { length word.now ≤ 2 * PACKET_BYTES }
    ensures bytes { option_map (λ count. take count places.new) result ≡ hex word.now }
    ensures few { IfSome result (λ count. count ≤ PACKET_BYTES) }
{
    // The bits of all values together are asked once, at the end.
    let mut bits: u16 = 0;
    'pairs: for i in 0..word.len() / 2 {
        let value = pair_value(word[2 * i], word[2 * i + 1]);
        bits = bits | value;
        places[i] = (value % 256) as u8;
    }
    if bits >= 256 {
        return None;
    }
    if word.len() % 2 == 0 {
        Some(word.len() / 2)
    } else {
        None
    }
}

/// The name that a word writes.
#[tactic(auto, unfolding(crate::specs::Words::name_said))]
pub(crate) fn name(word: &[u8]) -> Option<Name>
    ensures { result ≡ name_said word.now }
{
    match str::from_utf8(word) {
        Ok(text) => Name::from_text(text),
        Err(_) => None,
    }
}

/// The application that a word names.
#[tactic(auto, unfolding(crate::specs::Words::app_of))]
pub(crate) fn app(word: &[u8]) -> Option<App>
    ensures { result ≡ app_of word.now }
{
    if word == b"HS".as_slice() {
        Some(App::Hs)
    } else if word == b"CS".as_slice() {
        Some(App::Cs)
    } else if word == b"SC".as_slice() {
        Some(App::Sc)
    } else if word == b"MM".as_slice() {
        Some(App::Mm)
    } else if word == b"MD".as_slice() {
        Some(App::Md)
    } else {
        None
    }
}

/// The kind of memory that a word names.
#[tactic(auto, unfolding(crate::specs::Words::kind_of))]
pub(crate) fn kind(word: &[u8]) -> Option<Kind>
    ensures { result ≡ kind_of word.now }
{
    if word == b"RAM".as_slice() {
        Some(Kind::Ram)
    } else if word == b"EEPROM".as_slice() {
        Some(Kind::Eeprom)
    } else if word == b"MEM8".as_slice() {
        Some(Kind::Mem8)
    } else if word == b"MEM16".as_slice() {
        Some(Kind::Mem16)
    } else if word == b"MEM32".as_slice() {
        Some(Kind::Mem32)
    } else {
        None
    }
}
