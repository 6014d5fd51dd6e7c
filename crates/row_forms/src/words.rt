//! The words of a line, and what a word says.
ghost use Rattle.std.specs.Prelude.{◌≡◌, ◌≤◌, ◌<◌, ◌+◌, ◌*◌, ◌^◌, ◌==◌, ◌∷◌, [], Some, None, length, not, MatchOption, IfSome, IsTrue, codes, nat_eq};
ghost use Rattle.std.specs.List.{position, position_or_len, starts_with};
ghost use Rattle.std.specs.Char.{digit_value};
ghost use Rattle.row_forms.specs.Words.{words, digits, any_number, number, name_said};

use packet_forms::Name;

/// The place of the first byte that is no space.
fn first_other(bytes: &[u8]) -> Option<usize>
    ensures { result ≡ position (λ b. not (b == 32)) bytes.now }
{
    bytes.iter().position(|b| !(*b == b' '))
}

/// The place of the first space.
fn first_space(bytes: &[u8]) -> Option<usize>
    ensures { result ≡ position (λ b. b == 32) bytes.now }
{
    bytes.iter().position(|b| *b == b' ')
}

/// How many bytes come before the first space.
fn word_len(bytes: &[u8]) -> usize
    ensures value { result ≡ position_or_len (λ b. b == 32) bytes.now }
    ensures bound { result ≤ length bytes.now }
{
    match first_space(bytes) {
        Some(len) => len,
        None => bytes.len(),
    }
}

/// The first word, and what comes behind it.
pub fn split_word(line: &[u8]) -> Option<(&[u8], &[u8])>
    ensures words { MatchOption result (words line.now ≡ []) (λ parts. words line.now ≡ parts.0.now
        ∷ words parts.1.now) }
    ensures size { IfSome result (λ parts. length parts.0.now + length parts.1.now
        ≤ length line.now) }
    ensures filled { IfSome result (λ parts. 0 < length parts.0.now) }
    ensures alone { IfSome result (λ parts. words parts.0.now ≡ parts.0.now ∷ []) }
{
    match first_other(line) {
        Some(start) => {
            let (_, rest) = line.split_at(start);
            Some(rest.split_at(word_len(rest)))
        }
        None => None,
    }
}

/// The value of each byte as a digit: from 0 for `0` to 35 for `Z` and `z`, and 36 where it is no digit and no letter.
static DIGITS: [u8; 256] = [
    36, 36, 36, 36, 36, 36, 36, 36, 36, 36, 36, 36, 36, 36, 36, 36, 36, 36, 36, 36, 36, 36, 36, 36,
    36, 36, 36, 36, 36, 36, 36, 36, 36, 36, 36, 36, 36, 36, 36, 36, 36, 36, 36, 36, 36, 36, 36, 36,
    0, 1, 2, 3, 4, 5, 6, 7, 8, 9, 36, 36, 36, 36, 36, 36, 36, 10, 11, 12, 13, 14, 15, 16, 17, 18,
    19, 20, 21, 22, 23, 24, 25, 26, 27, 28, 29, 30, 31, 32, 33, 34, 35, 36, 36, 36, 36, 36, 36, 10,
    11, 12, 13, 14, 15, 16, 17, 18, 19, 20, 21, 22, 23, 24, 25, 26, 27, 28, 29, 30, 31, 32, 33, 34,
    35, 36, 36, 36, 36, 36, 36, 36, 36, 36, 36, 36, 36, 36, 36, 36, 36, 36, 36, 36, 36, 36, 36, 36,
    36, 36, 36, 36, 36, 36, 36, 36, 36, 36, 36, 36, 36, 36, 36, 36, 36, 36, 36, 36, 36, 36, 36, 36,
    36, 36, 36, 36, 36, 36, 36, 36, 36, 36, 36, 36, 36, 36, 36, 36, 36, 36, 36, 36, 36, 36, 36, 36,
    36, 36, 36, 36, 36, 36, 36, 36, 36, 36, 36, 36, 36, 36, 36, 36, 36, 36, 36, 36, 36, 36, 36, 36,
    36, 36, 36, 36, 36, 36, 36, 36, 36, 36, 36, 36, 36, 36, 36, 36, 36, 36, 36, 36, 36, 36, 36, 36,
    36, 36, 36, 36, 36, 36, 36, 36, 36, 36, 36, 36, 36, 36,
];

/// The value of a digit or a letter, from 0 for `0` to 35 for `Z` and `z`, and 36 for any other byte.
pub(crate) fn digit(byte: u8) -> u8
    ensures value { result ≡ digit_value byte }
    ensures bound { result ≤ 36 }
{
    DIGITS[byte as usize]
}

/// The number that 1 to `room` digits write in a base of at most 16; none where a byte is no digit, or
/// where there are none or too many. `room` is at most 10.
#[tactic(auto, unfolding(crate::specs::Words::digits))]
pub(crate) fn digits(base: u8, room: usize, word: &[u8]) -> Option<u64>
    requires base { base ≤ 16 }
    requires room { room ≤ 10 }
    ensures value { result ≡ digits base room word.now }
    ensures bound { IfSome result (λ n. n < 16 ^ 10) }
{
    if word.is_empty() || word.len() > room {
        return None;
    }
    let mut value: u64 = 0;
    for byte in word {
        let digit = digit(*byte);
        if digit >= base {
            return None;
        }
        value = value * u64::from(base) + u64::from(digit);
    }
    Some(value)
}

fn is_hex_number(word: &[u8]) -> bool
    ensures value { result ≡ starts_with nat_eq word.now (codes "0x") }
    ensures long { IsTrue result → 2 ≤ length word.now }
{
    word.starts_with(b"0x")
}

fn any_number(word: &[u8]) -> Option<u64>
    ensures { result ≡ any_number word.now }
{
    if is_hex_number(word) {
        return digits(16, 8, &word[2..]);
    }
    digits(10, 10, word)
}

/// The number that a word writes, where it is at most `most`: 1 to 10 decimal digits, or `0x` and 1 to 8 hexadecimal digits.
#[tactic(auto, unfolding(crate::specs::Words::number))]
pub fn number(most: u32, word: &[u8]) -> Option<u32>
    ensures value { result ≡ number most word.now }
    ensures bound { IfSome result (λ n. n ≤ most) }
{
    let number = any_number(word)?;
    if number <= u64::from(most) {
        return Some(number as u32);
    }
    None
}

/// The name that a word writes.
#[tactic(auto, unfolding(crate::specs::Words::name_said))]
pub(crate) fn name(word: &[u8]) -> Option<Name>
    ensures { result ≡ name_said word.now }
{
    match str::from_utf8(word) {
        Ok(text) => Name::from_text(text),
        Err(_) => None,
    }
}
