//! What a word of a line says: the number of a frame, and bytes.

ghost use Rattle.std.specs.Prelude.{◌≡◌, ◌≤◌, ◌<◌, ◌+◌, ◌*◌, ◌^◌, ◌&&◌, true, false, nat_lt, Some, None, take, length, MatchOption, IfSome};
ghost use Rattle.std.specs.Char.{is_digit, digit_value};
ghost use Rattle.row_forms.specs.Words.{digits};
ghost use Rattle.log_lines.specs.Lines.{frame_said, digit_number, bytes_said};

use packet_log::head_of;

/// The value of a decimal digit; none for any other byte.
fn decimal_digit(byte: u8) -> Option<u8>
    ensures value { MatchOption result
        (is_digit byte 10 ≡ false)
        (λ digit. digit_value byte ≡ digit) }
    ensures bound { IfSome result (λ digit. digit < 10) }
{
    if b'0' <= byte && byte <= b'9' {
        return Some(byte - b'0');
    }
    None
}

/// The number that 1 to 10 decimal digits write; none where a byte is no digit, or where there are none or too many.
#[tactic(auto, unfolding(row_forms::specs::Words::digits))]
fn digits(word: &[u8]) -> Option<u64>
    ensures value { result ≡ digits 10 10 word.now }
    ensures bound { IfSome result (λ n. n < 10 ^ 10) }
{
    if word.is_empty() || word.len() > 10 {
        return None;
    }
    let mut value: u64 = 0;
    for byte in word {
        let Some(digit) = decimal_digit(*byte) else {
            return None;
        };
        value = value * 10 + u64::from(digit);
    }
    Some(value)
}

/// The number of a frame that a word writes in decimal digits, without a zero in front of others.
#[tactic(auto, unfolding(crate::specs::Lines::frame_said))]
pub(crate) fn frame_number(word: &[u8]) -> Option<u32>
    ensures { result ≡ frame_said word.now }
{
    let number = digits(word)?;
    if number > u64::from(u32::MAX) {
        return None;
    }
    let frame = number as u32;
    if head_of(frame).bytes() == word {
        Some(frame)
    } else {
        None
    }
}

/// The value of each byte as a hexadecimal digit in upper case, and 16 where it is none.
static DIGITS: [u8; 256] = [
    16, 16, 16, 16, 16, 16, 16, 16, 16, 16, 16, 16, 16, 16, 16, 16, 16, 16, 16, 16, 16, 16, 16, 16,
    16, 16, 16, 16, 16, 16, 16, 16, 16, 16, 16, 16, 16, 16, 16, 16, 16, 16, 16, 16, 16, 16, 16, 16,
    0, 1, 2, 3, 4, 5, 6, 7, 8, 9, 16, 16, 16, 16, 16, 16, 16, 10, 11, 12, 13, 14, 15, 16, 16, 16,
    16, 16, 16, 16, 16, 16, 16, 16, 16, 16, 16, 16, 16, 16, 16, 16, 16, 16, 16, 16, 16, 16, 16, 16,
    16, 16, 16, 16, 16, 16, 16, 16, 16, 16, 16, 16, 16, 16, 16, 16, 16, 16, 16, 16, 16, 16, 16, 16,
    16, 16, 16, 16, 16, 16, 16, 16, 16, 16, 16, 16, 16, 16, 16, 16, 16, 16, 16, 16, 16, 16, 16, 16,
    16, 16, 16, 16, 16, 16, 16, 16, 16, 16, 16, 16, 16, 16, 16, 16, 16, 16, 16, 16, 16, 16, 16, 16,
    16, 16, 16, 16, 16, 16, 16, 16, 16, 16, 16, 16, 16, 16, 16, 16, 16, 16, 16, 16, 16, 16, 16, 16,
    16, 16, 16, 16, 16, 16, 16, 16, 16, 16, 16, 16, 16, 16, 16, 16, 16, 16, 16, 16, 16, 16, 16, 16,
    16, 16, 16, 16, 16, 16, 16, 16, 16, 16, 16, 16, 16, 16, 16, 16, 16, 16, 16, 16, 16, 16, 16, 16,
    16, 16, 16, 16, 16, 16, 16, 16, 16, 16, 16, 16, 16, 16,
];

/// The value of a hexadecimal digit in upper case, and 16 for any other byte.
fn digit(byte: u8) -> u8
    ensures value { result ≡ digit_number byte }
    ensures bound { result ≤ 16 }
{
    DIGITS[byte as usize]
}

/// The byte that two digits write; none where one of them is no digit.
#[inline(always)]
fn pair(high: u8, low: u8) -> Option<u8>
    ensures { MatchOption result
        ((nat_lt (digit_number high) 16 && nat_lt (digit_number low) 16) ≡ false)
        (λ byte. ((nat_lt (digit_number high) 16 && nat_lt (digit_number low) 16) ≡ true)
        × (byte ≡ 16 * digit_number high + digit_number low)) }
{
    let high = digit(high);
    let low = digit(low);
    if high < 16 && low < 16 {
        return Some(16 * high + low);
    }
    None
}

/// How many bytes a word of a line writes at most.
pub(crate) const MOST_BYTES: usize = 320;

/// Writes the bytes that pairs of hexadecimal digits in upper case say over the first places, and answers how many they are; none
/// where the word isn't made of such pairs.
pub(crate) fn read_bytes(word: &[u8], places: &mut [u8]) -> Option<usize>
    requires short { length word.now ≤ 640 }
    requires room { length places.old ≡ MOST_BYTES }
    ensures bytes { MatchOption result
        (bytes_said word.now ≡ None)
        (λ count. bytes_said word.now ≡ Some (take count places.new)) }
    ensures few { IfSome result (λ count. count ≤ MOST_BYTES) }
    ensures room { length places.new ≡ MOST_BYTES }
{
    if word.len() % 2 != 0 {
        return None;
    }
    for i in 0..word.len() / 2 {
        let Some(byte) = pair(word[2 * i], word[2 * i + 1]) else {
            return None;
        };
        places[i] = byte;
    }
    Some(word.len() / 2)
}
