//! Numbers of one, two and four bytes, and how they are written.
ghost use Rattle.std.specs.Prelude.{◌≡◌, ◌≤◌, ◌<◌, ◌+◌, ◌^◌, ◌++◌, length, map, decimal, false, IfSome, OnOk};
ghost use Rattle.row_forms.specs.Lists.{parts, listed, behind_comma};
ghost use Rattle.row_forms.specs.Words.{at_most};
ghost use Rattle.row_forms.specs.Numbers.{bytes_of, number_bytes, number_at, choice_said, choice_shown, bit_said, bits_said, mask_said, bits_of, mask_shown, span_of, span_said, behind_epoch, time_said, number_said, number_shown};

use crate::field::{Choice, Spelling, Width};
use crate::parts::{push_decimal, push_hex, split_part};
use crate::words::{digits, number};
use packet_forms::{be16, be32, behind, front};
use std::alloc::AllocError;

/// Appends the bytes of a number, the most significant first.
#[tactic(auto, unfolding(packet_forms::specs::Numbers::be16_bytes, packet_forms::specs::Numbers::be32_bytes))]
pub(crate) fn push_number(width: Width, number: u32, out: &mut Vec<u8>) -> Result<(), AllocError>
    ensures { OnOk result (out.new.items ≡ out.old.items ++ number_bytes width number) }
{
    let [a, b, c, d] = number.to_be_bytes();
    match width {
        Width::U8 => out.extend_from_slice(&[d]),
        Width::U16 => out.extend_from_slice(&[c, d]),
        Width::U32 => out.extend_from_slice(&[a, b, c, d]),
    }
}

/// The number of the first bytes.
fn number_at(width: Width, bytes: &[u8]) -> u32
    requires { bytes_of width ≤ length bytes.now }
    ensures { result ≡ number_at width bytes.now }
{
    match width {
        Width::U8 => u32::from(bytes[0]),
        Width::U16 => u32::from(be16(bytes, 0)),
        Width::U32 => be32(bytes, 0),
    }
}

/// The number, where it isn't over the largest one that is wanted.
fn at_most(most: u32, number: u64) -> Option<u32>
    ensures value { result ≡ at_most most number }
    ensures bound { IfSome result (λ n. n ≤ most) }
{
    if number <= u64::from(most) {
        return Some(number as u32);
    }
    None
}

/// The number of the first choice with this text; else the number that the text writes.
pub(crate) fn choice_number(choices: &[Choice], most: u32, text: &[u8]) -> Option<u32>
    ensures value { result ≡ choice_said most choices.now text.now }
    ensures bound { IfSome result (λ n. n ≤ most) }
{
    for choice in choices {
        if choice.text.as_bytes() == text {
            return at_most(most, u64::from(choice.number));
        }
    }
    number(most, text)
}

/// Appends the text of the first choice with this number; else the decimal digits.
pub(crate) fn push_choice(
    choices: &[Choice],
    number: u32,
    out: &mut Vec<u8>,
) -> Result<(), AllocError>
    ensures { OnOk result (out.new.items ≡ out.old.items ++ choice_shown choices.now number) }
{
    for choice in choices {
        if choice.number == number {
            return out.extend_from_slice(choice.text.as_bytes());
        }
    }
    push_decimal(number, out)
}

/// The number of a bit that comes behind another one.
fn bit_number(bits: u32, last: u32, text: &[u8]) -> Option<u32>
    ensures value { result ≡ bit_said bits last text.now }
    ensures above { IfSome result (λ bit. last < bit) }
    ensures within { IfSome result (λ bit. bit ≤ bits) }
{
    match number(bits, text) {
        Some(bit) if last < bit => Some(bit),
        _ => None,
    }
}

/// Bits of rising numbers behind the last one, as a number.
fn bits_number(bits: u32, last: u32, text: &[u8]) -> Option<u32>
    requires { bits ≤ 32 }
    ensures value { result ≡ bits_said bits last (parts text.now) }
    ensures bound { IfSome result (λ n. n + 2 ^ last ≤ 2 ^ bits) }
{
    let (part, rest) = split_part(text);
    let Some(bit) = bit_number(bits, last, part) else {
        return None;
    };
    let value: u32 = 1 << (bit - 1);
    let Some(rest) = rest else {
        return Some(value);
    };
    match bits_number(bits, bit, rest) {
        Some(more) => Some(value + more),
        None => None,
    }
}

/// The number that a mask says: `none`, or the numbers of its bits between commas.
#[tactic(auto, unfolding(crate::specs::Numbers::mask_said))]
fn mask_number(bits: u32, text: &[u8]) -> Option<u32>
    requires { bits ≤ 32 }
    ensures value { result ≡ mask_said bits text.now }
    ensures bound { IfSome result (λ n. n < 2 ^ bits) }
{
    if text == b"none".as_slice() {
        return Some(0);
    }
    bits_number(bits, 0, text)
}

/// Appends the numbers of the bits that are 1, of so many bits, the first of which has the number `first`.
fn push_bits(bits: u32, number: u32, out: &mut Vec<u8>) -> Result<(), AllocError>
    ensures { OnOk result (out.new.items ≡ out.old.items
        ++ listed false (map decimal (bits_of bits 1 number))) }
{
    let mut rest = number;
    let mut led = false;
    for bit in 0..bits {
        if rest % 2 == 1 {
            push_bit(led, bit + 1, out)?;
            led = true;
        }
        rest /= 2;
    }
    Ok(())
}

/// Appends the number of a bit, with a comma in front where another one stands before it.
fn push_bit(led: bool, bit: u32, out: &mut Vec<u8>) -> Result<(), AllocError>
    ensures { OnOk result (out.new.items ≡ out.old.items ++ behind_comma led (decimal bit)) }
{
    if led {
        out.push(b',')?;
    }
    push_decimal(bit, out)
}

/// Appends the text of a mask.
#[tactic(auto, unfolding(crate::specs::Numbers::mask_shown))]
fn push_mask(bits: u32, number: u32, out: &mut Vec<u8>) -> Result<(), AllocError>
    ensures { OnOk result (out.new.items ≡ out.old.items ++ mask_shown bits number) }
{
    if number == 0 {
        return out.extend_from_slice(b"none");
    }
    push_bits(bits, number, out)
}

/// The seconds of so many hours, minutes under 60 and seconds under 60.
fn span_of(hours: Option<u64>, minutes: Option<u64>, seconds: Option<u64>) -> Option<u64>
    requires { IfSome hours (λ n. n < 16 ^ 10) }
    ensures value { result ≡ span_of hours minutes seconds }
    ensures bound { IfSome result (λ n. n < 2 ^ 60) }
{
    match (hours, minutes, seconds) {
        (Some(hours), Some(minutes), Some(seconds)) if minutes < 60 && seconds < 60 => {
            Some(3600 * hours + 60 * minutes + seconds)
        }
        _ => None,
    }
}

/// The seconds that `H:MM:SS` says, with 1 to 5 digits of hours.
#[tactic(auto, unfolding(crate::specs::Numbers::span_said))]
fn span(text: &[u8]) -> Option<u64>
    ensures value { result ≡ span_said text.now }
    ensures bound { IfSome result (λ n. n < 2 ^ 60) }
{
    let end = text.len();
    if end < 7 || text[end - 6] != b':' || text[end - 3] != b':' {
        return None;
    }
    let hours = digits(10, 5, front(text, end - 6));
    let minutes = digits(10, 2, front(behind(text, end - 5), 2));
    let seconds = digits(10, 2, behind(text, end - 2));
    span_of(hours, minutes, seconds)
}

/// A time so many seconds behind the epoch.
fn behind_epoch(most: u32, epoch: Option<u32>, span: Option<u64>) -> Option<u32>
    requires { IfSome span (λ n. n < 2 ^ 60) }
    ensures value { result ≡ behind_epoch most epoch span }
    ensures bound { IfSome result (λ n. n ≤ most) }
{
    match (epoch, span) {
        (Some(epoch), Some(span)) => at_most(most, u64::from(epoch) + span),
        _ => None,
    }
}

/// A time: a number of seconds, or `+H:MM:SS` behind the epoch.
#[tactic(auto, unfolding(crate::specs::Numbers::time_said))]
fn time_number(epoch: Option<u32>, most: u32, text: &[u8]) -> Option<u32>
    ensures value { result ≡ time_said epoch most text.now }
    ensures bound { IfSome result (λ n. n ≤ most) }
{
    if !text.is_empty() && text[0] == b'+' {
        return behind_epoch(most, epoch, span(behind(text, 1)));
    }
    number(most, text)
}

/// The number that a text says.
pub(crate) fn number_said(
    epoch: Option<u32>,
    width: Width,
    spelling: &Spelling,
    text: &[u8],
) -> Option<u32>
    ensures value { result ≡ number_said epoch width spelling.now text.now }
{
    match spelling {
        Spelling::Decimal | Spelling::Hex => number(width.most(), text),
        Spelling::Choice(choices) => choice_number(choices, width.most(), text),
        Spelling::Mask => mask_number(8 * width.bytes() as u32, text),
        Spelling::Time => time_number(epoch, width.most(), text),
    }
}

/// Appends the text of a number, whose bytes these are.
pub(crate) fn push_text(
    width: Width,
    spelling: &Spelling,
    bytes: &[u8],
    out: &mut Vec<u8>,
) -> Result<(), AllocError>
    requires { bytes_of width ≤ length bytes.now }
    ensures { OnOk result (out.new.items ≡ out.old.items
        ++ number_shown width spelling.now (number_at width bytes.now) bytes.now) }
{
    let number = number_at(width, bytes);
    match spelling {
        Spelling::Decimal | Spelling::Time => push_decimal(number, out),
        Spelling::Hex => {
            out.extend_from_slice(b"0x")?;
            push_hex(bytes, out)
        }
        Spelling::Choice(choices) => push_choice(choices, number, out),
        Spelling::Mask => push_mask(8 * width.bytes() as u32, number, out),
    }
}
