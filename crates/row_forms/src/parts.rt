//! Parts of a text between commas, and bytes behind others.
ghost use Rattle.std.specs.Prelude.{◌≡◌, ◌==◌, ◌<◌, ◌++◌, ◌∷◌, [], length, replicate, decimal, OnOk, IfSome, MatchOption};
ghost use Rattle.std.specs.List.{position};
ghost use Rattle.packet_forms.specs.Hex.{hex, hex_digit};
ghost use Rattle.row_forms.specs.Lists.{parts};

use itoa::Buffer;
use packet_forms::{behind, front};
use std::alloc::AllocError;

fn first_comma(text: &[u8]) -> Option<usize>
    ensures { result ≡ position (λ b. b == 44) text.now }
{
    text.iter().position(|b| *b == b',')
}

/// The part before the first comma, and what comes behind the comma, where there is one.
pub(crate) fn split_part(text: &[u8]) -> (&[u8], Option<&[u8]>)
    ensures parts { MatchOption result.1
        (parts text.now ≡ result.0.now ∷ [])
        (λ rest. parts text.now ≡ result.0.now ∷ parts rest.now) }
    ensures shorter { IfSome result.1 (λ rest. length rest.now < length text.now) }
{
    match first_comma(text) {
        Some(at) => (front(text, at), Some(behind(text, at + 1))),
        None => (text, None),
    }
}

/// Appends so many zero bytes.
pub fn push_zeros(count: usize, out: &mut Vec<u8>) -> Result<(), AllocError>
    ensures { OnOk result (out.new.items ≡ out.old.items ++ replicate count 0) }
{
    for _done in 0..count {
        out.push(0)?;
    }
    Ok(())
}

/// Appends the decimal digits of a number.
pub fn push_decimal(number: u32, out: &mut Vec<u8>) -> Result<(), AllocError>
    ensures { OnOk result (out.new.items ≡ out.old.items ++ decimal number) }
{
    let mut buffer = Buffer::new();
    out.extend_from_slice(buffer.format(number).as_bytes())
}

/// A hexadecimal digit, in upper case.
fn hex_digit(value: u8) -> u8
    requires { value < 16 }
    ensures { result ≡ hex_digit value }
{
    if value < 10 { 48 + value } else { 55 + value }
}

/// Appends the two hexadecimal digits of each byte.
pub fn push_hex(bytes: &[u8], out: &mut Vec<u8>) -> Result<(), AllocError>
    ensures { OnOk result (out.new.items ≡ out.old.items ++ hex bytes.now) }
{
    for byte in bytes {
        out.extend_from_slice(&[hex_digit(*byte / 16), hex_digit(*byte % 16)])?;
    }
    Ok(())
}
