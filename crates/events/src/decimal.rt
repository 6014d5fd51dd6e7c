//! Numbers in decimal digits.
ghost use Rattle.std.specs.Prelude.{◌≡◌, ◌++◌, decimal, OnOk};

use itoa::Buffer;
use std::alloc::AllocError;

/// Appends a text, and the decimal digits of a number.
pub(crate) fn push_numbered(
    text: &'static str,
    number: u16,
    out: &mut Vec<u8>,
) -> Result<(), AllocError>
    ensures { OnOk result (out.new.items ≡ out.old.items ++ text.now ++ decimal number) }
{
    out.extend_from_slice(text.as_bytes())?;
    let mut buffer = Buffer::new();
    out.extend_from_slice(buffer.format(number).as_bytes())
}
