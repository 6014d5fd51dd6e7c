//! Texts that are put together.

ghost use Rattle.std.specs.Prelude.{◌≡◌, ◌++◌, OnOk, encode_utf8};
ghost use Rattle.std.specs.List.{flat_map};

use std::alloc::AllocError;

/// Appends texts, one behind the other.
pub fn push_texts(out: &mut Vec<u8>, texts: &[&str]) -> Result<(), AllocError>
    ensures { OnOk result (out.new.items ≡ out.old.items ++ flat_map (λ t. t.now) texts.now) }
{
    for text in texts {
        out.extend_from_slice(text.as_bytes())?;
    }
    Ok(())
}

/// Appends a letter.
pub fn push_letter(out: &mut Vec<u8>, letter: char) -> Result<(), AllocError>
    ensures { OnOk result (out.new.items ≡ out.old.items ++ encode_utf8 letter) }
{
    let mut bytes = [0u8; 4];
    out.extend_from_slice(letter.encode_utf8(&mut bytes).as_bytes())
}
