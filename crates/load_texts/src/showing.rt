//! Files to be loaded that are shown as text.
ghost use Rattle.std.specs.Prelude.{◌≡◌, ◌≤◌, ◌++◌, true, length, None, OnOk};
ghost use Rattle.table_files.specs.Headers.{file_fault_of, is_load};
ghost use Rattle.load_texts.specs.Headers.{is_header};
ghost use Rattle.load_texts.specs.Loaded.{loaded_line, loaded_text};
ghost use Rattle.load_texts.specs.Loads.{load_line, load_text};

use crate::headers::show_words;
use packet_forms::{behind, front};
use row_forms::{Field, push_hex};
use std::alloc::{AllocError, Global};

/// How many bytes a line shows at most.
const LINE: usize = 32;

/// Appends the text of a file to be loaded that `read_file` accepts; `read_load` reads it back to these bytes.
#[tactic(auto, unfolding(crate::specs::Loads::load_text))]
pub fn show_load(
    alloc: Global,
    fields: &[Field],
    file: &[u8],
    out: &mut Vec<u8>,
) -> Result<(), AllocError>
    requires fields { is_header fields.now ≡ true }
    requires well { file_fault_of file.now ≡ None }
    requires load { is_load file.now ≡ true }
    ensures { OnOk result (out.new.items ≡ out.old.items ++ load_text fields.now file.now) }
{
    show_first(alloc, fields, file, out)?;
    show_bytes(behind(file, 80), out)
}

/// Appends the first line of a text.
fn show_first(
    alloc: Global,
    fields: &[Field],
    file: &[u8],
    out: &mut Vec<u8>,
) -> Result<(), AllocError>
    requires fields { is_header fields.now ≡ true }
    requires long { 80 ≤ length file.now }
    ensures { OnOk result (out.new.items ≡ out.old.items ++ load_line fields.now file.now) }
{
    let mut row = Vec::new(alloc);
    out.extend_from_slice(b"load address=0x")?;
    push_hex(front(behind(file, 64), 4), out)?;
    show_words(fields, file, &mut row, out)?;
    out.push(b'\n')?;
    Ok(())
}

/// Appends the lines of bytes to be loaded, and `end`.
fn show_bytes(bytes: &[u8], out: &mut Vec<u8>) -> Result<(), AllocError>
    ensures { OnOk result (out.new.items ≡ out.old.items ++ loaded_text bytes.now) }
{
    let mut rest = bytes;
    'lines: while !rest.is_empty() {
        show_line(front(rest, LINE), out)?;
        rest = behind(rest, LINE);
    }
    out.extend_from_slice(b"end\n")?;
    Ok(())
}

/// Appends a line of bytes.
fn show_line(bytes: &[u8], out: &mut Vec<u8>) -> Result<(), AllocError>
    ensures { OnOk result (out.new.items ≡ out.old.items ++ loaded_line bytes.now) }
{
    out.extend_from_slice(b"bytes ")?;
    push_hex(bytes, out)?;
    out.push(b'\n')?;
    Ok(())
}
