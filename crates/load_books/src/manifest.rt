//! What a book gives, a line for each file.
ghost use Rattle.std.specs.Prelude.{◌≡◌, ◌++◌, ◌∷◌, [], decimal, map, OnOk, IfOk};
ghost use Rattle.packet_forms.specs.Crc.{crc_of};
ghost use Rattle.packet_forms.specs.Hex.{hex};
ghost use Rattle.packet_forms.specs.Numbers.{be16_bytes};
ghost use Rattle.load_books.specs.Files.{file_made};
ghost use Rattle.load_books.specs.Books.{book_made};
ghost use Rattle.load_books.specs.Manifests.{kind_word, field, entry, entries, manifest_said};

use crate::files::BookFile;
use crate::naming::push_number;
use crate::reading::Book;
use crate::titles::FileKind;
use packet_forms::crc16;
use row_forms::push_hex;
use std::alloc::{AllocError, Global};

/// The word of a kind of file.
fn kind_word(kind: FileKind) -> &'static [u8]
    ensures { result.now ≡ kind_word kind }
{
    match kind {
        FileKind::Table => b"table",
        FileKind::Load => b"load",
    }
}

/// Appends a space and a word.
fn put_field(word: &[u8], out: &mut Vec<u8>) -> Result<(), AllocError>
    ensures { OnOk result (out.new.items ≡ out.old.items ++ field word.now) }
{
    out.push(b' ')?;
    out.extend_from_slice(word)
}

/// Appends a space and a number.
fn put_number(number: usize, out: &mut Vec<u8>) -> Result<(), AllocError>
    ensures { OnOk result (out.new.items ≡ out.old.items ++ field (decimal number)) }
{
    out.push(b' ')?;
    push_number(number, out)
}

/// Appends the CRC of bytes.
#[tactic(auto, unfolding(packet_forms::specs::Numbers::be16_bytes))]
fn push_crc(bytes: &[u8], out: &mut Vec<u8>) -> Result<(), AllocError>
    ensures { OnOk result (out.new.items ≡ out.old.items ++ hex (be16_bytes (crc_of 0 bytes.now))) }
{
    let [high, low] = crc16(0, bytes).to_be_bytes();
    push_hex(&[high, low], out)
}

/// Appends a space and the CRC of bytes, and ends the line.
fn put_check(bytes: &[u8], out: &mut Vec<u8>) -> Result<(), AllocError>
    ensures { OnOk result (out.new.items ≡ out.old.items
        ++ (field (hex (be16_bytes (crc_of 0 bytes.now))) ++ 10 ∷ [])) }
{
    out.push(b' ')?;
    push_crc(bytes, out)?;
    out.push(b'\n')?;
    Ok(())
}

/// Appends a line.
fn put_entry(kind: &[u8], name: &[u8], bytes: &[u8], out: &mut Vec<u8>) -> Result<(), AllocError>
    ensures { OnOk result (out.new.items ≡ out.old.items ++ entry kind.now name.now bytes.now) }
{
    out.extend_from_slice(kind)?;
    put_field(name, out)?;
    put_number(bytes.len(), out)?;
    put_check(bytes, out)?;
    Ok(())
}

/// Appends the line of a file.
fn put_file(file: &BookFile<'_>, out: &mut Vec<u8>) -> Result<(), AllocError>
    ensures { OnOk result (out.new.items ≡ out.old.items
        ++ entry (kind_word file.now.kind) file.now.name.now file.now.bytes.items) }
{
    put_entry(kind_word(file.kind), file.name, &file.bytes, out)
}

/// Appends the lines of files.
fn put_entries(files: &[BookFile<'_>], out: &mut Vec<u8>) -> Result<(), AllocError>
    ensures { OnOk result (out.new.items ≡ out.old.items ++ entries (map file_made files.now)) }
{
    for file in files {
        put_file(file, out)?;
    }
    Ok(())
}

/// The manifest of a book: a line `KIND NAME BYTES CRC` for each file, and the last one for the scenario, by the book's name. The CRC is
/// that of the file's bytes, in four hexadecimal digits.
pub fn book_manifest(alloc: Global, book: &Book<'_>) -> Result<Vec<u8>, AllocError>
    ensures { IfOk result (λ text. text.items ≡ manifest_said (book_made book.now)) }
{
    let mut out = Vec::new(alloc);
    put_entries(book.files.as_slice(), &mut out)?;
    put_entry(b"scenario", book.name, &book.scenario, &mut out)?;
    Ok(out)
}
