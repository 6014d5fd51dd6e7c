//! The manifest of a book's files, a line for each.

ghost use Rattle.std.specs.Prelude.{◌≡◌, ◌++◌, ◌∷◌, [], decimal, map, OnOk, IfOk};
ghost use Rattle.packet_forms.specs.Crc.{crc_of};
ghost use Rattle.packet_forms.specs.Hex.{hex};
ghost use Rattle.packet_forms.specs.Numbers.{be16_bytes};
ghost use Rattle.load_books.specs.Files.{file_made};
ghost use Rattle.load_books.specs.Books.{book_made};
ghost use Rattle.load_books.specs.Manifests.{kind_word, field};
ghost use Rattle.ground_books.specs.Manifests.{ending_of, entry, entries, manifest_said};

use itoa::Buffer;
use load_books::{Book, BookFile, FileKind};
use packet_forms::crc16;
use row_forms::push_hex;
use std::alloc::{AllocError, Global};

/// The word of a kind of file.
fn kind_word(kind: FileKind) -> &'static [u8]
    ensures { result.now ≡ kind_word kind }
{
    match kind {
        FileKind::Table => b"table",
        FileKind::Load => b"load",
    }
}

/// How the names of files of a kind end.
pub(crate) fn ending_of(kind: FileKind) -> &'static [u8]
    ensures { result.now ≡ ending_of kind }
{
    match kind {
        FileKind::Table => b".table",
        FileKind::Load => b".load",
    }
}

/// Appends a space and a word.
fn put_field(word: &[u8], out: &mut Vec<u8>) -> Result<(), AllocError>
    ensures { OnOk result (out.new.items ≡ out.old.items ++ field word.now) }
{
    out.push(b' ')?;
    out.extend_from_slice(word)
}

/// Appends a space and a number.
fn put_number(number: usize, out: &mut Vec<u8>) -> Result<(), AllocError>
    ensures { OnOk result (out.new.items ≡ out.old.items ++ field (decimal number)) }
{
    let mut digits = Buffer::new();
    put_field(digits.format(number).as_bytes(), out)
}

/// Appends the CRC of bytes.
#[tactic(auto, unfolding(packet_forms::specs::Numbers::be16_bytes))]
fn push_crc(bytes: &[u8], out: &mut Vec<u8>) -> Result<(), AllocError>
    ensures { OnOk result (out.new.items ≡ out.old.items ++ hex (be16_bytes (crc_of 0 bytes.now))) }
{
    let [high, low] = crc16(0, bytes).to_be_bytes();
    push_hex(&[high, low], out)
}

/// Appends a space and the CRC of bytes.
fn put_check(bytes: &[u8], out: &mut Vec<u8>) -> Result<(), AllocError>
    ensures { OnOk result (out.new.items ≡ out.old.items
        ++ field (hex (be16_bytes (crc_of 0 bytes.now)))) }
{
    out.push(b' ')?;
    push_crc(bytes, out)
}

/// Appends a space and the name of a file, and ends the line.
fn put_name(name: &[u8], ending: &[u8], out: &mut Vec<u8>) -> Result<(), AllocError>
    ensures { OnOk result (out.new.items ≡ out.old.items
        ++ (field (name.now ++ ending.now) ++ 10 ∷ [])) }
{
    put_field(name, out)?;
    out.extend_from_slice(ending)?;
    out.push(b'\n')?;
    Ok(())
}

/// Appends a line.
fn put_entry(
    kind: &[u8],
    name: &[u8],
    ending: &[u8],
    bytes: &[u8],
    out: &mut Vec<u8>,
) -> Result<(), AllocError>
    ensures { OnOk result (out.new.items ≡ out.old.items
        ++ entry kind.now name.now ending.now bytes.now) }
{
    out.extend_from_slice(kind)?;
    put_field(name, out)?;
    put_number(bytes.len(), out)?;
    put_check(bytes, out)?;
    put_name(name, ending, out)?;
    Ok(())
}

/// Appends the line of a file.
fn put_file(file: &BookFile<'_>, out: &mut Vec<u8>) -> Result<(), AllocError>
    ensures { OnOk result (out.new.items ≡ out.old.items
        ++ entry (kind_word file.now.kind) file.now.name.now
        (ending_of file.now.kind) file.now.bytes.items) }
{
    put_entry(
        kind_word(file.kind),
        file.name,
        ending_of(file.kind),
        &file.bytes,
        out,
    )
}

/// Appends the lines of files.
fn put_entries(files: &[BookFile<'_>], out: &mut Vec<u8>) -> Result<(), AllocError>
    ensures { OnOk result (out.new.items ≡ out.old.items ++ entries (map file_made files.now)) }
{
    for file in files {
        put_file(file, out)?;
    }
    Ok(())
}

/// The manifest of the files that are written of a book: a line `KIND NAME BYTES CRC FILE` for each part's file, and the last one for the
/// scenario, by the book's name. The CRC is that of the file's bytes, in four hexadecimal digits, and FILE its name in the folder.
pub(crate) fn files_manifest(alloc: Global, book: &Book<'_>) -> Result<Vec<u8>, AllocError>
    ensures { IfOk result (λ text. text.items ≡ manifest_said (book_made book.now)) }
{
    let mut out = Vec::new(alloc);
    put_entries(book.files.as_slice(), &mut out)?;
    put_entry(
        b"scenario",
        book.name,
        b".scenario",
        &book.scenario,
        &mut out,
    )?;
    Ok(out)
}
