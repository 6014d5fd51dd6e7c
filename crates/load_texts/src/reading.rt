//! Files to be loaded that are read from text.
ghost use Rattle.std.specs.Prelude.{◌≡◌, ◌<◌, ◌+◌, ◌^◌, length, true, IfOk, Ok};
ghost use Rattle.load_texts.specs.Headers.{is_header};
ghost use Rattle.load_texts.specs.Addresses.{addressed_by};
ghost use Rattle.load_texts.specs.Loads.{if_sized, bytes_filed, addressed_filed, load_said, is_load_text, SaysLoad, GivesLoad};

use crate::addresses::{AddressLine, read_first};
use crate::fault::{LoadFault, ReadError};
use crate::headers::{behind_word, push_load, read_header};
use crate::loaded::read_body;
use row_forms::Field;
use std::alloc::Global;
use table_texts::next_line;

/// How many bytes can be loaded from a file at most.
const MOST: usize = 65_536;

/// Whether a text is one of a file to be loaded: whether its first line that says something begins with `load`.
#[tactic(auto, unfolding(crate::specs::Loads::is_load_text))]
pub fn is_load_text(text: &[u8]) -> bool
    requires { 1 + length text.now < 2 ^ 32 }
    ensures { result ≡ is_load_text text.now }
{
    match next_line(text, 1) {
        Some(next) => behind_word(b"load", next.bytes).is_some(),
        None => false,
    }
}

/// Reads the text of a file to be loaded into the bytes of that file. The first line is `load address=0x00001000`, and behind the address
/// stands the row of the headers where it isn't zero, as in a table's text. Then come lines `bytes HEX`, and `end`. The second line may be
/// `file=PATH`: then the bytes of that file, `named`, come first. The number of the bytes and their check are made. What is given is
/// accepted by `read_file`, with the address and the bytes that the text says. `fields` are those of `header_fields`.
pub fn read_load(
    alloc: Global,
    fields: &[Field],
    named: &[u8],
    text: &[u8],
) -> Result<Vec<u8>, ReadError>
    requires fields { is_header fields.now ≡ true }
    requires short { 1 + length text.now < 2 ^ 32 }
    ensures said { GivesLoad (load_said fields.now named.now text.now) result }
    ensures accepted { IfOk result (λ file. SaysLoad named.now text.now file.items) }
{
    match read_first(text) {
        Ok(first) => read_behind(alloc, fields, named, &first),
        Err(fault) => Err(ReadError::Fault(fault)),
    }
}

/// Reads what stands behind the address of a text into the bytes of its file.
fn read_behind(
    alloc: Global,
    fields: &[Field],
    named: &[u8],
    first: &AddressLine<'_>,
) -> Result<Vec<u8>, ReadError>
    requires fields { is_header fields.now ≡ true }
    requires short { first.now.number + 1 + length first.now.rest.now < 2 ^ 32 }
    ensures { GivesLoad (addressed_filed fields.now named.now
        (Ok (addressed_by first.now))) result }
{
    let mut row = Vec::new(alloc);
    match read_header(fields, first.number, first.words, &mut row) {
        Ok(()) => read_bytes(alloc, named, first, &row),
        Err(error) => Err(error),
    }
}

/// Reads the bytes to be loaded into a file with these headers.
fn read_bytes(
    alloc: Global,
    named: &[u8],
    first: &AddressLine<'_>,
    row: &[u8],
) -> Result<Vec<u8>, ReadError>
    requires { first.now.number + 1 + length first.now.rest.now < 2 ^ 32 }
    ensures { GivesLoad (bytes_filed named.now (addressed_by first.now) row.now) result }
{
    let mut bytes = Vec::new(alloc);
    match read_body(named, first.number + 1, first.rest, &mut bytes) {
        Ok(()) => make_load(alloc, &first.address, row, &bytes),
        Err(error) => Err(error),
    }
}

/// Makes the file of an address, headers and bytes, where they can be loaded.
fn make_load(alloc: Global, address: &[u8], row: &[u8], bytes: &[u8]) -> Result<Vec<u8>, ReadError>
    ensures { GivesLoad (if_sized address.now row.now bytes.now) result }
{
    if bytes.is_empty() || bytes.len() > MOST {
        return Err(ReadError::Fault(LoadFault::Size(bytes.len())));
    }
    let mut file = Vec::new(alloc);
    match push_load(address, row, bytes, &mut file) {
        Ok(()) => Ok(file),
        Err(error) => Err(ReadError::Memory(error)),
    }
}
