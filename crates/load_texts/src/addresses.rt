//! The first line of a load file's text.
ghost use Rattle.std.specs.Prelude.{◌≡◌, ◌<◌, ◌+◌, ◌^◌, length, IfOk};
ghost use Rattle.table_texts.specs.Lines.{kept_of};
ghost use Rattle.table_texts.specs.Endings.{row_fault};
ghost use Rattle.load_texts.specs.Headers.{line_refused};
ghost use Rattle.load_texts.specs.Addresses.{address_said, addressed_said, GivesAddressed};

use crate::fault::LoadFault;
use crate::headers::behind_word;
use row_forms::{Reason, RowFault, behind_key, number, split_word};
use table_texts::{LineFault, TextFault, next_line};

/// The first line of a load file's text: the bytes of the address, the line's number, what stands behind the address, and the text
/// behind the line.
#[derive(Clone, Copy, Debug)]
pub(crate) struct AddressLine<'a> {
    pub(crate) address: [u8; 4],
    pub(crate) number: u32,
    pub(crate) words: &'a [u8],
    pub(crate) rest: &'a [u8],
}

/// The four bytes of the address that a word says.
#[tactic(auto, unfolding(row_forms::specs::Rows::field_said, row_forms::specs::Values::value_said, packet_forms::specs::Numbers::be32_bytes))]
fn read_address(word: &[u8]) -> Result<[u8; 4], Reason>
    ensures { result ≡ address_said word.now }
{
    let Some(text) = behind_key("address", word) else {
        return Err(Reason::Key);
    };
    match number(u32::MAX, text) {
        Some(address) => {
            let [a, b, c, d] = address.to_be_bytes();
            Ok([a, b, c, d])
        }
        None => Err(Reason::Number32),
    }
}

/// A fault of the second word.
fn address_fault(line: u32, reason: Reason) -> LoadFault
    ensures { result ≡ line_refused line (row_fault 2 reason) }
{
    let fault = LineFault::Row(RowFault { word: 2, reason });
    LoadFault::Text(TextFault { line, fault })
}

/// Reads the first line of a load file's text.
pub(crate) fn read_first(text: &[u8]) -> Result<AddressLine<'_>, LoadFault>
    requires { 1 + length text.now < 2 ^ 32 }
    ensures said { GivesAddressed (addressed_said (kept_of 1 text.now)) result }
    ensures room { IfOk result (λ line. line.number + 1 + length line.rest.now < 2 ^ 32) }
{
    let Some(next) = next_line(text, 1) else {
        return Err(LoadFault::Load(1));
    };
    let Some(behind) = behind_word(b"load", next.bytes) else {
        return Err(LoadFault::Load(next.number));
    };
    let Some((word, words)) = split_word(behind) else {
        return Err(address_fault(next.number, Reason::Missing));
    };
    match read_address(word) {
        Ok(address) => Ok(AddressLine {
            address,
            number: next.number,
            words,
            rest: next.rest,
        }),
        Err(reason) => Err(address_fault(next.number, reason)),
    }
}
