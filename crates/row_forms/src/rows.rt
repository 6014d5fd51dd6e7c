//! Rows: fields that stand one behind the other.
ghost use Rattle.std.specs.Prelude.{◌≡◌, ◌≤◌, ◌<◌, ◌+◌, ◌^◌, ◌++◌, ◌∷◌, ℕ, List, Some, None, true, length, take, drop, vec_len, OnOk, MatchOption};
ghost use Rattle.packet_forms.specs.Crc.{crc_of};
ghost use Rattle.packet_forms.specs.Numbers.{be16_bytes};
ghost use Rattle.row_forms.specs.Words.{words};
ghost use Rattle.row_forms.specs.Rows.{with_front, behind_key, field_said, row_said, end_said, row_shown, word_shown, is_row, error_at, Gives, GivesField};
ghost use Rattle.row_forms.specs.Values.{can_show, value_shown};

use crate::fault::{ReadError, Reason, Refusal, RowFault};
use crate::field::{Field, Kind};
use crate::parts::push_zeros;
use crate::values::{can_show, push_value, read_value};
use crate::words::split_word;
use packet_forms::{are_zeros, be16, behind, crc16, place};
use std::alloc::AllocError;

/// Reads the words of a line as a row, and appends the bytes that they say. `epoch` is what times such as `+0:01:00` are counted
/// from, where the text has one, and `word` the number of the line's first word among those of the text's line. The fault is that of
/// the first word that doesn't fit. What is appended where there is a fault has no meaning.
pub fn read_row(
    epoch: Option<u32>,
    fields: &[Field],
    word: usize,
    line: &[u8],
    out: &mut Vec<u8>,
) -> Result<(), ReadError>
    requires { word + length fields.now < 2 ^ 32 }
    ensures { Gives (with_front out.old.items (row_said epoch word fields.now (words line.now)))
        out.new.items result }
{
    let Some((field, fields)) = fields.split_first() else {
        return end_of_row(word, line);
    };
    match field {
        Field::Value(key, kind) => {
            let Some((text, line)) = split_word(line) else {
                return Err(fault_at(word, Reason::Missing));
            };
            match read_field(epoch, key, kind, text, out) {
                Ok(()) => read_row(epoch, fields, word + 1, line, out),
                Err(refusal) => Err(error_at(word, refusal)),
            }
        }
        Field::Zeros(count) => match push_zeros(*count, out) {
            Ok(()) => read_row(epoch, fields, word, line, out),
            Err(error) => Err(ReadError::Memory(error)),
        },
        Field::Check => {
            let at = out.len();
            if let Err(error) = push_zeros(2, out) {
                return Err(ReadError::Memory(error));
            }
            match read_row(epoch, fields, word, line, out) {
                Ok(()) => {
                    seal(at, out);
                    Ok(())
                }
                Err(error) => Err(error),
            }
        }
    }
}

/// A fault of the word of this number.
fn fault_at(word: usize, reason: Reason) -> ReadError
    ensures { result ≡ error_at word (Refusal.Because reason) }
{
    ReadError::Row(RowFault { word, reason })
}

/// Why the word of this number wasn't read.
fn error_at(word: usize, refusal: Refusal) -> ReadError
    ensures { result ≡ error_at word refusal }
{
    match refusal {
        Refusal::Memory(error) => ReadError::Memory(error),
        Refusal::Because(reason) => fault_at(word, reason),
    }
}

/// Behind the last field no word is left.
fn end_of_row(word: usize, line: &[u8]) -> Result<(), ReadError>
    ensures { (front : List ℕ) → Gives (with_front front (end_said word (words line.now))) front
        result }
{
    match split_word(line) {
        Some(_) => Err(fault_at(word, Reason::Extra)),
        None => Ok(()),
    }
}

/// What comes behind `KEY=`.
#[tactic(auto, unfolding(crate::specs::Rows::behind_key))]
pub fn behind_key<'a>(key: &str, word: &'a [u8]) -> Option<&'a [u8]>
    ensures { MatchOption result
        (behind_key key.now word.now ≡ None)
        (λ text. behind_key key.now word.now ≡ Some text.now) }
{
    let key = key.as_bytes();
    if key.len() < word.len() && word.starts_with(key) && word[key.len()] == b'=' {
        return Some(behind(word, key.len() + 1));
    }
    None
}

/// Appends the bytes of a field that a word says.
fn read_field(
    epoch: Option<u32>,
    key: &str,
    kind: &Kind,
    word: &[u8],
    out: &mut Vec<u8>,
) -> Result<(), Refusal>
    ensures { GivesField (with_front out.old.items (field_said epoch key.now kind.now word.now))
        out.new.items result }
{
    let Some(text) = behind_key(key, word) else {
        return Err(Refusal::Because(Reason::Key));
    };
    match read_value(epoch, kind, text, out) {
        Ok(true) => Ok(()),
        Ok(false) => Err(Refusal::Because(kind.reason())),
        Err(error) => Err(Refusal::Memory(error)),
    }
}

/// Writes the check of the bytes behind a place of two bytes into it.
fn seal(at: usize, out: &mut Vec<u8>)
    requires { at + 2 ≤ vec_len out.old }
    ensures { let behind = drop (at + 2) out.old.items in
        out.new.items ≡ take at out.old.items ++ (be16_bytes (crc_of 0 behind) ++ behind) }
{
    let check = crc16(0, behind(out, at + 2)).to_be_bytes();
    place(out, at, &check);
}

/// Whether the words of a row can say these bytes.
#[tactic(auto, unfolding(crate::specs::Rows::is_row))]
pub fn is_row(fields: &[Field], bytes: &[u8]) -> bool
    ensures { result ≡ is_row fields.now bytes.now }
{
    let Some((field, fields)) = fields.split_first() else {
        return bytes.is_empty();
    };
    match field {
        Field::Value(_, kind) => {
            let size = kind.width(bytes);
            if bytes.len() < size {
                return false;
            }
            let (value, rest) = bytes.split_at(size);
            can_show(kind, value) && is_row(fields, rest)
        }
        Field::Zeros(count) => {
            if bytes.len() < *count {
                return false;
            }
            let (zeros, rest) = bytes.split_at(*count);
            are_zeros(zeros) && is_row(fields, rest)
        }
        Field::Check => {
            if bytes.len() < 2 {
                return false;
            }
            let rest = behind(bytes, 2);
            be16(bytes, 0) == crc16(0, rest) && is_row(fields, rest)
        }
    }
}

/// Appends the words of a row's bytes, each with a space in front: so a row stands behind other words of a line.
pub fn show_row(fields: &[Field], bytes: &[u8], out: &mut Vec<u8>) -> Result<(), AllocError>
    requires { is_row fields.now bytes.now ≡ true }
    ensures { OnOk result (out.new.items ≡ out.old.items ++ row_shown fields.now bytes.now) }
{
    let Some((field, fields)) = fields.split_first() else {
        return Ok(());
    };
    match field {
        Field::Value(key, kind) => {
            let (value, rest) = bytes.split_at(kind.width(bytes));
            push_word(key, kind, value, out)?;
            show_row(fields, rest, out)
        }
        Field::Zeros(count) => show_row(fields, behind(bytes, *count), out),
        Field::Check => show_row(fields, behind(bytes, 2), out),
    }
}

/// Appends a space and the word of a field's bytes.
fn push_word(key: &str, kind: &Kind, value: &[u8], out: &mut Vec<u8>) -> Result<(), AllocError>
    requires { can_show kind.now value.now ≡ true }
    ensures { OnOk result (out.new.items ≡ out.old.items
        ++ (32 ∷ word_shown key.now (value_shown kind.now value.now))) }
{
    out.push(b' ')?;
    out.extend_from_slice(key.as_bytes())?;
    out.push(b'=')?;
    push_value(kind, value, out)
}
