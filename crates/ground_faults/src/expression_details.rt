//! What is wrong with the expression of an actionpoint.

use crate::entry_details::Detail;
use packet_forms::be16;

/// Where an actionpoint's entry says how many words its expression has, where these begin, and how many there may be.
const LENGTH: usize = 6;

const WORDS: usize = 8;

const MOST_WORDS: u16 = 16;

/// How many bytes an entry has.
const ENTRY: usize = 40;

/// How many watchpoints there are, the number of the first operator, and that of the one that takes a single value.
const WATCHPOINTS: u16 = 32;

const FIRST_OPERATOR: u16 = 0x8001;

const NOT: u16 = 0x8004;

/// How many values there are behind a word, or what is wrong with it.
fn values_behind(place: usize, word: u16, values: usize) -> Result<usize, Detail> {
    if word < WATCHPOINTS {
        return Ok(values.saturating_add(1));
    }
    if word < FIRST_OPERATOR || word > NOT {
        return Err(Detail::Unknown(place, word));
    }
    let wanted = if word == NOT { 1 } else { 2 };
    if values < wanted {
        return Err(Detail::Operand(place));
    }
    Ok((values - wanted).saturating_add(1))
}

/// How many values the words of an expression leave, or what is wrong with one of them.
fn values_left(entry: &[u8], count: usize) -> Result<usize, Detail> {
    let mut values = 0;
    for place in 0..count {
        let at = WORDS.saturating_add(2_usize.saturating_mul(place));
        if entry.len() < 2 || at > entry.len() - 2 {
            return Ok(values);
        }
        values = values_behind(place.saturating_add(1), be16(entry, at), values)?;
    }
    Ok(values)
}

/// What is wrong with the expression of an actionpoint that is refused for it.
pub(crate) fn expression_detail(entry: &[u8]) -> Option<Detail> {
    if entry.len() < ENTRY {
        return None;
    }
    let length = be16(entry, LENGTH);
    if length == 0 || length > MOST_WORDS {
        return Some(Detail::Length(length));
    }
    match values_left(entry, usize::from(length)) {
        Ok(values) => Some(Detail::Values(values)),
        Err(detail) => Some(detail),
    }
}
