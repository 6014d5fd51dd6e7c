//! The values of fields: what their texts say in bytes, and the texts that bytes have.
ghost use Rattle.std.specs.Prelude.{◌≡◌, ◌≤◌, ◌<◌, ◌+◌, ◌*◌, ◌++◌, ◌==◌, ◌&&◌, true, false, MatchOption, length, map, count_by, IfOk, OnOk};
ghost use Rattle.std.specs.Char.{is_digit, digit_value};
ghost use Rattle.row_forms.specs.Lists.{parts, listed, behind_comma};
ghost use Rattle.row_forms.specs.Numbers.{choice_shown};
ghost use Rattle.row_forms.specs.Words.{hex_said};
ghost use Rattle.row_forms.specs.Values.{steps_said, steps_at, steps_bytes, expression_said, expression_shown, is_expression, value_said, width, can_show, value_shown};
ghost use Rattle.row_forms.specs.Rows.{GivesValue};

use crate::field::{Choice, Kind, Width};
use crate::numbers::{choice_number, number_said, push_choice, push_number, push_text};
use crate::parts::{push_hex, push_zeros, split_part};
use crate::words::{digit, name};
use packet_forms::{Name, are_zeros, be16, behind};
use std::alloc::AllocError;

/// Appends the bytes that a text says, or answers that it says no value. What is appended then has no meaning.
#[tactic(auto, unfolding(crate::specs::Values::value_said))]
pub(crate) fn read_value(
    epoch: Option<u32>,
    kind: &Kind,
    text: &[u8],
    out: &mut Vec<u8>,
) -> Result<bool, AllocError>
    ensures { IfOk result (GivesValue (value_said epoch kind.now text.now) out.old.items
        out.new.items) }
{
    match kind {
        Kind::Number(width, spelling) => match number_said(epoch, *width, spelling, text) {
            Some(number) => {
                push_number(*width, number, out)?;
                Ok(true)
            }
            None => Ok(false),
        },
        Kind::Name => match name(text) {
            Some(name) => {
                out.extend_from_slice(name.bytes())?;
                Ok(true)
            }
            None => Ok(false),
        },
        Kind::Block => read_block(text, out),
        Kind::Expression(words) => read_expression(words, text, out),
    }
}

/// Appends the bytes that pairs of hexadecimal digits write, the higher digit first.
pub fn read_block(text: &[u8], out: &mut Vec<u8>) -> Result<bool, AllocError>
    ensures { IfOk result (GivesValue (hex_said text.now) out.old.items out.new.items) }
{
    if text.len() % 2 != 0 {
        return Ok(false);
    }
    for i in 0..text.len() / 2 {
        let Some(byte) = pair_value(text[2 * i], text[2 * i + 1]) else {
            return Ok(false);
        };
        out.push(byte)?;
    }
    Ok(true)
}

/// The byte that two hexadecimal digits write.
fn pair_value(first: u8, second: u8) -> Option<u8>
    ensures { MatchOption result
        ((is_digit first 16 && is_digit second 16) ≡ false)
        (λ b. ((is_digit first 16 && is_digit second 16) ≡ true)
        × (b ≡ 16 * digit_value first + digit_value second)) }
{
    let high = digit(first);
    let low = digit(second);
    if high < 16 && low < 16 {
        return Some(16 * high + low);
    }
    None
}

/// The number of commas of a text.
fn count_commas(text: &[u8]) -> usize
    ensures value { result ≡ count_by (λ b. b == 44) text.now }
    ensures bound { result ≤ length text.now }
{
    text.iter().filter(|b| **b == b',').count()
}

/// Appends the expression whose steps a text says, between commas.
fn read_expression(words: &[Choice], text: &[u8], out: &mut Vec<u8>) -> Result<bool, AllocError>
    ensures { IfOk result (GivesValue (expression_said words.now text.now) out.old.items
        out.new.items) }
{
    let commas = count_commas(text);
    if commas > 15 {
        return Ok(false);
    }
    push_number(Width::U16, commas as u32 + 1, out)?;
    if !read_steps(words, text, out)? {
        return Ok(false);
    }
    push_zeros(30 - 2 * commas, out)?;
    Ok(true)
}

/// Appends the steps that a text says, between commas.
fn read_steps(words: &[Choice], text: &[u8], out: &mut Vec<u8>) -> Result<bool, AllocError>
    ensures { IfOk result (GivesValue (steps_bytes (steps_said words.now (parts text.now)))
        out.old.items out.new.items) }
{
    let (part, rest) = split_part(text);
    let Some(step) = choice_number(words, 65_535, part) else {
        return Ok(false);
    };
    push_number(Width::U16, step, out)?;
    match rest {
        Some(rest) => read_steps(words, rest, out),
        None => Ok(true),
    }
}

/// Whether a text says these bytes, as many as the value has.
#[tactic(auto, unfolding(crate::specs::Values::can_show))]
pub(crate) fn can_show(kind: &Kind, bytes: &[u8]) -> bool
    ensures { result ≡ can_show kind.now bytes.now }
{
    match kind {
        Kind::Number(width, _) => bytes.len() == width.bytes(),
        Kind::Name => Name::from_bytes(bytes).is_some(),
        Kind::Block => true,
        Kind::Expression(_) => is_expression(bytes),
    }
}

/// Whether these are 34 bytes: 1 to 16, so many steps, and zero bytes behind them.
#[tactic(auto, unfolding(crate::specs::Values::is_expression))]
fn is_expression(bytes: &[u8]) -> bool
    ensures { result ≡ is_expression bytes.now }
{
    if bytes.len() != 34 {
        return false;
    }
    let count = usize::from(be16(bytes, 0));
    0 < count && count <= 16 && are_zeros(behind(bytes, 2 + 2 * count))
}

/// Appends the text of a value's bytes.
#[tactic(auto, unfolding(crate::specs::Values::can_show, crate::specs::Values::value_shown))]
pub(crate) fn push_value(kind: &Kind, bytes: &[u8], out: &mut Vec<u8>) -> Result<(), AllocError>
    requires { can_show kind.now bytes.now ≡ true }
    ensures { OnOk result (out.new.items ≡ out.old.items ++ value_shown kind.now bytes.now) }
{
    match kind {
        Kind::Number(width, spelling) => push_text(*width, spelling, bytes, out),
        Kind::Name => match Name::from_bytes(bytes) {
            Some(name) => out.extend_from_slice(name.text().as_bytes()),
            None => unreachable!(),
        },
        Kind::Block => push_hex(bytes, out),
        Kind::Expression(words) => push_expression(words, bytes, out),
    }
}

/// Appends the steps of an expression, between commas.
#[tactic(auto, unfolding(crate::specs::Values::is_expression, crate::specs::Values::expression_shown))]
fn push_expression(words: &[Choice], bytes: &[u8], out: &mut Vec<u8>) -> Result<(), AllocError>
    requires { is_expression bytes.now ≡ true }
    ensures { OnOk result (out.new.items ≡ out.old.items ++ expression_shown words.now bytes.now) }
{
    let count = usize::from(be16(bytes, 0));
    push_steps(words, false, count, behind(bytes, 2), out)
}

/// Appends the first steps of an expression, with a comma in front where another step stands before them.
fn push_steps(
    words: &[Choice],
    led: bool,
    count: usize,
    bytes: &[u8],
    out: &mut Vec<u8>,
) -> Result<(), AllocError>
    requires { 2 * count ≤ length bytes.now }
    ensures { OnOk result (out.new.items ≡ out.old.items
        ++ listed led (map (choice_shown words.now) (steps_at count bytes.now))) }
{
    if count == 0 {
        return Ok(());
    }
    push_step(words, led, be16(bytes, 0), out)?;
    push_steps(words, true, count - 1, behind(bytes, 2), out)
}

/// Appends a step, with a comma in front where another one stands before it.
fn push_step(words: &[Choice], led: bool, step: u16, out: &mut Vec<u8>) -> Result<(), AllocError>
    ensures { OnOk result (out.new.items ≡ out.old.items
        ++ behind_comma led (choice_shown words.now step)) }
{
    if led {
        out.push(b',')?;
    }
    push_choice(words, u32::from(step), out)
}
