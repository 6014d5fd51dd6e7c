//! The lines of a scenario as a plan's scenario has them.
ghost use Rattle.std.specs.Prelude.{◌≡◌, ◌<◌, ◌+◌, ◌^◌, ◌++◌, ◌∷◌, length, OnOk, IfOk, Some};
ghost use Rattle.row_forms.specs.Words.{words};
ghost use Rattle.shown_plans.specs.Shown.{plain_packet, plain_sent, plain_line, plain_words, plain_of};

use plan_text::put_line;
use row_forms::{push_hex, read_block, split_word};
use std::alloc::{AllocError, Global};
use table_texts::next_line;

/// Appends `send` and the digits of these bytes.
#[tactic(auto, unfolding(row_forms::specs::Rows::spaced))]
fn put_bytes(first: &[u8], rest: &[u8], bytes: &[u8], out: &mut Vec<u8>) -> Result<(), AllocError>
    ensures { OnOk result (out.new.items ≡ out.old.items
        ++ plain_packet (first.now ∷ words rest.now) (Some bytes.now)) }
{
    out.extend_from_slice(b"send ")?;
    push_hex(bytes, out)?;
    out.extend_from_slice(b"\n")
}

/// Appends the line of a `send`.
fn put_send(alloc: Global, first: &[u8], rest: &[u8], out: &mut Vec<u8>) -> Result<(), AllocError>
    ensures { OnOk result (out.new.items ≡ out.old.items
        ++ plain_sent (first.now ∷ words rest.now) (words rest.now)) }
{
    let Some((word, more)) = split_word(rest) else {
        return put_line(first, rest, out);
    };
    if split_word(more).is_some() {
        return put_line(first, rest, out);
    }
    let mut bytes = Vec::new(alloc);
    match read_block(word, &mut bytes)? {
        true => put_bytes(first, rest, bytes.as_slice(), out),
        false => put_line(first, rest, out),
    }
}

/// Appends a line.
#[tactic(auto, unfolding(crate::specs::Shown::plain_line))]
fn put_plain(alloc: Global, line: &[u8], out: &mut Vec<u8>) -> Result<(), AllocError>
    ensures { OnOk result (out.new.items ≡ out.old.items ++ plain_words (words line.now)) }
{
    let Some((first, rest)) = split_word(line) else {
        return Ok(());
    };
    if first == b"send".as_slice() {
        return put_send(alloc, first, rest, out);
    }
    put_line(first, rest, out)
}

/// Appends the lines of a scenario.
fn put_lines(alloc: Global, text: &[u8], out: &mut Vec<u8>) -> Result<(), AllocError>
    requires { 1 + length text.now < 2 ^ 32 }
    ensures { OnOk result (out.new.items ≡ out.old.items ++ plain_of text.now) }
{
    let mut rest = text;
    let mut number = 1;
    'lines: while let Some(next) = next_line(rest, number) {
        put_plain(alloc, next.bytes, out)?;
        rest = next.rest;
        number = next.number + 1;
    }
    Ok(())
}

/// The lines of a scenario, as a plan's scenario has them.
pub(crate) fn plain_text(alloc: Global, text: &[u8]) -> Result<Vec<u8>, AllocError>
    requires { 1 + length text.now < 2 ^ 32 }
    ensures { IfOk result (λ plain. plain.items ≡ plain_of text.now) }
{
    let mut out = Vec::new(alloc);
    match put_lines(alloc, text, &mut out) {
        Ok(()) => Ok(out),
        Err(error) => Err(error),
    }
}
