//! Sequences of commands that are read from text.
ghost use Rattle.std.specs.Prelude.{◌≡◌, ◌<◌, ◌+◌, ◌^◌, true, ℕ, List, [], length};
ghost use Rattle.row_forms.specs.Words.{words};
ghost use Rattle.row_forms.specs.Rows.{with_front};
ghost use Rattle.telecommands.specs.Commands.{are_good};
ghost use Rattle.table_texts.specs.Lines.{kept_of};
ghost use Rattle.table_texts.specs.Endings.{ended, GivesText};
ghost use Rattle.table_texts.specs.Fronts.{is_front, GivesItem};
ghost use Rattle.table_texts.specs.Sequences.{bytes_said, item_said, said_by};

use crate::ending::{behind_end, end_of_text, error_on, row_fault, text_fault};
use crate::fault::{LineError, LineFault, TextError};
use crate::fronts::read_stored;
use crate::lines::next_line;
use row_forms::{Field, Reason, read_block, split_word};
use telecommands::Command;

/// What a sequence's text is read by: its commands, the fields in front of each telecommand, and what times such as `+0:01:00` are
/// counted from, where there is one.
#[derive(Clone, Copy, Debug)]
pub struct SequenceForm<'a> {
    pub epoch: Option<u32>,
    pub commands: &'a [Command],
    pub fields: &'static [Field],
    /// How many bytes the fields have.
    pub size: usize,
}

/// Reads a sequence up to the line `end`, and appends its payload. A line is `command KEY=VALUE .. TELECOMMAND` or `raw HEX`; lines
/// without words and those that begin with `#` are skipped. `line` is the number of the text's first line. The bytes of `scratch` are
/// lost, so that one vector serves all texts. What is appended where there is a fault has no meaning.
pub fn read_sequence(
    form: &SequenceForm<'_>,
    line: u32,
    text: &[u8],
    scratch: &mut Vec<u8>,
    out: &mut Vec<u8>,
) -> Result<(), TextError>
    requires commands { are_good form.now.commands.now ≡ true }
    requires front { is_front form.now.fields.now form.now.size ≡ true }
    requires short { line + length text.now < 2 ^ 32 }
    ensures { GivesText (with_front out.old.items (said_by form.now line (kept_of line text.now)))
        out.new.items result }
{
    let mut rest = text;
    let mut number = line;
    'lines: while let Some(next) = next_line(rest, number) {
        if let Some(behind) = behind_end(next.bytes) {
            return end_sequence(next.number, behind, next.rest);
        }
        match read_item(form, next.bytes, scratch, out) {
            Ok(()) => {
                rest = next.rest;
                number = next.number + 1;
            }
            Err(error) => return Err(error_on(next.number, error)),
        }
    }
    Err(text_fault(number, LineFault::End))
}

/// Ends a sequence: nothing is left.
fn end_sequence(line: u32, behind: &[u8], rest: &[u8]) -> Result<(), TextError>
    requires { line + 1 + length rest.now < 2 ^ 32 }
    ensures { (old : List ℕ) → GivesText (with_front old
        (ended [] line (words behind.now) (kept_of (line + 1) rest.now))) old result }
{
    match end_of_text(line, behind, rest) {
        Ok(()) => Ok(()),
        Err(fault) => Err(TextError::Text(fault)),
    }
}

/// Reads a line of a sequence, and appends its bytes.
fn read_item(
    form: &SequenceForm<'_>,
    line: &[u8],
    scratch: &mut Vec<u8>,
    out: &mut Vec<u8>,
) -> Result<(), LineError>
    requires commands { are_good form.now.commands.now ≡ true }
    requires front { is_front form.now.fields.now form.now.size ≡ true }
    ensures { GivesItem (with_front out.old.items
        (item_said form.now.epoch form.now.commands.now form.now.fields.now (words line.now)))
        out.new.items result }
{
    let Some((word, rest)) = split_word(line) else {
        return Err(LineError::Fault(LineFault::Word));
    };
    if word == b"command".as_slice() {
        return read_stored(form.epoch, form.commands, form.fields, rest, scratch, out);
    }
    if word == b"raw".as_slice() {
        return read_raw(rest, out);
    }
    Err(LineError::Fault(LineFault::Word))
}

/// Reads a block of bytes, behind which no word stands, and appends them.
fn read_raw(line: &[u8], out: &mut Vec<u8>) -> Result<(), LineError>
    ensures { GivesItem (with_front out.old.items (bytes_said (words line.now))) out.new.items
        result }
{
    let Some((digits, rest)) = split_word(line) else {
        return Err(row_fault(2, Reason::Missing));
    };
    if split_word(rest).is_some() {
        return Err(row_fault(3, Reason::Extra));
    }
    match read_block(digits, out) {
        Ok(true) => Ok(()),
        Ok(false) => Err(row_fault(2, Reason::Block)),
        Err(error) => Err(LineError::Memory(error)),
    }
}
