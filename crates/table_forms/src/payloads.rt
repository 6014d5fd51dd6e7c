//! The payloads of tables, as their texts say them.
ghost use Rattle.std.specs.Prelude.{◌≡◌, ◌<◌, ◌+◌, ◌^◌, true, false, length, MatchOption};
ghost use Rattle.row_forms.specs.Words.{words};
ghost use Rattle.row_forms.specs.Rows.{with_front};
ghost use Rattle.table_texts.specs.Lines.{kept_of};
ghost use Rattle.table_texts.specs.Entries.{is_layout};
ghost use Rattle.table_texts.specs.Endings.{behind_first};
ghost use Rattle.telecommands.specs.Commands.{are_good};
ghost use Rattle.table_forms.specs.Layouts.{is_open};
ghost use Rattle.table_forms.specs.Payloads.{is_form, begins, entries_by, headed_said, payload_said, text_error, GivesTable};

use crate::fault::{ReadError, TableFault, row_error};
use crate::forms::TextForms;
use crate::layouts::PayloadForm;
use row_forms::{read_row, split_word};
use table_texts::{
    Layout, SequenceForm, TableForm, TextError, next_line, read_entries, read_sequence,
};

/// What stands behind a word, where the line begins with it.
pub(crate) fn behind_word<'a>(wanted: &[u8], line: &'a [u8]) -> Option<&'a [u8]>
    ensures { MatchOption result
        (begins wanted.now (words line.now) ≡ false)
        (λ behind. (begins wanted.now (words line.now) ≡ true)
        × (words behind.now ≡ behind_first (words line.now))) }
{
    match split_word(line) {
        Some((word, behind)) if word == wanted => Some(behind),
        _ => None,
    }
}

/// Reads a payload up to the line `end`, and appends it. `line` is the number of the text's first line. The bytes of `scratch` are lost.
#[tactic(auto, unfolding(crate::specs::Payloads::is_form))]
pub(crate) fn read_payload(
    forms: &TextForms<'_>,
    form: PayloadForm,
    line: u32,
    text: &[u8],
    scratch: &mut Vec<u8>,
    out: &mut Vec<u8>,
) -> Result<(), ReadError>
    requires commands { are_good forms.now.commands.now ≡ true }
    requires head { is_open forms.now.layouts.now.head.now 4 ≡ true }
    requires form { is_form form ≡ true }
    requires short { line + length text.now < 2 ^ 32 }
    ensures { GivesTable (with_front out.old.items
        (payload_said forms.now form line (kept_of line text.now))) out.new.items result }
{
    match form {
        PayloadForm::Entries(layout) => read_rows(forms, layout, line, text, scratch, out),
        PayloadForm::Headed(layout) => read_headed(forms, layout, line, text, scratch, out),
        PayloadForm::Sequence(fields, size) => {
            let form = SequenceForm {
                epoch: forms.epoch,
                commands: forms.commands,
                fields,
                size,
            };
            match read_sequence(&form, line, text, scratch, out) {
                Ok(()) => Ok(()),
                Err(error) => Err(text_error(error)),
            }
        }
    }
}

/// Why a text's lines weren't read.
fn text_error(error: TextError) -> ReadError
    ensures { result ≡ text_error error }
{
    match error {
        TextError::Memory(error) => ReadError::Memory(error),
        TextError::Text(fault) => ReadError::Fault(TableFault::Text(fault)),
    }
}

/// Reads all entries of a table, and appends their bytes.
fn read_rows(
    forms: &TextForms<'_>,
    layout: Layout,
    line: u32,
    text: &[u8],
    scratch: &mut Vec<u8>,
    out: &mut Vec<u8>,
) -> Result<(), ReadError>
    requires commands { are_good forms.now.commands.now ≡ true }
    requires layout { is_layout layout ≡ true }
    requires short { line + length text.now < 2 ^ 32 }
    ensures { GivesTable (with_front out.old.items
        (entries_by forms.now layout line (kept_of line text.now))) out.new.items result }
{
    let form = TableForm {
        epoch: forms.epoch,
        commands: forms.commands,
        layout,
    };
    match read_entries(&form, 0, line, text, scratch, out) {
        Ok(()) => Ok(()),
        Err(error) => Err(text_error(error)),
    }
}

/// Reads a head and the entries behind it, and appends their bytes.
fn read_headed(
    forms: &TextForms<'_>,
    layout: Layout,
    line: u32,
    text: &[u8],
    scratch: &mut Vec<u8>,
    out: &mut Vec<u8>,
) -> Result<(), ReadError>
    requires commands { are_good forms.now.commands.now ≡ true }
    requires head { is_open forms.now.layouts.now.head.now 4 ≡ true }
    requires layout { is_layout layout ≡ true }
    requires short { line + length text.now < 2 ^ 32 }
    ensures { GivesTable (with_front out.old.items
        (headed_said forms.now layout line (kept_of line text.now))) out.new.items result }
{
    let Some(next) = next_line(text, line) else {
        return Err(ReadError::Fault(TableFault::Head(line)));
    };
    let Some(behind) = behind_word(b"head", next.bytes) else {
        return Err(ReadError::Fault(TableFault::Head(next.number)));
    };
    match read_row(forms.epoch, forms.layouts.head, 2, behind, out) {
        Ok(()) => read_rows(forms, layout, next.number + 1, next.rest, scratch, out),
        Err(row_forms::ReadError::Memory(error)) => Err(ReadError::Memory(error)),
        Err(row_forms::ReadError::Row(fault)) => Err(row_error(next.number, fault)),
    }
}
