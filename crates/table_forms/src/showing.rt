//! Files of tables that are shown as text.
ghost use Rattle.std.specs.Prelude.{◌≡◌, ◌<◌, ◌+◌, ◌*◌, ◌++◌, ◌∷◌, [], true, length, codes, Some, OnOk};
ghost use Rattle.table_files.specs.Headers.{kind_of_file};
ghost use Rattle.telecommands.specs.Commands.{are_good};
ghost use Rattle.row_forms.specs.Rows.{row_shown};
ghost use Rattle.table_texts.specs.Entries.{is_layout};
ghost use Rattle.table_texts.specs.Shown.{entries_shown};
ghost use Rattle.table_forms.specs.Layouts.{are_layouts, is_open};
ghost use Rattle.table_forms.specs.Payloads.{is_form, FitsForm, payload_text};
ghost use Rattle.table_forms.specs.Reading.{file_text};

use crate::forms::TextForms;
use crate::headers::{push_name, show_header};
use crate::layouts::PayloadForm;
use packet_forms::behind;
use row_forms::show_row;
use std::alloc::{AllocError, Global};
use table_files::TableKind;
use table_texts::{Layout, SequenceForm, TableForm, show_entries, show_sequence};

/// Appends the text of a table's file, which `read_table` reads back to these bytes. The kind is what `read_file` gives.
pub fn show_table(
    alloc: Global,
    forms: &TextForms<'_>,
    kind: TableKind,
    file: &[u8],
    out: &mut Vec<u8>,
) -> Result<(), AllocError>
    requires commands { are_good forms.now.commands.now ≡ true }
    requires layouts { are_layouts forms.now.layouts.now ≡ true }
    requires kind { kind_of_file file.now ≡ Some kind }
    ensures { OnOk result (out.new.items ≡ out.old.items ++ file_text forms.now kind file.now) }
{
    let layouts = forms.layouts;
    let mut row = Vec::new(alloc);
    out.extend_from_slice(b"table ")?;
    push_name(kind, out)?;
    show_header(layouts.header, behind(file, 8), &mut row, out)?;
    out.push(b'\n')?;
    show_payload(forms, layouts.form(kind), behind(file, 116), out)
}

/// Appends the lines of a payload.
#[tactic(auto, unfolding(crate::specs::Payloads::is_form))]
fn show_payload(
    forms: &TextForms<'_>,
    form: PayloadForm,
    payload: &[u8],
    out: &mut Vec<u8>,
) -> Result<(), AllocError>
    requires commands { are_good forms.now.commands.now ≡ true }
    requires head { is_open forms.now.layouts.now.head.now 4 ≡ true }
    requires form { is_form form ≡ true }
    requires fits { FitsForm form (length payload.now) }
    ensures { OnOk result (out.new.items ≡ out.old.items
        ++ payload_text forms.now form payload.now) }
{
    match form {
        PayloadForm::Entries(layout) => show_rows(forms, layout, payload, out),
        PayloadForm::Headed(layout) => {
            let (head, rest) = payload.split_at(4);
            show_head(forms, head, out)?;
            show_rows(forms, layout, rest, out)
        }
        PayloadForm::Sequence(fields, size) => {
            let form = SequenceForm {
                epoch: forms.epoch,
                commands: forms.commands,
                fields,
                size,
            };
            show_sequence(&form, payload, out)
        }
    }
}

/// Appends the line of a head.
fn show_head(forms: &TextForms<'_>, head: &[u8], out: &mut Vec<u8>) -> Result<(), AllocError>
    requires head { is_open forms.now.layouts.now.head.now 4 ≡ true }
    requires long { length head.now ≡ 4 }
    ensures { OnOk result (out.new.items ≡ out.old.items
        ++ ((codes "head" ++ row_shown forms.now.layouts.now.head.now head.now) ++ 10 ∷ [])) }
{
    out.extend_from_slice(b"head")?;
    show_row(forms.layouts.head, head, out)?;
    out.push(b'\n')?;
    Ok(())
}

/// Appends the lines of all entries of a table.
fn show_rows(
    forms: &TextForms<'_>,
    layout: Layout,
    bytes: &[u8],
    out: &mut Vec<u8>,
) -> Result<(), AllocError>
    requires commands { are_good forms.now.commands.now ≡ true }
    requires layout { is_layout layout ≡ true }
    requires long { length bytes.now ≡ layout.count * layout.size }
    ensures { OnOk result (out.new.items ≡ out.old.items
        ++ entries_shown forms.now.commands.now layout layout.count 1 bytes.now) }
{
    let form = TableForm {
        epoch: forms.epoch,
        commands: forms.commands,
        layout,
    };
    show_entries(&form, layout.count, 1, bytes, out)
}
