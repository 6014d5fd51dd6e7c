//! Sequences of commands that are shown as text.
ghost use Rattle.std.specs.Prelude.{◌≡◌, ◌<◌, ◌≤◌, ◌+◌, ◌++◌, ◌∷◌, [], true, length, codes, OnOk, IfOk};
ghost use Rattle.row_forms.specs.Rows.{is_row, row_shown};
ghost use Rattle.telecommands.specs.Commands.{are_good, command_shown};
ghost use Rattle.table_texts.specs.Fronts.{is_front};
ghost use Rattle.table_texts.specs.Sequences.{item_size, item_shown, payload_shown};

use crate::fronts::packet_at;
use crate::sequences::SequenceForm;
use packet_forms::{Packet, behind, front};
use row_forms::{push_hex, show_row};
use std::alloc::AllocError;
use telecommands::show_command;

/// Appends the text of a payload: a line for each command, for what is no command one of all bytes that are left, and `end`.
pub fn show_sequence(
    form: &SequenceForm<'_>,
    payload: &[u8],
    out: &mut Vec<u8>,
) -> Result<(), AllocError>
    requires commands { are_good form.now.commands.now ≡ true }
    requires front { is_front form.now.fields.now form.now.size ≡ true }
    ensures { OnOk result (out.new.items ≡ out.old.items
        ++ payload_shown form.now.commands.now form.now.fields.now form.now.size payload.now) }
{
    let mut rest = payload;
    'items: while !rest.is_empty() {
        let size = show_item(form, rest, out)?;
        rest = behind(rest, size);
    }
    out.extend_from_slice(b"end\n")?;
    Ok(())
}

/// Appends the first line of a payload, and answers how many bytes it shows.
fn show_item(form: &SequenceForm<'_>, bytes: &[u8], out: &mut Vec<u8>) -> Result<usize, AllocError>
    requires commands { are_good form.now.commands.now ≡ true }
    requires front { is_front form.now.fields.now form.now.size ≡ true }
    requires some { 0 < length bytes.now }
    ensures shown { OnOk result (out.new.items ≡ out.old.items
        ++ item_shown form.now.commands.now form.now.fields.now form.now.size bytes.now) }
    ensures size { IfOk result (λ n. n ≡ item_size form.now.fields.now form.now.size bytes.now) }
    ensures forward { IfOk result (λ n. 0 < n) }
    ensures inside { IfOk result (λ n. n ≤ length bytes.now) }
{
    match packet_at(form.fields, form.size, bytes) {
        Some(packet) => {
            show_line(form, front(bytes, form.size), &packet, out)?;
            Ok(form.size + packet.bytes().len())
        }
        None => {
            out.extend_from_slice(b"raw ")?;
            push_hex(bytes, out)?;
            out.push(b'\n')?;
            Ok(bytes.len())
        }
    }
}

/// Appends the line of a command.
fn show_line(
    form: &SequenceForm<'_>,
    fields: &[u8],
    packet: &Packet,
    out: &mut Vec<u8>,
) -> Result<(), AllocError>
    requires commands { are_good form.now.commands.now ≡ true }
    requires row { is_row form.now.fields.now fields.now ≡ true }
    ensures { OnOk result (out.new.items ≡ out.old.items
        ++ (((codes "command" ++ row_shown form.now.fields.now fields.now) ++ 32
        ∷ command_shown form.now.commands.now packet.now) ++ 10 ∷ [])) }
{
    out.extend_from_slice(b"command")?;
    show_row(form.fields, fields, out)?;
    out.push(b' ')?;
    show_command(form.commands, packet, out)?;
    out.push(b'\n')?;
    Ok(())
}
