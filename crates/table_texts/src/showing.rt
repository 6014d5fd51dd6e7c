//! Entries that are shown as a table's text.
ghost use Rattle.std.specs.Prelude.{◌≡◌, ◌<◌, ◌+◌, ◌*◌, ◌^◌, ◌++◌, ◌==◌, true, length, OnOk};
ghost use Rattle.table_texts.specs.Entries.{is_layout};
ghost use Rattle.table_texts.specs.Shown.{can_show, values_shown, entry_shown, entries_shown};
ghost use Rattle.telecommands.specs.Commands.{are_good};

use crate::fronts::packet_at;
use crate::layout::{Layout, TableForm};
use packet_forms::{are_zeros, behind, front};
use row_forms::{is_row, push_decimal, push_hex, show_row};
use std::alloc::AllocError;
use telecommands::show_command;

/// Appends the lines of so many entries, the first being entry `place`, and the line `end`. An entry of zero bytes has no line, and one
/// whose bytes no row says has all of them behind `raw`.
pub fn show_entries(
    form: &TableForm<'_>,
    count: usize,
    place: u32,
    bytes: &[u8],
    out: &mut Vec<u8>,
) -> Result<(), AllocError>
    requires commands { are_good form.now.commands.now ≡ true }
    requires layout { is_layout form.now.layout ≡ true }
    requires bytes { length bytes.now ≡ count * form.now.layout.size }
    requires places { place + count < 2 ^ 32 }
    ensures { OnOk result (out.new.items ≡ out.old.items
        ++ entries_shown form.now.commands.now form.now.layout count place bytes.now) }
{
    if count == 0 {
        out.extend_from_slice(b"end\n")?;
        return Ok(());
    }
    let (entry, rest) = bytes.split_at(form.layout.size);
    show_entry(form, place, entry, out)?;
    show_entries(form, count - 1, place + 1, rest, out)
}

/// Appends the line of an entry, unless its bytes are zero.
fn show_entry(
    form: &TableForm<'_>,
    place: u32,
    entry: &[u8],
    out: &mut Vec<u8>,
) -> Result<(), AllocError>
    requires commands { are_good form.now.commands.now ≡ true }
    requires layout { is_layout form.now.layout ≡ true }
    requires long { length entry.now ≡ form.now.layout.size }
    ensures { OnOk result (out.new.items ≡ out.old.items
        ++ entry_shown form.now.commands.now form.now.layout place entry.now) }
{
    if are_zeros(entry) {
        return Ok(());
    }
    if can_show(&form.layout, entry) {
        push_decimal(place, out)?;
        show_values(form, entry, out)?;
        out.push(b'\n')?;
        return Ok(());
    }
    out.extend_from_slice(b"raw ")?;
    push_decimal(place, out)?;
    out.push(b' ')?;
    push_hex(entry, out)?;
    out.push(b'\n')?;
    Ok(())
}

/// Whether words say an entry: its row, or its fields and a telecommand with zero bytes behind it.
#[tactic(auto, unfolding(crate::specs::Shown::can_show))]
fn can_show(layout: &Layout, entry: &[u8]) -> bool
    requires layout { is_layout layout.now ≡ true }
    requires long { length entry.now ≡ layout.now.size }
    ensures { result ≡ can_show layout.now entry.now }
{
    if layout.area == 0 {
        return is_row(layout.fields, entry);
    }
    let size = layout.size - layout.area;
    match packet_at(layout.fields, size, entry) {
        Some(packet) => are_zeros(behind(entry, size + packet.bytes().len())),
        None => false,
    }
}

/// Appends the words of an entry, each with a space in front.
#[tactic(auto, unfolding(crate::specs::Shown::values_shown))]
fn show_values(form: &TableForm<'_>, entry: &[u8], out: &mut Vec<u8>) -> Result<(), AllocError>
    requires commands { are_good form.now.commands.now ≡ true }
    requires layout { is_layout form.now.layout ≡ true }
    requires long { length entry.now ≡ form.now.layout.size }
    requires shows { can_show form.now.layout entry.now ≡ true }
    ensures { OnOk result (out.new.items ≡ out.old.items
        ++ values_shown form.now.commands.now form.now.layout entry.now) }
{
    let layout = &form.layout;
    if layout.area == 0 {
        return show_row(layout.fields, entry, out);
    }
    let size = layout.size - layout.area;
    let Some(packet) = packet_at(layout.fields, size, entry) else {
        return Ok(());
    };
    show_row(layout.fields, front(entry, size), out)?;
    out.push(b' ')?;
    show_command(form.commands, &packet, out)
}
