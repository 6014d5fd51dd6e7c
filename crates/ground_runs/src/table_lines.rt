//! The lines of a table's text, as a rehearsal tells them in front of its log.

ghost use Rattle.std.specs.Prelude.{◌≡◌, true, Some};
ghost use Rattle.telecommands.specs.Commands.{are_good};
ghost use Rattle.table_files.specs.Headers.{kind_of_file};
ghost use Rattle.table_forms.specs.Layouts.{are_layouts};

use packet_forms::{be16, behind, front};
use row_forms::push_decimal;
use std::alloc::{AllocError, Global};
use table_files::TableKind;
use table_forms::{TextForms, show_table, table_layouts};
use telecommands::commands;
use telemetry::telemetry_rows;

/// How many lines of a table's text are told at most.
const MOST_LINES: u32 = 100;

/// How many watchpoints a table has, and how many bytes each has.
const WATCHPOINTS: u32 = 32;

const WATCHPOINT: usize = 16;

/// What begins each line that is told behind that of a FILE.
pub(crate) const INDENT: &[u8] = b">     ";

/// Whether a table of this kind can come into force in a run.
fn can_activate(kind: TableKind) -> bool {
    match kind {
        TableKind::MsgActs | TableKind::Wdt | TableKind::Adt => false,
        TableKind::AppMon
        | TableKind::EventMon
        | TableKind::ExeCount
        | TableKind::Ats(_)
        | TableKind::Rts(_)
        | TableKind::Dwell(_)
        | TableKind::Eeprom
        | TableKind::Memory => true,
    }
}

/// Whether an earlier FILE has a table of this kind.
fn has_kind(kind: TableKind, earlier: &[TableKind]) -> bool {
    earlier.iter().any(|other| *other == kind)
}

/// Where a table stands behind those of earlier FILEs.
fn standing_of(kind: TableKind, earlier: &[TableKind]) -> &'static [u8] {
    if !has_kind(kind, earlier) {
        return b"in force from the start\n";
    }
    if can_activate(kind) {
        b"stands by\n"
    } else {
        b"never used: an earlier file has this table\n"
    }
}

/// What a table's lines alone don't tell of it: what its application does with it by itself, and how long.
fn note_of(kind: TableKind) -> &'static [u8] {
    match kind {
        TableKind::AppMon => {
            b"one that acted watches no more until hs.apps_on, an activation of such a table or a processor reset\n"
        }
        TableKind::Rts(1) => {
            b"SC starts it by itself as the run begins, and behind a processor reset\n"
        }
        TableKind::Eeprom | TableKind::Memory => {
            b"CS takes new baselines each time that such a table becomes active, also this one again\n"
        }
        TableKind::Adt => {
            b"one fires where `when` was true in so many evaluations in a row, and is passive then until lc.set_active or a processor reset\n"
        }
        TableKind::EventMon
        | TableKind::ExeCount
        | TableKind::MsgActs
        | TableKind::Ats(_)
        | TableKind::Rts(_)
        | TableKind::Dwell(_)
        | TableKind::Wdt => b"",
    }
}

/// Appends what is to be known of the first table of its kind beside its lines, if anything is.
fn push_note(
    kind: TableKind,
    earlier: &[TableKind],
    lines: &mut Vec<u8>,
) -> Result<(), AllocError> {
    let note = note_of(kind);
    if note.is_empty() || has_kind(kind, earlier) {
        return Ok(());
    }
    lines.extend_from_slice(INDENT)?;
    lines.extend_from_slice(note)
}

/// What tables are shown by, with their times in seconds.
fn text_forms() -> TextForms<'static>
    ensures commands { are_good result.commands.now ≡ true }
    ensures layouts { are_layouts result.layouts.now ≡ true }
{
    TextForms {
        epoch: None,
        commands: commands(),
        layouts: table_layouts(),
    }
}

/// Appends the lines of a text between its first and its last one, each behind the mark of a FILE.
fn push_inner_lines(text: &[u8], lines: &mut Vec<u8>) -> Result<(), AllocError> {
    let mut rest = text;
    'lines: for number in 0..MOST_LINES {
        let Some(end) = rest.iter().position(|byte| *byte == b'\n') else {
            return Ok(());
        };
        let line = front(rest, end);
        rest = behind(rest, end.saturating_add(1));
        if rest.is_empty() {
            return Ok(());
        }
        if number > 0 {
            lines.extend_from_slice(INDENT)?;
            lines.extend_from_slice(line)?;
            lines.extend_from_slice(b"\n")?;
        }
    }
    lines.extend_from_slice(INDENT)?;
    lines.extend_from_slice(b"and so on\n")
}

/// The name of the telemetry with an id, where the bench makes it.
fn telemetry_name(id: u16) -> Option<&'static str> {
    for row in telemetry_rows() {
        if row.id == id {
            return Some(row.name);
        }
    }
    None
}

/// Appends what a watchpoint watches, where it is used and its packets are the bench's.
fn push_watched(entry: u32, bytes: &[u8], lines: &mut Vec<u8>) -> Result<(), AllocError> {
    if bytes.len() < WATCHPOINT || be16(bytes, 0) == 0 {
        return Ok(());
    }
    let Some(name) = telemetry_name(be16(bytes, 2)) else {
        return Ok(());
    };
    lines.extend_from_slice(INDENT)?;
    lines.extend_from_slice(b"watchpoint ")?;
    push_decimal(entry, lines)?;
    lines.extend_from_slice(b" watches ")?;
    lines.extend_from_slice(name.as_bytes())?;
    lines.extend_from_slice(b"\n")
}

/// Appends what the watchpoints of a table's payload watch.
pub(crate) fn push_watches(payload: &[u8], lines: &mut Vec<u8>) -> Result<(), AllocError> {
    for place in 0..WATCHPOINTS {
        let start = WATCHPOINT.saturating_mul(place as usize);
        push_watched(place.saturating_add(1), behind(payload, start), lines)?;
    }
    Ok(())
}

/// Appends where a table stands, its entries as its text has them, and what is to be known beside them.
pub(crate) fn push_table(
    alloc: Global,
    kind: TableKind,
    file: &[u8],
    earlier: &[TableKind],
    lines: &mut Vec<u8>,
) -> Result<(), AllocError>
    requires { kind_of_file file.now ≡ Some kind }
{
    lines.extend_from_slice(INDENT)?;
    lines.extend_from_slice(standing_of(kind, earlier))?;
    let mut text = Vec::new(alloc);
    show_table(alloc, &text_forms(), kind, file, &mut text)?;
    push_inner_lines(text.as_slice(), lines)?;
    push_note(kind, earlier, lines)
}
