//! What a line of a log says, cell by cell.

ghost use Rattle.std.specs.Prelude.{◌≡◌, [], codes, IfOk};
ghost use Rattle.packet_forms.specs.Hex.{hex};
ghost use Rattle.ground_exports.specs.Rows.{kind_cell, pipe_cell, drop_cause, cause_cell, packet_cell};
ghost use Rattle.packet_log.specs.Lines.{pipe_text};

use bus_pipes::Dropped;
use events::{events, find_event};
use ground_tools::{EventHead, application_of, event_head, pipe_name};
use log_lines::{LineItem, LogLine};
use log_words::{Vocabulary, show_packet};
use packet_forms::{Name, Packet, behind, front};
use row_forms::{push_hex, split_word};
use std::alloc::{AllocError, Global};
use telecommands::{commands, show_command};
use telemetry::{show_telemetry, telemetry_rows};

/// What a line says, cell by cell.
#[derive(Drop)]
pub struct Cells {
    pub kind: &'static str,
    pub application: Option<Name>,
    pub name: Vec<u8>,
    pub pipe: &'static str,
    pub cause: &'static str,
    pub words: Vec<u8>,
    pub packet: Vec<u8>,
    /// The words `KEY=VALUE` of the packet's fields.
    pub fields: Vec<u8>,
}

/// The key and the value of a word `KEY=VALUE`.
fn split_key(word: &[u8]) -> Option<(&[u8], &[u8])> {
    let Some(at) = word.iter().position(|b| *b == b'=') else {
        return None;
    };
    Some((front(word, at), behind(word, at.saturating_add(1))))
}

/// Appends the name of an event behind `event.`; one that no table has is `event` alone.
fn push_event(head: &EventHead, name: &mut Vec<u8>) -> Result<(), AllocError> {
    let application = head.application.text().as_bytes();
    match find_event(events(), application, head.number, head.kind) {
        Some(event) => {
            name.extend_from_slice(b"event.")?;
            name.extend_from_slice(event.name.as_bytes())
        }
        None => name.extend_from_slice(b"event"),
    }
}

/// Appends a packet's name: an event's, or the first word of its fields, where that is a name.
fn push_name(packet: &Packet, fields: &[u8], name: &mut Vec<u8>) -> Result<(), AllocError> {
    if let Some(head) = event_head(packet) {
        return push_event(&head, name);
    }
    match split_word(fields) {
        Some((word, _)) => match split_key(word) {
            Some(_) => Ok(()),
            None => name.extend_from_slice(word),
        },
        None => Ok(()),
    }
}

/// Appends the words `KEY=VALUE` of a packet behind its name, or `packet=` and its bytes.
fn push_fields(packet: &Packet, fields: &mut Vec<u8>) -> Result<(), AllocError> {
    if packet.is_command() {
        return show_command(commands(), packet, fields);
    }
    show_telemetry(telemetry_rows(), packet, fields)
}

/// The cells of a packet.
fn packet_cells(alloc: Global, kind: &'static str, packet: &Packet) -> Result<Cells, AllocError>
    ensures kind { IfOk result (λ cells. cells.kind.now ≡ kind.now) }
    ensures pipe { IfOk result (λ cells. cells.pipe.now ≡ []) }
    ensures cause { IfOk result (λ cells. cells.cause.now ≡ []) }
    ensures packet { IfOk result (λ cells. cells.packet.items ≡ hex packet.now) }
{
    let mut fields = Vec::new(alloc);
    let mut name = Vec::new(alloc);
    let mut words = Vec::new(alloc);
    let mut bytes = Vec::new(alloc);
    push_fields(packet, &mut fields)?;
    push_name(packet, fields.as_slice(), &mut name)?;
    show_packet(&Vocabulary::of_applications(), packet, &mut words)?;
    push_hex(packet.bytes(), &mut bytes)?;
    Ok(Cells {
        kind,
        application: application_of(packet),
        name,
        pipe: "",
        cause: "",
        words,
        packet: bytes,
        fields,
    })
}

/// Why a packet was dropped.
fn cause_of(full: bool) -> &'static str
    ensures { result.now ≡ drop_cause full }
{
    if full { "full" } else { "limit" }
}

/// The cells of a packet that a pipe dropped.
fn drop_cells(alloc: Global, lost: &Dropped) -> Result<Cells, AllocError>
    ensures kind { IfOk result (λ cells. cells.kind.now ≡ codes "drop") }
    ensures pipe { IfOk result (λ cells. cells.pipe.now ≡ pipe_text lost.now.pipe) }
    ensures cause { IfOk result (λ cells. cells.cause.now ≡ drop_cause lost.now.full) }
    ensures packet { IfOk result (λ cells. cells.packet.items ≡ hex lost.now.packet) }
{
    let mut cells = packet_cells(alloc, "drop", &lost.packet)?;
    cells.pipe = pipe_name(lost.pipe);
    cells.cause = cause_of(lost.full);
    Ok(cells)
}

/// The cells of a request of Health and Safety; its application stands in the column `app`, as that of an event.
fn request_cells(
    alloc: Global,
    request: &str,
    application: Option<Name>,
) -> Result<Cells, AllocError>
    ensures kind { IfOk result (λ cells. cells.kind.now ≡ codes "request") }
    ensures pipe { IfOk result (λ cells. cells.pipe.now ≡ []) }
    ensures cause { IfOk result (λ cells. cells.cause.now ≡ []) }
    ensures packet { IfOk result (λ cells. cells.packet.items ≡ []) }
{
    let mut fields = Vec::new(alloc);
    if let Some(name) = application {
        fields.extend_from_slice(b"app=")?;
        fields.extend_from_slice(name.text().as_bytes())?;
    }
    Ok(Cells {
        kind: "request",
        application: Name::from_text("HS"),
        name: Vec::from_slice(alloc, request.as_bytes())?,
        pipe: "",
        cause: "",
        words: Vec::new(alloc),
        packet: Vec::new(alloc),
        fields,
    })
}

/// The cells of a line.
pub fn line_cells(alloc: Global, line: &LogLine) -> Result<Cells, AllocError>
    ensures kind { IfOk result (λ cells. cells.kind.now ≡ kind_cell line.now.item) }
    ensures pipe { IfOk result (λ cells. cells.pipe.now ≡ pipe_cell line.now.item) }
    ensures cause { IfOk result (λ cells. cells.cause.now ≡ cause_cell line.now.item) }
    ensures packet { IfOk result (λ cells. cells.packet.items ≡ packet_cell line.now.item) }
{
    match &line.item {
        LineItem::Packet(packet) => packet_cells(alloc, "packet", packet),
        LineItem::Drop(lost) => drop_cells(alloc, lost),
        LineItem::Reset => request_cells(alloc, "reset", None),
        LineItem::Restart(name) => request_cells(alloc, "restart", Some(*name)),
        LineItem::Delete(name) => request_cells(alloc, "delete", Some(*name)),
    }
}

/// The value of a key among words `KEY=VALUE`; nothing where it isn't there.
pub fn value_of<'f>(fields: &'f [u8], wanted: &[u8]) -> &'f [u8] {
    let mut rest = fields;
    for _ in 0..u64::MAX {
        let Some((word, more)) = split_word(rest) else {
            return behind(fields, fields.len());
        };
        if let Some((key, value)) = split_key(word) {
            if key == wanted {
                return value;
            }
        }
        rest = more;
    }
    behind(fields, fields.len())
}
