//! Packets that are shown as telemetry.
ghost use Rattle.std.specs.Prelude.{◌≡◌, ◌++◌, true, OnOk, IfSome};
ghost use Rattle.telemetry.specs.Telemetry.{content_of, is_good, are_good, shows, showing, telemetry_shown};

use crate::content::{content_of, is_content, packet_of};
use crate::row::TelemetryRow;
use packet_forms::Packet;
use row_forms::{is_row, push_hex, show_row};
use std::alloc::AllocError;

/// Appends the words of a packet: the name of the first row that says it, its time, its sequence count and its fields, or `packet=` and
/// its bytes in hexadecimal digits where no row says it.
pub fn show_telemetry(
    rows: &[TelemetryRow],
    packet: &Packet,
    out: &mut Vec<u8>,
) -> Result<(), AllocError>
    requires { are_good rows.now ≡ true }
    ensures { OnOk result (out.new.items ≡ out.old.items ++ telemetry_shown rows.now packet.now) }
{
    let content = content_of(packet);
    match find_showing(rows, packet, content.bytes()) {
        Some(row) => {
            out.extend_from_slice(row.name.as_bytes())?;
            show_row(row.fields, content.bytes(), out)
        }
        None => {
            out.extend_from_slice(b"packet=")?;
            push_hex(packet.bytes(), out)
        }
    }
}

/// The first row whose words say a packet that has this content.
fn find_showing(rows: &[TelemetryRow], packet: &Packet, content: &[u8]) -> Option<TelemetryRow>
    requires good { are_good rows.now ≡ true }
    requires content { content.now ≡ content_of packet.now }
    ensures value { result ≡ showing rows.now packet.now }
    ensures shows { IfSome result (λ row. shows packet.now row ≡ true) }
{
    for row in rows {
        if shows(row, packet, content) {
            return Some(*row);
        }
    }
    None
}

/// Whether a row's words say this packet, which has this content.
#[tactic(auto, unfolding(crate::specs::Telemetry::shows))]
fn shows(row: &TelemetryRow, packet: &Packet, content: &[u8]) -> bool
    requires good { is_good row.now ≡ true }
    requires content { content.now ≡ content_of packet.now }
    ensures { result ≡ shows packet.now row.now }
{
    packet.mid() == row.id
        && is_content(content)
        && is_row(row.fields, content)
        && packet_of(row.id, content).bytes() == packet.bytes()
}
