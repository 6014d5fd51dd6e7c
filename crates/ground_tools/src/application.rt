//! Whose a packet is.

ghost use Rattle.std.specs.Prelude.{◌≡◌};
ghost use Rattle.ground_tools.specs.Noted.{head_in};

use packet_forms::message_ids::{
    CS_BASELINE, CS_COMMAND, CS_HOUSEKEEPING, CS_REQUEST, EVENT, HS_COMMAND, HS_HOUSEKEEPING,
    HS_REQUEST, LC_COMMAND, LC_HOUSEKEEPING, LC_REQUEST, MD_COMMAND, MD_DWELL, MD_HOUSEKEEPING,
    MD_REQUEST, MM_COMMAND, MM_DUMP, MM_HOUSEKEEPING, MM_PEEK, MM_REQUEST, SC_COMMAND,
    SC_HOUSEKEEPING, SC_REQUEST,
};
use packet_forms::{Name, Packet, be16, behind, front};

/// How many bytes an event has.
const EVENT_BYTES: usize = 44;

/// The ids of an application's packets: its commands, the requests for its housekeeping, and what it sends.
struct Ids {
    application: &'static str,
    ids: &'static [u16],
}

static APPLICATIONS: [Ids; 6] = [
    Ids {
        application: "HS",
        ids: &[HS_COMMAND, HS_REQUEST, HS_HOUSEKEEPING],
    },
    Ids {
        application: "CS",
        ids: &[CS_COMMAND, CS_REQUEST, CS_HOUSEKEEPING, CS_BASELINE],
    },
    Ids {
        application: "SC",
        ids: &[SC_COMMAND, SC_REQUEST, SC_HOUSEKEEPING],
    },
    Ids {
        application: "MM",
        ids: &[MM_COMMAND, MM_REQUEST, MM_HOUSEKEEPING, MM_PEEK, MM_DUMP],
    },
    Ids {
        application: "MD",
        ids: &[
            MD_COMMAND,
            MD_REQUEST,
            MD_HOUSEKEEPING,
            MD_DWELL + 1,
            MD_DWELL + 2,
            MD_DWELL + 3,
            MD_DWELL + 4,
        ],
    },
    Ids {
        application: "LC",
        ids: &[LC_COMMAND, LC_REQUEST, LC_HOUSEKEEPING],
    },
];

/// Who tells an event, its number, and its type: 2 for information, 3 for an error.
#[derive(Clone, Copy, Debug, PartialEq, Eq)]
pub struct EventHead {
    pub application: Name,
    pub number: u16,
    pub kind: u16,
}

/// The head of an event; none where the packet is no event, since it has another id or length, or no name.
pub fn event_head(packet: &Packet) -> Option<EventHead>
    ensures { result ≡ head_in packet.now }
{
    let bytes = packet.bytes();
    if packet.mid() != EVENT || bytes.len() != EVENT_BYTES {
        return None;
    }
    let Some(application) = Name::from_bytes(front(behind(bytes, 12), 20)) else {
        return None;
    };
    Some(EventHead {
        application,
        number: be16(bytes, 32),
        kind: be16(bytes, 34),
    })
}

/// The application that a packet belongs to: the one that tells an event, that sends other telemetry, and that a command is for.
pub fn application_of(packet: &Packet) -> Option<Name> {
    if let Some(event) = event_head(packet) {
        return Some(event.application);
    }
    let id = packet.mid();
    for row in &APPLICATIONS {
        if row.ids.contains(&id) {
            return Name::from_text(row.application);
        }
    }
    None
}
