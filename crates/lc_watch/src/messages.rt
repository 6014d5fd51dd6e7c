//! LC's name, the codes of its commands, its event that no command gives, and the command that it sends.
ghost use Rattle.std.specs.Prelude.{◌≡◌};
ghost use Rattle.packet_forms.specs.Names.{is_name_text};
ghost use Rattle.lc_watch.specs.Messages.{lc_name, event_number, event_kind};

use commands::CodeRow;
use packet_forms::{Name, named};

/// The code of the command that starts a relative sequence.
pub(crate) const START_RTS: u8 = 4;

/// The type of an event that tells an error.
const ERROR: u16 = 3;

/// What LC tells of an actionpoint.
#[derive(Clone, Copy, Debug, PartialEq, Eq)]
pub(crate) enum Event {
    /// The actionpoint fired, and starts its relative sequence.
    Fired,
}

impl Event {
    pub(crate) fn number(self) -> u16
        ensures { result ≡ event_number self }
    {
        match self {
            Event::Fired => 101,
        }
    }

    /// Its type.
    pub(crate) fn kind(self) -> u16
        ensures { result ≡ event_kind self }
    {
        match self {
            Event::Fired => ERROR,
        }
    }
}

/// No-op, reset counters, set active, set passive.
pub(crate) const CODES: [CodeRow; 4] = [
    CodeRow(0, 0, 0),
    CodeRow(1, 0, 0),
    CodeRow(2, 2, 2),
    CodeRow(3, 2, 2),
];

/// LC's name.
#[tactic(auto, unfolding(crate::specs::Messages::lc_name, packet_forms::specs::Names::is_name_text))]
pub(crate) fn name() -> Name
    ensures { result ≡ lc_name }
{
    named("LC")
}
