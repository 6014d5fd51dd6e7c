//! Stored Command's name, the codes of its commands, and its events that no command gives.
ghost use Rattle.std.specs.Prelude.{◌≡◌};
ghost use Rattle.packet_forms.specs.Names.{is_name_text};
ghost use Rattle.sc_sequences.specs.Messages.{sc_name, event_number, event_kind};

use commands::CodeRow;
use packet_forms::{Name, named};

/// The types of events: information, and an error.
const INFORMATION: u16 = 2;

const ERROR: u16 = 3;

/// What Stored Command tells of its sequences.
#[derive(Clone, Copy, Debug, PartialEq, Eq)]
pub(crate) enum Event {
    /// A command of an absolute sequence has a wrong checksum.
    WrongInAts,
    /// A command of a relative sequence has a wrong checksum, and the sequence stops.
    WrongInRts,
    /// An absolute sequence ends.
    AtsEnded,
    /// A relative sequence ends.
    RtsEnded,
}

impl Event {
    pub(crate) fn number(self) -> u16
        ensures { result ≡ event_number self }
    {
        match self {
            Event::WrongInAts => 101,
            Event::WrongInRts => 102,
            Event::AtsEnded => 103,
            Event::RtsEnded => 104,
        }
    }

    /// Its type.
    pub(crate) fn kind(self) -> u16
        ensures { result ≡ event_kind self }
    {
        match self {
            Event::WrongInAts => ERROR,
            Event::WrongInRts => ERROR,
            Event::AtsEnded => INFORMATION,
            Event::RtsEnded => INFORMATION,
        }
    }
}

/// No-op, reset counters, start and stop an absolute sequence, start, stop, disable and enable a relative one, switch and jump in the
/// absolute one.
pub(crate) const CODES: [CodeRow; 10] = [
    CodeRow(0, 0, 0),
    CodeRow(1, 0, 0),
    CodeRow(2, 2, 2),
    CodeRow(3, 0, 0),
    CodeRow(4, 2, 2),
    CodeRow(5, 2, 2),
    CodeRow(6, 2, 2),
    CodeRow(7, 2, 2),
    CodeRow(8, 0, 0),
    CodeRow(9, 4, 4),
];

/// Stored Command's name.
#[tactic(auto, unfolding(crate::specs::Messages::sc_name, packet_forms::specs::Names::is_name_text))]
pub(crate) fn name() -> Name
    ensures { result ≡ sc_name }
{
    named("SC")
}
