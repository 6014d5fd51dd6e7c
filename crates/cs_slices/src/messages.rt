//! CS's name, the codes of its commands, and its event that no command gives.
ghost use Rattle.std.specs.Prelude.{◌≡◌};
ghost use Rattle.packet_forms.specs.Names.{is_name_text};
ghost use Rattle.cs_slices.specs.Messages.{cs_name, event_number, event_kind};

use commands::CodeRow;
use packet_forms::{Name, named};

/// The type of an event that tells an error.
const ERROR: u16 = 3;

/// What CS tells of a slice.
#[derive(Clone, Copy, Debug, PartialEq, Eq)]
pub(crate) enum Event {
    /// A whole pass has another check than the baseline.
    Miscompare,
}

impl Event {
    pub(crate) fn number(self) -> u16
        ensures { result ≡ event_number self }
    {
        match self {
            Event::Miscompare => 101,
        }
    }

    /// Its type.
    pub(crate) fn kind(self) -> u16
        ensures { result ≡ event_kind self }
    {
        match self {
            Event::Miscompare => ERROR,
        }
    }
}

/// No-op, reset counters, CS on and off, table on and off, entry on and off, report the baseline.
pub(crate) const CODES: [CodeRow; 9] = [
    CodeRow(0, 0, 0),
    CodeRow(1, 0, 0),
    CodeRow(2, 0, 0),
    CodeRow(3, 0, 0),
    CodeRow(4, 2, 2),
    CodeRow(5, 2, 2),
    CodeRow(6, 4, 4),
    CodeRow(7, 4, 4),
    CodeRow(8, 4, 4),
];

/// CS's name.
#[tactic(auto, unfolding(crate::specs::Messages::cs_name, packet_forms::specs::Names::is_name_text))]
pub(crate) fn name() -> Name
    ensures { result ≡ cs_name }
{
    named("CS")
}
