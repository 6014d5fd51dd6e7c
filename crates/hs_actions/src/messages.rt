//! Health and Safety's name, and the events of its monitors.
ghost use Rattle.std.specs.Prelude.{◌≡◌, ◌+◌, ◌≤◌};
ghost use Rattle.packet_forms.specs.Names.{is_name_text};
ghost use Rattle.hs_actions.specs.Messages.{hs_name, event_base, event_place, event_kind};

use crate::action::Source;
use packet_forms::{Name, named};

/// The type of an event that tells an error.
const ERROR: u16 = 3;

/// What a monitor tells of an entry that acts.
#[derive(Clone, Copy, Debug, PartialEq, Eq)]
pub(crate) enum Event {
    /// A processor reset is asked for.
    ResetAsked,
    /// The restart of the application is asked for.
    RestartAsked,
    /// The entry reports, and of an event monitor the deletion of the application is asked for.
    Reported,
    /// The packet of a message action was sent.
    MessageSent,
    /// As many resets were made as may be, and none is asked for.
    NoResetLeft,
}

impl Event {
    /// Its number: 101 to 105 of an application monitor, 111 to 115 of an event monitor.
    pub(crate) fn number(self, from: Source) -> u16
        ensures { result ≡ event_base from + event_place self }
    {
        match from {
            Source::AppMonitor => 100 + self.place(),
            Source::EventMonitor => 110 + self.place(),
        }
    }

    /// Its type: each is an error.
    pub(crate) fn kind(self) -> u16
        ensures { result ≡ event_kind self }
    {
        ERROR
    }

    /// Which of its monitor's five events it is, from 1.
    fn place(self) -> u16
        ensures place { result ≡ event_place self }
        ensures few { result ≤ 5 }
    {
        match self {
            Event::ResetAsked => 1,
            Event::RestartAsked => 2,
            Event::Reported => 3,
            Event::MessageSent => 4,
            Event::NoResetLeft => 5,
        }
    }
}

/// The name of Health and Safety.
#[tactic(auto, unfolding(crate::specs::Messages::hs_name, packet_forms::specs::Names::is_name_text))]
pub fn hs_name() -> Name
    ensures { result ≡ hs_name }
{
    named("HS")
}
