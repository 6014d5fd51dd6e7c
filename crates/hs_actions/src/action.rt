//! The actions that the monitors' tables name.
ghost use Rattle.std.specs.Prelude.{◌≡◌, ◌≤◌};
ghost use Rattle.hs_actions.specs.Happenings.{action_of, HasPlace};

/// The kind of the entry that acts: its events are 101 to 105, or 111 to 115.
#[derive(Clone, Copy, Debug, PartialEq, Eq)]
pub enum Source {
    AppMonitor,
    EventMonitor,
}

/// What an entry asks for.
#[derive(Clone, Copy, Debug, PartialEq, Eq)]
pub enum Action {
    /// 1: a processor reset, where fewer were made than the maximum.
    Reset,
    /// 2: the restart of the application.
    Restart,
    /// 3: an event, and of an event monitor the deletion of the application.
    Report,
    /// 4 to 11: the message action in this place of the table, from 0.
    Message(u16),
}

/// The action of a number from 1 to 11.
pub(crate) fn action_of(number: u16) -> Action
    requires { (1 ≤ number) × (number ≤ 11) }
    ensures action { result ≡ action_of number }
    ensures place { HasPlace result }
{
    match number {
        1 => Action::Reset,
        2 => Action::Restart,
        3 => Action::Report,
        _ => Action::Message(number - 4),
    }
}
