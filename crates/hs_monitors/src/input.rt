//! What Health and Safety reads in a wakeup.
use packet_forms::{Counter, Packet};

/// The packets of the command pipe, at most 16, those of the event pipe, at most 32, and the execution counters of the frame.
#[derive(Clone, Copy)]
pub struct HsInput<'a> {
    pub commands: &'a [Packet],
    pub events: &'a [Packet],
    pub counters: &'a [Counter],
}

impl HsInput<'_> {
    ghost use Rattle.std.specs.Prelude.{◌≡◌, ◌==◌, ◌&&◌, length};

    /// Whether no packet was taken.
    #[inline(always)]
    pub(crate) fn is_quiet(&self) -> bool
        ensures { result ≡ ((length self.now.commands.now == 0)
            && (length self.now.events.now == 0)) }
    {
        self.commands.is_empty() && self.events.is_empty()
    }
}
