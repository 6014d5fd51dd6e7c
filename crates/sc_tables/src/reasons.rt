//! Why an entry is refused.
ghost use Rattle.std.specs.Prelude.{◌≡◌, ◌≤◌};
ghost use Rattle.sc_tables.specs.Reasons.{reason_number};

/// Why an entry of a sequence is refused.
#[derive(Clone, Copy, Debug, PartialEq, Eq)]
pub(crate) enum EntryReason {
    /// The command's number is 0 or over 1,000.
    Number,
    /// An earlier entry has the command's number.
    Twice,
    /// No command packet of 8 to 256 bytes begins there.
    Packet,
    /// The entry runs past the end of the payload.
    PastEnd,
}

impl EntryReason {
    /// The number of the reason, from 1 to 4.
    pub(crate) fn number(self) -> u8
        ensures value { result ≡ reason_number self }
        ensures most { result ≤ 4 }
    {
        match self {
            EntryReason::Number => 1,
            EntryReason::Twice => 2,
            EntryReason::Packet => 3,
            EntryReason::PastEnd => 4,
        }
    }
}
