//! Why a line is bad.
ghost use Rattle.std.specs.Prelude.{◌≡◌};
ghost use Rattle.scenario.specs.Reasons.{number_of};

/// Why a line is bad, or the text as a whole.
#[derive(Clone, Copy, Debug, PartialEq, Eq)]
pub enum Reason {
    /// The first word is unknown or out of its place, the words are too few or too many, or a kind, an
    /// application or a name is out of form.
    Word,
    /// A number is out of form or too large.
    Number,
    /// The digits of a packet are out of form, or its bytes are no packet.
    Packet,
    /// The regions make no map, or an upset lies outside of it.
    Map,
    /// A frame has more than 64 items.
    TooMany,
    /// The line, the text or the number of frames is too large.
    TooLong,
    /// The text ended without `end`.
    Unended,
}

impl Reason {
    /// The reason as a number, from 1 for `Word` to 7 for `Unended`.
    pub fn number(self) -> u8
        ensures { result ≡ number_of self }
    {
        match self {
            Reason::Word => 1,
            Reason::Number => 2,
            Reason::Packet => 3,
            Reason::Map => 4,
            Reason::TooMany => 5,
            Reason::TooLong => 6,
            Reason::Unended => 7,
        }
    }
}
