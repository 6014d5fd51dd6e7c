//! Which commands are refused.

use commands::Reason;

/// Why a command is refused beyond what all applications ask: Health and Safety has no such reason.
#[derive(Clone, Copy, Debug, PartialEq, Eq)]
pub(crate) struct Refusal;

impl Reason for Refusal {
    ghost use Rattle.hs_monitors.specs.Verdicts.{number_of};

    ghost number = { number_of };

    fn number(self) -> u8 {
        4
    }
}
