//! MD's name, and the codes of its commands.
ghost use Rattle.std.specs.Prelude.{◌≡◌};
ghost use Rattle.packet_forms.specs.Names.{is_name_text};
ghost use Rattle.md_dwell.specs.Messages.{md_name};

use commands::CodeRow;
use packet_forms::{Name, named};

/// No-op, reset counters, start, stop, jam.
pub(crate) const CODES: [CodeRow; 5] = [
    CodeRow(0, 0, 0),
    CodeRow(1, 0, 0),
    CodeRow(2, 2, 2),
    CodeRow(3, 2, 2),
    CodeRow(4, 12, 12),
];

/// MD's name.
#[tactic(auto, unfolding(crate::specs::Messages::md_name, packet_forms::specs::Names::is_name_text))]
pub(crate) fn name() -> Name
    ensures { result ≡ md_name }
{
    named("MD")
}
