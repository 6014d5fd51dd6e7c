//! MM's name, and the codes of its commands.
ghost use Rattle.std.specs.Prelude.{◌≡◌};
ghost use Rattle.packet_forms.specs.Names.{is_name_text};
ghost use Rattle.mm_core.specs.Messages.{mm_name};

use commands::CodeRow;
use packet_forms::{Name, named};

/// No-op, reset counters, peek, poke, load, load of a file, fill, EEPROM enable and disable, and dump.
pub(crate) const CODES: [CodeRow; 10] = [
    CodeRow(0, 0, 0),
    CodeRow(1, 0, 0),
    CodeRow(2, 5, 5),
    CodeRow(3, 9, 9),
    CodeRow(4, 7, 206),
    CodeRow(5, 2, 2),
    CodeRow(8, 9, 9),
    CodeRow(11, 1, 1),
    CodeRow(12, 1, 1),
    CodeRow(13, 8, 8),
];

/// MM's name.
#[tactic(auto, unfolding(crate::specs::Messages::mm_name, packet_forms::specs::Names::is_name_text))]
pub(crate) fn name() -> Name
    ensures { result ≡ mm_name }
{
    named("MM")
}
