//! The housekeeping packet.
ghost use Rattle.std.specs.Prelude.{◌≡◌, true};
ghost use Rattle.bus_pipes.specs.Counted.{is_item_counted};
ghost use Rattle.bus_pipes.specs.declared.names.Out.TheVariants as outs;
ghost use Rattle.cs_slices.specs.Housekeeping.{flags_of, housekeeping_of};

use crate::switches::Switches;
use crate::tally::Tally;
use bus_pipes::Counts;
use packet_forms::message_ids::CS_HOUSEKEEPING;
use packet_forms::{Packet, telemetry};

/// The packet with both counts, the flags, the miscompares of both tables and the number of whole passes.
#[tactic(auto, unfolding(crate::specs::Housekeeping::housekeeping_of, packet_forms::specs::Numbers::be16_bytes, packet_forms::specs::Numbers::be32_bytes, bus_pipes::specs::Counted::is_counted))]
pub(crate) fn housekeeping(counts: Counts, switches: &Switches, tally: &Tally, now: u32) -> Packet
    ensures packet { result ≡ housekeeping_of now counts
        (flags_of switches.now.cs switches.now.eeprom switches.now.memory) tally.now.eeprom
        tally.now.memory tally.now.passes }
    ensures counted { is_item_counted (outs.Made result) ≡ true }
{
    let flags = switches.flags();
    let [a, b] = tally.eeprom().to_be_bytes();
    let [c, d] = tally.memory().to_be_bytes();
    let [e, f, g, h] = tally.passes().to_be_bytes();
    telemetry(
        CS_HOUSEKEEPING,
        now,
        &[
            counts.accepted,
            counts.errors,
            flags,
            0,
            a,
            b,
            c,
            d,
            e,
            f,
            g,
            h,
        ],
    )
}
