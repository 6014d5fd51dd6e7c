//! The housekeeping packet.
ghost use Rattle.std.specs.Prelude.{◌≡◌, true};
ghost use Rattle.bus_pipes.specs.Counted.{is_item_counted};
ghost use Rattle.bus_pipes.specs.declared.names.Out.TheVariants as outs;
ghost use Rattle.md_dwell.specs.Housekeeping.{housekeeping_of};

use bus_pipes::Counts;
use packet_forms::message_ids::MD_HOUSEKEEPING;
use packet_forms::{Packet, telemetry};

/// The packet with both counts and the enabled tables: bit n - 1 is table n.
#[tactic(auto, unfolding(crate::specs::Housekeeping::housekeeping_of, bus_pipes::specs::Counted::is_counted))]
pub(crate) fn housekeeping(counts: Counts, enabled: u8, now: u32) -> Packet
    ensures packet { result ≡ housekeeping_of now counts enabled }
    ensures counted { is_item_counted (outs.Made result) ≡ true }
{
    telemetry(
        MD_HOUSEKEEPING,
        now,
        &[counts.accepted, counts.errors, enabled, 0],
    )
}
