//! The housekeeping packet.
ghost use Rattle.std.specs.Prelude.{◌≡◌, true};
ghost use Rattle.bus_pipes.specs.Counted.{is_item_counted};
ghost use Rattle.bus_pipes.specs.declared.names.Out.TheVariants as outs;
ghost use Rattle.lc_watch.specs.Housekeeping.{housekeeping_of};

use bus_pipes::Counts;
use packet_forms::message_ids::LC_HOUSEKEEPING;
use packet_forms::{Packet, telemetry};

/// The packet with both counts, the active actionpoints (bit n - 1 is actionpoint n), the firings, and the outcomes of the watchpoints (two
/// bits each, the first lowest: 0 nothing seen, 1 it didn't hold, 2 it held, 3 outside the packet).
#[tactic(auto, unfolding(crate::specs::Housekeeping::housekeeping_of, packet_forms::specs::Numbers::be16_bytes, packet_forms::specs::Numbers::be32_bytes, bus_pipes::specs::Counted::is_counted))]
pub(crate) fn housekeeping(
    counts: Counts,
    active: u16,
    fired: u16,
    results: u64,
    now: u32,
) -> Packet
    ensures packet { result ≡ housekeeping_of now counts active fired results }
    ensures counted { is_item_counted (outs.Made result) ≡ true }
{
    let [a, b] = active.to_be_bytes();
    let [c, d] = fired.to_be_bytes();
    let [e, f, g, h] = ((results / 0x1_0000_0000) as u32).to_be_bytes();
    let [i, j, k, l] = ((results % 0x1_0000_0000) as u32).to_be_bytes();
    telemetry(
        LC_HOUSEKEEPING,
        now,
        &[
            counts.accepted,
            counts.errors,
            0,
            0,
            a,
            b,
            c,
            d,
            e,
            f,
            g,
            h,
            i,
            j,
            k,
            l,
        ],
    )
}
