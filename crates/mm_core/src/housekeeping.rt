//! The housekeeping packet.
ghost use Rattle.std.specs.Prelude.{◌≡◌, true};
ghost use Rattle.bus_pipes.specs.Counted.{is_item_counted};
ghost use Rattle.bus_pipes.specs.declared.names.Out.TheVariants as outs;
ghost use Rattle.memory_window.specs.Window.{seen};
ghost use Rattle.mm_core.specs.Reading.{protection_of};
ghost use Rattle.mm_core.specs.Housekeeping.{is_open, open_regions, housekeeping_of};

use crate::reading::protection_of;
use bus_pipes::Counts;
use histories::bits_of;
use memory_window::Window;
use packet_forms::message_ids::MM_HOUSEKEEPING;
use packet_forms::{Packet, telemetry};

/// The packet with both counts and the regions that are open for writing.
#[tactic(auto, unfolding(crate::specs::Housekeeping::housekeeping_of, bus_pipes::specs::Counted::is_counted))]
pub(crate) fn housekeeping(window: Window<'_>, counts: Counts, now: u32) -> Packet
    ensures packet { result ≡ housekeeping_of now counts (seen window.entry) }
    ensures counted { is_item_counted (outs.Made result) ≡ true }
{
    let open = open_regions(window);
    telemetry(
        MM_HOUSEKEEPING,
        now,
        &[counts.accepted, counts.errors, open, 0],
    )
}

/// Bit i - 1 is set for EEPROM region i that isn't protected.
#[tactic(auto, unfolding(crate::specs::Housekeeping::open_regions))]
fn open_regions(window: Window<'_>) -> u8
    ensures { result ≡ open_regions (seen window.entry) }
{
    bits_of(&[
        is_open(window, 1),
        is_open(window, 2),
        is_open(window, 3),
        is_open(window, 4),
        is_open(window, 5),
        is_open(window, 6),
        is_open(window, 7),
        is_open(window, 8),
    ]) as u8
}

fn is_open(window: Window<'_>, region: u8) -> bool
    ensures { result ≡ is_open (protection_of (seen window.entry) region) }
{
    match protection_of(window, region) {
        Some(guarded) => !guarded,
        None => false,
    }
}
