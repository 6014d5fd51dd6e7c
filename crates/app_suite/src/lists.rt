//! What is told of a frame's activations and what the applications gave in it, a list each.

ghost use Rattle.std.specs.Prelude.{◌≡◌, [], ◌∷◌};
ghost use Rattle.frame_wires.specs.Sending.{shown};
ghost use Rattle.app_suite.specs.Wakes.{joined};

use crate::cs_slot::CsSlot;
use crate::hs_slot::HsSlot;
use crate::lc_slot::LcSlot;
use crate::md_slot::MdSlot;
use crate::mm_slot::MmSlot;
use crate::sc_slot::ScSlot;
use bus_pipes::{Out, Outbox};

/// What was told of activations, and behind it what the applications gave, a list each, in their order.
pub fn in_order<'a>(
    told: &'a Outbox,
    hs: &'a HsSlot,
    cs: &'a CsSlot,
    sc: &'a ScSlot,
    mm: &'a MmSlot,
    md: &'a MdSlot,
    lc: &'a LcSlot,
) -> [&'a [Out]; 7]
    ensures shown { shown result ≡ joined (told.now.items ∷ hs.now.out.items ∷ cs.now.out.items
        ∷ sc.now.out.items ∷ mm.now.out.items ∷ md.now.out.items ∷ lc.now.slot.out.items ∷ []) }
{
    [
        told.items(),
        hs.out.items(),
        cs.out.items(),
        sc.out.items(),
        mm.out.items(),
        md.out.items(),
        lc.slot.out.items(),
    ]
}
