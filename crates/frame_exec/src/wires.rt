//! The wires of the bench: its pipes, what they dropped, and how many packets were sent.

ghost use Rattle.std.specs.Prelude.{◌≡◌};
ghost use Rattle.frame_exec.specs.declared.wires.TheConstants.{DROPS};

use bus_pipes::{Bus, Dropped, Drops, Out, Outbox, PipeName};
use frame_wires::{deliver_lists, stamp_all};
use fsw_outside::NoMemory;
use packet_forms::Packet;
use packet_log::Log;
use std::alloc::Global;

/// How many packets are dropped in a frame at most: all that are sent and all that the applications give.
pub(crate) const DROPS: u32 = 1573;

/// The pipes, the packets that they dropped in the last frame, and the counts of the packets that were sent.
#[derive(Drop)]
pub(crate) struct Wires {
    pub(crate) bus: Bus,
    pub(crate) drops: Drops,
    pub(crate) log: Log,
    ghost roomy: { drops.room ≡ DROPS },
}

impl Wires {
    ghost use Rattle.std.specs.Prelude.{ℕ, ◌+◌, ◌≤◌, ◌==◌, true, List, ◌++◌, length, IfOk};
    ghost use Rattle.std.specs.List.{AllPass, flat_map};
    ghost use Rattle.bus_pipes.specs.Counted.{is_item_counted};
    ghost use Rattle.bus_pipes.specs.Delivery.{after_offers, drops_from};
    ghost use Rattle.bus_pipes.specs.Held.{adding};
    ghost use Rattle.bus_pipes.specs.Pipes.{emptied_pipes};
    ghost use Rattle.packet_log.specs.Sent.{makes};
    ghost use Rattle.packet_log.specs.Standing.{Stands as LogStands};
    ghost use Rattle.frame_wires.specs.Sending.{packet_in, sent_of, shown};
    ghost use Rattle.frame_exec.specs.Parts.{AreUnused};

    /// Wires over which nothing was sent, LC's pipes among them where it is there.
    pub(crate) fn open(alloc: Global, lc: bool) -> Result<Wires, NoMemory>
        ensures { IfOk result (AreUnused lc) }
    {
        Ok(Wires {
            bus: Bus::open(alloc, lc)?,
            drops: Drops::open(alloc, DROPS)?,
            log: Log::start(),
        })
    }

    /// Empties the pipes.
    #[inline(always)]
    pub(crate) fn empty(&mut self)
        ensures pipes { self.new.bus ≡ emptied_pipes self.old.bus }
        ensures drops { self.new.drops ≡ self.old.drops }
        ensures log { self.new.log ≡ self.old.log }
    {
        self.bus.clear();
    }

    /// Whether the pipes hold nothing.
    pub(crate) fn hold_nothing(&self) -> bool
        ensures { result ≡ true → self.now.bus ≡ emptied_pipes self.now.bus }
    {
        self.bus.is_empty(PipeName::Hs)
            && self.bus.is_empty(PipeName::HsEv)
            && self.bus.is_empty(PipeName::Cs)
            && self.bus.is_empty(PipeName::Sc)
            && self.bus.is_empty(PipeName::Mm)
            && self.bus.is_empty(PipeName::Md)
            && self.bus.is_empty(PipeName::Lc)
            && self.bus.is_empty(PipeName::LcTlm)
    }

    /// Offers these packets to the pipes.
    #[inline(always)]
    pub(crate) fn deliver(&mut self, packets: &[Packet])
        requires room { length self.old.drops.items + length packets.now ≤ DROPS }
        ensures pipes { self.new.bus ≡ after_offers self.old.bus packets.now }
        ensures drops { self.new.drops
            ≡ adding self.old.drops (drops_from self.old.bus packets.now) }
        ensures few { length self.new.drops.items
            ≤ length self.old.drops.items + length packets.now }
        ensures log { self.new.log ≡ self.old.log }
    {
        self.bus.deliver(packets, &mut self.drops);
    }

    /// Offers the packets of lists of items that were sent to the pipes, one list after another.
    #[inline(always)]
    pub(crate) fn deliver_lists(&mut self, lists: &[&[Out]])
        requires room { length self.old.drops.items + length (shown lists.now) ≤ DROPS }
        ensures pipes { self.new.bus
            ≡ after_offers self.old.bus (flat_map packet_in (shown lists.now)) }
        ensures drops { self.new.drops ≡ adding self.old.drops
            (drops_from self.old.bus (flat_map packet_in (shown lists.now))) }
        ensures log { self.new.log ≡ self.old.log }
    {
        deliver_lists(&mut self.bus, lists, &mut self.drops);
    }

    /// Gives the items of a list their sequence counts.
    #[inline(always)]
    pub(crate) fn stamp(&mut self, list: &mut Outbox)
        requires counted { AllPass is_item_counted list.old.items }
        ensures sent { (made : List (List ℕ)) → LogStands made self.old.log
            → list.new.items ≡ sent_of made list.old.items }
        ensures stands { (made : List (List ℕ)) → LogStands made self.old.log
            → LogStands (made ++ flat_map makes list.old.items) self.new.log }
        ensures few { length list.new.items ≡ length list.old.items }
        ensures room { list.new.room ≡ list.old.room }
        ensures pipes { self.new.bus ≡ self.old.bus }
        ensures drops { self.new.drops ≡ self.old.drops }
    {
        stamp_all(&mut self.log, list);
    }

    /// The packets that were dropped in the last frame.
    #[inline(always)]
    pub(crate) fn dropped(&self) -> &[Dropped]
        ensures { result.now ≡ self.now.drops.items }
    {
        self.drops.items()
    }

    /// Whether no packet was dropped in the last frame.
    #[inline(always)]
    pub(crate) fn dropped_nothing(&self) -> bool
        ensures { result ≡ (length self.now.drops.items == 0) }
    {
        self.drops.is_empty()
    }
}
