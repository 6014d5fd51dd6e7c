//! The pipes of the bus, and the routes to them: six pipes, and two more where LC is there.

ghost use Rattle.std.specs.Prelude.{◌≡◌, ◌<◌, ◌≤◌, ◌+◌, ◌==◌, [], drop, length, slice_get, IfOk, IfSome, true, false};
ghost use Rattle.bus_pipes.specs.Pipes.{empty_pipes, emptied_pipes, packets_in, with_packets, depth_of, pipe_of, is_there, offered};
ghost use Rattle.bus_pipes.specs.Held.{adding};
ghost use Rattle.bus_pipes.specs.declared.names.PipeName.{PipeName};
ghost use Rattle.bus_pipes.specs.Delivery.{pipe_in, after_offer_to, after_offer, drop_of, after_offers, drops_from};

use crate::batch::Batch;
use crate::made::push_drop;
use crate::names::{Drops, EVENT_PIPE_DEPTH, Offer, PIPE_DEPTH, PipeName, Telemetry};
use crate::pipe::Pipe;
use crate::watch::{self, WatchPipes, watched_pipe_of};
use fsw_outside::NoMemory;
use packet_forms::Packet;
use packet_forms::message_ids::{
    CS_COMMAND, CS_REQUEST, EVENT, HS_COMMAND, HS_REQUEST, MD_COMMAND, MD_REQUEST, MM_COMMAND,
    MM_REQUEST, SC_COMMAND, SC_REQUEST,
};
use std::alloc::Global;
use std::marker::Model;

/// The pipes, seen as the packets of each.
#[derive(Drop)]
pub struct Bus {
    hs: Pipe,
    hs_ev: Pipe,
    cs: Pipe,
    sc: Pipe,
    mm: Pipe,
    md: Pipe,
    watch: Option<WatchPipes>,
}

impl Model for Bus {
    ghost use Rattle.std.specs.Prelude.{is_some};
    ghost use Rattle.bus_pipes.specs.Pipes.{Pipes, AreSized};
    ghost use Rattle.bus_pipes.specs.Watch.{commands_of, telemetry_of, IsWatchSized};

    ghost Value = { Pipes };

    ghost view = { λ a. record {
      watched = is_some a.watch;
      hs = a.hs.packets;
      hs_ev = a.hs_ev.packets;
      cs = a.cs.packets;
      sc = a.sc.packets;
      mm = a.mm.packets;
      md = a.md.packets;
      lc = commands_of a.watch;
      lc_tlm = telemetry_of a.watch;
    } };

    ghost invariant = { λ a. AreSized a.hs a.hs_ev a.cs a.sc a.mm a.md × IsWatchSized a.watch };
}

impl Bus {
    /// Empty pipes: the two of LC are there where it is.
    pub fn open(alloc: Global, lc: bool) -> Result<Bus, NoMemory>
        ensures { IfOk result (λ bus. bus ≡ empty_pipes lc) }
    {
        let hs = Pipe::open(alloc, PIPE_DEPTH, PIPE_DEPTH)?;
        let hs_ev = Pipe::open(alloc, EVENT_PIPE_DEPTH, EVENT_PIPE_DEPTH)?;
        let cs = Pipe::open(alloc, PIPE_DEPTH, PIPE_DEPTH)?;
        let sc = Pipe::open(alloc, PIPE_DEPTH, PIPE_DEPTH)?;
        let mm = Pipe::open(alloc, PIPE_DEPTH, PIPE_DEPTH)?;
        let md = Pipe::open(alloc, PIPE_DEPTH, PIPE_DEPTH)?;
        let watch = WatchPipes::open(alloc, lc)?;
        Ok(Bus {
            hs,
            hs_ev,
            cs,
            sc,
            mm,
            md,
            watch,
        })
    }

    /// Whether the pipes of LC are there; they hold nothing where they aren't.
    #[inline(always)]
    pub fn is_watched(&self) -> bool
        ensures watched { result ≡ self.now.watched }
        ensures none { result ≡ false → (self.now.lc ≡ []) × (self.now.lc_tlm ≡ []) }
    {
        self.watch.is_some()
    }

    /// Offers a packet to the pipe of its id, if there is one. A packet that the pipe refuses is appended to `drops`.
    pub fn route(&mut self, packet: &Packet, drops: &mut Drops)
        requires { length drops.old.items < drops.old.room }
        ensures after { self.new ≡ after_offer self.old packet.now }
        ensures drops { drops.new ≡ adding drops.old (drop_of self.old packet.now) }
        ensures few { length drops.new.items ≤ length drops.old.items + 1 }
        ensures room { drops.new.room ≡ drops.old.room }
    {
        let Some(pipe) = pipe_of(self.is_watched(), packet.mid()) else {
            return;
        };
        match self.offer(pipe, packet) {
            Offer::Kept => {}
            Offer::Limit => push_drop(drops, pipe, false, packet),
            Offer::Full => push_drop(drops, pipe, true, packet),
        }
    }

    /// Takes the first packet of a pipe, or None where it is empty.
    pub fn take(&mut self, pipe: PipeName) -> Option<Packet>
        ensures first { result ≡ slice_get (packets_in pipe self.old) 0 }
        ensures after { self.new ≡ with_packets pipe (drop 1 (packets_in pipe self.old)) self.old }
    {
        match pipe {
            PipeName::Hs => self.hs.take(),
            PipeName::HsEv => self.hs_ev.take(),
            PipeName::Cs => self.cs.take(),
            PipeName::Sc => self.sc.take(),
            PipeName::Mm => self.mm.take(),
            PipeName::Md => self.md.take(),
            PipeName::Lc => watch::take_command(&mut self.watch),
            PipeName::LcTlm => watch::take_first_telemetry(&mut self.watch),
        }
    }

    /// Whether a pipe holds no packet.
    pub fn is_empty(&self, pipe: PipeName) -> bool
        ensures { result ≡ (length (packets_in pipe self.now) == 0) }
    {
        match pipe {
            PipeName::Hs => self.hs.is_empty(),
            PipeName::HsEv => self.hs_ev.is_empty(),
            PipeName::Cs => self.cs.is_empty(),
            PipeName::Sc => self.sc.is_empty(),
            PipeName::Mm => self.mm.is_empty(),
            PipeName::Md => self.md.is_empty(),
            PipeName::Lc => watch::holds_no_command(&self.watch),
            PipeName::LcTlm => watch::holds_no_telemetry(&self.watch),
        }
    }

    /// Empties every pipe: the bus is as one that was opened.
    pub fn clear(&mut self)
        ensures { self.new ≡ emptied_pipes self.old }
    {
        self.hs.clear();
        self.hs_ev.clear();
        self.cs.clear();
        self.sc.clear();
        self.mm.clear();
        self.md.clear();
        watch::clear(&mut self.watch);
    }

    /// Takes all packets of a pipe, of any but the one of telemetry.
    pub fn take_all(&mut self, pipe: PipeName, batch: &mut Batch)
        requires { depth_of pipe ≤ 32 }
        ensures taken { batch.new ≡ packets_in pipe self.old }
        ensures few { length batch.new ≤ depth_of pipe }
        ensures after { self.new ≡ with_packets pipe [] self.old }
    {
        match pipe {
            PipeName::Hs => self.hs.take_all(batch),
            PipeName::HsEv => self.hs_ev.take_all(batch),
            PipeName::Cs => self.cs.take_all(batch),
            PipeName::Sc => self.sc.take_all(batch),
            PipeName::Mm => self.mm.take_all(batch),
            PipeName::Md => self.md.take_all(batch),
            PipeName::Lc => watch::take_commands(&mut self.watch, batch),
            PipeName::LcTlm => batch.clear(),
        }
    }

    /// Takes the telemetry that LC watches: none where LC isn't there.
    pub fn take_telemetry(&mut self, telemetry: &mut Telemetry)
        requires { depth_of PipeName.LcTlm ≤ telemetry.old.room }
        ensures taken { telemetry.new.items ≡ self.old.lc_tlm }
        ensures few { length telemetry.new.items ≤ depth_of PipeName.LcTlm }
        ensures room { telemetry.new.room ≡ telemetry.old.room }
        ensures after { self.new ≡ with_packets PipeName.LcTlm [] self.old }
    {
        watch::take_telemetry(&mut self.watch, telemetry);
    }

    /// Routes packets in their order.
    pub fn deliver(&mut self, packets: &[Packet], drops: &mut Drops)
        requires { length drops.old.items + length packets.now ≤ drops.old.room }
        ensures after { self.new ≡ after_offers self.old packets.now }
        ensures drops { drops.new ≡ adding drops.old (drops_from self.old packets.now) }
        ensures few { length drops.new.items ≤ length drops.old.items + length packets.now }
        ensures room { drops.new.room ≡ drops.old.room }
    {
        for packet in packets {
            self.route(packet, drops);
        }
    }

    /// Offers a packet to a pipe that is there.
    #[tactic(auto, unfolding(crate::specs::Delivery::after_offer_to))]
    fn offer(&mut self, pipe: PipeName, packet: &Packet) -> Offer
        requires { is_there pipe self.old.watched ≡ true }
        ensures answer { result ≡ offered (pipe_in pipe self.old) packet.now }
        ensures after { self.new ≡ after_offer_to pipe self.old packet.now }
    {
        match pipe {
            PipeName::Hs => self.hs.offer(packet),
            PipeName::HsEv => self.hs_ev.offer(packet),
            PipeName::Cs => self.cs.offer(packet),
            PipeName::Sc => self.sc.offer(packet),
            PipeName::Mm => self.mm.offer(packet),
            PipeName::Md => self.md.offer(packet),
            PipeName::Lc => watch::offer_command(&mut self.watch, packet),
            PipeName::LcTlm => watch::offer_telemetry(&mut self.watch, packet),
        }
    }
}

/// The pipe to which packets of an id go, if any.
#[tactic(auto, unfolding(crate::specs::Pipes::pipe_of))]
fn pipe_of(watched: bool, id: u16) -> Option<PipeName>
    ensures pipe { result ≡ pipe_of watched id }
    ensures there { IfSome result (λ pipe. is_there pipe watched ≡ true) }
{
    match id {
        HS_COMMAND | HS_REQUEST => Some(PipeName::Hs),
        EVENT => Some(PipeName::HsEv),
        CS_COMMAND | CS_REQUEST => Some(PipeName::Cs),
        SC_COMMAND | SC_REQUEST => Some(PipeName::Sc),
        MM_COMMAND | MM_REQUEST => Some(PipeName::Mm),
        MD_COMMAND | MD_REQUEST => Some(PipeName::Md),
        _ => { if watched { watched_pipe_of(id) } else { None } }
    }
}
