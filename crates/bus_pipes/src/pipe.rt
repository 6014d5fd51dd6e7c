//! A bounded pipe of packets.

ghost use Rattle.std.specs.Prelude.{◌≡◌, ◌<◌, ◌≤◌, ◌+◌, ◌==◌, if◌then◌else◌, [], drop, length, nat_le, slice_get, IfOk};
ghost use Rattle.bus_pipes.specs.Pipes.{offered, held_after, count_of_id};

use crate::batch::Batch;
use crate::names::{Offer, Telemetry};
use crate::telemetry::fill;
use circular_buffer::HeapCircularBuffer;
use fsw_outside::NoMemory;
use packet_forms::Packet;
use std::alloc::Global;
use std::marker::Model;

/// A pipe that holds at most `depth` packets, and at most `limit` of one id.
#[derive(Drop)]
pub struct Pipe {
    packets: HeapCircularBuffer<Packet>,
    limit: u32,
}

impl Model for Pipe {
    ghost use Rattle.bus_pipes.specs.Pipes.{PipeState};

    ghost Value = { PipeState };

    ghost view = { λ a. record {
      packets = a.packets.items;
      depth = a.packets.capacity;
      limit = a.limit;
    } };
}

impl Pipe {
    /// An empty pipe. Depth and limit are from 1 to 1,024.
    pub fn open(alloc: Global, depth: u32, limit: u32) -> Result<Pipe, NoMemory>
        requires depth { (1 ≤ depth) × (depth ≤ 1024) }
        requires limit { (1 ≤ limit) × (limit ≤ 1024) }
        ensures { IfOk result (λ pipe. pipe
            ≡ record { packets = []; depth = depth; limit = limit }) }
    {
        match HeapCircularBuffer::with_capacity(alloc, depth as usize) {
            Ok(packets) => Ok(Pipe { packets, limit }),
            Err(_) => Err(NoMemory),
        }
    }

    /// Offers a packet: it is refused at the limit for its id, then at the depth, and is the last one otherwise.
    #[tactic(auto, unfolding(crate::specs::Pipes::offered))]
    pub fn offer(&mut self, packet: &Packet) -> Offer
        ensures answer { result ≡ offered self.old packet.now }
        ensures after { self.new ≡ record self.old
            { packets = held_after self.old.packets packet.now (offered self.old packet.now) } }
    {
        if self.is_at_limit(packet.mid()) {
            return Offer::Limit;
        }
        if self.packets.len() >= self.packets.capacity() {
            return Offer::Full;
        }
        self.packets.push_back(*packet);
        Offer::Kept
    }

    /// Whether the pipe holds no packet.
    pub fn is_empty(&self) -> bool
        ensures { result ≡ (length self.now.packets == 0) }
    {
        self.packets.is_empty()
    }

    /// Empties the pipe.
    pub fn clear(&mut self)
        ensures { self.new ≡ record self.old { packets = [] } }
    {
        self.packets.clear();
    }

    /// Takes the first packet, or None where the pipe is empty.
    pub fn take(&mut self) -> Option<Packet>
        ensures first { result ≡ slice_get self.old.packets 0 }
        ensures after { self.new ≡ record self.old { packets = drop 1 self.old.packets } }
    {
        self.packets.pop_front()
    }

    /// Takes all packets of a pipe that holds at most 32.
    pub fn take_all(&mut self, batch: &mut Batch)
        requires { self.old.depth ≤ 32 }
        ensures taken { batch.new ≡ self.old.packets }
        ensures few { length batch.new ≤ self.old.depth }
        ensures after { self.new ≡ record self.old { packets = [] } }
    {
        if self.packets.is_empty() {
            batch.clear();
            return;
        }
        batch.fill(&mut self.packets);
    }

    /// Takes all packets of a pipe into a list that has room for as many as it may hold.
    pub(crate) fn take_telemetry(&mut self, telemetry: &mut Telemetry)
        requires { self.old.depth ≤ telemetry.old.room }
        ensures taken { telemetry.new.items ≡ self.old.packets }
        ensures few { length telemetry.new.items ≤ self.old.depth }
        ensures room { telemetry.new.room ≡ telemetry.old.room }
        ensures after { self.new ≡ record self.old { packets = [] } }
    {
        telemetry.clear();
        if self.packets.is_empty() {
            return;
        }
        fill(telemetry, &mut self.packets);
    }

    /// Whether the pipe holds as many packets of an id as it may. They are counted only where it holds so many at all.
    fn is_at_limit(&self, id: u16) -> bool
        ensures { result ≡ nat_le self.now.limit (count_of_id id self.now.packets) }
    {
        if self.packets.len() < self.limit as usize {
            return false;
        }
        self.count(id) >= self.limit as usize
    }

    /// How many packets of an id the pipe holds.
    fn count(&self, id: u16) -> usize
        ensures { result ≡ count_of_id id self.now.packets }
    {
        let (front, back) = self.packets.as_slices();
        count_of_id(front, id) + count_of_id(back, id)
    }
}

/// How many of these packets have an id.
fn count_of_id(packets: &[Packet], id: u16) -> usize
    ensures count { result ≡ count_of_id id packets.now }
    ensures bound { result ≤ length packets.now }
{
    let mut count = 0;
    for packet in packets {
        count += one_where(packet.mid() == id);
    }
    count
}

#[inline(always)]
fn one_where(holds: bool) -> usize
    ensures value { result ≡ (if holds then 1 else 0) }
    ensures bound { result ≤ 1 }
{
    if holds { 1 } else { 0 }
}
