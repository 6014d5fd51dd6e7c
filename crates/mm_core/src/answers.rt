//! What a command is answered with before its event.
ghost use Rattle.std.specs.Prelude.{◌≡◌, ◌+◌, ◌<◌, ◌≤◌, ◌^◌, [], ◌∷◌, length, take, drop, true};
ghost use Rattle.std.specs.List.{AllPass};
ghost use Rattle.bus_pipes.specs.Held.{adding};
ghost use Rattle.bus_pipes.specs.Counted.{is_item_counted};
ghost use Rattle.bus_pipes.specs.declared.names.Out.TheVariants as outs;
ghost use Rattle.memory_window.specs.Window.{seen};
ghost use Rattle.memory_window.specs.Operations.{is_size};
ghost use Rattle.mm_core.specs.Reading.{value_at, range_at};
ghost use Rattle.mm_core.specs.Instructions.{is_dump_len, is_sized};
ghost use Rattle.mm_core.specs.Answers.{peek_packet, read_items, dump_packet, dump_items, range_items, replies_to};

use crate::instructions::Instruction;
use crate::reading::{range_at, value_at};
use bus_pipes::{Out, Outbox, push_telemetry};
use memory_window::Window;
use packet_forms::message_ids::{MM_DUMP, MM_PEEK};
use packet_forms::{ByteList, Packet, behind, front, telemetry};

/// How many bytes a part of a dump has, but for the last one.
const PART_BYTES: usize = 128;

/// The payload of a dump packet: an address, a number of bytes, and these.
type Payload = ByteList<134>;

/// Puts the packets of an accepted command behind the items.
#[tactic(auto, using(bus_pipes::proofs::Deliveries::adding_none), unfolding(bus_pipes::specs::Held::adding))]
pub(crate) fn reply(window: Window<'_>, instruction: &Instruction, now: u32, out: &mut Outbox)
    requires sized { is_sized instruction.now ≡ true }
    requires room { length out.old.items + 16 ≤ out.old.room }
    ensures items { out.new ≡ adding out.old (replies_to now (seen window.entry) instruction.now) }
    ensures counted { AllPass is_item_counted out.old.items
        → AllPass is_item_counted out.new.items }
    ensures few { length out.new.items ≤ length out.old.items + 16 }
    ensures room { out.new.room ≡ out.old.room }
{
    match instruction {
        Instruction::Plain => {}
        Instruction::Peek { size, at } => reply_read(window, *size, *at, now, out),
        Instruction::Poke { .. } => {}
        Instruction::Load { .. } => {}
        Instruction::LoadFile { .. } => {}
        Instruction::Fill { .. } => {}
        Instruction::Protect { .. } => {}
        Instruction::Dump { at, len } => reply_range(window, *at, *len, now, out),
    }
}

/// Puts the packet of a read behind the items, where it meets no fault.
#[tactic(auto, using(bus_pipes::proofs::Deliveries::adding_none, commands::proofs::Heard::one_more_counted), unfolding(bus_pipes::specs::Held::adding))]
fn reply_read(window: Window<'_>, size: u8, at: u32, now: u32, out: &mut Outbox)
    requires sized { is_size size ≡ true }
    requires room { length out.old.items + 16 ≤ out.old.room }
    ensures items { out.new ≡ adding out.old (read_items now size at
        (value_at (seen window.entry) size at)) }
    ensures counted { AllPass is_item_counted out.old.items
        → AllPass is_item_counted out.new.items }
    ensures few { length out.new.items ≤ length out.old.items + 16 }
    ensures room { out.new.room ≡ out.old.room }
{
    let Ok(value) = value_at(window, size, at) else {
        return;
    };
    push_peek(size, at, value, now, out);
}

/// Puts the packets of a range behind the items, where it meets no fault.
#[tactic(auto, using(bus_pipes::proofs::Deliveries::adding_none), unfolding(bus_pipes::specs::Held::adding))]
fn reply_range(window: Window<'_>, at: u32, len: u32, now: u32, out: &mut Outbox)
    requires sized { is_dump_len len ≡ true }
    requires room { length out.old.items + 16 ≤ out.old.room }
    ensures items { out.new ≡ adding out.old (range_items now at
        (range_at (seen window.entry) at len)) }
    ensures counted { AllPass is_item_counted out.old.items
        → AllPass is_item_counted out.new.items }
    ensures few { length out.new.items ≤ length out.old.items + 16 }
    ensures room { out.new.room ≡ out.old.room }
{
    let Ok(bytes) = range_at(window, at, len) else {
        return;
    };
    dump(bytes, at, now, out);
}

/// Puts the packets of a dump behind the items: parts of 128 bytes from its start, the last one shorter.
fn dump(bytes: &[u8], at: u32, now: u32, out: &mut Outbox)
    requires most { length bytes.now ≤ 2048 }
    requires ends { at + length bytes.now ≤ 2 ^ 32 }
    requires room { length out.old.items + 16 ≤ out.old.room }
    ensures items { out.new ≡ adding out.old (dump_items now at bytes.now) }
    ensures counted { AllPass is_item_counted out.old.items
        → AllPass is_item_counted out.new.items }
    ensures few { length out.new.items ≤ length out.old.items + 16 }
    ensures room { out.new.room ≡ out.old.room }
{
    for k in 0..(bytes.len() + (PART_BYTES - 1)) / PART_BYTES {
        let from = k * PART_BYTES;
        let part = part_from(bytes, from);
        out.push(Out::Made(dump_packet(part, at + from as u32, now)));
    }
}

/// The part of a dump that begins in a place.
fn part_from(bytes: &[u8], from: usize) -> &[u8]
    ensures part { result.now ≡ take PART_BYTES (drop from bytes.now) }
    ensures few { length result.now ≤ PART_BYTES }
{
    front(behind(bytes, from), PART_BYTES)
}

/// Puts the packet with the value that a peek read behind the items.
#[tactic(auto, unfolding(crate::specs::Answers::peek_packet, packet_forms::specs::Numbers::be32_bytes, bus_pipes::specs::Counted::is_counted))]
fn push_peek(size: u8, at: u32, value: u32, now: u32, out: &mut Outbox)
    requires room { length out.old.items < out.old.room }
    ensures items { out.new ≡ adding out.old (outs.Made (peek_packet now size at value) ∷ []) }
    ensures counted { is_item_counted (outs.Made (peek_packet now size at value)) ≡ true }
    ensures few { length out.new.items ≡ length out.old.items + 1 }
    ensures room { out.new.room ≡ out.old.room }
{
    let [a, b, c, d] = at.to_be_bytes();
    let [e, f, g, h] = value.to_be_bytes();
    push_telemetry(out, MM_PEEK, now, &[size, a, b, c, d, e, f, g, h]);
}

/// The packet with a part of a dump.
#[tactic(auto, unfolding(crate::specs::Answers::dump_packet, packet_forms::specs::Numbers::be16_bytes, packet_forms::specs::Numbers::be32_bytes, bus_pipes::specs::Counted::is_counted))]
fn dump_packet(part: &[u8], at: u32, now: u32) -> Packet
    requires { length part.now ≤ PART_BYTES }
    ensures packet { result ≡ dump_packet now at part.now }
    ensures counted { is_item_counted (outs.Made result) ≡ true }
{
    let mut payload = Payload::new();
    payload.append(&at.to_be_bytes());
    payload.append(&(part.len() as u16).to_be_bytes());
    payload.append(part);
    telemetry(MM_DUMP, now, payload.bytes())
}
