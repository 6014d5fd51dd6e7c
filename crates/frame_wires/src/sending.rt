//! The loops of a frame, over items, upsets, pipes and lines.

ghost use Rattle.std.specs.Prelude.{◌≡◌, ℕ, ◌+◌, ◌<◌, ◌≤◌, ◌++◌, true, false, OnErr, List, length, All, decimal};
ghost use Rattle.std.specs.List.{AllPass, flat_map, fold, list_any};
ghost use Rattle.fsw_outside.specs.Causes.{HasCause};
ghost use Rattle.bus_pipes.specs.Held.{adding};
ghost use Rattle.bus_pipes.specs.Counted.{is_item_counted};
ghost use Rattle.bus_pipes.specs.Pipes.{packets_in, depth_of};
ghost use Rattle.bus_pipes.specs.Delivery.{after_offers, drops_from};
ghost use Rattle.memory_window.specs.Regions.{is_mapped};
ghost use Rattle.memory_window.specs.Memory.{regions_of};
ghost use Rattle.packet_log.specs.Blocks.{Puts};
ghost use Rattle.packet_log.specs.Items.{item_line};
ghost use Rattle.packet_log.specs.Lines.{drop_line};
ghost use Rattle.packet_log.specs.Sent.{makes};
ghost use Rattle.packet_log.specs.Standing.{Stands as LogStands};
ghost use Rattle.frame_wires.specs.Sending.{taken, upset_by, sent_of, is_reset, packet_in, shown};

use bus_pipes::{Batch, Bus, Dropped, Drops, Out, Outbox, PipeName};
use fsw_outside::{Failed, Sink};
use memory_window::Ram;
use packet_log::{Block, LineBuffer, Log, head_of, write_drop, write_item};
use scenario::Upset;

/// Takes all packets of a pipe, unless its application is held.
pub fn take_unless(bus: &mut Bus, pipe: PipeName, held: bool, batch: &mut Batch)
    requires { depth_of pipe ≤ 32 }
    ensures pipes { bus.new ≡ taken pipe held bus.old }
    ensures taken { held ≡ false → batch.new ≡ packets_in pipe bus.old }
{
    if held {
        return;
    }
    bus.take_all(pipe, batch);
}

/// Writes the frame's upsets, in line order.
pub fn upset_all(ram: &mut Ram, upsets: &[Upset])
    requires { All (λ (u : Upset). is_mapped (regions_of ram.old.areas) u.at ≡ true) upsets.now }
    ensures { ram.new ≡ fold upset_by ram.old upsets.now }
{
    'upsets: for upset in upsets {
        ram.upset(upset.at, upset.value);
    }
}

/// Gives each item that the bench makes its sequence count, where it stands.
pub fn stamp_all(log: &mut Log, out: &mut Outbox)
    requires counted { AllPass is_item_counted out.old.items }
    ensures sent { (made : List (List ℕ)) → LogStands made log.old
        → out.new.items ≡ sent_of made out.old.items }
    ensures stands { (made : List (List ℕ)) → LogStands made log.old
        → LogStands (made ++ flat_map makes out.old.items) log.new }
    ensures few { length out.new.items ≡ length out.old.items }
    ensures room { out.new.room ≡ out.old.room }
{
    'items: for i in 0..out.len() {
        log.stamp_item(out.item_mut(i));
    }
}

/// Whether an item asks for a processor reset.
fn is_reset(item: &Out) -> bool
    ensures { result ≡ is_reset item.now }
{
    match item {
        Out::Reset => true,
        Out::Made(_) => false,
        Out::Stored(_) => false,
        Out::Restart(_) => false,
        Out::Delete(_) => false,
    }
}

/// Whether an item of a list asks for a processor reset.
pub fn has_reset(items: &[Out]) -> bool
    ensures { result ≡ list_any is_reset items.now }
{
    items.iter().any(|item| is_reset(item))
}

/// Offers the packet of an item to its pipe, if it is one.
fn deliver_one(bus: &mut Bus, item: &Out, drops: &mut Drops)
    requires { length drops.old.items + 1 ≤ drops.old.room }
    ensures after { bus.new ≡ after_offers bus.old (packet_in item.now) }
    ensures drops { drops.new ≡ adding drops.old (drops_from bus.old (packet_in item.now)) }
    ensures few { length drops.new.items ≤ length drops.old.items + 1 }
    ensures room { drops.new.room ≡ drops.old.room }
{
    match item {
        Out::Made(packet) => bus.route(packet, drops),
        Out::Stored(packet) => bus.route(packet, drops),
        Out::Reset => {}
        Out::Restart(_) => {}
        Out::Delete(_) => {}
    }
}

/// Offers the packets of items that were sent to their pipes, in order.
fn deliver_items(bus: &mut Bus, items: &[Out], drops: &mut Drops)
    requires { length drops.old.items + length items.now ≤ drops.old.room }
    ensures after { bus.new ≡ after_offers bus.old (flat_map packet_in items.now) }
    ensures drops { drops.new ≡ adding drops.old
        (drops_from bus.old (flat_map packet_in items.now)) }
    ensures few { length drops.new.items ≤ length drops.old.items + length items.now }
    ensures room { drops.new.room ≡ drops.old.room }
{
    'items: for item in items {
        deliver_one(bus, item, drops);
    }
}

/// Offers the packets of lists of items that were sent to their pipes, one list after another.
pub fn deliver_lists(bus: &mut Bus, lists: &[&[Out]], drops: &mut Drops)
    requires { length drops.old.items + length (shown lists.now) ≤ drops.old.room }
    ensures after { bus.new ≡ after_offers bus.old (flat_map packet_in (shown lists.now)) }
    ensures drops { drops.new ≡ adding drops.old
        (drops_from bus.old (flat_map packet_in (shown lists.now))) }
    ensures room { drops.new.room ≡ drops.old.room }
{
    'lists: for list in lists {
        deliver_items(bus, list, drops);
    }
}

/// Puts the lines of items that were sent behind those that wait. `head` is the frame's number in decimal.
fn put_items<O: Sink>(
    block: &mut Block,
    sink: &mut O,
    line: &mut LineBuffer,
    head: &[u8],
    items: &[Out],
) -> Result<(), Failed>
    requires { length head.now ≤ 40 }
    ensures puts { (frame : ℕ) → head.now ≡ decimal frame
        → Puts result (flat_map (item_line frame) items.now) block.old block.new (O.held sink.old)
        (O.held sink.new) }
    ensures left { OnErr result (0 < length block.new.bytes) }
    ensures cause { HasCause (O.held sink.new) (O.faults sink.old) (O.faults sink.new) result }
{
    'items: for item in items {
        write_item(line, head, item);
        let Ok(()) = block.write(sink, line.bytes()) else {
            return Err(Failed);
        };
    }
    Ok(())
}

/// Puts the lines of lists of items that were sent behind those that wait, one list after another.
fn put_lists<O: Sink>(
    block: &mut Block,
    sink: &mut O,
    line: &mut LineBuffer,
    head: &[u8],
    lists: &[&[Out]],
) -> Result<(), Failed>
    requires { length head.now ≤ 40 }
    ensures puts { (frame : ℕ) → head.now ≡ decimal frame
        → Puts result (flat_map (item_line frame) (shown lists.now)) block.old block.new
        (O.held sink.old) (O.held sink.new) }
    ensures left { OnErr result (0 < length block.new.bytes) }
    ensures cause { HasCause (O.held sink.new) (O.faults sink.old) (O.faults sink.new) result }
{
    'lists: for list in lists {
        let Ok(()) = put_items(block, sink, line, head, list) else {
            return Err(Failed);
        };
    }
    Ok(())
}

/// Puts the lines of packets that were dropped behind those that wait. `head` is the frame's number in decimal.
fn put_drops<O: Sink>(
    block: &mut Block,
    sink: &mut O,
    line: &mut LineBuffer,
    head: &[u8],
    drops: &[Dropped],
) -> Result<(), Failed>
    requires { length head.now ≤ 40 }
    ensures puts { (frame : ℕ) → head.now ≡ decimal frame
        → Puts result (flat_map (drop_line frame) drops.now) block.old block.new (O.held sink.old)
        (O.held sink.new) }
    ensures left { OnErr result (0 < length block.new.bytes) }
    ensures cause { HasCause (O.held sink.new) (O.faults sink.old) (O.faults sink.new) result }
{
    'drops: for lost in drops {
        write_drop(line, head, lost);
        let Ok(()) = block.write(sink, line.bytes()) else {
            return Err(Failed);
        };
    }
    Ok(())
}

/// Puts the lines of a frame behind those that wait: of what the applications sent, in their order, and of what was dropped. Each
/// is written into `line` first, whatever stood there.
pub fn put_frame<O: Sink>(
    block: &mut Block,
    sink: &mut O,
    line: &mut LineBuffer,
    number: u32,
    lists: &[&[Out]],
    drops: &[Dropped],
) -> Result<(), Failed>
    ensures puts { Puts result (flat_map (item_line number) (shown lists.now)
        ++ flat_map (drop_line number) drops.now) block.old block.new (O.held sink.old)
        (O.held sink.new) }
    ensures left { OnErr result (0 < length block.new.bytes) }
    ensures cause { HasCause (O.held sink.new) (O.faults sink.old) (O.faults sink.new) result }
{
    let head = head_of(number);
    let Ok(()) = put_lists(block, sink, line, head.bytes(), lists) else {
        return Err(Failed);
    };
    put_drops(block, sink, line, head.bytes(), drops)
}
