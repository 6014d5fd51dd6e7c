//! The telemetry that LC takes in a wakeup, over that of the wakeup before.

ghost use Rattle.std.specs.Prelude.{◌≡◌, ◌<◌, ◌≤◌, ◌+◌, [], ◌∷◌, ◌++◌, length};
ghost use Rattle.circular_buffer.specs.Buffer.{buffer};
ghost use Rattle.bus_pipes.specs.Held.{adding};

use crate::names::Telemetry;
use circular_buffer::HeapCircularBuffer;
use packet_forms::Packet;

/// Takes all packets of a ring into an empty list.
pub(crate) fn fill(telemetry: &mut Telemetry, ring: &mut HeapCircularBuffer<Packet>)
    requires empty { telemetry.old.items ≡ [] }
    requires room { ring.old.capacity ≤ telemetry.old.room }
    ensures taken { telemetry.new.items ≡ ring.old.items }
    ensures few { length telemetry.new.items ≤ ring.old.capacity }
    ensures room { telemetry.new.room ≡ telemetry.old.room }
    ensures left { ring.new ≡ buffer [] ring.old.capacity }
{
    let few = ring.len();
    prove!(few <= ring.capacity());
    let (front, back) = ring.as_slices();
    push_all(telemetry, front);
    push_all(telemetry, back);
    ring.clear();
}

/// Puts packets behind the others.
fn push_all(telemetry: &mut Telemetry, packets: &[Packet])
    requires { length telemetry.old.items + length packets.now ≤ telemetry.old.room }
    ensures items { telemetry.new.items ≡ telemetry.old.items ++ packets.now }
    ensures room { telemetry.new.room ≡ telemetry.old.room }
{
    for packet in packets {
        push_copy(telemetry, packet);
    }
}

/// Puts a packet behind the others. Only its bytes are copied where a place lies there, since most are short.
fn push_copy(telemetry: &mut Telemetry, packet: &Packet)
    requires { length telemetry.old.items < telemetry.old.room }
    ensures after { telemetry.new ≡ adding telemetry.old (packet.now ∷ []) }
    ensures size { length telemetry.new.items ≡ length telemetry.old.items + 1 }
    ensures room { telemetry.new.room ≡ telemetry.old.room }
{
    if telemetry.count == telemetry.places.len() {
        telemetry.push(*packet);
        return;
    }
    telemetry.places[telemetry.count].copy_from(packet);
    telemetry.count += 1;
}
