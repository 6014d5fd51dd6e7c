//! Items that are made where they lie, over those that lay there before.

ghost use Rattle.std.specs.Prelude.{◌≡◌, ◌≤◌, ◌<◌, ◌+◌, [], ◌∷◌, length};
ghost use Rattle.packet_forms.specs.Built.{telemetry_of, event_of, IsTelemetryOf};
ghost use Rattle.bus_pipes.specs.Held.{adding};
ghost use Rattle.bus_pipes.specs.declared.names.Out.TheVariants.{Made};

use crate::names::{Dropped, Drops, Out, Outbox, PipeName};
use packet_forms::{Name, Packet, TELEMETRY_PAYLOAD, event, telemetry};

/// Puts an event message of an application behind the items: `kind` is 2 for information and 3 for an error.
pub fn push_event(out: &mut Outbox, name: Name, id: u16, kind: u16, secs: u32)
    requires { length out.old.items < out.old.room }
    ensures after { out.new ≡ adding out.old (Made (event_of name id kind secs) ∷ []) }
    ensures size { length out.new.items ≡ length out.old.items + 1 }
    ensures room { out.new.room ≡ out.old.room }
{
    if out.count == out.places.len() {
        out.push(Out::Made(event(name, id, kind, secs)));
        return;
    }
    make_event(&mut out.places[out.count], name, id, kind, secs);
    out.count += 1;
}

/// Writes an event message into the place of an item.
fn make_event(item: &mut Out, name: Name, id: u16, kind: u16, secs: u32)
    ensures { item.new ≡ Made (event_of name id kind secs) }
{
    match item {
        Out::Made(packet) => packet.set_event(name, id, kind, secs),
        Out::Stored(_) => *item = Out::Made(event(name, id, kind, secs)),
        Out::Reset => *item = Out::Made(event(name, id, kind, secs)),
        Out::Restart(_) => *item = Out::Made(event(name, id, kind, secs)),
        Out::Delete(_) => *item = Out::Made(event(name, id, kind, secs)),
    }
}

/// Puts telemetry of at most 244 payload bytes behind the items: subseconds 0, sequence count 0.
pub fn push_telemetry(out: &mut Outbox, mid: u16, secs: u32, payload: &[u8])
    requires version { mid < 8192 }
    requires size { length payload.now ≤ TELEMETRY_PAYLOAD }
    requires place { length out.old.items < out.old.room }
    ensures after { out.new ≡ adding out.old (Made (telemetry_of mid secs payload.now) ∷ []) }
    ensures reads_back { IsTelemetryOf mid payload.now (telemetry_of mid secs payload.now) }
    ensures size { length out.new.items ≡ length out.old.items + 1 }
    ensures room { out.new.room ≡ out.old.room }
{
    if out.count == out.places.len() {
        out.push(Out::Made(telemetry(mid, secs, payload)));
        return;
    }
    make_telemetry(&mut out.places[out.count], mid, secs, payload);
    out.count += 1;
}

/// Writes a telemetry packet into the place of an item.
fn make_telemetry(item: &mut Out, mid: u16, secs: u32, payload: &[u8])
    requires version { mid < 8192 }
    requires size { length payload.now ≤ TELEMETRY_PAYLOAD }
    ensures { item.new ≡ Made (telemetry_of mid secs payload.now) }
{
    match item {
        Out::Made(packet) => packet.set_telemetry(mid, secs, payload),
        Out::Stored(_) => *item = Out::Made(telemetry(mid, secs, payload)),
        Out::Reset => *item = Out::Made(telemetry(mid, secs, payload)),
        Out::Restart(_) => *item = Out::Made(telemetry(mid, secs, payload)),
        Out::Delete(_) => *item = Out::Made(telemetry(mid, secs, payload)),
    }
}

/// Puts a packet that a pipe refused behind the others.
pub(crate) fn push_drop(drops: &mut Drops, pipe: PipeName, full: bool, packet: &Packet)
    requires { length drops.old.items < drops.old.room }
    ensures after { drops.new ≡ adding drops.old
        (record { pipe = pipe; full = full; packet = packet.now } ∷ []) }
    ensures size { length drops.new.items ≡ length drops.old.items + 1 }
    ensures room { drops.new.room ≡ drops.old.room }
{
    if drops.count == drops.places.len() {
        drops.push(Dropped {
            pipe,
            full,
            packet: *packet,
        });
        return;
    }
    make_drop(&mut drops.places[drops.count], pipe, full, packet);
    drops.count += 1;
}

/// Writes a packet that a pipe refused into a place of the list of drops.
fn make_drop(place: &mut Dropped, pipe: PipeName, full: bool, packet: &Packet)
    ensures { place.new ≡ record { pipe = pipe; full = full; packet = packet.now } }
{
    place.pipe = pipe;
    place.full = full;
    place.packet = *packet;
}
