//! Lines of two logs that differ at most in the sequence counts of packets.

ghost use Rattle.std.specs.Prelude.{◌≡◌, ◌↔◌, IsTrue};
ghost use Rattle.packet_forms.specs.Built.{with_sequence};
ghost use Rattle.ground_differences.specs.Same.{uncounted_item, uncounted_drop, uncounted_items};

use bus_pipes::Dropped;
use log_lines::{LineItem, LogLine};
use packet_forms::Packet;

/// Whether packets differ at most in their sequence counts.
fn is_same_packet(one: &Packet, other: &Packet) -> bool
    ensures { IsTrue result ↔ with_sequence 0 one.now ≡ with_sequence 0 other.now }
{
    one.with_sequence(0).bytes() == other.with_sequence(0).bytes()
}

/// Whether dropped packets differ at most in their sequence counts.
fn is_same_drop(one: &Dropped, other: &Dropped) -> bool
    ensures { IsTrue result ↔ uncounted_drop one.now ≡ uncounted_drop other.now }
{
    one.pipe == other.pipe && one.full == other.full && is_same_packet(&one.packet, &other.packet)
}

/// Whether items differ at most in sequence counts.
fn is_same_item(one: &LineItem, other: &LineItem) -> bool
    ensures { IsTrue result ↔ uncounted_item one.now ≡ uncounted_item other.now }
{
    match (one, other) {
        (LineItem::Packet(one), LineItem::Packet(other)) => is_same_packet(one, other),
        (LineItem::Drop(one), LineItem::Drop(other)) => is_same_drop(one, other),
        (LineItem::Reset, LineItem::Reset) => true,
        (LineItem::Restart(one), LineItem::Restart(other)) => one.bytes() == other.bytes(),
        (LineItem::Delete(one), LineItem::Delete(other)) => one.bytes() == other.bytes(),
        _ => false,
    }
}

/// Whether lines of one frame differ at most in sequence counts.
pub fn is_same_line(one: &LogLine, other: &LogLine) -> bool
    ensures { IsTrue result ↔ uncounted_item one.now.item ≡ uncounted_item other.now.item }
{
    is_same_item(&one.item, &other.item)
}

/// Whether two frames have lines that differ at most in sequence counts.
pub fn is_same_frame(ones: &[LogLine], others: &[LogLine]) -> bool
    ensures { IsTrue result ↔ uncounted_items ones.now ≡ uncounted_items others.now }
{
    ones.len() == others.len()
        && ones
            .iter()
            .zip(others.iter())
            .all(|(one, other)| is_same_line(one, other))
}
