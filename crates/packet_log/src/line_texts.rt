//! Lines of the log, each as a text of its own.

ghost use Rattle.std.specs.Prelude.{◌≡◌, ◌≤◌, ◌+◌, ◌*◌, ◌++◌, true, length, decimal};
ghost use Rattle.packet_forms.specs.Hex.{hex, hex_pair};
ghost use Rattle.packet_log.specs.Lines.{packet_line, drop_line};
ghost use Rattle.packet_log.specs.Items.{is_request, request_text, request_line};

use crate::lines::{cause_text, pipe_text};
use crate::summary::digit_text;
use arrayvec::ArrayString;
use bus_pipes::{Dropped, Out};
use itoa::Buffer;
use packet_forms::Packet;

/// A line with its end. The longest, that of a dropped packet of 256 bytes, has 540 bytes.
pub type Line = ArrayString<640>;

/// The line of a packet that was sent in a frame.
#[tactic(auto, unfolding(crate::specs::Lines::packet_line))]
pub fn line_of(frame: u32, packet: &Packet) -> Line
    ensures { result.bytes ≡ packet_line frame packet.now }
{
    let mut line = line_in(frame);
    line.push_str(" pkt ");
    push_bytes(&mut line, packet.bytes());
    line.push_str("\n");
    line
}

/// The line of a request that was made in a frame.
#[tactic(auto, unfolding(crate::specs::Items::request_line))]
pub fn request_line(frame: u32, item: &Out) -> Line
    requires { is_request item.now ≡ true }
    ensures { result.bytes ≡ request_line frame item.now }
{
    let mut line = line_in(frame);
    push_request(&mut line, item);
    line.push_str("\n");
    line
}

/// The line of a packet that was dropped in a frame.
#[tactic(auto, unfolding(crate::specs::Lines::drop_line))]
pub fn drop_line(frame: u32, lost: &Dropped) -> Line
    ensures { result.bytes ≡ drop_line frame lost.now }
{
    let mut line = line_in(frame);
    line.push_str(" drop ");
    line.push_str(pipe_text(lost.pipe));
    line.push_str(cause_text(lost.full));
    push_bytes(&mut line, lost.packet.bytes());
    line.push_str("\n");
    line
}

/// A line that has the frame's number alone.
fn line_in(frame: u32) -> Line
    ensures value { result.bytes ≡ decimal frame }
    ensures short { length result.bytes ≤ 40 }
{
    let mut line = Line::new();
    let mut buffer = Buffer::new();
    line.push_str(buffer.format(frame));
    line
}

/// Appends what a line says of a request.
#[tactic(auto, unfolding(packet_forms::specs::Names::is_name_text))]
fn push_request(line: &mut Line, item: &Out)
    requires { length line.old.bytes ≤ 40 }
    ensures value { line.new.bytes ≡ line.old.bytes ++ request_text item.now }
    ensures short { length line.new.bytes ≤ 80 }
{
    match item {
        Out::Made(_) => {}
        Out::Stored(_) => {}
        Out::Reset => line.push_str(" reset"),
        Out::Restart(name) => {
            line.push_str(" restart ");
            line.push_str(name.text());
        }
        Out::Delete(name) => {
            line.push_str(" delete ");
            line.push_str(name.text());
        }
    }
}

/// Appends bytes in hexadecimal digits.
fn push_bytes(line: &mut Line, bytes: &[u8])
    requires { length line.old.bytes + 2 * length bytes.now ≤ 639 }
    ensures value { line.new.bytes ≡ line.old.bytes ++ hex bytes.now }
    ensures size { length line.new.bytes ≡ length line.old.bytes + 2 * length bytes.now }
{
    'bytes: for byte in bytes {
        push_byte(line, *byte);
    }
}

/// Appends the two hexadecimal digits of a byte.
fn push_byte(line: &mut Line, byte: u8)
    requires { length line.old.bytes ≤ 638 }
    ensures value { line.new.bytes ≡ line.old.bytes ++ hex_pair byte }
    ensures size { length line.new.bytes ≡ length line.old.bytes + 2 }
{
    line.push_str(digit_text(byte / 16));
    line.push_str(digit_text(byte % 16));
}
