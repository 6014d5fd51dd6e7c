//! Lines of the log, each written into one buffer in turn.

ghost use Rattle.std.specs.Prelude.{◌≡◌, ◌≤◌, ◌+◌, ◌*◌, ◌++◌, [], ℕ, true, length, decimal};
ghost use Rattle.packet_forms.specs.Hex.{hex};
ghost use Rattle.packet_log.specs.Lines.{packet_line, drop_line, pipe_text, cause_text};
ghost use Rattle.packet_log.specs.Items.{is_request, request_text, request_line, item_line};

use bus_pipes::{Dropped, Out, PipeName};
use itoa::Buffer;
use packet_forms::{ByteList, Packet, place, place_hex};
use std::marker::Model;

/// The digits of a frame's number, with which each of its lines begins.
pub type Head = ByteList<HEAD_BYTES>;

/// The most bytes of a number in a line.
pub const HEAD_BYTES: usize = 40;

/// The longest line is that of a dropped packet of 256 bytes, below 640 bytes.
const LINE_BYTES: usize = 640;

/// What holds a line, seen as the line's bytes. It is made once and written again and again.
#[derive(Drop)]
pub struct LineBuffer {
    len: usize,
    places: [u8; LINE_BYTES],
}

impl Model for LineBuffer {
    ghost use Rattle.std.specs.Prelude.{◌≡◌, ◌≤◌, List, ℕ, length, take};
    ghost use Rattle.packet_log.specs.declared.lines.TheConstants.{LINE_BYTES};

    ghost Value = { List ℕ };

    ghost view = { λ a. take a.len a.places };

    ghost invariant = { λ a. (a.len ≤ LINE_BYTES) × (length a.places ≡ LINE_BYTES) };
}

impl LineBuffer {
    /// An empty line.
    pub fn new() -> LineBuffer
        ensures { result ≡ [] }
    {
        LineBuffer {
            len: 0,
            places: [0; LINE_BYTES],
        }
    }

    /// The bytes of the line.
    pub fn bytes(&self) -> &[u8]
        ensures value { result.now ≡ self.now }
        ensures few { length result.now ≤ 640 }
    {
        &self.places[..self.len]
    }

    fn clear(&mut self)
        ensures { self.new ≡ [] }
    {
        self.len = 0;
    }

    #[inline(always)]
    fn append(&mut self, piece: &[u8])
        requires { length self.old + length piece.now ≤ LINE_BYTES }
        ensures { self.new ≡ self.old ++ piece.now }
    {
        place(&mut self.places, self.len, piece);
        self.len += piece.len();
    }

    /// Appends the bytes in hexadecimal digits.
    fn append_hex(&mut self, bytes: &[u8])
        requires { length self.old + 2 * length bytes.now ≤ LINE_BYTES }
        ensures value { self.new ≡ self.old ++ hex bytes.now }
        ensures size { length self.new ≡ length self.old + 2 * length bytes.now }
    {
        place_hex(&mut self.places, self.len, bytes);
        self.len += 2 * bytes.len();
    }
}

/// The digits of a frame's number.
pub fn head_of(frame: u32) -> Head
    ensures { result ≡ decimal frame }
{
    let mut buffer = Buffer::new();
    Head::copy_of(buffer.format(frame).as_bytes())
}

/// Makes the line that of an item: of its packet, or of its request. `head` is what `head_of` gives of the frame's number.
pub fn write_item(line: &mut LineBuffer, head: &[u8], item: &Out)
    requires { length head.now ≤ HEAD_BYTES }
    ensures { (frame : ℕ) → head.now ≡ decimal frame → line.new ≡ item_line frame item.now }
{
    match item {
        Out::Made(packet) => write_packet(line, head, packet),
        Out::Stored(packet) => write_packet(line, head, packet),
        Out::Reset => write_request(line, head, item),
        Out::Restart(_) => write_request(line, head, item),
        Out::Delete(_) => write_request(line, head, item),
    }
}

/// Makes the line that of a packet that was dropped. `head` is what `head_of` gives of the frame's number.
#[tactic(auto, unfolding(crate::specs::Lines::drop_line))]
pub fn write_drop(line: &mut LineBuffer, head: &[u8], lost: &Dropped)
    requires { length head.now ≤ HEAD_BYTES }
    ensures { (frame : ℕ) → head.now ≡ decimal frame → line.new ≡ drop_line frame lost.now }
{
    line.clear();
    line.append(head);
    line.append(" drop ".as_bytes());
    line.append(pipe_text(lost.pipe).as_bytes());
    line.append(cause_text(lost.full).as_bytes());
    line.append_hex(lost.packet.bytes());
    line.append("\n".as_bytes());
}

/// Makes the line that of a packet that was sent.
#[tactic(auto, unfolding(crate::specs::Lines::packet_line))]
fn write_packet(line: &mut LineBuffer, head: &[u8], packet: &Packet)
    requires { length head.now ≤ HEAD_BYTES }
    ensures { (frame : ℕ) → head.now ≡ decimal frame → line.new ≡ packet_line frame packet.now }
{
    line.clear();
    line.append(head);
    line.append(" pkt ".as_bytes());
    line.append_hex(packet.bytes());
    line.append("\n".as_bytes());
}

/// Makes the line that of a request.
#[tactic(auto, unfolding(crate::specs::Items::request_line))]
fn write_request(line: &mut LineBuffer, head: &[u8], item: &Out)
    requires short { length head.now ≤ HEAD_BYTES }
    requires request { is_request item.now ≡ true }
    ensures { (frame : ℕ) → head.now ≡ decimal frame → line.new ≡ request_line frame item.now }
{
    line.clear();
    line.append(head);
    append_request(line, item);
    line.append("\n".as_bytes());
}

/// Appends what a line says of a request.
#[tactic(auto, unfolding(packet_forms::specs::Names::is_name_text))]
fn append_request(line: &mut LineBuffer, item: &Out)
    requires { length line.old ≤ HEAD_BYTES }
    ensures value { line.new ≡ line.old ++ request_text item.now }
    ensures short { length line.new ≤ 80 }
{
    match item {
        Out::Made(_) => {}
        Out::Stored(_) => {}
        Out::Reset => line.append(" reset".as_bytes()),
        Out::Restart(name) => {
            line.append(" restart ".as_bytes());
            line.append(name.text().as_bytes());
        }
        Out::Delete(name) => {
            line.append(" delete ".as_bytes());
            line.append(name.text().as_bytes());
        }
    }
}

/// What a line calls a pipe.
pub(crate) fn pipe_text(pipe: PipeName) -> &'static str
    ensures value { result.now ≡ pipe_text pipe }
    ensures short { length result.now ≤ 6 }
{
    match pipe {
        PipeName::Hs => "HS",
        PipeName::HsEv => "HS.EV",
        PipeName::Cs => "CS",
        PipeName::Sc => "SC",
        PipeName::Mm => "MM",
        PipeName::Md => "MD",
        PipeName::Lc => "LC",
        PipeName::LcTlm => "LC.TLM",
    }
}

/// What a line says of why a packet was dropped.
pub(crate) fn cause_text(full: bool) -> &'static str
    ensures value { result.now ≡ cause_text full }
    ensures short { length result.now ≤ 7 }
{
    if full { " full " } else { " limit " }
}
