//! The generated scenario, whose text is made piece by piece.

ghost use Rattle.std.specs.Prelude.{◌≡◌, ◌≤◌, ◌<◌, ◌+◌, ◌*◌, ◌++◌, ◌∷◌, [], length, take, min, decimal, ◌↔◌};
ghost use Rattle.packet_forms.specs.MessageIds.{mm_command};
ghost use Rattle.packet_forms.specs.Built.{command_of};
ghost use Rattle.packet_forms.specs.Numbers.{be32_bytes};
ghost use Rattle.scenario.specs.Drill.{drawn, upper, drawn_behind, draws_of, counter_line, upset_line, command_drawn, send_line, frame_lines, text_left, drill_text};

use crate::line_buffer::{LINE_ROOM, LineBuffer};
use itoa::Buffer;
use packet_forms::message_ids::MM_COMMAND;
use packet_forms::{Packet, behind, command, place};
use std::marker::Model;

/// How many frames a drill has.
const FRAMES: u32 = 2000;

/// The lines before the first frame.
const HEADER: &str = "epoch 1000000\nregion RAM 0 65536\nregion EEPROM 65536 65536\nstart\n";

/// The text of the generated scenario that is drawn from a number, seen as the bytes that are still to come.
#[derive(Drop)]
pub struct Drill {
    // The header, or the lines of one frame.
    lines: LineBuffer,
    // How many bytes of these lines were handed out.
    at: usize,
    left: Left,
}

/// The frames whose lines weren't made yet: how many, and the number that they are drawn from.
#[derive(Clone, Copy, Debug, PartialEq, Eq)]
struct Left {
    frames: u32,
    x: u32,
}

impl Model for Drill {
    ghost use Rattle.std.specs.Prelude.{List, ℕ, ◌++◌, drop};
    ghost use Rattle.scenario.specs.Drill.{text_left};

    ghost Value = { List ℕ };

    ghost view = { λ d. drop d.at d.lines ++ text_left d.left.frames d.left.x };
}

impl Drill {
    /// The whole text that is drawn from `k`, which is at most 999,999.
    pub fn start(k: u32) -> Drill
        requires { k ≤ 999999 }
        ensures { result ≡ drill_text k }
    {
        let mut lines = LineBuffer::new();
        lines.append(HEADER.as_bytes());
        Drill {
            lines,
            at: 0,
            left: Left {
                frames: FRAMES,
                x: k,
            },
        }
    }

    /// Moves the first bytes that are still to come to the front of the buffer, and answers how many: at least one where there
    /// are any.
    pub fn next(&mut self, buf: &mut [u8]) -> usize
        requires { 0 < length buf.old }
        ensures bound { result ≤ length buf.new }
        ensures moved { self.old ≡ take result buf.new ++ self.new }
        ensures end { (result ≡ 0) ↔ (self.old ≡ []) }
    {
        if self.at < self.lines.len() {
            let count = put(behind(self.lines.bytes(), self.at), buf);
            self.at += count;
            return count;
        }
        if self.left.frames == 0 {
            return 0;
        }
        if buf.len() >= LINE_ROOM {
            let filled = put_frames(&mut self.lines, &mut self.left, buf);
            self.at = self.lines.len();
            return filled;
        }
        make_lines(&mut self.lines, &mut self.left);
        let count = put(self.lines.bytes(), buf);
        self.at = count;
        count
    }
}

/// Puts the bytes at the front of the buffer, as many as it holds, and answers how many.
fn put(bytes: &[u8], buf: &mut [u8]) -> usize
    ensures count { result ≡ min (length bytes.now) (length buf.old) }
    ensures front { take result buf.new ≡ take result bytes.now }
{
    let count = bytes.len().min(buf.len());
    buf[..count].copy_from_slice(&bytes[..count]);
    count
}

/// Fills the buffer with the lines of whole frames while those of any frame fit, and answers how many bytes they are. No lines are
/// left to be handed out then.
fn put_frames(lines: &mut LineBuffer, left: &mut Left, buf: &mut [u8]) -> usize
    requires some { 0 < left.old.frames }
    requires room { LINE_ROOM ≤ length buf.old }
    ensures bound { result ≤ length buf.new }
    ensures moved { text_left left.old.frames left.old.x ≡ take result buf.new
        ++ text_left left.new.frames left.new.x }
    ensures some { 0 < result }
{
    let mut filled = 0;
    'frames: for k in 0..left.frames {
        if buf.len() - filled < LINE_ROOM {
            return filled;
        }
        make_lines(lines, left);
        place(buf, filled, lines.bytes());
        filled += lines.len();
    }
    filled
}

/// Makes the lines of the next frame, and `end` behind those of the last one.
fn make_lines(lines: &mut LineBuffer, left: &mut Left)
    requires { 0 < left.old.frames }
    ensures text { text_left left.old.frames left.old.x ≡ lines.new
        ++ text_left left.new.frames left.new.x }
    ensures some { 0 < length lines.new }
    ensures fewer { left.new.frames + 1 ≡ left.old.frames }
{
    left.x = make_frame(lines, left.x);
    left.frames -= 1;
    if left.frames == 0 {
        lines.append("end\n".as_bytes());
    }
}

/// Makes the lines of the frame that is drawn from x, and answers x behind its draws.
#[tactic(auto, unfolding(crate::specs::Drill::frame_lines))]
fn make_frame(lines: &mut LineBuffer, x: u32) -> u32
    ensures lines { lines.new ≡ frame_lines (draws_of x) }
    ensures next { result ≡ (draws_of x).x }
    ensures some { 0 < length lines.new }
    ensures few { length lines.new ≤ 600 }
{
    let draws = draws_of(x);
    lines.clear();
    append_counter(lines, draws.a);
    append_upset(lines, draws.b, draws.c);
    append_drawn(lines, draws.d, draws.e);
    lines.append("tick\n".as_bytes());
    draws.x
}

/// The five numbers that a frame draws, of which c is drawn where b is a multiple of 4, and x behind them.
#[derive(Clone, Copy, Debug, PartialEq, Eq)]
struct Draws {
    a: u32,
    b: u32,
    c: u32,
    d: u32,
    e: u32,
    x: u32,
}

#[tactic(auto, unfolding(crate::specs::Drill::draws_of))]
fn draws_of(x: u32) -> Draws
    ensures a { result.a ≡ (draws_of x).a }
    ensures b { result.b ≡ (draws_of x).b }
    ensures c { result.c ≡ (draws_of x).c }
    ensures d { result.d ≡ (draws_of x).d }
    ensures e { result.e ≡ (draws_of x).e }
    ensures x { result.x ≡ (draws_of x).x }
{
    let at_a = drawn(x);
    let at_b = drawn(at_a);
    let at_c = drawn_behind(at_b);
    let at_d = drawn(at_c);
    let at_e = drawn(at_d);
    Draws {
        a: upper(at_a),
        b: upper(at_b),
        c: upper(at_c),
        d: upper(at_d),
        e: upper(at_e),
        x: at_e,
    }
}

/// What a draw changes x to.
#[tactic(auto, unfolding(crate::specs::Drill::drawn))]
fn drawn(x: u32) -> u32
    ensures { result ≡ drawn x }
{
    ((1664525 * u64::from(x) + 1013904223) % 4294967296) as u32
}

/// The upper half of x, which is drawn.
#[tactic(auto, unfolding(crate::specs::Drill::upper))]
fn upper(x: u32) -> u32
    ensures { result ≡ upper x }
{
    x / 65536
}

/// x behind the draw of c, if it is made.
#[tactic(auto, unfolding(crate::specs::Drill::drawn_behind))]
fn drawn_behind(x: u32) -> u32
    ensures { result ≡ drawn_behind x }
{
    if upper(x) % 4 == 0 { drawn(x) } else { x }
}

#[tactic(auto, unfolding(crate::specs::Drill::counter_line))]
fn append_counter(lines: &mut LineBuffer, a: u32)
    requires { length lines.old ≡ 0 }
    ensures value { lines.new ≡ lines.old ++ counter_line a }
    ensures some { 0 < length lines.new }
    ensures few { length lines.new ≤ 20 }
{
    lines.append("app LOAD ".as_bytes());
    append_number(lines, a % 4);
    lines.append("\n".as_bytes());
}

#[tactic(auto, unfolding(crate::specs::Drill::upset_line))]
fn append_upset(lines: &mut LineBuffer, b: u32, c: u32)
    requires { length lines.old ≤ 20 }
    ensures value { lines.new ≡ lines.old ++ upset_line b c }
    ensures few { length lines.new ≤ 60 }
{
    if b % 4 == 0 {
        lines.append("upset ".as_bytes());
        append_number(lines, c);
        lines.append(" ".as_bytes());
        append_number(lines, b % 256);
        lines.append("\n".as_bytes());
    }
}

#[tactic(auto, unfolding(crate::specs::Drill::send_line))]
fn append_send(lines: &mut LineBuffer, packet: &Packet)
    requires { length lines.old ≤ 60 }
    ensures value { lines.new ≡ lines.old ++ send_line packet.now }
    ensures few { length lines.new ≤ 590 }
{
    lines.append("send ".as_bytes());
    lines.append_hex(packet.bytes());
    lines.append("\n".as_bytes());
}

/// Appends the decimal digits of a number.
fn append_number(lines: &mut LineBuffer, number: u32)
    requires { length lines.old ≤ 500 }
    ensures value { lines.new ≡ lines.old ++ decimal number }
    ensures few { length lines.new ≤ length lines.old + 10 }
{
    let mut buffer = Buffer::new();
    lines.append(buffer.format(number).as_bytes());
}

/// Appends the line of the command that a frame sends.
#[tactic(auto, unfolding(crate::specs::Drill::command_drawn))]
fn append_drawn(lines: &mut LineBuffer, d: u32, e: u32)
    requires { length lines.old ≤ 60 }
    ensures value { lines.new ≡ lines.old ++ send_line (command_drawn d e) }
    ensures few { length lines.new ≤ 590 }
{
    match d % 3 {
        0 => append_command(lines, 2, &peek(e)),
        1 => append_command(lines, 3, &poke(e, d % 256)),
        _ => append_command(lines, 8, &fill(e % 32768, 1 + d % 256, (e % 256) as u8)),
    }
}

/// Appends the line of a command of Memory Manager.
#[inline(never)]
fn append_command(lines: &mut LineBuffer, code: u8, payload: &[u8])
    requires code { code ≤ 127 }
    requires size { length payload.now ≤ 9 }
    requires room { length lines.old ≤ 60 }
    ensures value { lines.new ≡ lines.old ++ send_line (command_of mm_command code payload.now) }
    ensures few { length lines.new ≤ 590 }
{
    append_send(lines, &command(MM_COMMAND, code, payload));
}

#[tactic(auto, unfolding(packet_forms::specs::Numbers::be32_bytes))]
fn peek(at: u32) -> [u8; 5]
    ensures { result ≡ 8 ∷ be32_bytes at }
{
    let [a, b, c, d] = at.to_be_bytes();
    [8, a, b, c, d]
}

#[tactic(auto, unfolding(packet_forms::specs::Numbers::be32_bytes))]
fn poke(at: u32, value: u32) -> [u8; 9]
    ensures { result ≡ 8 ∷ be32_bytes at ++ be32_bytes value }
{
    let [a, b, c, d] = at.to_be_bytes();
    let [e, f, g, h] = value.to_be_bytes();
    [8, a, b, c, d, e, f, g, h]
}

#[tactic(auto, unfolding(packet_forms::specs::Numbers::be32_bytes))]
fn fill(at: u32, len: u32, byte: u8) -> [u8; 9]
    ensures { result ≡ be32_bytes at ++ be32_bytes len ++ byte ∷ [] }
{
    let [a, b, c, d] = at.to_be_bytes();
    let [e, f, g, h] = len.to_be_bytes();
    [a, b, c, d, e, f, g, h, byte]
}
