//! A sink that keeps the tally of a log, and the four lines that tell it.

ghost use Rattle.std.specs.Prelude.{◌≡◌, ◌<◌, ◌≤◌, ◌+◌, ◌%◌, ◌++◌, ◌∷◌, [], length, decimal, IfOk};
ghost use Rattle.packet_forms.specs.Numbers.{be16_bytes};
ghost use Rattle.fsw_outside.specs.Tally.{tally_of, added};
ghost use Rattle.packet_forms.specs.Hex.{hex, hex_digit};
ghost use Rattle.packet_log.specs.Summaries.{tally_in, summary_text};

use crate::line_ends::lines_in;
use crate::written::Written;
use arrayvec::ArrayString;
use fsw_outside::{Failed, Sink};
use itoa::Buffer;
use packet_forms::crc16;

/// The text of a summary.
pub type SummaryText = ArrayString<96>;

/// A tally: how many LFs and how many bytes there are, both modulo 2^64, and the check of the bytes.
#[derive(Clone, Copy, Debug, PartialEq, Eq)]
struct Sums {
    lines: u64,
    bytes: u64,
    crc: u16,
}

/// A sink that keeps the tally of its bytes alone. It takes each piece whole and never fails.
#[derive(Drop)]
pub struct Summary {
    sums: Sums,
    written: Written,
    ghost kept: { tally_in sums ≡ tally_of written.bytes },
}

impl Summary {
    ghost use Rattle.packet_log.specs.Logged.{logged};

    /// The summary of no bytes.
    pub fn start() -> Summary
        ensures { logged result ≡ [] }
    {
        Summary {
            sums: Sums {
                lines: 0,
                bytes: 0,
                crc: 0,
            },
            written: Written::nothing(),
        }
    }

    /// The four lines that tell how many frames there were, and the lines, the bytes and the check of what was written.
    pub fn text(&self, frames: u32) -> SummaryText
        ensures { result.bytes ≡ summary_text frames (tally_of (logged self.now)) }
    {
        text_of(frames, self.sums)
    }
}

impl Sink for Summary {
    ghost use Rattle.std.specs.Prelude.{Some, Ok};
    ghost use Rattle.fsw_outside.specs.Told.{WhereTold};
    ghost use Rattle.fsw_outside.specs.Causes.{HasCause};
    ghost use Rattle.fsw_outside.specs.Bytes.{Writes};
    ghost use Rattle.fsw_outside.specs.Tally.{Adds};
    ghost use Rattle.packet_log.specs.Summaries.{kept_tally};
    ghost use Rattle.packet_log.specs.Logged.{logged, counted};

    ghost held = { λ s. Some (logged s) };

    ghost tally = { λ s. Some (counted s) };

    ghost faults = { λ s. 0 };

    ghost tallied = { λ s t tells. kept_tally (logged s) (counted s) t s.kept tells };

    fn write(&mut self, piece: &[u8]) -> Result<usize, Failed>
        requires { 0 < length piece.now }
        ensures count { IfOk result (λ n. (0 < n) × (n ≤ length piece.now)) }
        ensures content { WhereTold (Some (logged self.old)) (Some (logged self.new))
            (Writes result piece.now) }
        ensures tally { WhereTold (Some (counted self.old)) (Some (counted self.new))
            (Adds result piece.now) }
        ensures cause { HasCause (Some (logged self.new)) 0 0 result }
        // It takes the piece whole.
        ensures whole { result ≡ Ok (length piece.now) }
    {
        self.sums = sums_with(self.sums, piece);
        self.written.add(piece);
        Ok(piece.len())
    }
}

/// The tally with the bytes added.
#[tactic(auto, unfolding(fsw_outside::specs::Tally::added))]
fn sums_with(sums: Sums, bytes: &[u8]) -> Sums
    ensures { tally_in result ≡ added (tally_in sums) bytes.now }
{
    Sums {
        lines: sums.lines.wrapping_add(lines_in(bytes) as u64),
        bytes: sums.bytes.wrapping_add(bytes.len() as u64),
        crc: crc16(sums.crc, bytes),
    }
}

/// The four lines of a tally.
#[tactic(auto, unfolding(crate::specs::Summaries::summary_text))]
fn text_of(frames: u32, sums: Sums) -> SummaryText
    ensures { result.bytes ≡ summary_text frames (tally_in sums) }
{
    let mut text = SummaryText::new();
    text.push_str("frames ");
    push_number(&mut text, u64::from(frames));
    text.push_str("\nlines ");
    push_number(&mut text, sums.lines);
    text.push_str("\nbytes ");
    push_number(&mut text, sums.bytes);
    text.push_str("\ncrc ");
    push_hex(&mut text, sums.crc);
    text.push_str("\n");
    text
}

/// Appends a number in decimal digits.
fn push_number(text: &mut SummaryText, number: u64)
    requires { length text.old.bytes ≤ 70 }
    ensures value { text.new.bytes ≡ text.old.bytes ++ decimal number }
    ensures short { length text.new.bytes ≤ length text.old.bytes + 20 }
{
    let mut buffer = Buffer::new();
    text.push_str(buffer.format(number));
}

/// Appends a number in four hexadecimal digits.
#[tactic(auto, unfolding(packet_forms::specs::Hex::hex, packet_forms::specs::Numbers::be16_bytes))]
fn push_hex(text: &mut SummaryText, number: u16)
    requires { length text.old.bytes ≤ 90 }
    ensures value { text.new.bytes ≡ text.old.bytes ++ hex (be16_bytes number) }
    ensures short { length text.new.bytes ≡ length text.old.bytes + 4 }
{
    let [high, low] = number.to_be_bytes();
    text.push_str(digit_text(high / 16));
    text.push_str(digit_text(high % 16));
    text.push_str(digit_text(low / 16));
    text.push_str(digit_text(low % 16));
}

/// A hexadecimal digit, in upper case.
pub(crate) fn digit_text(number: u8) -> &'static str
    requires { number < 16 }
    ensures value { result.now ≡ hex_digit number ∷ [] }
    ensures one { length result.now ≡ 1 }
{
    match number {
        0 => "0",
        1 => "1",
        2 => "2",
        3 => "3",
        4 => "4",
        5 => "5",
        6 => "6",
        7 => "7",
        8 => "8",
        9 => "9",
        10 => "A",
        11 => "B",
        12 => "C",
        13 => "D",
        14 => "E",
        _ => "F",
    }
}
