//! A line of the log is read.

ghost use Rattle.std.specs.Prelude.{◌≡◌, ◌≤◌, length, IfSome, Some};
ghost use Rattle.log_lines.specs.Lines.{line_said, item_said, drop_said, pipe_said, cause_said, packet_said, packet_in, name_in, last_word, words_behind, as_item, reset_said, drop_at};
ghost use Rattle.row_forms.specs.Words.{name_said};

use crate::fault::LineFault;
use crate::line::{LineItem, LogLine};
use crate::numbers::{MOST_BYTES, frame_number, read_bytes};
use crate::parts::{cut_word, last_word};
use bus_pipes::{Dropped, PipeName};
use packet_forms::{Name, Packet};

/// The most bytes of a line that is read. A line of the log has at most 541.
pub(crate) const LINE_BYTES: usize = 640;

/// What a line says, without the LF at its end, or the first fault for which it is no line of the log.
#[tactic(auto, unfolding(crate::specs::Lines::line_said, crate::specs::Lines::words_said))]
pub fn read_line(line: &[u8]) -> Result<LogLine, LineFault>
    ensures { result ≡ line_said line.now }
{
    if line.len() > LINE_BYTES {
        return Err(LineFault::Long);
    }
    let (number, words) = cut_word(line);
    let Some(frame) = frame_number(number) else {
        return Err(LineFault::Frame);
    };
    match read_item(words) {
        Ok(item) => Ok(LogLine { frame, item }),
        Err(fault) => Err(fault),
    }
}

/// What the words behind the frame's number say.
#[tactic(auto, unfolding(crate::specs::Lines::item_said))]
fn read_item(words: Option<&[u8]>) -> Result<LineItem, LineFault>
    requires { IfSome words (λ text. length text.now ≤ LINE_BYTES) }
    ensures { result ≡ item_said (words_behind words.entry) }
{
    let Some(words) = words else {
        return Err(LineFault::Missing);
    };
    let (word, words) = cut_word(words);
    if word == b"pkt".as_slice() {
        return read_sent(words);
    }
    if word == b"drop".as_slice() {
        return read_drop(words);
    }
    if word == b"reset".as_slice() {
        return read_reset(words);
    }
    if word == b"restart".as_slice() {
        return read_restart(words);
    }
    if word == b"delete".as_slice() {
        return read_delete(words);
    }
    Err(LineFault::Word)
}

/// A packet that was sent, of its word.
fn read_sent(words: Option<&[u8]>) -> Result<LineItem, LineFault>
    requires { IfSome words (λ text. length text.now ≤ LINE_BYTES) }
    ensures { result ≡ as_item LineItem.Packet (packet_in (last_word (words_behind words.entry))) }
{
    match read_packet(words) {
        Ok(packet) => Ok(LineItem::Packet(packet)),
        Err(fault) => Err(fault),
    }
}

/// A request for a reset has no words.
fn read_reset(words: Option<&[u8]>) -> Result<LineItem, LineFault>
    ensures { result ≡ reset_said (words_behind words.entry) }
{
    match words {
        None => Ok(LineItem::Reset),
        Some(_) => Err(LineFault::Extra),
    }
}

/// A request to restart an application, of its name.
fn read_restart(words: Option<&[u8]>) -> Result<LineItem, LineFault>
    ensures { result ≡ as_item LineItem.Restart (name_in (last_word (words_behind words.entry))) }
{
    match read_name(words) {
        Ok(name) => Ok(LineItem::Restart(name)),
        Err(fault) => Err(fault),
    }
}

/// A request to delete an application, of its name.
fn read_delete(words: Option<&[u8]>) -> Result<LineItem, LineFault>
    ensures { result ≡ as_item LineItem.Delete (name_in (last_word (words_behind words.entry))) }
{
    match read_name(words) {
        Ok(name) => Ok(LineItem::Delete(name)),
        Err(fault) => Err(fault),
    }
}

/// A packet that was dropped, of the words for its pipe, the cause and its bytes.
#[tactic(auto, unfolding(crate::specs::Lines::drop_said))]
fn read_drop(words: Option<&[u8]>) -> Result<LineItem, LineFault>
    requires { IfSome words (λ text. length text.now ≤ LINE_BYTES) }
    ensures { result ≡ drop_said (words_behind words.entry) }
{
    let Some(words) = words else {
        return Err(LineFault::Missing);
    };
    let (pipe, words) = cut_word(words);
    match pipe_of(pipe) {
        Some(pipe) => read_drop_at(pipe, words),
        None => Err(LineFault::Pipe),
    }
}

/// A packet that was dropped at this pipe, of the words for the cause and its bytes.
fn read_drop_at(pipe: PipeName, words: Option<&[u8]>) -> Result<LineItem, LineFault>
    requires { IfSome words (λ text. length text.now ≤ LINE_BYTES) }
    ensures { result ≡ drop_at (Some pipe) (words_behind words.entry) }
{
    let Some(words) = words else {
        return Err(LineFault::Missing);
    };
    let (cause, words) = cut_word(words);
    let Some(full) = is_full(cause) else {
        return Err(LineFault::Cause);
    };
    match read_packet(words) {
        Ok(packet) => Ok(LineItem::Drop(Dropped { pipe, full, packet })),
        Err(fault) => Err(fault),
    }
}

/// The pipe of this name.
#[tactic(auto, unfolding(crate::specs::Lines::pipe_said))]
fn pipe_of(word: &[u8]) -> Option<PipeName>
    ensures { result ≡ pipe_said word.now }
{
    if word == b"HS".as_slice() {
        return Some(PipeName::Hs);
    }
    if word == b"HS.EV".as_slice() {
        return Some(PipeName::HsEv);
    }
    if word == b"CS".as_slice() {
        return Some(PipeName::Cs);
    }
    if word == b"SC".as_slice() {
        return Some(PipeName::Sc);
    }
    if word == b"MM".as_slice() {
        return Some(PipeName::Mm);
    }
    if word == b"MD".as_slice() {
        return Some(PipeName::Md);
    }
    if word == b"LC".as_slice() {
        return Some(PipeName::Lc);
    }
    if word == b"LC.TLM".as_slice() {
        return Some(PipeName::LcTlm);
    }
    None
}

/// Whether a packet was dropped since its pipe was full, and not for the limit of its id.
#[tactic(auto, unfolding(crate::specs::Lines::cause_said))]
fn is_full(word: &[u8]) -> Option<bool>
    ensures { result ≡ cause_said word.now }
{
    if word == b"limit".as_slice() {
        return Some(false);
    }
    if word == b"full".as_slice() {
        return Some(true);
    }
    None
}

/// The packet that the last word of a line writes.
fn read_packet(words: Option<&[u8]>) -> Result<Packet, LineFault>
    requires { IfSome words (λ text. length text.now ≤ LINE_BYTES) }
    ensures { result ≡ packet_in (last_word (words_behind words.entry)) }
{
    match last_word(words) {
        Ok(word) => packet_of(word),
        Err(fault) => Err(fault),
    }
}

/// The packet whose bytes a word writes.
#[tactic(auto, unfolding(crate::specs::Lines::packet_said))]
fn packet_of(word: &[u8]) -> Result<Packet, LineFault>
    requires { length word.now ≤ LINE_BYTES }
    ensures { result ≡ packet_said word.now }
{
    let mut places = [0; MOST_BYTES];
    let Some(count) = read_bytes(word, &mut places) else {
        return Err(LineFault::Digits);
    };
    match Packet::from_bytes(&places[..count]) {
        Ok(packet) => Ok(packet),
        Err(fault) => Err(LineFault::Packet(fault)),
    }
}

/// The name that the last word of a line writes.
fn read_name(words: Option<&[u8]>) -> Result<Name, LineFault>
    ensures { result ≡ name_in (last_word (words_behind words.entry)) }
{
    match last_word(words) {
        Ok(word) => match name_of(word) {
            Some(name) => Ok(name),
            None => Err(LineFault::Name),
        },
        Err(fault) => Err(fault),
    }
}

/// The name that a word writes.
#[tactic(auto, unfolding(row_forms::specs::Words::name_said))]
fn name_of(word: &[u8]) -> Option<Name>
    ensures { result ≡ name_said word.now }
{
    match str::from_utf8(word) {
        Ok(text) => Name::from_text(text),
        Err(_) => None,
    }
}
