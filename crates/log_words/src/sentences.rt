//! Lines of the log in sentences.

ghost use Rattle.std.specs.Prelude.{◌≡◌, ◌++◌, ◌+◌, decimal, OnOk};
ghost use Rattle.log_words.specs.Sentences.{IsGood, time_words, packet_words, sent_words, drop_words, cause_words, item_words, sentence_of};
ghost use Rattle.packet_forms.specs.Names.{name_text};
ghost use Rattle.packet_log.specs.Lines.{pipe_text};

use crate::packets::show_packet;
use crate::vocabulary::Vocabulary;
use bus_pipes::{Dropped, PipeName};
use itoa::Buffer;
use log_lines::{LineItem, LogLine};
use packet_forms::{Name, Packet};
use std::alloc::AllocError;

/// Appends what a line of the log says as a sentence: when, in seconds where the epoch is given and else as the frame's number, and
/// what happened, as `frame 2: MM: command poke was accepted (event 19)`. It has no LF.
#[tactic(auto, unfolding(crate::specs::Sentences::sentence_of))]
pub fn show_line(
    vocabulary: &Vocabulary,
    epoch: Option<u32>,
    line: &LogLine,
    out: &mut Vec<u8>,
) -> Result<(), AllocError>
    requires { IsGood vocabulary.now }
    ensures { OnOk result (out.new.items ≡ out.old.items
        ++ sentence_of vocabulary.now epoch line.now) }
{
    push_time(epoch, line.frame, out)?;
    out.extend_from_slice(b": ")?;
    push_item(vocabulary, &line.item, out)
}

/// Appends when something happened, in seconds where the epoch is given and else as the frame's number.
pub fn push_time(epoch: Option<u32>, frame: u32, out: &mut Vec<u8>) -> Result<(), AllocError>
    ensures { OnOk result (out.new.items ≡ out.old.items ++ time_words epoch frame) }
{
    match epoch {
        Some(epoch) => push_numbered(b"time ", u64::from(epoch) + u64::from(frame), out),
        None => push_numbered(b"frame ", u64::from(frame), out),
    }
}

/// Appends a text, and the decimal digits of a number.
fn push_numbered(text: &[u8], number: u64, out: &mut Vec<u8>) -> Result<(), AllocError>
    ensures { OnOk result (out.new.items ≡ out.old.items ++ (text.now ++ decimal number)) }
{
    let mut buffer = Buffer::new();
    out.extend_from_slice(text)?;
    out.extend_from_slice(buffer.format(number).as_bytes())
}

/// Appends what happened.
fn push_item(vocabulary: &Vocabulary, item: &LineItem, out: &mut Vec<u8>) -> Result<(), AllocError>
    requires { IsGood vocabulary.now }
    ensures { OnOk result (out.new.items ≡ out.old.items ++ item_words vocabulary.now item.now) }
{
    match item {
        LineItem::Packet(packet) => push_sent(vocabulary, packet, out),
        LineItem::Drop(dropped) => push_drop(vocabulary, dropped, out),
        LineItem::Reset => out.extend_from_slice(
            b"HS asks for a processor reset: behind this frame all applications start anew, on the first file of each table; memory, its protection and sequence counts stay",
        ),
        LineItem::Restart(name) => push_named(b"HS asks to restart ", name, out),
        LineItem::Delete(name) => push_named(b"HS asks to delete ", name, out),
    }
}

/// Appends a text, and a name.
fn push_named(text: &[u8], name: &Name, out: &mut Vec<u8>) -> Result<(), AllocError>
    ensures { OnOk result (out.new.items ≡ out.old.items ++ (text.now ++ name_text name.now)) }
{
    out.extend_from_slice(text)?;
    out.extend_from_slice(name.text().as_bytes())
}

/// Appends what was sent: telecommands are those of sequences, message actions and actionpoints.
fn push_sent(vocabulary: &Vocabulary, packet: &Packet, out: &mut Vec<u8>) -> Result<(), AllocError>
    requires { IsGood vocabulary.now }
    ensures { OnOk result (out.new.items ≡ out.old.items ++ sent_words vocabulary.now packet.now) }
{
    if packet.is_command() {
        return push_behind(b"sent on board: ", vocabulary, packet, out);
    }
    show_packet(vocabulary, packet, out)
}

/// Appends a packet behind a text.
fn push_behind(
    text: &[u8],
    vocabulary: &Vocabulary,
    packet: &Packet,
    out: &mut Vec<u8>,
) -> Result<(), AllocError>
    requires { IsGood vocabulary.now }
    ensures { OnOk result (out.new.items ≡ out.old.items
        ++ (text.now ++ packet_words vocabulary.now packet.now)) }
{
    out.extend_from_slice(text)?;
    show_packet(vocabulary, packet, out)
}

/// Appends which pipe dropped a packet, why, and what the packet is.
fn push_drop(
    vocabulary: &Vocabulary,
    dropped: &Dropped,
    out: &mut Vec<u8>,
) -> Result<(), AllocError>
    requires { IsGood vocabulary.now }
    ensures { OnOk result (out.new.items ≡ out.old.items ++ drop_words vocabulary.now dropped.now) }
{
    out.extend_from_slice(b"pipe ")?;
    out.extend_from_slice(pipe_words(dropped.pipe).as_bytes())?;
    out.extend_from_slice(cause_words(dropped.full).as_bytes())?;
    show_packet(vocabulary, &dropped.packet, out)
}

/// The name of a pipe.
fn pipe_words(pipe: PipeName) -> &'static str
    ensures { result.now ≡ pipe_text pipe }
{
    match pipe {
        PipeName::Hs => "HS",
        PipeName::HsEv => "HS.EV",
        PipeName::Cs => "CS",
        PipeName::Sc => "SC",
        PipeName::Mm => "MM",
        PipeName::Md => "MD",
        PipeName::Lc => "LC",
        PipeName::LcTlm => "LC.TLM",
    }
}

/// Why a packet was dropped.
fn cause_words(full: bool) -> &'static str
    ensures { result.now ≡ cause_words full }
{
    if full {
        " is full, dropped: "
    } else {
        " holds as many packets of this id as it may, dropped: "
    }
}
