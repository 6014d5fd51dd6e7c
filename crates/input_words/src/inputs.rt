//! What a scenario does in a frame, a line each.

ghost use Rattle.std.specs.Prelude.{◌≡◌, ◌++◌, ℕ, List, codes, OnOk, MatchOption, Some, None};
ghost use Rattle.std.specs.List.{flat_map};
ghost use Rattle.log_words.specs.Sentences.{IsGood, time_words};
ghost use Rattle.packet_forms.specs.Hex.{hex};
ghost use Rattle.packet_forms.specs.Numbers.{be32_bytes};
ghost use Rattle.scenario.specs.declared.frame.Upset.{Upset as SetByte};
ghost use Rattle.input_words.specs.declared.inputs.GivenFile.{GivenFile as Given};
ghost use Rattle.input_words.specs.Inputs.{input_line, upset_words, file_of, activation_words, file_line, none_told, files_told, packet_sent, inputs_told};

use log_words::{Vocabulary, push_time, show_packet};
use packet_forms::Packet;
use row_forms::{push_decimal, push_hex};
use scenario::{FrameInput, Upset};
use std::alloc::AllocError;

/// A frame, and the time of frame 0 in seconds, where it is known.
#[derive(Clone, Copy, Debug, PartialEq, Eq)]
pub struct FrameTime {
    pub epoch: Option<u32>,
    pub frame: u32,
}

/// A FILE of a rehearsal, as people know it: its number, from 1, and words such as its path and the name of its table.
#[derive(Drop)]
pub struct GivenFile {
    pub number: u32,
    pub words: Vec<u8>,
    /// Lines that are told behind that of the FILE, each with its LF, such as those of a table's text.
    pub lines: Vec<u8>,
}

/// Appends what the beginning of a line has: when, and the mark that no sentence of the log has.
pub(crate) fn begin_line(time: FrameTime, out: &mut Vec<u8>) -> Result<(), AllocError>
    ensures { OnOk result (out.new.items ≡ out.old.items
        ++ (time_words time.epoch time.frame ++ codes ": > ")) }
{
    push_time(time.epoch, time.frame, out)?;
    out.extend_from_slice(b": > ")
}

/// Appends the hexadecimal digits of an address.
#[tactic(auto, unfolding(packet_forms::specs::Numbers::be32_bytes))]
fn push_address(address: u32, out: &mut Vec<u8>) -> Result<(), AllocError>
    ensures { OnOk result (out.new.items ≡ out.old.items ++ hex (be32_bytes address)) }
{
    push_hex(&address.to_be_bytes(), out)
}

/// Appends what an upset does.
fn push_upset(upset: &Upset, out: &mut Vec<u8>) -> Result<(), AllocError>
    ensures { OnOk result (out.new.items ≡ out.old.items ++ upset_words upset.now) }
{
    out.extend_from_slice(b"an upset sets the byte at 0x")?;
    push_address(upset.at, out)?;
    out.extend_from_slice(b" to 0x")?;
    push_hex(&[upset.value], out)
}

/// Appends the line of an upset.
fn tell_upset(time: FrameTime, upset: &Upset, out: &mut Vec<u8>) -> Result<(), AllocError>
    ensures { OnOk result (out.new.items ≡ out.old.items
        ++ input_line time (upset_words upset.now)) }
{
    begin_line(time, out)?;
    push_upset(upset, out)?;
    out.extend_from_slice(b"\n")
}

/// Appends the lines of upsets.
fn tell_upsets(time: FrameTime, upsets: &[Upset], out: &mut Vec<u8>) -> Result<(), AllocError>
    ensures { OnOk result (out.new.items ≡ out.old.items
        ++ flat_map (λ (u : SetByte). input_line time (upset_words u)) upsets.now) }
{
    for upset in upsets {
        tell_upset(time, upset, out)?;
    }
    Ok(())
}

/// Appends the lines of a FILE.
fn tell_file(file: &GivenFile, out: &mut Vec<u8>) -> Result<(), AllocError>
    ensures { OnOk result (out.new.items ≡ out.old.items ++ file_line file.now) }
{
    out.extend_from_slice(b"> file ")?;
    push_decimal(file.number, out)?;
    out.extend_from_slice(b": ")?;
    out.extend_from_slice(file.words.as_slice())?;
    out.extend_from_slice(b"\n")?;
    out.extend_from_slice(file.lines.as_slice())
}

/// Appends the lines of FILEs.
fn tell_each_file(files: &[GivenFile], out: &mut Vec<u8>) -> Result<(), AllocError>
    ensures { OnOk result (out.new.items ≡ out.old.items
        ++ flat_map (λ (file : Given). file_line file) files.now) }
{
    for file in files {
        tell_file(file, out)?;
    }
    Ok(())
}

/// Appends that there are no FILEs, where there are none.
fn tell_none(files: &[GivenFile], out: &mut Vec<u8>) -> Result<(), AllocError>
    ensures { OnOk result (out.new.items ≡ out.old.items ++ none_told files.now) }
{
    match files.first() {
        None => out.extend_from_slice(b"> no files\n"),
        Some(_) => Ok(()),
    }
}

/// Appends the FILEs of a rehearsal, a line each, or that there are none.
#[tactic(auto, unfolding(crate::specs::Inputs::files_told))]
pub fn tell_files(files: &[GivenFile], out: &mut Vec<u8>) -> Result<(), AllocError>
    ensures { OnOk result (out.new.items ≡ out.old.items ++ files_told files.now) }
{
    tell_each_file(files, out)?;
    tell_none(files, out)
}

/// The words of the FILE of a number, counted from 1.
fn file_of(files: &[GivenFile], number: u32) -> Option<&[u8]>
    ensures { MatchOption result (file_of files.now number
        ≡ None) (λ words. file_of files.now number ≡ Some words.now) }
{
    if number == 0 {
        return None;
    }
    match files.get(number as usize - 1) {
        Some(file) => Some(file.words.as_slice()),
        None => None,
    }
}

/// Appends which FILE's table is to become active.
fn push_activation(files: &[GivenFile], number: u32, out: &mut Vec<u8>) -> Result<(), AllocError>
    ensures { OnOk result (out.new.items ≡ out.old.items
        ++ activation_words number (file_of files.now number)) }
{
    out.extend_from_slice(b"file ")?;
    push_decimal(number, out)?;
    out.extend_from_slice(b" is to become active")?;
    match file_of(files, number) {
        Some(words) => {
            out.extend_from_slice(b": ")?;
            out.extend_from_slice(words)
        }
        None => out.extend_from_slice(b", and there is no such file"),
    }
}

/// Appends the line of an activation.
fn tell_activation(
    files: &[GivenFile],
    time: FrameTime,
    number: u32,
    out: &mut Vec<u8>,
) -> Result<(), AllocError>
    ensures { OnOk result (out.new.items ≡ out.old.items
        ++ input_line time (activation_words number (file_of files.now number))) }
{
    begin_line(time, out)?;
    push_activation(files, number, out)?;
    out.extend_from_slice(b"\n")
}

/// Appends the lines of activations.
fn tell_activations(
    files: &[GivenFile],
    time: FrameTime,
    numbers: &[u32],
    out: &mut Vec<u8>,
) -> Result<(), AllocError>
    ensures { OnOk result (out.new.items ≡ out.old.items
        ++ flat_map (λ (n : ℕ). input_line time (activation_words n (file_of files.now n)))
        numbers.now) }
{
    for number in numbers {
        tell_activation(files, time, *number, out)?;
    }
    Ok(())
}

/// Appends what is sent.
fn push_packet(
    vocabulary: &Vocabulary,
    packet: &Packet,
    out: &mut Vec<u8>,
) -> Result<(), AllocError>
    requires { IsGood vocabulary.now }
    ensures { OnOk result (out.new.items ≡ out.old.items ++ packet_sent vocabulary.now packet.now) }
{
    if packet.is_command() {
        out.extend_from_slice(b"ground sends ")?;
        return show_packet(vocabulary, packet, out);
    }
    out.extend_from_slice(b"the scenario sends ")?;
    show_packet(vocabulary, packet, out)
}

/// Appends the line of a packet that is sent.
fn tell_packet(
    vocabulary: &Vocabulary,
    time: FrameTime,
    packet: &Packet,
    out: &mut Vec<u8>,
) -> Result<(), AllocError>
    requires { IsGood vocabulary.now }
    ensures { OnOk result (out.new.items ≡ out.old.items
        ++ input_line time (packet_sent vocabulary.now packet.now)) }
{
    begin_line(time, out)?;
    push_packet(vocabulary, packet, out)?;
    out.extend_from_slice(b"\n")
}

/// Appends the lines of packets that are sent.
fn tell_packets(
    vocabulary: &Vocabulary,
    time: FrameTime,
    packets: &[Packet],
    out: &mut Vec<u8>,
) -> Result<(), AllocError>
    requires { IsGood vocabulary.now }
    ensures { OnOk result (out.new.items ≡ out.old.items
        ++ flat_map (λ (p : List ℕ). input_line time (packet_sent vocabulary.now p)) packets.now) }
{
    for packet in packets {
        tell_packet(vocabulary, time, packet, out)?;
    }
    Ok(())
}

/// Appends what a scenario does in a frame but for its counters and holds, a line each: upsets, activations, and what it sends, each in
/// their lines' order. A FILE that becomes active is told by its number and by its words among these, and a packet in this vocabulary.
pub fn tell_inputs(
    vocabulary: &Vocabulary,
    files: &[GivenFile],
    time: FrameTime,
    input: &FrameInput,
    out: &mut Vec<u8>,
) -> Result<(), AllocError>
    requires { IsGood vocabulary.now }
    ensures { OnOk result (out.new.items ≡ out.old.items
        ++ inputs_told vocabulary.now files.now time input.now) }
{
    tell_upsets(time, input.upsets(), out)?;
    tell_activations(files, time, input.activations(), out)?;
    tell_packets(vocabulary, time, input.sends(), out)?;
    Ok(())
}
