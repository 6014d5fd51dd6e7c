//! A line of a scenario as a line of a plan.
ghost use Rattle.std.specs.Prelude.{◌≡◌, ◌<◌, ◌≤◌, ◌+◌, ◌^◌, ◌++◌, ◌∷◌, OnOk, IfOk, true, Some};
ghost use Rattle.row_forms.specs.Words.{words};
ghost use Rattle.telecommands.specs.Commands.{are_good};
ghost use Rattle.shown_plans.specs.Shown.{worded, bytes_shown, sent_shown, line_shown, heading, GivesLine};

use packet_forms::Packet;
use plan_text::put_line;
use row_forms::{push_decimal, read_block, split_word};
use std::alloc::{AllocError, Global};
use telecommands::{Command, show_command};

/// Appends the line of a packet that its command's words say, or the line as it is.
fn put_worded(first: &[u8], rest: &[u8], text: &[u8], out: &mut Vec<u8>) -> Result<(), AllocError>
    ensures { OnOk result (out.new.items ≡ out.old.items
        ++ worded (first.now ∷ words rest.now) text.now) }
{
    if text.starts_with(b"packet=") {
        return put_line(first, rest, out);
    }
    out.extend_from_slice(b"send ")?;
    out.extend_from_slice(text)?;
    out.extend_from_slice(b"\n")
}

/// Appends the line of `send` and these bytes, whose words are the line's.
fn put_packet(
    commands: &[Command],
    first: &[u8],
    rest: &[u8],
    bytes: &[u8],
    scratch: &mut Vec<u8>,
    out: &mut Vec<u8>,
) -> Result<(), AllocError>
    requires { are_good commands.now ≡ true }
    ensures { OnOk result (out.new.items ≡ out.old.items
        ++ bytes_shown commands.now (first.now ∷ words rest.now) (Some bytes.now)) }
{
    match Packet::from_bytes(bytes) {
        Ok(packet) => {
            scratch.clear();
            show_command(commands, &packet, scratch)?;
            put_worded(first, rest, scratch.as_slice(), out)
        }
        Err(_) => put_line(first, rest, out),
    }
}

/// Appends the line of a `send`.
fn put_send(
    alloc: Global,
    commands: &[Command],
    first: &[u8],
    rest: &[u8],
    scratch: &mut Vec<u8>,
    out: &mut Vec<u8>,
) -> Result<(), AllocError>
    requires { are_good commands.now ≡ true }
    ensures { OnOk result (out.new.items ≡ out.old.items
        ++ sent_shown commands.now (first.now ∷ words rest.now) (words rest.now)) }
{
    let Some((word, more)) = split_word(rest) else {
        return put_line(first, rest, out);
    };
    if split_word(more).is_some() {
        return put_line(first, rest, out);
    }
    let mut bytes = Vec::new(alloc);
    match read_block(word, &mut bytes)? {
        true => put_packet(commands, first, rest, bytes.as_slice(), scratch, out),
        false => put_line(first, rest, out),
    }
}

/// Appends a line of the plan.
#[tactic(auto, unfolding(crate::specs::Shown::line_shown))]
fn put_shown(
    alloc: Global,
    commands: &[Command],
    first: &[u8],
    rest: &[u8],
    scratch: &mut Vec<u8>,
    out: &mut Vec<u8>,
) -> Result<(), AllocError>
    requires { are_good commands.now ≡ true }
    ensures { OnOk result (out.new.items ≡ out.old.items
        ++ line_shown commands.now first.now (words rest.now)) }
{
    if first == b"send".as_slice() {
        return put_send(alloc, commands, first, rest, scratch, out);
    }
    put_line(first, rest, out)
}

/// Appends the heading of a frame, where ticks have come since the last one was told.
#[tactic(auto, unfolding(crate::specs::Shown::heading, row_forms::specs::Rows::spaced))]
fn put_heading(told: u32, come: u32, out: &mut Vec<u8>) -> Result<(), AllocError>
    ensures { OnOk result (out.new.items ≡ out.old.items ++ heading told come) }
{
    if told == come {
        return Ok(());
    }
    out.extend_from_slice(b"frame ")?;
    push_decimal(come, out)?;
    out.extend_from_slice(b"\n")
}

/// How many frames have ended, and how many of them a heading told.
#[derive(Clone, Copy, Debug, PartialEq, Eq)]
pub(crate) struct Ended {
    pub(crate) come: u32,
    pub(crate) told: u32,
}

/// Appends the lines of the plan that a line of the scenario makes.
pub(crate) fn show_line(
    alloc: Global,
    commands: &[Command],
    ended: &Ended,
    line: &[u8],
    scratch: &mut Vec<u8>,
    out: &mut Vec<u8>,
) -> Result<Ended, AllocError>
    requires good { are_good commands.now ≡ true }
    requires few { ended.now.come + 1 < 2 ^ 32 }
    ensures shown { GivesLine commands.now ended.now
        (words line.now) out.old.items out.new.items result }
    ensures few { IfOk result (λ e. e.come ≤ ended.now.come + 1) }
{
    let Some((first, rest)) = split_word(line) else {
        return Ok(*ended);
    };
    if first == b"tick".as_slice() {
        return Ok(Ended {
            come: ended.come + 1,
            told: ended.told,
        });
    }
    put_heading(ended.told, ended.come, out)?;
    put_shown(alloc, commands, first, rest, scratch, out)?;
    Ok(Ended {
        come: ended.come,
        told: ended.come,
    })
}
