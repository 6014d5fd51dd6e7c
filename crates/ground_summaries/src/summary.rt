//! What a log holds in all, in words.

ghost use Rattle.std.specs.Prelude.{◌≡◌, ◌++◌, OnOk};
ghost use Rattle.ground_summaries.specs.Counts.{frames_said, head_said, lines_said};

use crate::counted::{push_count, push_counted, push_three};
use ground_tools::{Sender, Survey};
use std::alloc::{AllocError, Global};

/// Appends the name of an application, or that there is none.
fn push_owner(out: &mut Vec<u8>, sender: &Sender) -> Result<(), AllocError> {
    match &sender.name {
        Some(name) => push_three(out, "  ", name.text(), ": "),
        None => out.extend_from_slice(b"  of no application: "),
    }
}

/// Appends how many commands applications sent to this one, where there were some. What the scenario sends has no line in a log.
fn push_sent(out: &mut Vec<u8>, sender: &Sender) -> Result<(), AllocError> {
    if sender.commands > 0 {
        out.extend_from_slice(b", and was sent ")?;
        push_count(out, sender.commands, "command")?;
        out.extend_from_slice(b" by applications")?;
    }
    out.extend_from_slice(b"\n")
}

/// Appends how much of an application there was.
fn push_sender(out: &mut Vec<u8>, sender: &Sender) -> Result<(), AllocError> {
    push_owner(out, sender)?;
    push_count(out, sender.packets, "packet")?;
    out.extend_from_slice(b", ")?;
    push_count(out, sender.events, "event")?;
    push_sent(out, sender)
}

/// Appends how many frames and lines there were, behind an empty line.
fn push_head(out: &mut Vec<u8>, frames: u32, lines: u64) -> Result<(), AllocError>
    ensures { OnOk result (out.new.items ≡ out.old.items ++ head_said frames lines) }
{
    push_frames(out, frames)?;
    push_lines(out, lines)
}

/// Appends an empty line, and how many frames there were.
fn push_frames(out: &mut Vec<u8>, frames: u32) -> Result<(), AllocError>
    ensures { OnOk result (out.new.items ≡ out.old.items ++ frames_said frames) }
{
    out.extend_from_slice(b"\n")?;
    push_count(out, u64::from(frames), "frame")
}

/// Appends how many lines there were, and ends the line.
fn push_lines(out: &mut Vec<u8>, lines: u64) -> Result<(), AllocError>
    ensures { OnOk result (out.new.items ≡ out.old.items ++ lines_said lines) }
{
    out.extend_from_slice(b", ")?;
    push_count(out, lines, "line")?;
    out.extend_from_slice(b" of the log\n")
}

/// The summary of a log of so many frames, behind an empty line.
pub fn summary_of(alloc: Global, survey: &Survey, frames: u32) -> Result<Vec<u8>, AllocError> {
    let mut out = Vec::new(alloc);
    push_head(&mut out, frames, survey.lines())?;
    for sender in survey.senders() {
        push_sender(&mut out, sender)?;
    }
    for counted in survey.notables() {
        push_counted(&mut out, counted)?;
    }
    Ok(out)
}
