//! Pieces of a log in words, with what its frames were given.

ghost use Rattle.std.specs.Prelude.{◌<◌, ◌≤◌, ℕ, List, length, take, IfOk, OnOk};
ghost use Rattle.log_lines.specs.Logs.{log_said, Stands as ReaderStands};
ghost use Rattle.ground_tools.specs.Woven.{Weaves};

use crate::frame_tellers::FrameTeller;
use crate::log_teller::LogTeller;
use packet_forms::behind;
use std::alloc::AllocError;

/// Takes a first part of a piece, as far as the end of a line: its sentence is appended, behind what was given to the frames up to the line's
/// and wasn't told yet. Answers how much it took. `sentence` has no meaning before and behind it.
fn tell_line<F: FrameTeller>(
    teller: &mut LogTeller,
    frames: &mut F,
    piece: &[u8],
    sentence: &mut Vec<u8>,
    out: &mut Vec<u8>,
) -> Result<usize, AllocError>
    requires { 0 < length piece.now }
    ensures woven { (text : List ℕ) → ReaderStands teller.old.reader text (log_said text)
        → IfOk result (λ taken. Weaves teller.old teller.new text
        (take taken piece.now) out.old.items out.new.items) }
    ensures taken { IfOk result (λ taken. taken ≤ length piece.now) }
    ensures some { IfOk result (λ taken. 0 < taken) }
{
    sentence.clear();
    let step = teller.step(piece, sentence)?;
    if sentence.is_empty() {
        return Ok(step.taken);
    }
    frames.tell_frames(teller.last_frame(), out)?;
    out.extend_from_slice(sentence.as_slice())?;
    Ok(step.taken)
}

/// Appends the sentences of all lines that end in a piece, in front of each what was given to the frames up to the line's and wasn't told
/// yet.
pub(crate) fn tell_piece<F: FrameTeller>(
    teller: &mut LogTeller,
    frames: &mut F,
    piece: &[u8],
    sentence: &mut Vec<u8>,
    out: &mut Vec<u8>,
) -> Result<(), AllocError>
    ensures { (text : List ℕ) → ReaderStands teller.old.reader text (log_said text)
        → OnOk result (Weaves teller.old teller.new text piece.now out.old.items out.new.items) }
{
    let mut taken = 0;
    'lines: while taken < piece.len() {
        let step = tell_line(teller, frames, behind(piece, taken), sentence, out)?;
        taken += step;
    }
    Ok(())
}
