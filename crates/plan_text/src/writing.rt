//! Lines that are written.
ghost use Rattle.std.specs.Prelude.{◌≡◌, ◌++◌, ◌∷◌, [], replicate, OnOk};
ghost use Rattle.row_forms.specs.Words.{words};
ghost use Rattle.row_forms.specs.Rows.{spaced};
ghost use Rattle.plan_text.specs.Lines.{line_text, text_of, tick, end, sent_line};

use packet_forms::Packet;
use row_forms::{push_hex, split_word};
use std::alloc::AllocError;

/// Appends the words of a line, each with a space in front.
fn put_words(line: &[u8], out: &mut Vec<u8>) -> Result<(), AllocError>
    ensures { OnOk result (out.new.items ≡ out.old.items ++ spaced (words line.now)) }
{
    let mut rest = line;
    'words: while let Some((word, more)) = split_word(rest) {
        out.push(b' ')?;
        out.extend_from_slice(word)?;
        rest = more;
    }
    Ok(())
}

/// Appends a line of a word and those of `others`.
pub fn put_line(word: &[u8], others: &[u8], out: &mut Vec<u8>) -> Result<(), AllocError>
    ensures { OnOk result (out.new.items ≡ out.old.items
        ++ line_text (word.now ∷ words others.now)) }
{
    out.extend_from_slice(word)?;
    put_words(others, out)?;
    out.push(b'\n')?;
    Ok(())
}

/// Appends the line that sends a packet.
#[tactic(auto, unfolding(row_forms::specs::Rows::spaced))]
pub fn put_sent(packet: &Packet, out: &mut Vec<u8>) -> Result<(), AllocError>
    ensures { OnOk result (out.new.items ≡ out.old.items ++ line_text (sent_line packet.now)) }
{
    out.extend_from_slice(b"send ")?;
    push_hex(packet.bytes(), out)?;
    out.push(b'\n')?;
    Ok(())
}

/// Appends so many lines `tick`.
pub(crate) fn put_ticks(count: u32, out: &mut Vec<u8>) -> Result<(), AllocError>
    ensures { OnOk result (out.new.items ≡ out.old.items ++ text_of (replicate count tick)) }
{
    for _done in 0..count {
        out.extend_from_slice(b"tick\n")?;
    }
    Ok(())
}

/// Appends so many lines `tick`, and `end`.
pub(crate) fn put_end(count: u32, out: &mut Vec<u8>) -> Result<(), AllocError>
    ensures { OnOk result (out.new.items ≡ out.old.items
        ++ text_of (replicate count tick ++ end ∷ [])) }
{
    put_ticks(count, out)?;
    out.extend_from_slice(b"end\n")?;
    Ok(())
}
