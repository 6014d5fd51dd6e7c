//! The writing of a whole text to a sink that may take it piece by piece.

ghost use Rattle.std.specs.Prelude.{◌≡◌, ◌<◌, ◌++◌, length, take, MatchResult};
ghost use Rattle.fsw_outside.specs.Told.{WhereTold};
ghost use Rattle.fsw_outside.specs.Causes.{HasCause};
ghost use Rattle.fsw_outside.specs.Written.{WritesAll};

use fsw_outside::{Failed, Sink};
use packet_forms::behind;

/// Writes all of the text, or a proper first part of it where the sink fails.
pub fn put_text<O: Sink>(sink: &mut O, text: &str) -> Result<(), Failed>
    ensures content { WhereTold (O.held sink.old) (O.held sink.new) (WritesAll result text.now) }
    ensures cause { HasCause (O.held sink.new) (O.faults sink.old) (O.faults sink.new) result }
{
    put_bytes(sink, text.as_bytes())
}

/// Writes all of the bytes, or a proper first part of them where the sink fails.
pub fn put_bytes<O: Sink>(sink: &mut O, bytes: &[u8]) -> Result<(), Failed>
    ensures content { WhereTold (O.held sink.old) (O.held sink.new) (WritesAll result bytes.now) }
    ensures cause { HasCause (O.held sink.new) (O.faults sink.old) (O.faults sink.new) result }
{
    let mut taken = 0;
    put_part(sink, bytes, &mut taken)
}

/// Writes all of the bytes, or a proper first part of them where the sink fails, and tells how many the sink took.
pub(crate) fn put_part<O: Sink>(sink: &mut O, bytes: &[u8], taken: &mut usize) -> Result<(), Failed>
    ensures size { MatchResult result (λ _. taken.new ≡ length bytes.now) (λ _. taken.new
        < length bytes.now) }
    ensures content { WhereTold (O.held sink.old) (O.held sink.new) (λ before after. after ≡ before
        ++ take taken.new bytes.now) }
    ensures cause { HasCause (O.held sink.new) (O.faults sink.old) (O.faults sink.new) result }
{
    *taken = 0;
    'pieces: while *taken < bytes.len() {
        match sink.write(behind(bytes, *taken)) {
            Ok(count) => *taken += count,
            Err(_) => return Err(Failed),
        }
    }
    Ok(())
}
