//! The bytes of a slice.
ghost use Rattle.std.specs.Prelude.{◌≡◌, ◌+◌, ◌<◌, ◌^◌, take, drop};
ghost use Rattle.memory_window.specs.Window.{seen};
ghost use Rattle.cs_slices.specs.Slices.{slice_size, entry_bytes};

use crate::segments::Segment;
use memory_window::Window;

/// The most bytes that a slice has.
const SLICE: u32 = 1024;

/// How many bytes a slice has that begins at an offset of an entry.
pub(crate) fn slice_size(segment: Segment, from: u32) -> u32
    ensures size { result ≡ slice_size segment from }
    ensures fits { from + result < 2 ^ 32 }
{
    segment.len.saturating_sub(from).min(SLICE)
}

/// The bytes of an entry, none where the window doesn't give them.
#[tactic(auto, unfolding(crate::specs::Slices::entry_bytes))]
pub(crate) fn entry_bytes<'a>(window: Window<'a>, segment: Segment) -> &'a [u8]
    ensures { result.now ≡ entry_bytes (seen window.entry) segment }
{
    if segment.len == 0 {
        return &[];
    }
    match window.bytes(segment.start, segment.len) {
        Ok(bytes) => bytes,
        Err(_) => &[],
    }
}

/// So many bytes from an offset on, or those of them that there are.
pub(crate) fn part(bytes: &[u8], from: u32, size: u32) -> &[u8]
    ensures { result.now ≡ take size (drop from bytes.now) }
{
    let behind = match bytes.get(from as usize..) {
        Some(behind) => behind,
        None => &[],
    };
    match behind.get(..size as usize) {
        Some(front) => front,
        None => behind,
    }
}
