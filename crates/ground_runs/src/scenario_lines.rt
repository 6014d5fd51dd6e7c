//! The line of a scenario that is refused, and what stands before it.

use std::alloc::AllocError;
use std::io::{self, Read};

/// How many bytes of a line are looked at: one more than a scenario's line has.
const MOST_BYTES: usize = 641;

/// How many bytes of a text are read for a line: more than a scenario has that is read to its end, and fewer than a device without one gives.
const MOST_READ: usize = 16_800_000;

/// How many bytes are read of a scenario's header, with the comments in it.
const MOST_HEADER: u64 = 65_536;

/// A line of a text, as far as it is looked at.
pub fn find_line<R: Read>(text: &mut R, number: u32, line: &mut Vec<u8>) -> io::Result<()> {
    let mut piece = [0u8; 4_096];
    let mut at: u32 = 1;
    let mut read: usize = 0;
    line.clear();
    for _ in 0..u64::MAX {
        let count = text.read(&mut piece)?;
        if count == 0 || at > number || read > MOST_READ {
            return Ok(());
        }
        read = read.saturating_add(count);
        for byte in &piece[..count] {
            if *byte == b'\n' {
                at = at.saturating_add(1);
            } else if at == number && line.len() < MOST_BYTES {
                line.push(*byte).map_err(AllocError::from)?;
            }
        }
    }
    Ok(())
}

/// The beginning of a text, in which the header of a scenario stands.
pub(crate) fn read_beginning<R: Read + Drop>(text: R, beginning: &mut Vec<u8>) -> io::Result<()> {
    let mut few = text.take(MOST_HEADER);
    few.read_to_end(beginning)?;
    Ok(())
}
