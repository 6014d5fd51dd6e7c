//! A log's packets as a capture.

ghost use Rattle.std.specs.Prelude.{◌≡◌, ◌++◌, ℕ, List, Some, OnOk, IfOk};
ghost use Rattle.ground_exports.specs.Records.{record_of, second_of, line_record, IsCaptureOf};

use ground_files::Fault;
use ground_logs::{LineMaker, Telling, write_made};
use log_lines::{LineItem, LogLine};
use pcap_form::{put_header, put_packet};
use std::alloc::AllocError;
use std::io::{Read, Write};

/// Makes of each packet that was sent its record, at its frame's second behind `epoch`, the time of frame 0 in seconds since 1970. A
/// packet that a pipe dropped stands in a line of its own where it was sent, and has no record.
#[derive(Clone, Copy, Debug)]
pub struct Records {
    pub epoch: u32,
}

/// The second of a frame, in seconds since 1970; one beyond 2^32 - 1 is 2^32 - 1.
fn second_of(epoch: u32, frame: u32) -> u32
    ensures { result ≡ second_of epoch frame }
{
    epoch.saturating_add(frame)
}

/// Appends the record of the packet that a line tells of, at these seconds.
fn put_line(seconds: u32, line: &LogLine, out: &mut Vec<u8>) -> Result<(), AllocError>
    ensures { OnOk result (out.new.items ≡ out.old.items ++ record_of seconds line.now.item) }
{
    match &line.item {
        LineItem::Packet(packet) => put_packet(seconds, packet.bytes(), out),
        LineItem::Drop(_) | LineItem::Reset | LineItem::Restart(_) | LineItem::Delete(_) => Ok(()),
    }
}

impl LineMaker for Records {
    ghost use Rattle.ground_exports.specs.Records.{line_record};

    ghost makes = { λ records line made. made ≡ line_record records.epoch line };

    fn make(&self, line: &LogLine, out: &mut Vec<u8>) -> Result<(), AllocError>
        ensures { OnOk result ((made : List ℕ) × (out.new.items ≡ out.old.items ++ made)
            × (made ≡ line_record self.now.epoch line.now)) }
    {
        put_line(second_of(self.epoch, line.frame), line, out)?;
        Ok(())
    }
}

/// Makes a log a capture: its header, and behind it the records of the packets that were sent, in their order. Says whether all lines
/// are a log's, as `Telling::make` does. A second beyond 2^32 - 1 is 2^32 - 1.
pub fn write_capture<E: Eprint, R: Read + Drop, W: Write>(
    telling: &Telling<'_, E>,
    epoch: u32,
    mut log: R,
    out: &mut W,
) -> Result<bool, Fault>
    ensures { IfOk result (λ whole. (text : List ℕ) → R.remaining log ≡ Some text
        → IsCaptureOf epoch text whole (W.contents out.old) (W.contents out.new)) }
{
    let mut header = Vec::new(telling.alloc);
    put_header(&mut header)?;
    write_made(header.as_slice(), out)?;
    telling.make(Records { epoch }, &mut log, out)
}
