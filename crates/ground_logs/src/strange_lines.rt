//! The lines that are none of a log's, as they are told.

use crate::other_files::other_file;
use crate::telling::Telling;
use ground_files::Fault;
use log_lines::{LineFault, LogFault};
use packet_forms::{PacketFault, behind, front};

/// How many of the lines that are none of a log's are told one by one.
const MOST_TOLD: u64 = 5;

/// How many lines were none of a log's so far: of the first few it is told why, of the others how many they are.
#[derive(Clone, Copy, Debug, PartialEq, Eq)]
pub(crate) struct StrangeLines {
    count: u64,
}

/// The last line of a piece that ends with it, without its LF.
fn last_line(piece: &[u8]) -> &[u8] {
    let whole = match piece.split_last() {
        Some((b'\n', before)) => before,
        _ => piece,
    };
    match whole.iter().rposition(|byte| *byte == b'\n') {
        Some(end) => behind(whole, end.saturating_add(1)),
        None => whole,
    }
}

/// What else is so of a line that is none of a log's.
fn line_hint(line: &[u8], fault: LineFault) -> &'static str {
    if line.ends_with(b"\r") {
        return ", and the line ends with a carriage return: save the log with LF line ends";
    }
    if line.iter().any(|byte| *byte == b'\t') {
        return ", and the line has a tab: words stand between spaces";
    }
    if line.iter().any(|byte| *byte == 0) {
        return ", and the line has bytes that are zero, as a text in UTF-16 does: save the log as UTF-8";
    }
    match fault {
        LineFault::Packet(PacketFault::Length) => {
            ": the packet's length field, its fifth and sixth byte, isn't the number of bytes behind them less one"
        }
        _ => "",
    }
}

impl StrangeLines {
    /// No line was none of a log's so far.
    pub(crate) fn new() -> StrangeLines {
        StrangeLines { count: 0 }
    }

    /// Tells to standard error that a line is none of a log's, where it is one of the first few, and of the first line of a file what the
    /// file is, where that is known. `piece` was read last of the log, and the line ends at `end` of it.
    pub(crate) fn tell<E: Eprint>(
        &mut self,
        telling: &Telling<'_, E>,
        fault: LogFault,
        piece: &[u8],
        end: usize,
    ) -> Result<(), Fault> {
        if fault.line == 1 {
            tell_other(telling, piece)?;
        }
        self.count = self.count.saturating_add(1);
        if self.count > MOST_TOLD {
            return Ok(());
        }
        let hint = line_hint(last_line(front(piece, end)), fault.fault);
        eprintln!(telling.rt; "{}, {fault}{hint}", telling.name).map_err(Fault::Write)
    }

    /// Tells how many lines more were none of a log's. None is left to tell then.
    pub(crate) fn tell_rest<E: Eprint>(&mut self, telling: &Telling<'_, E>) -> Result<(), Fault> {
        let rest = self.count.saturating_sub(MOST_TOLD);
        self.count = 0;
        let told = match rest {
            0 => return Ok(()),
            1 => eprintln!(telling.rt; "{}: 1 line more is none of a log's", telling.name),
            _ => eprintln!(telling.rt; "{}: {rest} lines more are none of a log's", telling.name),
        };
        told.map_err(Fault::Write)
    }
}

/// Tells what a file is whose first line is none of a log's, where that is known.
fn tell_other<E: Eprint>(telling: &Telling<'_, E>, piece: &[u8]) -> Result<(), Fault> {
    match other_file(piece) {
        Some(kind) => eprintln!(telling.rt; "{}: {kind}", telling.name).map_err(Fault::Write),
        None => Ok(()),
    }
}
