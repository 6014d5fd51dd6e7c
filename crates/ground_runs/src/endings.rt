//! Why a rehearsal ended, in words.

ghost use Rattle.std.specs.Prelude.{◌≡◌, false};
ghost use Rattle.ground_runs.specs.Endings.{status_at, is_kept, is_reported};

use crate::asked_run::Run;
use crate::scenario_lines::{find_line, read_beginning};
use crate::second_looks::{can_be_read_again, read_again};
use ground_faults::{
    LineCause, PAYLOAD, line_cause, scenario_map, tell_entry, tell_headers, tell_long, tell_read,
};
use ground_files::{
    Status, Workspace, input_name, is_stream, output_name, tell_no_memory, tell_unwritten,
};
use ground_tools::Trouble;
use packet_forms::{behind, front};
use rehearsal::{Report, Status as End};
use std::alloc::Global;
use std::io::{self, Read};
use table_files::{FileImage, read_file};
use table_forms::{TableFault, find_refusal};

/// The reason of a file that is longer than any that is read.
const TOO_LONG: u8 = 9;

/// The reason of an entry whose read the memory of the scenario doesn't give.
const NOT_GIVEN: u8 = 10;

/// How many FILEs a rehearsal takes.
const MOST_FILES: usize = 100;

/// How many bytes of a line are shown.
const MOST_SHOWN: usize = 200;

/// The line of a scenario's text, as far as it can be read again.
fn line_of<W: Workspace>(alloc: Global, workspace: &mut W, path: &str, number: u32) -> Vec<u8>
    ensures { W.held workspace.new ≡ W.held workspace.old }
{
    let mut line = Vec::new(alloc);
    if !can_be_read_again(workspace, path).unwrap_or(false) {
        return line;
    }
    if let Ok(mut text) = workspace.open(path) {
        let _found = find_line(&mut text, number, &mut line);
    }
    line
}

/// Tells of an entry that is refused, by its number and the program's number for the reason.
fn tell_number<R: Eprint>(rt: &R, path: &str, entry: u32, reason: u8) -> io::Result<()> {
    if reason == TOO_LONG {
        return eprintln!(rt; "{path}: it has over 65700 bytes (reason {reason})");
    }
    if reason == NOT_GIVEN {
        return eprintln!(rt;
            "{path}: entry {entry}: the memory of the scenario doesn't give what it reads (reason {reason})"
        );
    }
    eprintln!(rt;
        "{path}: entry {entry}: reason {reason} (docs/FILES.md; a file that is given by its path is told in words, and what comes through a pipe can't be read again)"
    )
}

/// Tells of an entry whose read the memory of a scenario doesn't give, and why, by what another look at both finds.
fn tell_refused_read<R: Eprint + AllocGlobal>(
    rt: &R,
    beginning: &[u8],
    path: &str,
    file: &[u8],
    entry: u32,
) -> io::Result<()> {
    match read_file(file) {
        Ok(FileImage::Table { kind, payload }) => {
            let map = scenario_map(rt.alloc(), beginning).ok();
            Ok(tell_read(rt, map.as_ref(), path, kind, payload, entry)?)
        }
        Ok(FileImage::Load { at: _, bytes: _ }) | Err(_) => {
            tell_number(rt, path, entry, NOT_GIVEN)
        }
    }
}

/// Tells why a file is refused, by what another look at it finds: its entry and why, or what is wrong with its headers.
fn tell_found<R: Eprint + AllocGlobal>(
    rt: &R,
    path: &str,
    file: &[u8],
    report: &Report,
) -> io::Result<()> {
    let reason = report.reason;
    match find_refusal(file) {
        Some(TableFault::Entry(kind, fault)) => {
            Ok(tell_entry(rt, path, kind, behind(file, PAYLOAD), fault)?)
        }
        Some(TableFault::File(fault)) => tell_headers(rt, path, file, fault),
        Some(fault) => eprintln!(rt; "{path}: {fault} (reason {reason})"),
        None => tell_number(rt, path, report.line, reason),
    }
}

/// Tells why a file is refused: in words where it can be read again, and else by the numbers that the rehearsal gave.
fn tell_file<R: Eprint + AllocGlobal, W: Workspace>(
    rt: &R,
    workspace: &mut W,
    scenario: &str,
    path: &str,
    report: &Report,
) -> io::Result<()>
    ensures { W.held workspace.new ≡ W.held workspace.old }
{
    let reason = report.reason;
    let Ok(Some(file)) = read_again(rt.alloc(), workspace, path) else {
        return tell_number(rt, input_name(path), report.line, reason);
    };
    if reason == TOO_LONG {
        return tell_long(rt, path, file.as_slice());
    }
    if reason == NOT_GIVEN {
        let beginning = beginning_of(rt.alloc(), workspace, scenario);
        return tell_refused_read(rt, beginning.as_slice(), path, file.as_slice(), report.line);
    }
    tell_found(rt, path, file.as_slice(), report)
}

/// The beginning of a scenario's text, as far as it can be read again.
fn beginning_of<W: Workspace>(alloc: Global, workspace: &mut W, path: &str) -> Vec<u8>
    ensures { W.held workspace.new ≡ W.held workspace.old }
{
    let mut beginning = Vec::new(alloc);
    if !can_be_read_again(workspace, path).unwrap_or(false) {
        return beginning;
    }
    if let Ok(text) = workspace.open(path) {
        let _read = read_beginning(text, &mut beginning);
    }
    beginning
}

/// Why a scenario is refused at a line. The lines are counted from 1.
fn cause_at<W: Workspace>(
    alloc: Global,
    workspace: &mut W,
    path: &str,
    report: &Report,
    line: &[u8],
) -> LineCause
    ensures { W.held workspace.new ≡ W.held workspace.old }
{
    if report.line == 0 {
        return LineCause::Words("the text is empty");
    }
    let beginning = beginning_of(alloc, workspace, path);
    line_cause(beginning.as_slice(), report.line, report.reason, line)
}

/// Tells why a scenario is refused, and shows the line.
fn tell_line<R: Eprint + AllocGlobal, W: Workspace>(
    rt: &R,
    workspace: &mut W,
    path: &str,
    report: &Report,
) -> io::Result<()>
    ensures { W.held workspace.new ≡ W.held workspace.old }
{
    let (number, reason) = (report.line, report.reason);
    let line = line_of(rt.alloc(), workspace, path, number);
    let cause = cause_at(rt.alloc(), workspace, path, report, line.as_slice());
    let name = input_name(path);
    match std::str::from_utf8(front(line.as_slice(), MOST_SHOWN)) {
        Ok(text) if !text.is_empty() => {
            eprintln!(rt; "{name}: line {number}: {cause} (reason {reason}): {text:?}")
        }
        _ if can_be_read_again(workspace, path).unwrap_or(false) => {
            eprintln!(rt; "{name}: line {number}: {cause} (reason {reason})")
        }
        _ => eprintln!(rt;
            "{name}: line {number}: {cause} (reason {reason}; of a scenario that is given by its path more is told: what comes through a pipe can't be read again)"
        ),
    }
}

/// Tells why a regular file can't be read, as far as another try shows it.
fn tell_tried<R: Eprint, W: Workspace>(rt: &R, workspace: &mut W, path: &str) -> io::Result<()>
    ensures { W.held workspace.new ≡ W.held workspace.old }
{
    let mut piece = [0u8; 1];
    let error = match workspace.open(path) {
        Ok(mut file) => file.read(&mut piece).err(),
        Err(error) => Some(error),
    };
    match error {
        Some(error) => eprintln!(rt; "{path}: it can't be read: {error}"),
        None => eprintln!(rt; "{path}: it can't be read"),
    }
}

/// Tells why an input can't be read. Only a regular file is tried again: the opening of a pipe may wait for ever.
fn tell_unread<R: Eprint, W: Workspace>(rt: &R, workspace: &mut W, path: &str) -> io::Result<()>
    ensures { W.held workspace.new ≡ W.held workspace.old }
{
    if is_stream(path) {
        return eprintln!(rt; "{0}: it can't be read", input_name(path));
    }
    match workspace.is_file(path) {
        Ok(true) => tell_tried(rt, workspace, path),
        Ok(false) => eprintln!(rt; "{path}: it can't be read: it is no regular file"),
        Err(error) => eprintln!(rt; "{path}: it can't be read: {error}"),
    }
}

/// The status of a rehearsal that ended so.
fn status_of_end(end: End) -> Status
    ensures { result ≡ status_at end }
{
    match end {
        End::Done => Status::Done,
        End::WordsRefused => Status::WordsRefused,
        End::FileRefused => Status::FileRefused,
        End::ScenarioRefused => Status::ScenarioRefused,
        End::ReadFailed => Status::ReadFailed,
        End::WriteFailed => Status::WriteFailed,
        End::NoMemory => Status::NoMemory,
    }
}

/// Tells why the words of a rehearsal with so many FILEs are refused.
fn tell_words<R: Eprint>(rt: &R, files: usize) -> io::Result<()> {
    if files > MOST_FILES {
        return eprintln!(rt;
            "the words are refused: at most {MOST_FILES} files may follow the scenario, and these are {files}"
        );
    }
    eprintln!(rt; "the words are refused: `--workers` takes 1 to 16")
}

/// Who tells why a rehearsal ended.
pub trait CauseTeller {
    /// Tells why a rehearsal ended, but for a failed write.
    fn tell_cause<R: Eprint + AllocGlobal, W: Workspace>(
        &self,
        rt: &R,
        workspace: &mut W,
        report: &Report,
    ) -> io::Result<()>
        ensures { W.held workspace.new ≡ W.held workspace.old };
}

impl CauseTeller for Run<'_> {
    fn tell_cause<R: Eprint + AllocGlobal, W: Workspace>(
        &self,
        rt: &R,
        workspace: &mut W,
        report: &Report,
    ) -> io::Result<()> {
        let path = self.input_path(report.file);
        match report.status {
            End::Done | End::WriteFailed => Ok(()),
            End::WordsRefused => tell_words(rt, self.files.len()),
            End::FileRefused => tell_file(rt, workspace, self.scenario, path, report),
            End::ScenarioRefused => tell_line(rt, workspace, path, report),
            End::ReadFailed => tell_unread(rt, workspace, path),
            End::NoMemory => eprintln!(rt; "memory ran out"),
        }
    }
}

/// Tells how a rehearsal ended, but for a failed write, and answers the status.
pub fn tell_end<R: Eprint + AllocGlobal, W: Workspace, T: CauseTeller>(
    rt: &R,
    workspace: &mut W,
    teller: &T,
    report: &Report,
) -> Status
    ensures held { W.held workspace.new ≡ W.held workspace.old }
    ensures status { result ≡ status_at report.now.status }
{
    // There is no other place to tell it.
    let _told = teller.tell_cause(rt, workspace, report);
    status_of_end(report.status)
}

/// Tells what failed as the log was written or told, with the error where it is known, and answers the status.
pub(crate) fn tell_trouble<R: Eprint>(
    rt: &R,
    run: &Run<'_>,
    trouble: Option<Trouble>,
    error: Option<&io::Error>,
) -> Status
    ensures { is_reported result ≡ false }
{
    let place = match trouble {
        Some(Trouble::Memory) => return tell_no_memory(rt),
        Some(Trouble::Words) => output_name(run.output),
        None => run.log_name(),
    };
    if let Some(error) = error {
        return tell_unwritten(rt, place, error);
    }
    let _told = eprintln!(rt; "{place}: it can't be written");
    Status::WriteFailed
}

/// Whether an output is whole where a rehearsal ends so: it has all frames, or all that the scenario gave before its fault.
pub fn is_whole(status: Status, frames: u32) -> bool
    ensures { result ≡ is_kept status frames }
{
    match status {
        Status::Done | Status::Unwanted => true,
        Status::ScenarioRefused | Status::ReadFailed => frames > 0,
        Status::WordsRefused | Status::FileRefused | Status::WriteFailed | Status::NoMemory => {
            false
        }
    }
}
