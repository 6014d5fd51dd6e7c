//! Two logs that are compared.

ghost use Rattle.std.specs.Prelude.{◌≡◌, ℕ, true, List, Some, IfOk, OnOk, option_map};
ghost use Rattle.ground_files.specs.Workspaces.{Held, input_taken, input_bytes};
ghost use Rattle.ground_files.specs.Inputs.{source_remaining};
ghost use Rattle.ground_differences.specs.Written.{IsWrittenOn};
ghost use Rattle.ground_differences.specs.Frames.{next_frame};
ghost use Rattle.ground_differences.specs.Compared.{ComparesOn, ComparesAll, IsFoundOf};
ghost use Rattle.ground_differences.specs.Differences.{IsCompared, AreUnfit, HasTold, IsSaidOf, status_found};

use crate::frame_source::FrameSource;
use crate::frame_teller::{Found, Teller};
use ground_files::{
    Fault, Source, Status, Workspace, input_name, is_stream, open_source, output_name, replaces,
    status_made, tell_fault, tell_replaced, tell_unread, tell_unwritten,
};
use ground_logs::Telling;
use log_lines::LogLine;
use std::io::{self, ErrorKind, Read, Write};

/// The frame that comes next in one of two logs.
fn next_frame(one: Option<LogLine>, other: Option<LogLine>) -> Option<u32>
    ensures { result ≡ next_frame one other }
{
    match (one, other) {
        (Some(one), Some(other)) => Some(one.frame.min(other.frame)),
        (Some(one), None) => Some(one.frame),
        (None, Some(other)) => Some(other.frame),
        (None, None) => None,
    }
}

/// What is asked for: which logs are compared, and where it is told.
#[derive(Clone, Copy, Drop)]
pub struct LogPair<'a> {
    /// The first log; `-` is standard input.
    pub one: &'a str,
    /// The second log, which isn't standard input where the first is.
    pub other: &'a str,
    /// The time of frame 0, in seconds.
    pub epoch: Option<u32>,
    /// The file that is written; `-` is standard output.
    pub output: &'a str,
}

impl<'a> LogPair<'a> {
    /// The name for people of a place where a comparison failed.
    fn name_at(&self, place: Place) -> &'a str {
        match place {
            Place::One => input_name(self.one),
            Place::Other => input_name(self.other),
            Place::Told => "the differences",
        }
    }
}

/// What a comparison of two logs gave.
#[derive(Clone, Copy, Debug, PartialEq, Eq)]
struct Compared {
    found: Found,
    /// Whether all lines are a log's.
    is_whole: bool,
}

/// Where a comparison failed.
#[derive(Clone, Copy, Debug, PartialEq, Eq)]
enum Place {
    One,
    Other,
    /// In what is told of both.
    Told,
}

/// What ended a comparison, and where.
#[derive(Drop)]
struct PlacedFault {
    place: Place,
    fault: Fault,
}

impl PlacedFault {
    fn of_one(fault: Fault) -> PlacedFault {
        let place = Place::One;
        PlacedFault { place, fault }
    }

    fn of_other(fault: Fault) -> PlacedFault {
        let place = Place::Other;
        PlacedFault { place, fault }
    }

    fn of_told(fault: Fault) -> PlacedFault {
        let place = Place::Told;
        PlacedFault { place, fault }
    }
}

/// Tells the frames of two logs, side by side, to the end of both.
#[tactic(auto, using(crate::proofs::WrittenLemmas::written_none, crate::proofs::WrittenLemmas::written_more, crate::proofs::WrittenLemmas::written_then))]
fn tell_frames<L: Read + Drop, E: Eprint, W: Write>(
    ones: &mut FrameSource<'_, L, E>,
    others: &mut FrameSource<'_, L, E>,
    teller: &mut Teller,
    out: &mut W,
) -> Result<(), PlacedFault>
    ensures written { OnOk result (IsWrittenOn (W.contents out.old) (W.contents out.new)) }
    ensures found { OnOk result (ComparesAll L.remaining ones.old others.old
        teller.old.found.first ones.new others.new teller.new.found.first) }
{
    'frames: for _turn in 0..u64::MAX {
        let Some(frame) = next_frame(ones.next(), others.next()) else {
            return Ok(());
        };
        tell_frame(frame, ones, others, teller, out)?;
    }
    let error = io::Error::from(ErrorKind::FileTooLarge);
    Err(PlacedFault::of_told(Fault::Read(error)))
}

/// Tells a frame of two logs.
#[tactic(auto, using(crate::proofs::WrittenLemmas::written_none, crate::proofs::WrittenLemmas::written_more, crate::proofs::WrittenLemmas::written_then))]
fn tell_frame<L: Read + Drop, E: Eprint, W: Write>(
    frame: u32,
    ones: &mut FrameSource<'_, L, E>,
    others: &mut FrameSource<'_, L, E>,
    teller: &mut Teller,
    out: &mut W,
) -> Result<(), PlacedFault>
    ensures written { OnOk result (IsWrittenOn (W.contents out.old) (W.contents out.new)) }
    ensures found { OnOk result (ComparesOn L.remaining ones.old others.old
        teller.old.found.first ones.new others.new teller.new.found.first) }
{
    ones.read_frame(frame).map_err(PlacedFault::of_one)?;
    others.read_frame(frame).map_err(PlacedFault::of_other)?;
    teller
        .tell_both(frame, ones.lines(), others.lines(), out)
        .map_err(PlacedFault::of_told)
}

/// A log that is compared: how its faults are told, and its bytes.
#[derive(Drop)]
struct Given<'a, L: Read + Drop, E: Eprint> {
    telling: Telling<'a, E>,
    log: L,
}

/// Tells the lines in which two logs differ in more than sequence counts, behind `-` those of the first and behind `+` those of the
/// second, with all lines of the frames around the first difference.
fn compare<L: Read + Drop, E: Eprint, W: Write>(
    epoch: Option<u32>,
    one: Given<'_, L, E>,
    other: Given<'_, L, E>,
    out: &mut W,
) -> Result<Compared, PlacedFault>
    ensures written { OnOk result (IsWrittenOn (W.contents out.old) (W.contents out.new)) }
    ensures found { IfOk result (λ compared. (text text_other : List ℕ)
        → L.remaining one.entry.log ≡ Some text → L.remaining other.entry.log ≡ Some text_other
        → IsFoundOf text text_other compared.is_whole compared.found.first) }
{
    let mut teller = Teller::new(one.telling.alloc, epoch);
    let Given { telling, log } = one;
    let mut ones = FrameSource::begin(&telling, log).map_err(PlacedFault::of_one)?;
    let Given {
        telling: telling_other,
        log: log_other,
    } = other;
    let mut others = FrameSource::begin(&telling_other, log_other).map_err(PlacedFault::of_other)?;
    tell_frames(&mut ones, &mut others, &mut teller, out)?;
    Ok(Compared {
        found: teller.found(),
        is_whole: ones.is_whole() && others.is_whole(),
    })
}

/// Says how two logs differ in all, and answers the status.
fn tell_found<R: Eprint>(rt: &R, pair: &LogPair<'_>, compared: &Compared) -> Status
    ensures { result ≡ status_found compared.now.is_whole compared.now.found.first }
{
    if let Some(frame) = compared.found.first {
        tell_counts(rt, pair, frame, &compared.found);
    }
    status_found(compared)
}

/// Says how many lines stand in one of two logs alone.
fn tell_counts<R: Eprint>(rt: &R, pair: &LogPair<'_>, frame: u32, found: &Found) {
    let (one, other) = (input_name(pair.one), input_name(pair.other));
    let (gone, come) = (found.gone, found.come);
    // There is no other place to tell it.
    let _told = eprint!(rt; "they differ from frame {frame} on: lines of {one} alone: {gone}");
    let _told = eprintln!(rt; ", lines of {other} alone: {come}");
}

/// The status of a comparison: a line that is none of a log's comes before differences.
fn status_found(compared: &Compared) -> Status
    ensures { result ≡ status_found compared.now.is_whole compared.now.found.first }
{
    if !compared.is_whole {
        return Status::FileRefused;
    }
    if compared.found.first.is_some() {
        Status::Unwanted
    } else {
        Status::Done
    }
}

/// An input that is compared.
fn open_given<'a, R: AllocGlobal + Eprint, W: Workspace>(
    rt: &'a R,
    workspace: &mut W,
    file: &'a str,
) -> Result<Given<'a, Source<W::Input, W::File>, R>, io::Error>
    ensures held { W.held workspace.new ≡ option_map (input_taken file.now)
        (W.held workspace.old) }
    ensures bytes { IfOk result (λ given. (before : Held) → W.held workspace.old ≡ Some before
        → (bytes : List ℕ) × (input_bytes file.now before ≡ Some bytes)
        × (source_remaining W.Input.remaining W.File.remaining given.log ≡ Some bytes)) }
{
    match open_source(workspace, file) {
        Ok(log) => Ok(Given {
            telling: Telling {
                rt,
                alloc: rt.alloc(),
                name: input_name(file),
            },
            log,
        }),
        Err(error) => Err(error),
    }
}

/// Why two logs aren't compared: the words name an input twice, or one that is written.
fn refuse<R: Eprint, W: Workspace>(rt: &R, workspace: &W, pair: &LogPair<'_>) -> bool
    ensures { result ≡ true → (now : Held) → W.held workspace.now ≡ Some now
        → AreUnfit pair.now now }
{
    if is_stream(pair.one) && is_stream(pair.other) {
        let _told = eprintln!(rt; "standard input can be one log alone");
        return true;
    }
    if replaces(workspace, pair.output, pair.one) || replaces(workspace, pair.output, pair.other) {
        tell_replaced(rt, pair.output);
        return true;
    }
    false
}

/// Tells the lines in which the two logs differ that the words name.
pub fn compare_logs<R: Eprint + AllocGlobal, W: Workspace>(
    rt: &R,
    workspace: &mut W,
    pair: &LogPair<'_>,
) -> Status
    ensures { (before : Held) → W.held workspace.old ≡ Some before
        → IsCompared pair.now result before (W.held workspace.new) }
{
    if refuse(rt, workspace, pair) {
        return Status::WordsRefused;
    }
    let one = match open_given(rt, workspace, pair.one) {
        Ok(given) => given,
        Err(error) => return tell_unread(rt, input_name(pair.one), &error),
    };
    let other = match open_given(rt, workspace, pair.other) {
        Ok(given) => given,
        Err(error) => return tell_unread(rt, input_name(pair.other), &error),
    };
    write_differences(rt, workspace, pair, one, other)
}

/// Writes the differences of two logs that are open.
fn write_differences<R: Eprint + AllocGlobal, W: Workspace, L: Read + Drop>(
    rt: &R,
    workspace: &mut W,
    pair: &LogPair<'_>,
    one: Given<'_, L, R>,
    other: Given<'_, L, R>,
) -> Status
    ensures told { (now : Held) → W.held workspace.old ≡ Some now
        → HasTold pair.now.output.now result now (W.held workspace.new) }
    ensures found { (text text_other : List ℕ) → L.remaining one.entry.log ≡ Some text
        → L.remaining other.entry.log ≡ Some text_other → IsSaidOf result text text_other }
{
    let output = output_name(pair.output);
    let mut draft = match workspace.begin(pair.output) {
        Ok(draft) => draft,
        Err(error) => return tell_unwritten(rt, output, &error),
    };
    let compared = compare(pair.epoch, one, other, &mut draft);
    let settled = workspace.settle(pair.output, draft, compared.is_ok());
    match compared {
        Ok(compared) => {
            let status = tell_found(rt, pair, &compared);
            status_made(rt, output, settled, status)
        }
        Err(PlacedFault { place, fault }) => { tell_fault(rt, pair.name_at(place), output, &fault) }
    }
}
