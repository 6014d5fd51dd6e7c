//! The run of one scenario, from its name to its report.

ghost use Rattle.std.specs.Prelude.{◌≡◌, ◌≢◌, ℕ, ◌≤◌, List, ◌++◌, length, IsTrue};
ghost use Rattle.fsw_outside.specs.Told.{WhereTold};
ghost use Rattle.fsw_outside.specs.Causes.{HasRisen};
ghost use Rattle.fsw_outside.specs.Files.{Content, file_named};
ghost use Rattle.packet_log.specs.Blocks.{tells};
ghost use Rattle.scenario.specs.Texts.{Text, Given};
ghost use Rattle.scenario.specs.FrameLists.{Frame};
ghost use Rattle.frame_exec.specs.Runs.{Setup};
ghost use Rattle.frame_exec.specs.Following.{Follows};
ghost use Rattle.frame_exec.specs.Standing.{waiting_in};
ghost use Rattle.frame_exec.specs.Beside.{crowd_in};
ghost use Rattle.frame_exec.specs.Tables.{AreLoaded};
ghost use Rattle.rehearsal.specs.Files.{OpensOnce};
ghost use Rattle.rehearsal.specs.Text.{IsRead, Holds};
ghost use Rattle.rehearsal.specs.Outcome.{fault_report, HasCauses, IsText, IsTextOf, ReadsAhead, Outcome};
ghost use Rattle.rehearsal.specs.Run.{Begins, HandsOn};

use crate::report::{Report, Status};
use crate::source::Source;
use crate::text::{Feed, Next, fetch, next_item, read_on};
use frame_exec::{Bench, OpenFault, Tables};
use fsw_outside::{Gate, Shelf, Sink};
use scenario::Reader;
use std::alloc::Global;
use std::thread::Threads;
use subjects::{Crowd, Subject};
use table_files::Files;

/// Hands on what waits behind the frames that were run, and answers the report of them; where that fails the output failed.
fn hand_on<O: Sink>(bench: &mut Bench<'_>, out: &mut O, report: Report) -> Report
    requires follows { (setup : Setup) × (earlier : List Frame) × (later : List Frame)
        × Follows bench.old setup earlier later × (report.frames ≡ length (earlier ++ later)) }
    requires ended { (report.status ≢ Status.ReadFailed) × (report.status ≢ Status.WriteFailed)
        × (report.status ≢ Status.WordsRefused) × (report.status ≢ Status.FileRefused)
        × (report.status ≢ Status.NoMemory) }
    ensures hands_on { (setup : Setup) (earlier later : List Frame)
        → Follows bench.old setup earlier later → report.frames ≡ length (earlier ++ later)
        → HandsOn result report setup earlier later (tells (O.held out.old) (waiting_in bench.old))
        (O.held out.new) }
    ensures write_failed { result.status ≡ Status.WriteFailed
        → HasRisen (O.held out.new) (O.faults out.old) (O.faults out.new) }
    ensures wrote_well { result.status ≢ Status.WriteFailed → O.faults out.new ≡ O.faults out.old }
    ensures well { (result.status ≢ Status.ReadFailed) × (result.status ≢ Status.WordsRefused)
        × (result.status ≢ Status.FileRefused) × (result.status ≢ Status.NoMemory) }
{
    match bench.flush(out) {
        Ok(()) => report,
        Err(cut) => Report::at(Status::WriteFailed, report.frames - cut.late),
    }
}

/// Runs the frames that the reader gives from here on, beside the crowd where there is one. Their lines are handed on before more of the text is read, and where
/// the block of the bench is full.
pub fn run_frames<R: Threads + Sync, C: Subject + Send, S: Source, O: Sink, G: Gate>(
    rt: &R,
    bench: &mut Bench<'_>,
    crowd: &mut Option<Crowd<C>>,
    source: &mut S,
    reader: &mut Reader,
    feed: &mut Feed,
    out: &mut O,
    gate: &G,
) -> Report
    requires opened { IsTrue (S.is_open source.old) }
    requires holds { (files : List (List ℕ)) × (text : Text) × (gave : List Given)
        × Holds reader.old feed.old text gave × Begins bench.old files gave }
    ensures outcome { (files : List (List ℕ)) (text : Text) (gave : List Given)
        → Holds reader.old feed.old text gave → Begins bench.old files gave
        → WhereTold (S.told source.old) (S.told source.new)
        (λ before after. (start : Content) → IsRead text feed.old.pending start before
        → (whole : Text) × IsTextOf (S.faults source.old) (S.faults source.new) start after whole
        × ReadsAhead result whole
        × WhereTold (O.held out.old) (O.held out.new)
        (Outcome result files (crowd_in C.seen crowd.old) whole)) }
    ensures is_open { IsTrue (S.is_open source.new) }
    ensures mark { S.mark source.new ≡ S.mark source.old }
    ensures causes { HasCauses result.status (S.told source.new) (S.faults source.old)
        (S.faults source.new) (O.held out.new) (O.faults out.old) (O.faults out.new) }
    ensures accepted { (result.status ≢ Status.WordsRefused) × (result.status ≢ Status.FileRefused)
        × (result.status ≢ Status.NoMemory) }
{
    let mut frames = 0;
    'frames: loop {
        match next_item(reader, feed) {
            Next::Header => {}
            Next::Frame => match bench.add_frame(rt, reader.frame(), crowd, gate, out) {
                Ok(()) => frames += 1,
                Err(cut) => return Report::at(Status::WriteFailed, frames - cut.late),
            },
            Next::Dry => match bench.flush(out) {
                Ok(()) => {
                    let Ok(()) = fetch(source, reader, feed) else {
                        return Report::at(Status::ReadFailed, frames);
                    };
                }
                Err(cut) => return Report::at(Status::WriteFailed, frames - cut.late),
            },
            Next::End => return hand_on(bench, out, Report::at(Status::Done, frames)),
            Next::Bad { line, reason } => {
                return hand_on(bench, out, Report::refused(line, reason, frames));
            }
        }
    }
}

/// The report of a bench that isn't opened.
fn report_of(fault: OpenFault) -> Report
    ensures { result ≡ fault_report fault }
{
    match fault {
        OpenFault::Region { file, entry } => Report::file_refused(file, entry, 10),
        OpenFault::NoMemory => Report::at(Status::NoMemory, 0),
    }
}

/// Reads the header of the text, and runs the frames behind it, beside the crowd where there is one.
pub fn run_open<'f, R: Threads + Sync, C: Subject + Send, S: Source, O: Sink, G: Gate>(
    rt: &R,
    alloc: Global,
    workers: u32,
    tables: Tables<'f>,
    files: &'f Files,
    crowd: &mut Option<Crowd<C>>,
    source: &mut S,
    out: &mut O,
    gate: &G,
) -> Report
    requires opened { IsTrue (S.is_open source.old) }
    requires workers { (1 ≤ workers) × (workers ≤ 16) }
    requires loaded { AreLoaded files.now tables }
    ensures outcome { WhereTold (S.told source.old) (S.told source.new) (λ start after.
        (whole : Text) × IsTextOf (S.faults source.old) (S.faults source.new) start after whole
        × ReadsAhead result whole
        × WhereTold (O.held out.old) (O.held out.new)
        (Outcome result files.now (crowd_in C.seen crowd.old) whole)) }
    ensures is_open { IsTrue (S.is_open source.new) }
    ensures mark { S.mark source.new ≡ S.mark source.old }
    ensures causes { HasCauses result.status (S.told source.new) (S.faults source.old)
        (S.faults source.new) (O.held out.new) (O.faults out.old) (O.faults out.new) }
    ensures accepted { result.status ≢ Status.WordsRefused }
    ensures file_refused { result.status ≡ Status.FileRefused → out.new ≡ out.old }
    ensures no_memory { result.status ≡ Status.NoMemory → (out.new ≡ out.old)
        × (result.frames ≡ 0) }
{
    let Ok(mut reader) = Reader::open(alloc) else {
        return Report::at(Status::NoMemory, 0);
    };
    let mut feed = Feed::new();
    match read_on(source, &mut reader, &mut feed) {
        Next::Dry => return Report::at(Status::ReadFailed, 0),
        Next::End => return Report::at(Status::Done, 0),
        Next::Bad { line, reason } => return Report::refused(line, reason, 0),
        Next::Frame => unreachable!(),
        Next::Header => {}
    }
    let mut bench = match Bench::open(alloc, tables, files, reader.header(), workers) {
        Ok(bench) => bench,
        Err(fault) => return report_of(fault),
    };
    run_frames(
        rt,
        &mut bench,
        crowd,
        source,
        &mut reader,
        &mut feed,
        out,
        gate,
    )
}

/// Opens the scenario of this name, and runs it, beside the crowd where there is one.
pub fn run_scenario<'f, R: Threads + Sync, C: Subject + Send, S: Shelf, O: Sink, G: Gate>(
    rt: &R,
    alloc: Global,
    workers: u32,
    tables: Tables<'f>,
    files: &'f Files,
    crowd: &mut Option<Crowd<C>>,
    name: &str,
    shelf: &mut S,
    out: &mut O,
    gate: &G,
) -> Report
    requires workers { (1 ≤ workers) × (workers ≤ 16) }
    requires loaded { AreLoaded files.now tables }
    ensures outcome { WhereTold (S.told shelf.old) (S.told shelf.new) (λ before after.
        (text : Text) × IsText (S.is_open shelf.new) (S.faults shelf.old) (S.faults shelf.new)
        (file_named before.files name.now) after.rest text × ReadsAhead result text
        × WhereTold (O.held out.old) (O.held out.new)
        (Outcome result files.now (crowd_in C.seen crowd.old) text)) }
    ensures opening { WhereTold (S.told shelf.old) (S.told shelf.new) (OpensOnce name.now) }
    ensures mark { S.mark shelf.new ≡ S.faults shelf.old }
    ensures causes { HasCauses result.status (S.told shelf.new) (S.faults shelf.old)
        (S.faults shelf.new) (O.held out.new) (O.faults out.old) (O.faults out.new) }
    ensures accepted { result.status ≢ Status.WordsRefused }
    ensures file_refused { result.status ≡ Status.FileRefused → out.new ≡ out.old }
    ensures no_memory { result.status ≡ Status.NoMemory → (out.new ≡ out.old)
        × (result.frames ≡ 0) }
    ensures opened { result.status ≢ Status.ReadFailed → IsTrue (S.is_open shelf.new) }
{
    let Ok(()) = shelf.open(name) else {
        return Report::at(Status::ReadFailed, 0);
    };
    run_open(rt, alloc, workers, tables, files, crowd, shelf, out, gate)
}
