//! The run of a generated scenario, and the summary of its log.

ghost use Rattle.std.specs.Prelude.{◌≡◌, ◌≢◌, ℕ, ◌≤◌, ◌⊎◌};
ghost use Rattle.fsw_outside.specs.Told.{WhereTold};
ghost use Rattle.fsw_outside.specs.Causes.{HasRisen};
ghost use Rattle.fsw_outside.specs.Tally.{tally_of};
ghost use Rattle.packet_log.specs.Summaries.{summary_text};
ghost use Rattle.packet_log.specs.Logged.{logged};
ghost use Rattle.scenario.specs.Drill.{drill_text};
ghost use Rattle.frame_exec.specs.Tables.{AreLoaded};
ghost use Rattle.frame_exec.specs.Beside.{crowd_in};
ghost use Rattle.rehearsal.specs.Drill.{unread_in};
ghost use Rattle.rehearsal.specs.Outcome.{DrillOutcome, LeavesFrames};
ghost use Rattle.rehearsal.specs.Run.{failed_at, Sums};

use crate::report::{Report, Status};
use crate::run::run_open;
use crate::source::Source;
use frame_exec::Tables;
use fsw_outside::{Failed, Gate, Sink};
use packet_log::{Summary, put_text};
use scenario::Drill;
use std::alloc::Global;
use std::thread::Threads;
use subjects::{Crowd, Subject};
use table_files::Files;

/// The text of a generated scenario, as what is still to come of it.
#[derive(Drop)]
pub struct DrillText {
    drill: Drill,
}

impl DrillText {
    /// The whole text of the generated scenario of this number.
    pub fn start(k: u32) -> DrillText
        requires { k ≤ 999999 }
        ensures { unread_in result ≡ drill_text k }
    {
        DrillText {
            drill: Drill::start(k),
        }
    }
}

impl Source for DrillText {
    ghost use Rattle.std.specs.Prelude.{[], Some, None, true};
    ghost use Rattle.rehearsal.specs.Drill.{unread_in};

    ghost told = { λ t.
        Some (record { files = []; rest = unread_in t; openings = 0; name = None }) };

    ghost is_open = { λ t. true };

    ghost faults = { λ t. 0 };

    ghost mark = { λ t. 0 };

    fn read(&mut self, piece: &mut [u8]) -> Result<usize, Failed> {
        Ok(self.drill.next(piece))
    }
}

/// Writes the summary of a run, and answers its report; where that fails the output failed.
fn write_summary<O: Sink>(summary: &Summary, out: &mut O, report: Report) -> Report
    requires ended { report.status ≡ Status.Done }
    ensures sums { WhereTold (O.held out.old) (O.held out.new)
        (Sums result report (summary_text report.frames (tally_of (logged summary.now)))) }
    ensures write_failed { result.status ≡ Status.WriteFailed
        → HasRisen (O.held out.new) (O.faults out.old) (O.faults out.new) }
    ensures wrote_well { result.status ≢ Status.WriteFailed → O.faults out.new ≡ O.faults out.old }
    ensures ends { (result ≡ report) ⊎ (result ≡ failed_at report.frames) }
{
    let text = summary.text(report.frames);
    match put_text(out, text.as_str()) {
        Ok(()) => report,
        Err(_) => Report::at(Status::WriteFailed, report.frames),
    }
}

/// Runs a generated scenario, of which nothing was read, with these tables, beside the crowd where there is one. The summary
/// of its log is written behind the last frame, and nothing else is. Its text ends well and no read of it fails. Where memory
/// runs out none of its frames was run: its text was read no further than a piece past the header.
// In one stack frame with its caller, which has room for a bench as well.
#[inline(always)]
pub fn run_drill<'f, R: Threads + Sync, C: Subject + Send, O: Sink, G: Gate>(
    rt: &R,
    alloc: Global,
    workers: u32,
    tables: Tables<'f>,
    files: &'f Files,
    crowd: &mut Option<Crowd<C>>,
    text: &mut DrillText,
    out: &mut O,
    gate: &G,
) -> Report
    requires workers { (1 ≤ workers) × (workers ≤ 16) }
    requires loaded { AreLoaded files.now tables }
    requires drawn { (k : ℕ) × (unread_in text.old ≡ drill_text k) }
    ensures outcome { (k : ℕ) → unread_in text.old ≡ drill_text k
        → WhereTold (O.held out.old) (O.held out.new)
        (DrillOutcome result files.now (crowd_in C.seen crowd.old) k) }
    ensures well { (result.status ≢ Status.WordsRefused) × (result.status ≢ Status.ReadFailed)
        × (result.status ≢ Status.ScenarioRefused) }
    ensures file_refused { result.status ≡ Status.FileRefused → out.new ≡ out.old }
    ensures no_memory { result.status ≡ Status.NoMemory → (out.new ≡ out.old)
        × (result.frames ≡ 0) }
    ensures unrun { result.status ≡ Status.NoMemory
        → LeavesFrames (unread_in text.old) (unread_in text.new) }
    ensures write_failed { result.status ≡ Status.WriteFailed
        → HasRisen (O.held out.new) (O.faults out.old) (O.faults out.new) }
    ensures wrote_well { result.status ≢ Status.WriteFailed → O.faults out.new ≡ O.faults out.old }
{
    let mut summary = Summary::start();
    let report = run_open(
        rt,
        alloc,
        workers,
        tables,
        files,
        crowd,
        text,
        &mut summary,
        gate,
    );
    match report.status {
        Status::Done => write_summary(&summary, out, report),
        Status::FileRefused => report,
        Status::NoMemory => report,
        Status::WordsRefused => unreachable!(),
        Status::ScenarioRefused => unreachable!(),
        Status::ReadFailed => unreachable!(),
        Status::WriteFailed => unreachable!(),
    }
}
