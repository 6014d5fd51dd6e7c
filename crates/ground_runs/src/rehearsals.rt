//! Rehearsals into outputs.

ghost use Rattle.std.specs.Prelude.{◌≡◌, ◌≢◌, true};
ghost use Rattle.rehearsal.specs.Promise.{shelf_use};
ghost use Rattle.ground_files.specs.declared.verb_status.Status.TheVariants as statuses;
ghost use Rattle.ground_runs.specs.Endings.{is_reported};
ghost use Rattle.ground_runs.specs.KeptLogs.{staged, WritesLog};

use crate::asked_run::Run;
use crate::draft_sinks::DraftSink;
use crate::draft_tellers::DraftTeller;
use crate::endings::CauseTeller;
use crate::fault_tellers::FaultTeller;
use crate::rehearsing::rehearse_on;
use crate::run_ends::{Ending, end_drill, end_run};
use fsw_outside::Shelf;
use ground_tools::{FrameTeller, ToldLog};
use rehearsal::Words;
use std::thread::Threads;

/// What is rehearsed: the words for it, a shelf that has the files that they name, who tells why it ended, and who tells what its frames were
/// given.
#[derive(Drop)]
pub struct Rehearsal<S: Shelf + Drop, T: CauseTeller + Drop, F: FrameTeller + Drop> {
    pub words: Words,
    pub shelf: S,
    pub teller: T,
    pub frames: F,
}

/// How a rehearsal ended, the output of its log, and the draft of the words that were made of it.
#[derive(Drop)]
pub(crate) struct Rehearsed<L: Drop, D: Drop> {
    pub(crate) ending: Ending,
    pub(crate) log: L,
    pub(crate) words: D,
}

/// Rehearses a generated scenario into the words' output, where its summary is written as it is.
pub(crate) fn run_drill<R, W, S, T, O, F>(
    rt: &R,
    workspace: &mut W,
    run: &Run<'_>,
    what: Rehearsal<S, T, F>,
    out: O,
) -> (Ending, O)
where
    R: Threads + Sync + Eprint + AllocGlobal,
    W: DraftTeller,
    S: Shelf + Drop,
    T: CauseTeller + Drop,
    O: FaultTeller + Drop,
    F: FrameTeller + Drop,
    ensures held { W.held workspace.new ≡ W.held workspace.old }
    ensures log { is_reported result.0.status ≡ true → WritesLog (staged what.words
        (shelf_use S.told S.is_open S.faults S.mark what.shelf)) O.held O.faults out result.1
        result.0.status result.0.frames }
    ensures judged { result.0.status ≢ statuses.Unwanted }
{
    let mut what = what;
    let mut sink = out;
    let Ok(report) = rehearse_on(rt, &what.words, &mut what.shelf, &mut sink) else {
        return (Ending::without_memory(rt), sink);
    };
    let status = end_drill(rt, workspace, run, &what.teller, &report, sink.error());
    let frames = report.frames;
    (Ending { status, frames }, sink)
}

/// A rehearsal that ended so, and its outputs.
fn end_both<L, W, F>(ending: Ending, told: ToldLog<L, DraftSink<W>, F>) -> Rehearsed<L, W::Draft>
where
    L: FaultTeller + Drop,
    W: DraftTeller,
    F: FrameTeller + Drop,
    ensures ending { result.ending ≡ ending }
    ensures log { result.log ≡ told.log }
{
    let (log, words) = told.into_sinks();
    Rehearsed {
        ending,
        log,
        words: words.into_draft(),
    }
}

/// Rehearses into both outputs.
pub(crate) fn run_both<R, W, S, T, L, F>(
    rt: &R,
    workspace: &mut W,
    run: &Run<'_>,
    what: Rehearsal<S, T, F>,
    log: L,
    words: W::Draft,
) -> Rehearsed<L, W::Draft>
where
    R: Threads + Sync + Eprint + AllocGlobal,
    W: DraftTeller,
    S: Shelf + Drop,
    T: CauseTeller + Drop,
    L: FaultTeller + Drop,
    F: FrameTeller + Drop,
    ensures held { W.held workspace.new ≡ W.held workspace.old }
    ensures log { is_reported result.ending.status ≡ true → WritesLog (staged what.words
        (shelf_use S.told S.is_open S.faults S.mark what.shelf)) L.held L.faults log result.log
        result.ending.status result.ending.frames }
    ensures strict { result.ending.status ≡ statuses.Unwanted → run.now.is_strict ≡ true }
{
    let Rehearsal {
        words: asked,
        shelf,
        teller,
        frames,
    } = what;
    let mut shelf = shelf;
    let sink = DraftSink::<W>::new(words);
    let mut told = ToldLog::new(rt.alloc(), run.epoch, log, sink, frames);
    let Ok(report) = rehearse_on(rt, &asked, &mut shelf, &mut told) else {
        return end_both(Ending::without_memory(rt), told);
    };
    let status = end_run(rt, workspace, run, &teller, &report, &mut told);
    let frames = report.frames;
    end_both(Ending { status, frames }, told)
}
