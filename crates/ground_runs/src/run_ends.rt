//! How a rehearsal ends that was told in words.

ghost use Rattle.std.specs.Prelude.{◌≡◌, ◌≢◌, ◌⊎◌, true, IfOk};
ghost use Rattle.ground_files.specs.declared.verb_status.Status.TheVariants as statuses;
ghost use Rattle.ground_runs.specs.Endings.{status_at, unjudged, is_reported};

use crate::asked_run::Run;
use crate::endings::{CauseTeller, tell_end, tell_trouble};
use crate::fault_tellers::FaultTeller;
use fsw_outside::Sink;
use ground_files::{Status, Workspace, tell_no_memory};
use ground_summaries::{summary_of, unwanted_of};
use ground_tools::{FrameTeller, ToldLog, Trouble};
use rehearsal::{Report, Status as End};
use std::io;

/// How a rehearsal ended, and of how many frames the log was written.
#[derive(Clone, Copy)]
pub(crate) struct Ending {
    pub(crate) status: Status,
    pub(crate) frames: u32,
}

impl Ending {
    /// Memory ran out before the rehearsal began.
    pub(crate) fn without_memory<R: Eprint>(rt: &R) -> Ending
        ensures { result.status ≡ statuses.NoMemory }
    {
        Ending {
            status: tell_no_memory(rt),
            frames: 0,
        }
    }
}

/// Writes the summary behind the words of a rehearsal whose log was written whole.
fn sum_up<R, L, O, F>(rt: &R, frames: u32, told: &mut ToldLog<L, O, F>) -> Result<(), Trouble>
where
    R: AllocGlobal,
    L: Sink + Drop,
    O: Sink + Drop,
    F: FrameTeller + Drop,
    ensures log { told.new.log ≡ told.old.log }
    ensures refusals { told.new.refusals ≡ told.old.refusals }
{
    match summary_of(rt.alloc(), told.survey(), frames) {
        Ok(summary) => told.say(summary.as_slice()),
        Err(_) => Err(Trouble::Memory),
    }
}

/// Tells what came that no `--allow` names, and answers the status.
fn judge<R, L, O, F>(rt: &R, run: &Run<'_>, told: &ToldLog<L, O, F>) -> Result<Status, Trouble>
where
    R: Eprint + AllocGlobal,
    L: Sink + Drop,
    O: Sink + Drop,
    F: FrameTeller + Drop,
    ensures done { IfOk result (λ status. unjudged status ≡ statuses.Done) }
    ensures strict { IfOk result (λ status. status ≡ statuses.Unwanted
        → run.now.is_strict ≡ true) }
{
    if !run.is_strict {
        return Ok(Status::Done);
    }
    let Ok(unwanted) = unwanted_of(rt.alloc(), told.survey(), run.allowed) else {
        return Err(Trouble::Memory);
    };
    if unwanted.is_empty() {
        return Ok(Status::Done);
    }
    let text = std::str::from_utf8(unwanted.as_slice()).unwrap_or("");
    let _told = eprint!(rt; "{text}");
    Ok(Status::Unwanted)
}

/// Tells what is left of a rehearsal that ended so, and sums it up.
fn end_told<R, L, O, F>(
    rt: &R,
    run: &Run<'_>,
    frames: u32,
    status: Status,
    told: &mut ToldLog<L, O, F>,
) -> Result<Status, Trouble>
where
    R: Eprint + AllocGlobal,
    L: Sink + Drop,
    O: Sink + Drop,
    F: FrameTeller + Drop,
    ensures log { told.new.log ≡ told.old.log }
    ensures refusals { told.new.refusals ≡ told.old.refusals }
    ensures status { IfOk result (λ judged. unjudged judged ≡ unjudged status) }
    ensures strict { IfOk result (λ judged. judged ≡ statuses.Unwanted
        → (status ≡ statuses.Unwanted) ⊎ (run.now.is_strict ≡ true)) }
{
    told.tell_rest(frames)?;
    sum_up(rt, frames, told)?;
    let judged = judge(rt, run, told)?;
    if status == Status::Done {
        Ok(judged)
    } else {
        Ok(status)
    }
}

/// The first error of the sink that is in trouble, of the log's where the words aren't.
fn error_of<L, O, F>(told: &ToldLog<L, O, F>, trouble: Option<Trouble>) -> Option<&io::Error>
where
    L: FaultTeller + Drop,
    O: FaultTeller + Drop,
    F: FrameTeller + Drop,
{
    match trouble {
        Some(_) => told.words().error(),
        None => told.log().error(),
    }
}

/// Ends a rehearsal: tells why it ended, or sums it up.
pub(crate) fn end_run<R, W, T, L, O, F>(
    rt: &R,
    workspace: &mut W,
    run: &Run<'_>,
    teller: &T,
    report: &Report,
    told: &mut ToldLog<L, O, F>,
) -> Status
where
    R: Eprint + AllocGlobal,
    W: Workspace,
    T: CauseTeller,
    L: FaultTeller + Drop,
    O: FaultTeller + Drop,
    F: FrameTeller + Drop,
    ensures held { W.held workspace.new ≡ W.held workspace.old }
    ensures log { told.new.log ≡ told.old.log }
    ensures refusals { told.new.refusals ≡ told.old.refusals }
    ensures status { is_reported result ≡ true
        → status_at report.now.status ≡ unjudged result }
    ensures strict { result ≡ statuses.Unwanted → run.now.is_strict ≡ true }
{
    let trouble = told.trouble();
    if trouble.is_some() || report.status == End::WriteFailed {
        return tell_trouble(rt, run, trouble, error_of(told, trouble));
    }
    let status = tell_end(rt, workspace, teller, report);
    if status != Status::Done && report.frames == 0 {
        return status;
    }
    match end_told(rt, run, report.frames, status, told) {
        Ok(status) => status,
        Err(trouble) => {
            let trouble = Some(trouble);
            tell_trouble(rt, run, trouble, error_of(told, trouble))
        }
    }
}

/// Tells how the rehearsal of a generated scenario ended, whose output had this error, and answers the status.
pub(crate) fn end_drill<R: Eprint + AllocGlobal, W: Workspace, T: CauseTeller>(
    rt: &R,
    workspace: &mut W,
    run: &Run<'_>,
    teller: &T,
    report: &Report,
    error: Option<&io::Error>,
) -> Status
    ensures held { W.held workspace.new ≡ W.held workspace.old }
    ensures status { is_reported result ≡ true
        → status_at report.now.status ≡ unjudged result }
    ensures judged { result ≢ statuses.Unwanted }
{
    if report.status == End::WriteFailed {
        return tell_trouble(rt, run, Some(Trouble::Words), error);
    }
    tell_end(rt, workspace, teller, report)
}
