//! The verb that rehearses.

ghost use Rattle.std.specs.Prelude.{◌≡◌, ◌≢◌, ◌⊎◌, ℕ, List, [], Some, None, IfSome};
ghost use Rattle.rehearsal.specs.Promise.{shelf_use};
ghost use Rattle.ground_files.specs.Workspaces.{Held};
ghost use Rattle.ground_files.specs.declared.verb_status.Status.TheVariants as statuses;
ghost use Rattle.ground_runs.specs.AskedWords.{words_of};
ghost use Rattle.ground_runs.specs.Endings.{is_kept};
ghost use Rattle.ground_runs.specs.Refusals.{IsRunOverRead, IsEarly, IsWellNamed};
ghost use Rattle.ground_runs.specs.KeptLogs.{staged, SettledAs, EndsRun};

use crate::asked_run::Run;
use crate::draft_sinks::DraftSink;
use crate::draft_tellers::DraftTeller;
use crate::endings::{CauseTeller, is_whole};
use crate::rehearsals::{Rehearsal, Rehearsed, run_both, run_drill};
use crate::run_ends::Ending;
use crate::told_scenarios::scenario_teller;
use fsw_outside::Shelf;
use ground_files::{
    Status, Workspace, output_name, status_made, tell_no_memory, tell_replaced, tell_unwritten,
};
use ground_summaries::refused_allow;
use ground_tools::FrameTeller;
use packet_log::Summary;
use std::thread::Threads;

/// Moves the outputs to their places where they are whole, and answers the status.
fn settle_both<R, W>(
    rt: &R,
    workspace: &mut W,
    log: &str,
    output: &str,
    rehearsed: Rehearsed<DraftSink<W>, W::Draft>,
) -> Status
where
    R: Eprint,
    W: DraftTeller,
    ensures { (before : Held) (bytes text : List ℕ) → W.held workspace.old ≡ Some before
        → W.Draft.contents rehearsed.log.draft ≡ Some bytes
        → W.Draft.contents rehearsed.words ≡ Some text
        → SettledAs (Some log.entry) bytes output.now text
        (is_kept rehearsed.ending.status rehearsed.ending.frames) rehearsed.ending.status
        result before (W.held workspace.new) }
{
    let Rehearsed {
        ending,
        log: kept,
        words,
    } = rehearsed;
    let is_kept = is_whole(ending.status, ending.frames);
    if let Err(error) = workspace.settle(log, kept.into_draft(), is_kept) {
        let _settled = workspace.settle(output, words, false);
        return tell_unwritten(rt, log, &error);
    }
    if let Err(error) = workspace.settle(output, words, is_kept) {
        return tell_unwritten(rt, output_name(output), &error);
    }
    ending.status
}

/// Rehearses into the file that keeps the log, and into an output for the words.
fn keep_log<R, W, S, T, F>(
    rt: &R,
    workspace: &mut W,
    run: &Run<'_>,
    what: Rehearsal<S, T, F>,
    log: &str,
    words: W::Draft,
) -> Status
where
    R: Threads + Sync + Eprint + AllocGlobal,
    W: DraftTeller,
    S: Shelf + Drop,
    T: CauseTeller + Drop,
    F: FrameTeller + Drop,
    requires named { run.now.log ≡ Some log }
    requires well { IsWellNamed run.now run.now.log }
    ensures { (before : Held) → W.held workspace.old ≡ Some before
        → EndsRun (staged what.words (shelf_use S.told S.is_open S.faults S.mark what.shelf))
        run.now result before (W.held workspace.new) }
{
    let draft = match workspace.begin(log) {
        Ok(draft) => draft,
        Err(error) => {
            let _settled = workspace.settle(run.output, words, false);
            return tell_unwritten(rt, log, &error);
        }
    };
    let sink = DraftSink::<W>::new(draft);
    let rehearsed = run_both(rt, workspace, run, what, sink, words);
    settle_both(rt, workspace, log, run.output, rehearsed)
}

/// Moves the only output to its place where it is whole, and answers the status.
fn settle_alone<R, W>(
    rt: &R,
    workspace: &mut W,
    output: &str,
    ending: Ending,
    words: W::Draft,
) -> Status
where
    R: Eprint,
    W: DraftTeller,
    ensures { (before : Held) (bytes text : List ℕ) → W.held workspace.old ≡ Some before
        → W.Draft.contents words ≡ Some text
        → SettledAs None bytes output.now text (is_kept ending.status ending.frames)
        ending.status result before (W.held workspace.new) }
{
    let is_kept = is_whole(ending.status, ending.frames);
    let settled = workspace.settle(output, words, is_kept);
    status_made(rt, output_name(output), settled, ending.status)
}

/// Rehearses a generated scenario, whose summary is all that is written.
fn keep_summary<R, W, S, T, F>(
    rt: &R,
    workspace: &mut W,
    run: &Run<'_>,
    what: Rehearsal<S, T, F>,
    words: W::Draft,
) -> Status
where
    R: Threads + Sync + Eprint + AllocGlobal,
    W: DraftTeller,
    S: Shelf + Drop,
    T: CauseTeller + Drop,
    F: FrameTeller + Drop,
    requires { run.now.log ≡ None }
    ensures { (before : Held) → W.held workspace.old ≡ Some before
        → W.Draft.contents words ≡ Some [] → EndsRun (staged what.words
        (shelf_use S.told S.is_open S.faults S.mark what.shelf)) run.now result before
        (W.held workspace.new) }
{
    let sink = DraftSink::<W>::new(words);
    let (ending, sink) = run_drill(rt, workspace, run, what, sink);
    settle_alone(rt, workspace, run.output, ending, sink.into_draft())
}

/// Rehearses into an output for the words, and keeps no log.
fn keep_words<R, W, S, T, F>(
    rt: &R,
    workspace: &mut W,
    run: &Run<'_>,
    what: Rehearsal<S, T, F>,
    words: W::Draft,
) -> Status
where
    R: Threads + Sync + Eprint + AllocGlobal,
    W: DraftTeller,
    S: Shelf + Drop,
    T: CauseTeller + Drop,
    F: FrameTeller + Drop,
    requires { run.now.log ≡ None }
    ensures { (before : Held) → W.held workspace.old ≡ Some before
        → W.Draft.contents words ≡ Some [] → EndsRun (staged what.words
        (shelf_use S.told S.is_open S.faults S.mark what.shelf)) run.now result before
        (W.held workspace.new) }
{
    if run.is_drill() {
        return keep_summary(rt, workspace, run, what, words);
    }
    // A sink that keeps no bytes, and says which it was given.
    let rehearsed = run_both(rt, workspace, run, what, Summary::start(), words);
    let Rehearsed { ending, words, .. } = rehearsed;
    settle_alone(rt, workspace, run.output, ending, words)
}

/// Tells that an `--allow` has no part in a rehearsal that isn't judged.
fn tell_unused_allow<R: Eprint>(rt: &R, run: &Run<'_>) {
    if !run.is_strict && !run.allowed.is_empty() {
        // There is no other place to tell it.
        let _told = eprintln!(rt;
            "--allow has a part with --strict alone: nothing is judged without it"
        );
    }
}

/// Says which words of `--allow` name nothing, if any do, and answers the status.
fn refuse_allow<R: Eprint + AllocGlobal>(rt: &R, allowed: &[&str]) -> Option<Status>
    ensures { IfSome result (λ status. ((status ≡ statuses.WordsRefused)
        × (allowed.now ≢ [])) ⊎ (status ≡ statuses.NoMemory)) }
{
    if allowed.is_empty() {
        return None;
    }
    match refused_allow(rt.alloc(), allowed) {
        Ok(Some(told)) => {
            let text = std::str::from_utf8(told.as_slice()).unwrap_or("");
            let _told = eprint!(rt; "{text}");
            Some(Status::WordsRefused)
        }
        Ok(None) => None,
        Err(_) => Some(tell_no_memory(rt)),
    }
}

/// The output that is read here, if one is.
fn replaced<'a, W: Workspace>(workspace: &W, run: &Run<'a>) -> Option<&'a str>
    ensures { IfSome result (λ output. (now : Held) → W.held workspace.now ≡ Some now
        → IsRunOverRead run.now now) }
{
    if let Some(log) = run.log {
        if run.would_replace(workspace, log) {
            return Some(log);
        }
    }
    if run.would_replace(workspace, run.output) {
        return Some(run.output);
    }
    None
}

/// Says why words of a rehearsal are refused, if they are, and answers the status.
fn refuse<R: Eprint + AllocGlobal, W: Workspace>(
    rt: &R,
    workspace: &W,
    run: &Run<'_>,
) -> Option<Status>
    ensures early { IfSome result (λ status. (now : Held) → W.held workspace.now ≡ Some now
        → IsEarly run.now status now) }
    ensures well { result ≡ None → IsWellNamed run.now run.now.log }
{
    if let Some(cause) = run.refusal() {
        let _told = eprintln!(rt; "{cause}");
        return Some(Status::WordsRefused);
    }
    if let Some(output) = replaced(workspace, run) {
        tell_replaced(rt, output);
        return Some(Status::WordsRefused);
    }
    tell_unused_allow(rt, run);
    refuse_allow(rt, run.allowed)
}

/// Rehearses this, as the words ask for it: the words of the log go to `output`, and the log is kept in the file `log`, where one is named.
pub fn run_rehearsal<R, W, S, T, F>(
    rt: &R,
    workspace: &mut W,
    run: &Run<'_>,
    what: Rehearsal<S, T, F>,
) -> Status
where
    R: Threads + Sync + Eprint + AllocGlobal,
    W: DraftTeller,
    S: Shelf + Drop,
    T: CauseTeller + Drop,
    F: FrameTeller + Drop,
    ensures { (before : Held) → W.held workspace.old ≡ Some before
        → EndsRun (staged what.words (shelf_use S.told S.is_open S.faults S.mark what.shelf))
        run.now result before (W.held workspace.new) }
{
    if let Some(status) = refuse(rt, workspace, run) {
        return status;
    }
    let words = match workspace.begin(run.output) {
        Ok(words) => words,
        Err(error) => return tell_unwritten(rt, output_name(run.output), &error),
    };
    match run.log {
        Some(log) => keep_log(rt, workspace, run, what, log, words),
        None => keep_words(rt, workspace, run, what, words),
    }
}

/// Rehearses the scenario and the files that the words name, which the shelf has.
pub fn run_scenario<R, W, S>(rt: &R, workspace: &mut W, shelf: S, run: &Run<'_>) -> Status
where
    R: Threads + Sync + Eprint + AllocGlobal,
    W: DraftTeller,
    S: Shelf + Drop,
    ensures { (before : Held) → W.held workspace.old ≡ Some before
        → EndsRun (staged (words_of run.now.workers run.now.has_subjects
        run.now.scenario.now run.now.files.now)
        (shelf_use S.told S.is_open S.faults S.mark shelf)) run.now result before
        (W.held workspace.new) }
{
    let Ok(words) = run.words(rt.alloc()) else {
        return tell_no_memory(rt);
    };
    let Ok(frames) = scenario_teller(rt.alloc(), workspace, run) else {
        return tell_no_memory(rt);
    };
    let what = Rehearsal {
        words,
        shelf,
        teller: *run,
        frames,
    };
    run_rehearsal(rt, workspace, run, what)
}
