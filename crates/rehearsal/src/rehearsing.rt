//! A whole rehearsal, from the words to the report.

ghost use Rattle.std.specs.Prelude.{◌≡◌, ◌≢◌, ℕ, ◌≤◌, ◌⊎◌, [], map, IsTrue, IfOk, vec_len};
ghost use Rattle.fsw_outside.specs.Told.{WhereTold};
ghost use Rattle.rehearsal.specs.Words.{words_to_open};
ghost use Rattle.rehearsal.specs.Files.{AsksFor};
ghost use Rattle.frame_exec.specs.Beside.{crowd_in};
ghost use Rattle.rehearsal.specs.Beside.{crowd_for};
ghost use Rattle.rehearsal.specs.Outcome.{HasCauses, Rehearses};
ghost use Rattle.rehearsal.specs.Report.{error_line, Tells};
ghost use Rattle.rehearsal.specs.Promise.{shelf_use, sink_use, seen_of, Promise};

use crate::drill::{DrillText, run_drill};
use crate::files::take_files;
use crate::report::{Report, Status, tell};
use crate::run::run_scenario;
use crate::words::{Plan, Words, accept};
use frame_exec::Tables;
use fsw_outside::{Gate, NoMemory, Shelf, Sink};
use std::alloc::Global;
use std::thread::Threads;
use subjects::{Crowd, Subject};
use table_files::Files;

/// How many reasons to refuse a file come before those of its entries (docs/FILES.md).
const HEADER_REASONS: u8 = 10;

/// Takes the FILEs in, and runs the scenario of the file that is named, or the generated one, beside the crowd where there is
/// one.
fn carry_out<R: Threads + Sync, C: Subject + Send, S: Shelf, O: Sink, G: Gate>(
    rt: &R,
    alloc: Global,
    plan: &Plan,
    crowd: &mut Option<Crowd<C>>,
    shelf: &mut S,
    out: &mut O,
    gate: &G,
) -> Report
    ensures accepted { result.status ≢ Status.WordsRefused }
    ensures outcome { WhereTold (S.told shelf.old) (S.told shelf.new)
        (Rehearses result plan.now (crowd_in C.seen crowd.old) (seen_of
        (shelf_use S.told S.is_open S.faults S.mark shelf.old shelf.new)
        (sink_use O.held O.faults out.old out.new))) }
    ensures opening { WhereTold (S.told shelf.old) (S.told shelf.new) (λ before after.
        (count : ℕ) × AsksFor (words_to_open plan.now) count before after) }
    ensures mark { (S.mark shelf.new ≡ S.faults shelf.old)
        ⊎ ((shelf.new ≡ shelf.old) × (words_to_open plan.now ≡ [])) }
    ensures opened { result.status ≢ Status.ReadFailed → IsTrue (S.is_open shelf.new)
        ⊎ ((shelf.new ≡ shelf.old) × (words_to_open plan.now ≡ [])) }
    ensures file_refused { result.status ≡ Status.FileRefused → out.new ≡ out.old }
    ensures no_memory { result.status ≡ Status.NoMemory → (out.new ≡ out.old)
        × (result.frames ≡ 0) }
    ensures causes { HasCauses result.status (S.told shelf.new) (S.faults shelf.old)
        (S.faults shelf.new) (O.held out.new) (O.faults out.old) (O.faults out.new) }
{
    // it takes no memory
    let mut files = Files::open(alloc).unwrap();
    match take_files(alloc, shelf, plan.files(), &mut files) {
        Ok(()) => {}
        Err(report) => return report,
    }
    let tables = match Tables::load(&files) {
        Ok(tables) => tables,
        Err(fault) => {
            return Report::file_refused(fault.file, fault.entry, fault.reason + HEADER_REASONS);
        }
    };
    let workers = plan.workers();
    match plan.drill() {
        None => run_scenario(
            rt,
            alloc,
            workers,
            tables,
            &files,
            crowd,
            plan.scenario(),
            shelf,
            out,
            gate,
        ),
        Some(k) => {
            let mut text = DrillText::start(k);
            run_drill(
                rt, alloc, workers, tables, &files, crowd, &mut text, out, gate,
            )
        }
    }
}

/// Tells a report, and answers it.
fn told<E: Sink>(err: &mut E, report: Report) -> Report
    ensures same { result ≡ report }
    ensures told { WhereTold (E.held err.old) (E.held err.new)
        (Tells (E.faults err.old) (E.faults err.new) (error_line report)) }
{
    tell(err, &report);
    report
}

/// A crowd of these subjects, where the plan asks for one; else they are dropped.
fn gather<C: Subject + Send>(
    alloc: Global,
    plan: &Plan,
    subjects: Vec<C>,
) -> Result<Option<Crowd<C>>, NoMemory>
    requires few { vec_len subjects ≤ 64 }
    ensures { IfOk result (λ crowd.
        crowd_in C.seen crowd ≡ crowd_for plan.now.subjects (map C.seen subjects.items)) }
{
    if !plan.subjects() {
        return Ok(None);
    }
    let crowd = Crowd::open(alloc, subjects)?;
    Ok(Some(crowd))
}

/// Runs the rehearsal that the words ask for, and tells its report on `err`. The words are those after the program's
/// name. The shelf holds the FILEs and the scenario's file, and `out` gets the log, or the summary of a generated scenario's.
/// Where the words have the flag for it, these subjects give the execution counters, of which there are at most 64, and the
/// scenario's own have no effect; else the subjects are dropped.
pub fn vigil_with<R: Threads + Sync, C: Subject + Send, S: Shelf, O: Sink, E: Sink, G: Gate>(
    rt: &R,
    alloc: Global,
    words: &Words,
    subjects: Vec<C>,
    shelf: &mut S,
    out: &mut O,
    err: &mut E,
    gate: &G,
) -> Report
    requires few { vec_len subjects ≤ 64 }
    ensures { Promise result words.now (map C.seen subjects.items)
        (shelf_use S.told S.is_open S.faults S.mark shelf.old shelf.new)
        (sink_use O.held O.faults out.old out.new)
        (sink_use E.held E.faults err.old err.new) }
{
    let plan = match accept(alloc, words) {
        Ok(Some(plan)) => plan,
        Ok(None) => return told(err, Report::at(Status::WordsRefused, 0)),
        Err(_) => return told(err, Report::at(Status::NoMemory, 0)),
    };
    let Ok(crowd) = gather(alloc, &plan, subjects) else {
        return told(err, Report::at(Status::NoMemory, 0));
    };
    let mut crowd = crowd;
    told(
        err,
        carry_out(rt, alloc, &plan, &mut crowd, shelf, out, gate),
    )
}

/// Runs the rehearsal that the words ask for as `vigil_with` does without subjects: where the words have the flag for them, no
/// application has an execution counter.
pub fn vigil<R: Threads + Sync, S: Shelf, O: Sink, E: Sink, G: Gate>(
    rt: &R,
    alloc: Global,
    words: &Words,
    shelf: &mut S,
    out: &mut O,
    err: &mut E,
    gate: &G,
) -> Report
    ensures { Promise result words.now []
        (shelf_use S.told S.is_open S.faults S.mark shelf.old shelf.new)
        (sink_use O.held O.faults out.old out.new)
        (sink_use E.held E.faults err.old err.new) }
{
    let nobody: Vec<Box<dyn Subject + Send>> = Vec::new(alloc);
    vigil_with(rt, alloc, words, nobody, shelf, out, err, gate)
}
