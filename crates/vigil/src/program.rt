//! What the program does, over any words, shelf, outputs and gate.

ghost use Rattle.std.specs.Prelude.{◌≡◌, ◌≢◌, IfOk, IfErr, map, drop, string_bytes};
ghost use Rattle.std.specs.IoError.{error_kind};
ghost use Rattle.std.specs.Vec.Iter.{into_iter_items};
ghost use Rattle.fsw_outside.specs.Told.{WhereTold};
ghost use Rattle.rehearsal.specs.Report.{error_line, Tells};
ghost use Rattle.rehearsal.specs.Promise.{early_end, shelf_use, sink_use, Promise};
ghost use Rattle.vigil.specs.Ends.{exit_number, Exits, EndsEarly, ExitsEarly};
ghost use Rattle.subjects.specs.Own.{own_subjects};

use fsw_outside::{Gate, NoMemory, Shelf, Sink};
use rehearsal::{Report, Status, Words, tell, vigil_with};
use std::alloc::Global;
use std::env::Args;
use std::io::{self, ErrorKind};
use std::thread::Threads;
use subjects::own_subjects;

/// The exit status of an end.
pub fn exit_number(status: Status) -> u8
    ensures { result ≡ exit_number status }
{
    status as u8
}

/// The report where the runtime doesn't give the words.
fn early_report(kind: ErrorKind) -> Report
    ensures memory { kind ≡ ErrorKind.OutOfMemory → result ≡ early_end Status.NoMemory }
    ensures refused { kind ≢ ErrorKind.OutOfMemory → result ≡ early_end Status.WordsRefused }
{
    if kind == ErrorKind::OutOfMemory {
        return Report::at(Status::NoMemory, 0);
    }
    Report::at(Status::WordsRefused, 0)
}

/// The words behind the program's name, which is the first of those given.
fn words_behind_name(alloc: Global, given: Args) -> Result<Words, NoMemory>
    ensures { IfOk result (λ words. words ≡ drop 1 (map string_bytes (into_iter_items given))) }
{
    let mut given = given;
    let mut words = Words::open(alloc)?;
    let _name = given.next();
    'words: while let Some(word) = given.next() {
        words.add(word.as_str())?;
    }
    Ok(words)
}

/// Tells that memory is wanting.
fn tell_no_memory<E: Sink>(err: &mut E) -> Report
    ensures same { result ≡ early_end Status.NoMemory }
    ensures told { WhereTold (E.held err.old) (E.held err.new)
        (Tells (E.faults err.old) (E.faults err.new) (error_line result)) }
{
    let report = Report::at(Status::NoMemory, 0);
    tell(err, &report);
    report
}

/// Rehearses what the words ask for that the runtime gives, the program's name before them, beside the program's own simulated
/// applications where they ask for them. Where it gives none, or where there is no memory for these, the report is told and
/// nothing else is done.
fn rehearse_given<R: Threads + Sync, S: Shelf, O: Sink, E: Sink, G: Gate>(
    rt: &R,
    alloc: Global,
    given: io::Result<Args>,
    shelf: &mut S,
    out: &mut O,
    err: &mut E,
    gate: &G,
) -> Report
    ensures promise { IfOk given (λ texts.
        Promise result (drop 1 (map string_bytes (into_iter_items texts))) own_subjects
        (shelf_use S.told S.is_open S.faults S.mark shelf.old shelf.new)
        (sink_use O.held O.faults out.old out.new)
        (sink_use E.held E.faults err.old err.new)) }
    ensures memory { IfErr given (λ error.
        error_kind error ≡ ErrorKind.OutOfMemory → EndsEarly Status.NoMemory result
        (shelf_use S.told S.is_open S.faults S.mark shelf.old shelf.new)
        (sink_use O.held O.faults out.old out.new)
        (sink_use E.held E.faults err.old err.new)) }
    ensures refused { IfErr given (λ error.
        error_kind error ≢ ErrorKind.OutOfMemory → EndsEarly Status.WordsRefused result
        (shelf_use S.told S.is_open S.faults S.mark shelf.old shelf.new)
        (sink_use O.held O.faults out.old out.new)
        (sink_use E.held E.faults err.old err.new)) }
{
    let texts = match given {
        Ok(texts) => texts,
        Err(error) => {
            let report = early_report(error.kind());
            tell(err, &report);
            return report;
        }
    };
    let Ok(words) = words_behind_name(alloc, texts) else {
        return tell_no_memory(err);
    };
    let Ok(subjects) = own_subjects(alloc) else {
        return tell_no_memory(err);
    };
    vigil_with(rt, alloc, &words, subjects, shelf, out, err, gate)
}

/// Does all that the program does, and answers its exit number: rehearses what the words ask for that the runtime gives, the
/// program's name before them. The shelf holds the files, `out` gets the log and `err` the line of the report.
pub fn run_program<R: Threads + Sync, S: Shelf, O: Sink, E: Sink, G: Gate>(
    rt: &R,
    alloc: Global,
    given: io::Result<Args>,
    shelf: &mut S,
    out: &mut O,
    err: &mut E,
    gate: &G,
) -> u8
    // It is the number of a report that keeps the promise of the words behind the program's name.
    ensures promise { IfOk given (λ texts.
        Exits result (drop 1 (map string_bytes (into_iter_items texts)))
        (shelf_use S.told S.is_open S.faults S.mark shelf.old shelf.new)
        (sink_use O.held O.faults out.old out.new)
        (sink_use E.held E.faults err.old err.new)) }

    // Without words it is 6 where memory ran out and else 1, which is told, and nothing is read or written.
    ensures memory { IfErr given (λ error.
        error_kind error ≡ ErrorKind.OutOfMemory → ExitsEarly Status.NoMemory result
        (shelf_use S.told S.is_open S.faults S.mark shelf.old shelf.new)
        (sink_use O.held O.faults out.old out.new)
        (sink_use E.held E.faults err.old err.new)) }
    ensures refused { IfErr given (λ error.
        error_kind error ≢ ErrorKind.OutOfMemory → ExitsEarly Status.WordsRefused result
        (shelf_use S.told S.is_open S.faults S.mark shelf.old shelf.new)
        (sink_use O.held O.faults out.old out.new)
        (sink_use E.held E.faults err.old err.new)) }
{
    exit_number(rehearse_given(rt, alloc, given, shelf, out, err, gate).status)
}
