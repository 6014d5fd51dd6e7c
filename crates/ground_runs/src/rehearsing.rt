//! The call that the program vigil makes.

ghost use Rattle.std.specs.Prelude.{IfOk};
ghost use Rattle.subjects.specs.Own.{own_subjects};
ghost use Rattle.rehearsal.specs.Promise.{shelf_use, sink_use, Promise};
ghost use Rattle.ground_runs.specs.Rehearsing.{silent};

use fsw_outside::{NoMemory, OpenGate, Shelf, Sink, StdSink};
use rehearsal::{Report, Words, vigil_with};
use std::io;
use std::thread::Threads;
use subjects::own_subjects;

/// Rehearses what these words ask for with this shelf, beside the program's own subjects where the words have the flag for them. The
/// report is told by nothing but what is answered.
pub fn rehearse_on<R, S, O>(
    rt: &R,
    words: &Words,
    shelf: &mut S,
    out: &mut O,
) -> Result<Report, NoMemory>
where
    R: Threads + Sync + AllocGlobal,
    S: Shelf,
    O: Sink,
    ensures { IfOk result (λ report. Promise report words.now own_subjects
        (shelf_use S.told S.is_open S.faults S.mark shelf.old shelf.new)
        (sink_use O.held O.faults out.old out.new) silent) }
{
    let alloc = rt.alloc();
    let subjects = own_subjects(alloc)?;
    let mut err = StdSink::new(io::sink());
    Ok(vigil_with(rt, alloc, words, subjects, shelf, out, &mut err, &OpenGate))
}
