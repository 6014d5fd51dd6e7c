//! A worker does jobs, and a caller does all that were chosen.

ghost use Rattle.std.specs.Prelude.{◌≡◌, ℕ, ◌<◌, ◌≢◌, [], ◌∷◌, ◌++◌, length, replicate, slice_index_or, All};
ghost use Rattle.crew_board.specs.Work.{AreDone, AreDraws, StayBut};
ghost use Rattle.crew_board.specs.Rows.{FitsJobs, IsWorked, draws_of, first_scratches};

use crate::row::Row;
use crate::task::{Scratch, Task};
use fsw_outside::Gate;

/// Enters the gate, does the job on the row's scratch for it, and notes it. A job that has next to nothing to do pays for no call.
#[inline(always)]
pub(crate) fn perform<S: Scratch, T: Task<Work = S>, G: Gate>(
    tasks: &[T],
    gate: &G,
    row: &mut Row<S>,
    job: u32,
)
    requires job { job < length tasks.now }
    requires worked { IsWorked T.leaves tasks.now row.old }
    requires new { All (λ earlier. earlier < job) row.old.drawn.items }
    ensures worked { IsWorked T.leaves tasks.now row.new }
    ensures drawn { row.new.drawn.items ≡ row.old.drawn.items ++ job ∷ [] }
    ensures seat { row.new.seat ≡ row.old.seat }
    ensures others { (k : ℕ) (s : S) → k ≢ job
        → slice_index_or row.new.scratches.items k s ≡ slice_index_or row.old.scratches.items k s }
{
    gate.enter(job);
    let at = job as usize;
    tasks[at].perform(&mut row.scratches[at]);
    row.drawn.push_reserved(job);
}

/// Does the chosen jobs on one row, in order.
#[inline(always)]
pub(crate) fn perform_all<S: Scratch, T: Task<Work = S>, G: Gate>(
    tasks: &[T],
    chosen: &[u32],
    gate: &G,
    row: &mut Row<S>,
)
    requires chosen { AreDraws (length tasks.now) chosen.now }
    requires fits { FitsJobs (length tasks.now) row.old }
    ensures worked { IsWorked T.leaves tasks.now row.new }
    ensures drawn { row.new.drawn.items ≡ chosen.now }
    ensures others { StayBut chosen.now row.old.scratches.items row.new.scratches.items }
{
    row.drawn.clear();
    for job in chosen {
        perform(tasks, gate, row, *job);
    }
}

/// Forgets what each row drew.
pub(crate) fn forget_draws<S, T: Task<Work = S>>(tasks: &[T], rows: &mut [Row<S>])
    requires { All (FitsJobs (length tasks.now)) rows.old }
    ensures len { length rows.new ≡ length rows.old }
    ensures worked { All (IsWorked T.leaves tasks.now) rows.new }
    ensures draws { draws_of rows.new ≡ replicate (length rows.old) [] }
    ensures scratches { first_scratches rows.new ≡ first_scratches rows.old }
{
    let _ = tasks;
    for row in rows.iter_mut() {
        row.drawn.clear();
    }
}

/// Does the chosen jobs on the first row, and leaves no draws.
pub(crate) fn work_alone<S: Scratch, T: Task<Work = S>, G: Gate>(
    tasks: &[T],
    chosen: &[u32],
    gate: &G,
    rows: &mut [Row<S>],
)
    requires some_rows { 0 < length rows.old }
    requires chosen { AreDraws (length tasks.now) chosen.now }
    requires fits { All (FitsJobs (length tasks.now)) rows.old }
    ensures len { length rows.new ≡ length rows.old }
    ensures worked { All (IsWorked T.leaves tasks.now) rows.new }
    ensures draws { draws_of rows.new ≡ replicate (length rows.old) [] }
    ensures done { AreDone T.leaves tasks.now (first_scratches rows.new) chosen.now }
    ensures others { StayBut chosen.now (first_scratches rows.old) (first_scratches rows.new) }
{
    perform_all(tasks, chosen, gate, &mut rows[0]);
    forget_draws(tasks, rows);
}
