//! The results of all workers come together in the scratches of the first row.

ghost use Rattle.std.specs.Prelude.{◌≡◌, ℕ, ◌<◌, length, slice_index_or, All};
ghost use Rattle.crew_board.specs.Work.{AreDone, AreDraws, IsRight, StayBut, StayRight, StandsIn};
ghost use Rattle.crew_board.specs.Claim.{times_in};
ghost use Rattle.crew_board.specs.Rows.{FitsJobs, IsWorked, draws_of, first_scratches};

use crate::row::Row;
use crate::task::Task;
use std::mem;

/// Puts the scratches of some jobs in each other's place.
fn exchange<S, T: Task<Work = S>>(tasks: &[T], results: &mut [S], from: &mut [S], jobs: &[u32])
    requires places { (length results.old ≡ length tasks.now)
        × (length from.old ≡ length tasks.now) }
    requires draws { AreDraws (length tasks.now) jobs.now }
    requires done { AreDone T.leaves tasks.now from.old jobs.now }
    ensures places { (length results.new ≡ length tasks.now)
        × (length from.new ≡ length tasks.now) }
    ensures done { AreDone T.leaves tasks.now results.new jobs.now }
    ensures kept { StayRight T.leaves tasks.now results.old results.new }
    ensures others { StayBut jobs.now results.old results.new }
{
    let _ = tasks;
    for job in jobs {
        let at = *job as usize;
        mem::swap(&mut results[at], &mut from[at]);
    }
}

/// Takes the results of one row over into the first.
fn take_over<S, T: Task<Work = S>>(tasks: &[T], first: &mut Row<S>, row: &mut Row<S>)
    requires fits { FitsJobs (length tasks.now) first.old }
    requires worked { IsWorked T.leaves tasks.now row.old }
    ensures fits { FitsJobs (length tasks.now) first.new × FitsJobs (length tasks.now) row.new }
    ensures drawn { (first.new.drawn.items ≡ first.old.drawn.items)
        × (row.new.drawn.items ≡ row.old.drawn.items) }
    ensures done { AreDone T.leaves tasks.now first.new.scratches.items row.old.drawn.items }
    ensures kept { StayRight T.leaves tasks.now first.old.scratches.items
        first.new.scratches.items }
    ensures others { StayBut row.old.drawn.items first.old.scratches.items
        first.new.scratches.items }
{
    exchange(
        tasks,
        first.scratches.as_mut_slice(),
        row.scratches.as_mut_slice(),
        row.drawn.as_slice(),
    );
}

/// Takes the results of these rows over into the first.
fn take_over_all<S, T: Task<Work = S>>(tasks: &[T], first: &mut Row<S>, rows: &mut [Row<S>])
    requires fits { FitsJobs (length tasks.now) first.old }
    requires worked { All (IsWorked T.leaves tasks.now) rows.old }
    ensures fits { FitsJobs (length tasks.now) first.new
        × All (FitsJobs (length tasks.now)) rows.new }
    ensures len { length rows.new ≡ length rows.old }
    ensures drawn { (first.new.drawn.items ≡ first.old.drawn.items)
        × (draws_of rows.new ≡ draws_of rows.old) }
    ensures done { All (AreDone T.leaves tasks.now first.new.scratches.items) (draws_of rows.old) }
    ensures kept { StayRight T.leaves tasks.now first.old.scratches.items
        first.new.scratches.items }
    ensures others { (job : ℕ) (s : S) → times_in job (draws_of rows.old) ≡ 0
        → slice_index_or first.new.scratches.items job s
        ≡ slice_index_or first.old.scratches.items job s }
{
    for row in rows.iter_mut() {
        take_over(tasks, first, row);
    }
}

/// Takes the results of all rows over into the first: the result of each job that some row drew.
pub(crate) fn collect_results<S, T: Task<Work = S>>(tasks: &[T], rows: &mut [Row<S>])
    requires some_rows { 0 < length rows.old }
    requires worked { All (IsWorked T.leaves tasks.now) rows.old }
    ensures fits { All (FitsJobs (length tasks.now)) rows.new }
    ensures len { length rows.new ≡ length rows.old }
    ensures draws { draws_of rows.new ≡ draws_of rows.old }
    ensures done { (job : ℕ) → StandsIn job (draws_of rows.old)
        → IsRight T.leaves tasks.now (first_scratches rows.new) job }
    ensures others { (job : ℕ) (s : S) → times_in job (draws_of rows.old) ≡ 0
        → slice_index_or (first_scratches rows.new) job s
        ≡ slice_index_or (first_scratches rows.old) job s }
{
    let Some((first, others)) = rows.split_first_mut() else {
        unreachable!()
    };
    take_over_all(tasks, first, others);
}
