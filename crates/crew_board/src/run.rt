//! A run of chosen jobs over the rows of a crew.

ghost use Rattle.std.specs.Prelude.{◌≡◌, ◌<◌, ◌≤◌, length, All};
ghost use Rattle.crew_board.specs.Work.{AreDone, AreDraws, StayBut};
ghost use Rattle.crew_board.specs.Rows.{FitsJobs, draws_of, first_scratches};
ghost use Rattle.crew_board.specs.Ways.{AreLeftOf};

use crate::claim::{draw_alone, share_jobs};
use crate::results::collect_results;
use crate::row::Row;
use crate::task::{Scratch, Task};
use crate::way::Way;
use crate::work::work_alone;
use fsw_outside::Gate;
use std::alloc::Global;
use std::thread::Threads;

/// Does the chosen jobs on the first so many rows, and leaves their results in the scratches of the first.
#[inline(never)]
fn run_together<R: Threads + Sync, S: Scratch, T: Task<Work = S>, G: Gate>(
    rt: &R,
    alloc: Global,
    used: usize,
    tasks: &[T],
    chosen: &[u32],
    gate: &G,
    rows: &mut [Row<S>],
) -> Way
    requires chosen { (length chosen.now ≤ 64) × AreDraws (length tasks.now) chosen.now }
    requires used { (0 < used) × (used ≤ length rows.old) }
    requires workers { length rows.old ≤ 16 }
    requires fits { All (FitsJobs (length tasks.now)) rows.old }
    ensures len { length rows.new ≡ length rows.old }
    ensures fits { All (FitsJobs (length tasks.now)) rows.new }
    ensures done { AreDone T.leaves tasks.now (first_scratches rows.new) chosen.now }
    ensures others { StayBut chosen.now (first_scratches rows.old) (first_scratches rows.new) }
    ensures draws { AreLeftOf result (length tasks.now) chosen.now (length rows.old)
        (draws_of rows.new) }
{
    match share_jobs(rt, alloc, used, tasks, chosen, gate, rows) {
        Way::Shared => {
            collect_results(tasks, rows);
            Way::Shared
        }
        Way::Alone => {
            work_alone(tasks, chosen, gate, rows);
            Way::Alone
        }
    }
}

/// Does the chosen jobs on at most so many rows, and leaves their results in the scratches of the first. A single row shares nothing.
#[inline(always)]
pub(crate) fn run_jobs<R: Threads + Sync, S: Scratch, T: Task<Work = S>, G: Gate>(
    rt: &R,
    alloc: Global,
    most: usize,
    tasks: &[T],
    chosen: &[u32],
    gate: &G,
    rows: &mut [Row<S>],
) -> Way
    requires chosen { (length chosen.now ≤ 64) × AreDraws (length tasks.now) chosen.now }
    requires most { 0 < most }
    requires workers { (0 < length rows.old) × (length rows.old ≤ 16) }
    requires fits { All (FitsJobs (length tasks.now)) rows.old }
    ensures len { length rows.new ≡ length rows.old }
    ensures fits { All (FitsJobs (length tasks.now)) rows.new }
    ensures done { AreDone T.leaves tasks.now (first_scratches rows.new) chosen.now }
    ensures others { StayBut chosen.now (first_scratches rows.old) (first_scratches rows.new) }
    ensures draws { AreLeftOf result (length tasks.now) chosen.now (length rows.old)
        (draws_of rows.new) }
{
    let used = most.min(rows.len()).min(chosen.len());
    if used <= 1 {
        draw_alone(tasks, chosen, gate, rows);
        return Way::Shared;
    }
    run_together(rt, alloc, used, tasks, chosen, gate, rows)
}
