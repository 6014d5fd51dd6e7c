//! The claim board is made, dealt out, drawn from and closed.

ghost use Rattle.std.specs.Prelude.{◌≡◌, ◌<◌, ◌≤◌, length, All};
ghost use Rattle.crew_board.specs.Rows.{FitsJobs, AreShared, first_scratches};
ghost use Rattle.crew_board.specs.Work.{AreDone, AreDraws, StayBut};

use crate::board::Board;
use crate::draw::draw_all;
use crate::row::Row;
use crate::seats::{collect, deal};
use crate::task::{Scratch, Task};
use crate::way::Way;
use crate::work::{forget_draws, perform_all};
use fsw_outside::Gate;
use std::alloc::Global;
use std::thread::Threads;

/// All rows draw from a new board. Alone, with the rows as before, where there is no memory for it.
fn draw_together<R: Threads + Sync, S: Scratch, T: Task<Work = S>, G: Gate>(
    rt: &R,
    alloc: Global,
    tasks: &[T],
    chosen: &[u32],
    gate: &G,
    rows: &mut [Row<S>],
) -> Way
    requires chosen { (length chosen.now ≤ 64) × AreDraws (length tasks.now) chosen.now }
    requires workers { (0 < length rows.old) × (length rows.old ≤ 16) }
    requires fits { All (FitsJobs (length tasks.now)) rows.old }
    ensures len { length rows.new ≡ length rows.old }
    ensures fits { All (FitsJobs (length tasks.now)) rows.new }
    ensures shared { result ≡ Way.Shared → AreShared T.leaves tasks.now chosen.now rows.new }
    ensures others { StayBut chosen.now (first_scratches rows.old) (first_scratches rows.new) }
{
    let places = chosen.len() as u64;
    let Ok((board, mut first)) = Board::of_words(alloc, &[0], &places) else {
        return Way::Alone;
    };
    deal(&board.shared, tasks, chosen, &mut first, rows);
    draw_all(rt, &board.shared, tasks, chosen, gate, rows);
    collect(&board.shared, tasks, chosen, &mut first, rows);
    let closed = board.close_with(first);
    closed.free();
    Way::Shared
}

/// The first row takes the chosen jobs in order: nobody else draws.
#[inline(always)]
pub(crate) fn draw_alone<S: Scratch, T: Task<Work = S>, G: Gate>(
    tasks: &[T],
    chosen: &[u32],
    gate: &G,
    rows: &mut [Row<S>],
)
    requires chosen { AreDraws (length tasks.now) chosen.now }
    requires some_rows { 0 < length rows.old }
    requires fits { All (FitsJobs (length tasks.now)) rows.old }
    ensures len { length rows.new ≡ length rows.old }
    ensures shared { AreShared T.leaves tasks.now chosen.now rows.new }
    ensures done { AreDone T.leaves tasks.now (first_scratches rows.new) chosen.now }
    ensures others { StayBut chosen.now (first_scratches rows.old) (first_scratches rows.new) }
{
    let Some((first, others)) = rows.split_first_mut() else {
        unreachable!()
    };
    forget_draws(tasks, others);
    perform_all(tasks, chosen, gate, first);
}

/// The first so many rows draw; the others get no job.
pub(crate) fn share_jobs<R: Threads + Sync, S: Scratch, T: Task<Work = S>, G: Gate>(
    rt: &R,
    alloc: Global,
    used: usize,
    tasks: &[T],
    chosen: &[u32],
    gate: &G,
    rows: &mut [Row<S>],
) -> Way
    requires chosen { (length chosen.now ≤ 64) × AreDraws (length tasks.now) chosen.now }
    requires used { (0 < used) × (used ≤ length rows.old) }
    requires workers { length rows.old ≤ 16 }
    requires fits { All (FitsJobs (length tasks.now)) rows.old }
    ensures len { length rows.new ≡ length rows.old }
    ensures fits { All (FitsJobs (length tasks.now)) rows.new }
    ensures shared { result ≡ Way.Shared → AreShared T.leaves tasks.now chosen.now rows.new }
    ensures others { StayBut chosen.now (first_scratches rows.old) (first_scratches rows.new) }
{
    let (active, idle) = rows.split_at_mut(used);
    forget_draws(tasks, idle);
    draw_together(rt, alloc, tasks, chosen, gate, active)
}
