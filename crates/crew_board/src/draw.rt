//! A worker's loop over the claim board, and all workers at once.

ghost use Rattle.std.specs.Prelude.{◌≡◌, ◌<◌, ◌≤◌, length, All};
ghost use Rattle.crew_board.specs.Board.{seated};
ghost use Rattle.crew_board.specs.Rows.{FitsJobs, IsWorked, HasSeat, HasEnded, first_scratches};
ghost use Rattle.crew_board.specs.Work.{AreDraws, StayBut};

use crate::board::{Draw, Word};
use crate::row::Row;
use crate::task::{Scratch, Task};
use crate::work::perform;
use fsw_outside::Gate;
use std::thread;
use std::thread::Threads;

/// Draws places of the chosen jobs and does these until a number comes that is no place.
pub(crate) fn draw_jobs<S: Scratch, T: Task<Work = S>, G: Gate>(
    word: &Word,
    tasks: &[T],
    chosen: &[u32],
    gate: &G,
    row: &mut Row<S>,
)
    requires board { (word.now.key ≡ length chosen.now) × (word.now.table_id.words ≡ 1) }
    requires chosen { (length chosen.now ≤ 64) × AreDraws (length tasks.now) chosen.now }
    requires fits { FitsJobs (length tasks.now) row.old }
    requires seat { HasSeat word.now.table_id seated row.old }
    ensures worked { IsWorked T.leaves tasks.now row.new }
    ensures ended { HasEnded word.now.table_id chosen.now row.new }
    ensures others { StayBut chosen.now row.old.scratches.items row.new.scratches.items }
{
    row.drawn.clear();
    let Some(mut seat) = row.seat.take() else {
        unreachable!()
    };
    let mut place = word.fetch_add::<Draw>(&mut seat, 0, 1);
    while place < chosen.len() as u64 {
        perform(tasks, gate, row, chosen[place as usize]);
        place = word.fetch_add::<Draw>(&mut seat, 0, 1);
    }
    row.seat = Some(seat);
}

/// Draws jobs and does them on the one row of a part, until none is left.
fn draw_part<S: Scratch, T: Task<Work = S>, G: Gate>(
    word: &Word,
    tasks: &[T],
    chosen: &[u32],
    gate: &G,
    part: &mut [Row<S>],
)
    requires board { (word.now.key ≡ length chosen.now) × (word.now.table_id.words ≡ 1) }
    requires chosen { (length chosen.now ≤ 64) × AreDraws (length tasks.now) chosen.now }
    requires one { length part.old ≡ 1 }
    requires fits { All (FitsJobs (length tasks.now)) part.old }
    requires seats { All (HasSeat word.now.table_id seated) part.old }
    ensures one { length part.new ≡ 1 }
    ensures worked { All (IsWorked T.leaves tasks.now) part.new }
    ensures ended { All (HasEnded word.now.table_id chosen.now) part.new }
    ensures others { StayBut chosen.now (first_scratches part.old) (first_scratches part.new) }
{
    draw_jobs(word, tasks, chosen, gate, &mut part[0]);
}

/// Each row draws and does jobs in a thread of its own, where one can be started. One row starts none.
pub(crate) fn draw_all<R: Threads + Sync, S: Scratch, T: Task<Work = S>, G: Gate>(
    rt: &R,
    word: &Word,
    tasks: &[T],
    chosen: &[u32],
    gate: &G,
    rows: &mut [Row<S>],
)
    requires board { (word.now.key ≡ length chosen.now) × (word.now.table_id.words ≡ 1) }
    requires chosen { (length chosen.now ≤ 64) × AreDraws (length tasks.now) chosen.now }
    requires some_rows { 0 < length rows.old }
    requires fits { All (FitsJobs (length tasks.now)) rows.old }
    requires seats { All (HasSeat word.now.table_id seated) rows.old }
    ensures len { length rows.new ≡ length rows.old }
    ensures worked { All (IsWorked T.leaves tasks.now) rows.new }
    ensures ended { All (HasEnded word.now.table_id chosen.now) rows.new }
    ensures others { StayBut chosen.now (first_scratches rows.old) (first_scratches rows.new) }
{
    thread::for_each_chunk_mut(
        rt,
        rows,
        1,
        &|_: usize, part: &mut [Row<S>]|
            requires { (word.now.key ≡ length chosen.now) × (word.now.table_id.words ≡ 1)
                × (length chosen.now ≤ 64) × AreDraws (length tasks.now) chosen.now
                × (length part.old ≡ 1) × All (FitsJobs (length tasks.now)) part.old
                × All (HasSeat word.now.table_id seated) part.old }
            ensures one { length part.new ≡ 1 }
            ensures worked { All (IsWorked T.leaves tasks.entry.now) part.new }
            ensures ended { All (HasEnded word.entry.now.table_id chosen.entry.now) part.new }
            ensures others { StayBut chosen.entry.now (first_scratches part.old)
                (first_scratches part.new) }
        { draw_part(word, tasks, chosen, gate, part) },
    );
}
