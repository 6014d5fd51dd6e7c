//! Seats at the claim board are split off for the workers, and joined again in the workers' order.

ghost use Rattle.std.specs.Prelude.{◌≡◌, ◌<◌, ◌≤◌, true, [], length, All};
ghost use Rattle.crew_board.specs.Board.{seated, started};
ghost use Rattle.crew_board.specs.Rows.{FitsJobs, IsWorked, HasSeat, HasEnded, draws_of, first_scratches};
ghost use Rattle.crew_board.specs.Seats.{split_off, AreEnds, TakesOne};

use crate::board::{JoinIn, Seated, SplitOff, Word};
use crate::row::Row;
use crate::task::Task;

/// Gives each row a seat that was split off the first one.
pub(crate) fn deal<S, T: Task<Work = S>>(
    word: &Word,
    tasks: &[T],
    chosen: &[u32],
    first: &mut Seated,
    rows: &mut [Row<S>],
)
    requires board { (word.now.key ≡ length chosen.now) × (word.now.table_id.words ≡ 1)
        × (first.old.table_id ≡ word.now.table_id) }
    requires first { first.old.me ≡ (started, []) }
    requires few { (length chosen.now ≤ 64) × (length rows.old ≤ 16) }
    requires fits { All (FitsJobs (length tasks.now)) rows.old }
    ensures first { (first.new.table_id ≡ first.old.table_id)
        × (first.new.me ≡ (split_off (length rows.old) [], [])) }
    ensures len { length rows.new ≡ length rows.old }
    ensures fits { All (FitsJobs (length tasks.now)) rows.new }
    ensures seats { All (HasSeat word.now.table_id seated) rows.new }
    ensures scratches { first_scratches rows.new ≡ first_scratches rows.old }
{
    let _ = tasks;
    let _ = chosen;
    for row in rows.iter_mut() {
        row.seat = Some(word.split_seat::<SplitOff>(first));
    }
}

/// Joins the seat of one row.
fn collect_one<S, T: Task<Work = S>>(
    word: &Word,
    tasks: &[T],
    chosen: &[u32],
    first: &mut Seated,
    row: &mut Row<S>,
)
    requires board { (word.now.key ≡ length chosen.now) × (word.now.table_id.words ≡ 1)
        × (first.old.table_id ≡ word.now.table_id) × (first.old.me.1 ≡ []) }
    requires first { first.old.me.0.first ≡ true }
    requires ended { HasEnded word.now.table_id chosen.now row.old }
    requires worked { IsWorked T.leaves tasks.now row.old }
    ensures first { (first.new.table_id ≡ first.old.table_id) × (first.new.me.1 ≡ []) }
    ensures taken { TakesOne chosen.now first.old.me.0 row.old.drawn.items first.new.me.0 }
    ensures worked { IsWorked T.leaves tasks.now row.new }
    ensures drawn { row.new.drawn.items ≡ row.old.drawn.items }
    ensures scratches { row.new.scratches ≡ row.old.scratches }
{
    let _ = tasks;
    let _ = chosen;
    let Some(seat) = row.seat.take() else {
        unreachable!()
    };
    word.join_seat::<JoinIn>(first, seat);
}

/// Joins the seats in the order of the rows.
pub(crate) fn collect<S, T: Task<Work = S>>(
    word: &Word,
    tasks: &[T],
    chosen: &[u32],
    first: &mut Seated,
    rows: &mut [Row<S>],
)
    requires board { (word.now.key ≡ length chosen.now) × (word.now.table_id.words ≡ 1)
        × (first.old.table_id ≡ word.now.table_id) }
    requires first { first.old.me ≡ (split_off (length rows.old) [], []) }
    requires ended { All (HasEnded word.now.table_id chosen.now) rows.old }
    requires worked { All (IsWorked T.leaves tasks.now) rows.old }
    ensures first { (first.new.table_id ≡ first.old.table_id) × (first.new.me.0.first ≡ true)
        × (first.new.me.0.split ≡ length rows.old) }
    ensures lists { AreEnds chosen.now (draws_of rows.old) first.new.me.0.lists }
    ensures len { length rows.new ≡ length rows.old }
    ensures worked { All (IsWorked T.leaves tasks.now) rows.new }
    ensures draws { draws_of rows.new ≡ draws_of rows.old }
    ensures scratches { first_scratches rows.new ≡ first_scratches rows.old }
{
    for row in rows.iter_mut() {
        collect_one(word, tasks, chosen, first, row);
    }
}
