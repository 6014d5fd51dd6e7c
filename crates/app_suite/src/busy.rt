//! Which jobs of a frame have something to do.

ghost use Rattle.std.specs.Prelude.{◌≡◌, ℕ, ◌≤◌, ◌<◌, ◌≢◌, ◌⊎◌, [], ◌∷◌, ◌++◌, length, slice_index_or};
ghost use Rattle.arrayvec.specs.ArrayVec.{array_vec_len};
ghost use Rattle.crew_board.specs.Claim.{times};
ghost use Rattle.crew_board.specs.Work.{AreDraws};
ghost use Rattle.app_suite.specs.Jobs.{IsLeftRight};
ghost use Rattle.app_suite.specs.declared.left.Left.{Left};

use crate::left::Left;
use crate::wakeups::Wakeup;
use arrayvec::ArrayVec;
use crew_board::{Crew, Task};

/// The numbers of jobs that rise, at most one for each application.
pub(crate) type JobNumbers = ArrayVec<u32, 6>;

/// Leaves what the wakeup of an application leaves that rests, or adds the job to those that have something to do.
fn settle(
    crew: &mut Crew<Left>,
    jobs: &[Wakeup<'_, '_, '_, '_, '_>],
    job: u32,
    busy: &mut JobNumbers,
)
    requires job { job < length jobs.now }
    requires results { length crew.old.results ≡ length jobs.now }
    requires room { array_vec_len busy.old < 6 }
    ensures jobs { crew.new.jobs ≡ crew.old.jobs }
    ensures results { length crew.new.results ≡ length crew.old.results }
    ensures others { (k : ℕ) (left : Left) → k ≢ job
        → slice_index_or crew.new.results k left ≡ slice_index_or crew.old.results k left }
    ensures settled { (busy.new.items ≡ busy.old.items ++ job ∷ [])
        ⊎ ((busy.new.items ≡ busy.old.items) × IsLeftRight jobs.now crew.new.results job) }
{
    let wakeup = &jobs[job as usize];
    if !wakeup.rests() {
        busy.push(job);
        return;
    }
    let left = crew.result_mut(job);
    wakeup.perform(left);
}

/// Leaves what the wakeups of the applications leave that rest, and answers the jobs of the others.
pub(crate) fn settle_all(crew: &mut Crew<Left>, jobs: &[Wakeup<'_, '_, '_, '_, '_>]) -> JobNumbers
    requires results { length crew.old.results ≡ length jobs.now }
    requires few { length jobs.now ≤ 6 }
    ensures jobs { crew.new.jobs ≡ crew.old.jobs }
    ensures results { length crew.new.results ≡ length crew.old.results }
    ensures busy { AreDraws (length jobs.now) result.items }
    ensures settled { (job : ℕ) → job < length jobs.now → times job result.items ≡ 0
        → IsLeftRight jobs.now crew.new.results job }
{
    let mut busy = JobNumbers::new();
    for job in 0..jobs.len() as u32 {
        settle(crew, jobs, job, &mut busy);
    }
    busy
}
