//! The jobs of a frame.

ghost use Rattle.std.specs.Prelude.{◌≡◌, ◌≤◌, ◌<◌, length};
ghost use Rattle.app_suite.specs.Jobs.{jobs_of, AllLeave, AreLeftRight};

use crate::busy::settle_all;
use crate::left::Left;
use crate::wakeups::{Job, Scene, Wakeup};
use crew_board::Crew;
use fsw_outside::Gate;
use std::thread::Threads;

/// How many applications are woken in a frame: one more where LC is there.
pub fn jobs_of(watched: bool) -> u32
    ensures jobs { result ≡ jobs_of watched }
    ensures some { 0 < result }
    ensures few { result ≤ 64 }
{
    if watched { 6 } else { 5 }
}

/// Does these jobs: in the crew's first run all of them on at most so many workers, later those of applications that have something to do.
fn run_busy<R: Threads + Sync, G: Gate>(
    crew: &mut Crew<Left>,
    rt: &R,
    workers: u32,
    gate: &G,
    jobs: &[Wakeup<'_, '_, '_, '_, '_>],
)
    requires workers { 0 < workers }
    requires jobs { length jobs.now ≡ crew.old.jobs }
    requires few { length jobs.now ≤ 6 }
    ensures jobs { crew.new.jobs ≡ crew.old.jobs }
    ensures count { length crew.new.results ≡ crew.old.jobs }
    ensures left { AreLeftRight jobs.now crew.new.results }
{
    if !crew.has_run() {
        crew.run_on(rt, workers, jobs, gate);
        return;
    }
    let busy = settle_all(crew, jobs);
    crew.run_chosen(rt, workers, jobs, busy.as_slice(), gate);
}

/// Wakes the applications that are there, on at most so many workers: in the crew's first run each as a job, later those that have
/// something to do.
#[inline(always)]
pub fn wake_all<R: Threads + Sync, G: Gate>(
    crew: &mut Crew<Left>,
    rt: &R,
    workers: u32,
    gate: &G,
    scene: &Scene<'_, '_, '_, '_>,
    watched: bool,
)
    requires workers { 0 < workers }
    requires jobs { crew.old.jobs ≡ jobs_of watched }
    ensures jobs { crew.new.jobs ≡ crew.old.jobs }
    ensures count { length crew.new.results ≡ jobs_of watched }
    ensures left { AllLeave watched scene.now crew.new.results }
{
    if watched {
        let jobs = [
            Wakeup(scene, Job::Hs),
            Wakeup(scene, Job::Cs),
            Wakeup(scene, Job::Sc),
            Wakeup(scene, Job::Mm),
            Wakeup(scene, Job::Md),
            Wakeup(scene, Job::Lc),
        ];
        run_busy(crew, rt, workers, gate, &jobs);
    } else {
        let jobs = [
            Wakeup(scene, Job::Hs),
            Wakeup(scene, Job::Cs),
            Wakeup(scene, Job::Sc),
            Wakeup(scene, Job::Mm),
            Wakeup(scene, Job::Md),
        ];
        run_busy(crew, rt, workers, gate, &jobs);
    }
}
