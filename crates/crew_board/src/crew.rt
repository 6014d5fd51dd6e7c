//! A crew of workers.

ghost use Rattle.std.specs.Prelude.{◌≡◌, ℕ, ◌<◌, ◌≤◌, true, List, [], length, replicate, slice_index_or, IfOk, vec_len, All};
ghost use Rattle.std.specs.Borrow.{sem};
ghost use Rattle.crew_board.specs.Rows.{FitsJobs, draws_of};
ghost use Rattle.crew_board.specs.Work.{AreDone, AreDraws, AreInOrder, IsRight, StayBut};
ghost use Rattle.crew_board.specs.Ways.{AreLeft, AreLeftOf};

use crate::row::{Row, open_row};
use crate::run::run_jobs;
use crate::task::{Scratch, Task};
use crate::way::Way;
use fsw_outside::{Gate, NoMemory};
use std::alloc::Global;
use std::marker::Model;
use std::thread::Threads;

/// The most workers of a crew.
const WORKERS: u32 = 16;

/// Workers with a scratch for each job, seen as the number of jobs, the results of the last run and its draws.
#[derive(Drop)]
pub struct Crew<S> {
    jobs: u32,
    ran: bool,
    rows: Vec<Row<S>>,
    // the numbers of all jobs, in order
    all: Vec<u32>,
    alloc: Global,
}

impl<S> Model for Crew<S> {
    ghost use Rattle.std.specs.Prelude.{◌<◌, ◌≤◌, [], if◌then◌else◌, vec_len, All};
    ghost use Rattle.crew_board.specs.Seen.{Seen};

    ghost Value = { Seen S };

    ghost use Rattle.crew_board.specs.Rows.{FitsJobs, first_scratches, draws_of};
    ghost use Rattle.crew_board.specs.Work.{AreInOrder};

    ghost view = { λ c. record {
      jobs = c.jobs;
      results = if c.ran then first_scratches c.rows.items else [];
      drawn = draws_of c.rows.items;
    } };

    ghost invariant = { λ c. (0 < vec_len c.rows) × (vec_len c.rows ≤ 16) × (0 < c.jobs)
        × (c.jobs ≤ 64) × All (FitsJobs c.jobs) c.rows.items × AreInOrder c.jobs c.all.items };
}

/// So many rows.
fn open_rows<S: Scratch>(alloc: Global, workers: u32, jobs: u32) -> Result<Vec<Row<S>>, NoMemory>
    ensures len { IfOk result (λ rows. vec_len rows ≡ workers) }
    ensures fits { IfOk result (λ rows. All (FitsJobs jobs) rows.items) }
    ensures none { IfOk result (λ rows. draws_of rows.items ≡ replicate workers []) }
{
    let mut rows = Vec::with_capacity(alloc, workers as usize)?;
    for _worker in 0..workers {
        rows.push(open_row(alloc, jobs)?)?;
    }
    Ok(rows)
}

/// The numbers of so many jobs, in order.
fn number_all(alloc: Global, jobs: u32) -> Result<Vec<u32>, NoMemory>
    ensures { IfOk result (λ all. AreInOrder jobs all.items) }
{
    let mut all = Vec::with_capacity(alloc, jobs as usize)?;
    for job in 0..jobs {
        all.push(job)?;
    }
    Ok(all)
}

impl<S: Scratch> Crew<S> {
    ghost use Rattle.crew_board.specs.Lending.{lends_result};

    /// A crew of 1 to 16 workers for lists of 1 to 64 jobs.
    pub fn open(alloc: Global, workers: u32, jobs: u32) -> Result<Crew<S>, NoMemory>
        requires workers { (0 < workers) × (workers ≤ 16) }
        requires jobs { (0 < jobs) × (jobs ≤ 64) }
        ensures jobs { IfOk result (λ crew. crew.jobs ≡ jobs) }
        ensures results { IfOk result (λ crew. crew.results ≡ []) }
        ensures drawn { IfOk result (λ crew. crew.drawn ≡ replicate workers []) }
        ensures workers { IfOk result (λ crew. length crew.drawn ≡ workers) }
    {
        let rows = open_rows(alloc, workers, jobs)?;
        let all = number_all(alloc, jobs)?;
        Ok(Crew {
            jobs,
            ran: false,
            rows,
            all,
            alloc,
        })
    }

    /// Does each task once, on as many workers as there are, and keeps the results in the tasks' order. The gate is entered before
    /// each job, on the thread that does it.
    #[inline(always)]
    pub fn run<R: Threads + Sync, T: Task<Work = S>, G: Gate>(
        &mut self,
        rt: &R,
        tasks: &[T],
        gate: &G,
    ) -> Way
        requires { length tasks.now ≡ self.old.jobs }
        ensures jobs { self.new.jobs ≡ self.old.jobs }
        ensures results { (length self.new.results ≡ self.old.jobs)
            × ((job : ℕ) → job < self.old.jobs → IsRight T.leaves tasks.now self.new.results job) }
        ensures draws { AreLeft result self.old.jobs (length self.old.drawn) self.new.drawn }
        ensures workers { length self.new.drawn ≡ length self.old.drawn }
    {
        self.run_on(rt, WORKERS, tasks, gate)
    }

    /// Does what `run` does on at most so many of the workers. One starts no thread, and takes the tasks in their order.
    #[inline(always)]
    pub fn run_on<R: Threads + Sync, T: Task<Work = S>, G: Gate>(
        &mut self,
        rt: &R,
        workers: u32,
        tasks: &[T],
        gate: &G,
    ) -> Way
        requires workers { 0 < workers }
        requires tasks { length tasks.now ≡ self.old.jobs }
        ensures jobs { self.new.jobs ≡ self.old.jobs }
        ensures results { (length self.new.results ≡ self.old.jobs)
            × ((job : ℕ) → job < self.old.jobs → IsRight T.leaves tasks.now self.new.results job) }
        ensures draws { AreLeft result self.old.jobs (length self.old.drawn) self.new.drawn }
        ensures workers { length self.new.drawn ≡ length self.old.drawn }
    {
        let way = run_jobs(
            rt,
            self.alloc,
            workers as usize,
            tasks,
            self.all.as_slice(),
            gate,
            self.rows.as_mut_slice(),
        );
        self.ran = true;
        way
    }

    /// Does some of the tasks, each once, on at most so many of the workers: those at the chosen places, which rise. Their results are kept in the
    /// tasks' order, and the others' are what they were, where there were any.
    #[inline(always)]
    pub fn run_chosen<R: Threads + Sync, T: Task<Work = S>, G: Gate>(
        &mut self,
        rt: &R,
        workers: u32,
        tasks: &[T],
        chosen: &[u32],
        gate: &G,
    ) -> Way
        requires workers { 0 < workers }
        requires tasks { length tasks.now ≡ self.old.jobs }
        requires chosen { AreDraws self.old.jobs chosen.now }
        ensures jobs { self.new.jobs ≡ self.old.jobs }
        ensures results { (length self.new.results ≡ self.old.jobs)
            × AreDone T.leaves tasks.now self.new.results chosen.now }
        ensures others { 0 < length self.old.results
            → StayBut chosen.now self.old.results self.new.results }
        ensures draws { AreLeftOf result self.old.jobs chosen.now
            (length self.old.drawn) self.new.drawn }
        ensures workers { length self.new.drawn ≡ length self.old.drawn }
    {
        let way = run_jobs(
            rt,
            self.alloc,
            workers as usize,
            tasks,
            chosen,
            gate,
            self.rows.as_mut_slice(),
        );
        self.ran = true;
        way
    }

    /// Whether it ran: then it has a result of each job.
    #[inline(always)]
    pub fn has_run(&self) -> bool
        ensures { result ≡ true → length self.now.results ≡ self.now.jobs }
    {
        self.ran
    }

    /// The jobs that a worker drew in the last run, in the order in which it drew them; none before the first run. Workers are counted
    /// from 0.
    pub fn drawn(&self, worker: u32) -> &[u32]
        requires { worker < length self.now.drawn }
        ensures { (d : List ℕ) → slice_index_or self.now.drawn worker d ≡ result.now }
    {
        self.rows[worker as usize].drawn.as_slice()
    }

    /// The result of a job in the last run.
    pub fn result(&self, job: u32) -> &S
        requires { job < length self.now.results }
        ensures { (d : S) → slice_index_or self.now.results job d ≡ result.now }
    {
        &self.rows[0].scratches[job as usize]
    }

    /// The result of a job in the last run, to be taken over.
    pub fn result_mut(&mut self, job: u32) -> &mut S
        requires { job < length self.old.results }
        ensures* writes_back { sem 𝓛 (lends_result S.row self.entry job result) }
        ensures value { slice_index_or self.old.results job result.now ≡ result.now }
    {
        &mut self.rows[0].scratches[job as usize]
    }
}
