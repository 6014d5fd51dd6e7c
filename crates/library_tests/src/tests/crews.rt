//! Crews of several sizes: jobs that are drawn and not shared out, each of them once and behind its gate.

ghost use Rattle.std.specs.Prelude.{◌≡◌, ◌<◌, ◌≤◌};

use super::threads::{Counting, Meeting};
use crew_board::{Crew, Scratch, Task, Way};
use fsw_outside::{NoMemory, OpenGate};
use std::alloc::Global;
use std::process::Abort;
use std::sync::atomic::{AtomicU64, Ordering};
use std::test::Fail;
use std::thread::Threads;

#[derive(Drop)]
struct Cell {
    value: u32,
}

impl Scratch for Cell {
    fn fresh(_alloc: Global) -> Result<Cell, NoMemory> {
        Ok(Cell { value: 0 })
    }
}

/// Copies a number.
#[derive(Clone, Copy)]
struct Number(u32);

impl Task for Number {
    type Work = Cell;

    ghost leaves = { λ task scratch. scratch.value ≡ task.0 };

    fn perform(&self, scratch: &mut Cell) {
        scratch.value = self.0;
    }
}

const FIVE: [Number; 5] = [Number(10), Number(11), Number(12), Number(13), Number(14)];

/// Copies a job's number, and counts the job, in a byte each, where the gate was entered before.
#[derive(Drop)]
struct Counted<'a> {
    job: u32,
    gate: &'a Counting,
    performed: &'a AtomicU64,
}

impl Task for Counted<'_> {
    type Work = Cell;

    ghost leaves = { λ task scratch. scratch.value ≡ task.job };

    fn perform(&self, scratch: &mut Cell) {
        let place = 8 * (self.job % 8);
        let entered = self.gate.entered() >> place & 255;
        self.performed
            .fetch_add(u64::min(entered, 1) << place, Ordering::SeqCst);
        scratch.value = self.job;
    }
}

/// How often a job stands in a list.
fn times(job: u32, drawn: &[u32]) -> usize {
    drawn.iter().filter(|number| **number == job).count()
}

/// Five jobs, each of which enters its gate once, is performed once and behind it, and stands in one worker's list.
fn five_jobs<R: Threads + Abort + Sync>(rt: &R, alloc: Global, workers: u32) -> Result<(), Fail>
    requires { (0 < workers) × (workers ≤ 16) }
{
    let mut crew = Crew::<Cell>::open(alloc, workers, 5)?;
    let gate = Counting::new();
    let performed = AtomicU64::new(0);
    let jobs = [0, 1, 2, 3, 4].map(|job| Counted {
        job,
        gate: &gate,
        performed: &performed,
    });
    let way = crew.run(rt, &jobs, &gate);
    assert_eq!(rt; way, Way::Shared);
    assert_eq!(rt; gate.entered(), 0x01_01_01_01_01);
    assert_eq!(rt; performed.load(Ordering::SeqCst), 0x01_01_01_01_01);
    for job in 0..5 {
        assert_eq!(rt; crew.result(job).value, job);
        let mut stands = 0usize;
        for worker in 0..workers {
            stands = stands.saturating_add(times(job, crew.drawn(worker)));
        }
        assert_eq!(rt; stands, 1);
    }
    Ok(())
}

#[test]
fn each_of_five_jobs_is_done_once_behind_its_gate(rt: HostRuntime) -> Result<(), Fail> {
    five_jobs(&rt, rt.alloc(), 1)?;
    five_jobs(&rt, rt.alloc(), 2)?;
    five_jobs(&rt, rt.alloc(), 5)?;
    five_jobs(&rt, rt.alloc(), 16)
}

#[test]
fn two_jobs_at_once(rt: HostRuntime) -> Result<(), Fail> {
    let mut crew = Crew::<Cell>::open(rt.alloc(), 2, 5)?;
    let gate = Meeting::new(3, 3);
    crew.run(&rt, &FIVE, &gate);
    assert_eq!(rt; gate.met(), 3);
    Ok(())
}

#[test]
fn five_workers_meet(rt: HostRuntime) -> Result<(), Fail> {
    let mut crew = Crew::<Cell>::open(rt.alloc(), 5, 5)?;
    let gate = Meeting::new(31, 31);
    crew.run(&rt, &FIVE, &gate);
    assert_eq!(rt; gate.met(), 31);
    Ok(())
}

/// Two of sixteen workers meet in two jobs, and the others draw nothing; one of sixteen takes all jobs in order.
#[test]
fn fewer_workers_than_there_are(rt: HostRuntime) -> Result<(), Fail> {
    let mut crew = Crew::<Cell>::open(rt.alloc(), 16, 5)?;
    let gate = Meeting::new(3, 3);
    crew.run_on(&rt, 2, &FIVE, &gate);
    assert_eq!(rt; gate.met(), 3);
    assert!(rt; crew.drawn(2).is_empty());
    crew.run_on(&rt, 1, &FIVE, &OpenGate);
    assert_eq!(rt; crew.drawn(0), [0, 1, 2, 3, 4].as_slice());
    assert!(rt; crew.drawn(1).is_empty());
    assert_eq!(rt; crew.result(4).value, 14);
    Ok(())
}

/// Two workers, and a gate that holds one job until the four others have entered. Fixed shares and invented lists fail for some job.
fn one_job_held<R: Threads + Abort + Sync>(rt: &R, alloc: Global, held: u32) -> Result<(), Fail>
    requires { held < 5 }
{
    let mut crew = Crew::<Cell>::open(alloc, 2, 5)?;
    let gate = Meeting::new(1u64 << held, 31);
    let way = crew.run(rt, &FIVE, &gate);
    assert_eq!(rt; way, Way::Shared);
    assert_eq!(rt; gate.met(), 1u64 << held);
    let (first, second) = (crew.drawn(0), crew.drawn(1));
    let (with, without) = if times(held, first) == 1 {
        (first, second)
    } else {
        (second, first)
    };
    assert_eq!(rt; with.last().copied(), Some(held));
    assert_eq!(rt; times(held, without), 0);
    if held == 0 {
        assert_eq!(rt; with, [0].as_slice());
        assert_eq!(rt; without, [1, 2, 3, 4].as_slice());
    }
    Ok(())
}

#[test]
fn jobs_are_drawn_and_draws_are_true(rt: HostRuntime) -> Result<(), Fail> {
    for held in 0..5 {
        one_job_held(&rt, rt.alloc(), held)?;
    }
    Ok(())
}
