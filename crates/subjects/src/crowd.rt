//! A crowd of subjects.

ghost use Rattle.std.specs.Prelude.{◌≡◌, ◌<◌, ◌≤◌, [], map, filter, not, length, vec_len, vec_capacity, IfOk};
ghost use Rattle.subjects.specs.Plans.{cycled, restarted};
ghost use Rattle.subjects.specs.Seats.{held, counters_in};
ghost use Rattle.subjects.specs.Crowds.{counter_of, is_named, restarted_if, all_cycled, with_restarted, without, all_restarted};

use crate::seat::Seat;
use crate::subject::Subject;
use fsw_outside::NoMemory;
use packet_forms::{Counter, Name};
use std::alloc::Global;
use std::marker::Model;
use std::thread;
use std::thread::Threads;

/// The most workers that cycle a crowd.
const WORKERS: u32 = 16;

/// How many subjects are worth a worker: starting a thread takes tens of microseconds.
const SHARE: u32 = 32;

/// Up to 64 subjects in order, seen as their list with the counters of the last cycle.
#[derive(Drop)]
pub struct Crowd<S = Box<dyn Subject + Send>> {
    seats: Vec<Seat<S>>,
    readings: Vec<Counter>,
}

impl<S> Model for Crowd<S> {
    ghost use Rattle.std.specs.Prelude.{◌≤◌, length, vec_capacity};
    ghost use Rattle.subjects.specs.Crowds.{Seen};

    ghost Value = { Seen S };

    ghost use Rattle.subjects.specs.Seats.{held};

    ghost view = { λ c. record { subjects = held c.seats.items; readings = c.readings.items } };

    ghost invariant = { λ c. (length c.seats.items ≤ 64) × (length c.readings.items ≤ 64)
        × (length c.seats.items ≤ vec_capacity c.readings) };
}

/// Seats subjects in their order.
fn open_seats<S: Drop>(alloc: Global, subjects: Vec<S>) -> Result<Vec<Seat<S>>, NoMemory>
    ensures subjects { IfOk result (λ seats. held seats.items ≡ subjects.items) }
    ensures len { IfOk result (λ seats. vec_len seats ≡ vec_len subjects) }
{
    let mut seats = Vec::with_capacity(alloc, subjects.len())?;
    for subject in subjects {
        seats.push_reserved(Seat {
            subject,
            counter: Counter::default(),
        });
    }
    Ok(seats)
}

/// Cycles each subject once, one after another, and lists their counters.
fn cycle_in_turn<S: Subject>(seats: &mut [Seat<S>], readings: &mut Vec<Counter>)
    requires { length seats.old ≤ vec_capacity readings.old }
    ensures subjects { map S.seen (held seats.new) ≡ map cycled (map S.seen (held seats.old)) }
    ensures readings { readings.new.items ≡ map counter_of (map S.seen (held seats.old)) }
    ensures capacity { vec_capacity readings.new ≡ vec_capacity readings.old }
{
    readings.clear();
    for seat in seats.iter_mut() {
        readings.push_reserved(Counter {
            name: seat.subject.name(),
            value: seat.subject.cycle(),
        });
    }
}

/// Cycles each subject once on up to so many workers; each keeps its counter in its own seat.
fn cycle_shared<R: Threads + Sync, S: Subject + Send>(rt: &R, workers: u32, seats: &mut [Seat<S>])
    requires { 0 < workers }
    ensures subjects { map S.seen (held seats.new) ≡ map cycled (map S.seen (held seats.old)) }
    ensures counters { counters_in seats.new ≡ map counter_of (map S.seen (held seats.old)) }
{
    thread::for_each_mut(
        rt,
        seats,
        workers as usize,
        &|_: usize, seat: &mut Seat<S>|
            ensures subject { S.seen seat.new.subject ≡ cycled (S.seen seat.old.subject) }
            ensures counter { seat.new.counter ≡ counter_of (S.seen seat.old.subject) }
        { seat.cycle() },
    );
}

/// Lists the counters that the subjects gave last.
fn list_counters<S>(seats: &[Seat<S>], readings: &mut Vec<Counter>)
    requires { length seats.now ≤ vec_capacity readings.old }
    ensures items { readings.new.items ≡ counters_in seats.now }
    ensures capacity { vec_capacity readings.new ≡ vec_capacity readings.old }
{
    readings.clear();
    for seat in seats {
        readings.push_reserved(seat.counter);
    }
}

/// Restarts each subject of this name.
fn restart_named<S: Subject>(name: &Name, seats: &mut [Seat<S>])
    ensures { map S.seen (held seats.new) ≡ map (restarted_if name.now)
        (map S.seen (held seats.old)) }
{
    for seat in seats.iter_mut() {
        seat.restart_if(name);
    }
}

/// Restarts each subject.
fn restart_each<S: Subject>(seats: &mut [Seat<S>])
    ensures { map S.seen (held seats.new) ≡ map restarted (map S.seen (held seats.old)) }
{
    for seat in seats.iter_mut() {
        seat.subject.restart();
    }
}

/// Drops the subjects of this name; the others stay in their order.
fn keep_others<S: Subject>(name: &Name, seats: &mut Vec<Seat<S>>)
    ensures left { seats.new.items ≡ filter (λ s. not (is_named name.now (S.seen s.subject)))
        seats.old.items }
    ensures fewer { vec_len seats.new ≤ vec_len seats.old }
{
    seats.retain(|seat| !seat.is_named(name));
}

impl<S: Subject + Send> Crowd<S> {
    /// A crowd of at most 64 subjects. All memory is taken here; where there is none the subjects are dropped.
    pub fn open(alloc: Global, subjects: Vec<S>) -> Result<Crowd<S>, NoMemory>
        requires { vec_len subjects ≤ 64 }
        ensures subjects { IfOk result (λ crowd. crowd.subjects ≡ subjects.items) }
        ensures readings { IfOk result (λ crowd. crowd.readings ≡ []) }
    {
        let readings = Vec::with_capacity(alloc, subjects.len())?;
        let seats = open_seats(alloc, subjects)?;
        Ok(Crowd { seats, readings })
    }

    /// Cycles each subject once, on up to 16 workers.
    pub fn cycle<R: Threads + Sync>(&mut self, rt: &R)
        ensures subjects { map S.seen self.new.subjects
            ≡ all_cycled (map S.seen self.old.subjects) }
        ensures readings { self.new.readings ≡ map counter_of (map S.seen self.old.subjects) }
    {
        self.cycle_on(rt, WORKERS);
    }

    /// Cycles each subject once, on up to so many workers, each with 32 subjects or more. One worker starts no thread.
    pub fn cycle_on<R: Threads + Sync>(&mut self, rt: &R, workers: u32)
        requires { 0 < workers }
        ensures subjects { map S.seen self.new.subjects
            ≡ all_cycled (map S.seen self.old.subjects) }
        ensures readings { self.new.readings ≡ map counter_of (map S.seen self.old.subjects) }
    {
        let workers = workers.min(self.seats.len() as u32 / SHARE);
        if workers <= 1 {
            cycle_in_turn(self.seats.as_mut_slice(), &mut self.readings);
            return;
        }
        cycle_shared(rt, workers, self.seats.as_mut_slice());
        list_counters(self.seats.as_slice(), &mut self.readings);
    }

    /// The counters of the last cycle, in the order in which the subjects stood then. There are none before the first.
    pub fn readings(&self) -> &[Counter]
        ensures readings { result.now ≡ self.now.readings }
        ensures few { length result.now ≤ 64 }
    {
        self.readings.as_slice()
    }

    /// Restarts each subject of this name. The counters of the last cycle stay.
    pub fn restart(&mut self, name: Name)
        ensures subjects { map S.seen self.new.subjects
            ≡ with_restarted name (map S.seen self.old.subjects) }
        ensures readings { self.new.readings ≡ self.old.readings }
    {
        restart_named(&name, self.seats.as_mut_slice());
    }

    /// Drops each subject of this name; the others stay as they are, in their order. The counters of the last cycle stay.
    pub fn delete(&mut self, name: Name)
        ensures subjects { map S.seen self.new.subjects
            ≡ without name (map S.seen self.old.subjects) }
        ensures others { self.new.subjects ≡ filter
            (λ s. not (is_named name (S.seen s))) self.old.subjects }
        ensures readings { self.new.readings ≡ self.old.readings }
    {
        keep_others(&name, &mut self.seats);
    }

    /// Restarts each subject. The counters of the last cycle stay.
    pub fn restart_all(&mut self)
        ensures subjects { map S.seen self.new.subjects
            ≡ all_restarted (map S.seen self.old.subjects) }
        ensures readings { self.new.readings ≡ self.old.readings }
    {
        restart_each(self.seats.as_mut_slice());
    }
}
