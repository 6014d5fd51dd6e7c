//! How the applications are woken in a frame.

ghost use Rattle.std.specs.Prelude.{◌≡◌};

use crate::bench::Bench;
use crate::in_place::wake_in_place;
use crate::yielded::Yield;
use app_suite::{Reads, Scene, wake_all};
use fsw_outside::Gate;
use packet_forms::Counter;
use std::thread::Threads;

/// Whether several of so many workers are of use for these applications, by whether each rests.
#[inline(always)]
fn are_shared(workers: u32, rests: [bool; 6]) -> bool {
    if workers <= 1 {
        return false;
    }
    let busy = u32::from(!rests[0])
        + u32::from(!rests[1])
        + u32::from(!rests[2])
        + u32::from(!rests[3])
        + u32::from(!rests[4])
        + u32::from(!rests[5]);
    busy > 1
}

impl<'f> Bench<'f> {
    ghost use Rattle.std.specs.Prelude.{◌+◌, ◌<◌, []};
    ghost use Rattle.frame_exec.specs.Standing.{IsReady};
    ghost use Rattle.frame_exec.specs.Stages.{IsClear, Steps, CanSend, AreWoken};
    ghost use Rattle.frame_exec.specs.Parts.{given_in};
    ghost use Rattle.app_suite.specs.Wakes.{joined};
    ghost use Rattle.frame_exec.specs.declared.yielded.Yield.TheVariants as yields;

    /// Wakes the applications that are there on what they took, on execution counters and on the frame's image, and answers whether an item
    /// was given. The jobs of the first frame go over all workers, whatever there is to do.
    #[inline(always)]
    pub(crate) fn step<R: Threads + Sync, G: Gate>(
        &mut self,
        rt: &R,
        gate: &G,
        counters: &[Counter],
    ) -> Yield
        requires time { self.old.epoch + self.old.number < 4294967296 }
        requires clear { IsClear self.old }
        requires ready { IsReady self.old }
        ensures steps { Steps counters.now self.old self.new }
        ensures can_send { CanSend self.new }
        ensures ready { IsReady self.new }
        ensures none { result ≡ yields.Nothing → joined (given_in self.new.apps) ≡ [] }
    {
        if self.number == 0 {
            return self.step_on_crew(rt, gate, counters);
        }
        self.step_in_place(rt, gate, counters)
    }

    /// Wakes those that have something to do where they are, one after another. Where several have and there are workers for them, they
    /// are jobs of the crew. Where all rest nothing is asked of them but that.
    // Inlined into the whole frame, the compiler asks Checksum's switches one by one: 584 instructions an empty frame in place of 430.
    #[inline(never)]
    fn step_in_place<R: Threads + Sync, G: Gate>(
        &mut self,
        rt: &R,
        gate: &G,
        counters: &[Counter],
    ) -> Yield
        requires time { self.old.epoch + self.old.number < 4294967296 }
        requires clear { IsClear self.old }
        requires ready { IsReady self.old }
        ensures steps { Steps counters.now self.old self.new }
        ensures can_send { CanSend self.new }
        ensures ready { IsReady self.new }
        ensures none { result ≡ yields.Nothing → joined (given_in self.new.apps) ≡ [] }
    {
        let reads = Reads {
            tables: &self.tables,
            events: &self.apps.events,
            telemetry: &self.apps.lc.telemetry,
            window: self.memory.ram.window(),
            counters,
            time: self.epoch + self.number as u32,
        };
        let hs_rests = self.apps.hs.rests(&reads);
        let cs_rests = self.apps.cs.rests(&reads);
        let sc_rests = self.apps.sc.rests(&reads);
        let mm_rests = self.apps.mm.rests(&reads);
        let md_rests = self.apps.md.rests(&reads);
        let lc_rests = self.apps.lc.slot.rests(&reads);
        let all_rest = hs_rests & cs_rests & sc_rests & mm_rests & md_rests & lc_rests;
        if all_rest {
            return Yield::Nothing;
        }
        if are_shared(
            self.workers,
            [hs_rests, cs_rests, sc_rests, mm_rests, md_rests, lc_rests],
        ) {
            return self.step_on_crew(rt, gate, counters);
        }
        let hs = wake_in_place(&mut self.apps.hs, hs_rests, &reads, &mut ());
        let cs = wake_in_place(&mut self.apps.cs, cs_rests, &reads, &mut ());
        let sc = wake_in_place(&mut self.apps.sc, sc_rests, &reads, &mut ());
        let mm = wake_in_place(&mut self.apps.mm, mm_rests, &reads, &mut *self.memory.ops);
        let md = wake_in_place(&mut self.apps.md, md_rests, &reads, &mut ());
        let lc = wake_in_place(&mut self.apps.lc.slot, lc_rests, &reads, &mut ());
        Yield::unless(hs & cs & sc & mm & md & lc)
    }

    /// Wakes the applications that are there as jobs of the crew, in the first frame all of them and later those that have something to do,
    /// and answers whether an item was given.
    #[inline(never)]
    fn step_on_crew<R: Threads + Sync, G: Gate>(
        &mut self,
        rt: &R,
        gate: &G,
        counters: &[Counter],
    ) -> Yield
        requires time { self.old.epoch + self.old.number < 4294967296 }
        requires clear { IsClear self.old }
        requires ready { IsReady self.old }
        ensures steps { Steps counters.now self.old self.new }
        ensures can_send { CanSend self.new }
        ensures ready { IsReady self.new }
        ensures none { result ≡ yields.Nothing → joined (given_in self.new.apps) ≡ [] }
    {
        let workers = self.workers.max(1);
        self.wake(rt, gate, counters, workers);
        Yield::unless(self.apps.take_over(&mut self.memory.ops))
    }

    /// Wakes the applications, each as a job of the crew, on at most so many workers: LC as the last, where it is there.
    #[inline(always)]
    fn wake<R: Threads + Sync, G: Gate>(
        &mut self,
        rt: &R,
        gate: &G,
        counters: &[Counter],
        workers: u32,
    )
        requires workers { 0 < workers }
        requires time { self.old.epoch + self.old.number < 4294967296 }
        requires ready { IsReady self.old }
        ensures { AreWoken counters.now self.old self.new }
    {
        let time = self.epoch + self.number as u32;
        let window = self.memory.ram.window();
        let lc = &self.apps.lc;
        let reads = Reads {
            tables: &self.tables,
            events: &self.apps.events,
            telemetry: &lc.telemetry,
            window,
            counters,
            time,
        };
        let scene = Scene {
            hs: &self.apps.hs,
            cs: &self.apps.cs,
            sc: &self.apps.sc,
            mm: &self.apps.mm,
            md: &self.apps.md,
            lc,
            reads,
        };
        wake_all(&mut self.apps.crew, rt, workers, gate, &scene, lc.there);
    }
}
