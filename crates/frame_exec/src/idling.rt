//! Frames in which nothing happens, which are only counted.

ghost use Rattle.std.specs.Prelude.{◌≡◌, true};
ghost use Rattle.scenario.specs.FrameLists.{no_items};

use crate::bench::Bench;
use crate::cut::Cut;
use fsw_outside::{Gate, Sink};
use scenario::FrameInput;
use std::thread::Threads;

impl<'f> Bench<'f> {
    ghost use Rattle.std.specs.Prelude.{◌+◌, ◌<◌, ◌++◌, List, true, false, is_err};
    ghost use Rattle.fsw_outside.specs.Causes.{HasCause};
    ghost use Rattle.scenario.specs.FrameLists.{Frame, no_items};
    ghost use Rattle.frame_runs.specs.Runs.{Setup};
    ghost use Rattle.frame_exec.specs.Standing.{has_failed, CanRun};
    ghost use Rattle.frame_exec.specs.Following.{Follows, AddsFrame};
    ghost use Rattle.hs_monitors.specs.State.{OnlyCounts};
    ghost use Rattle.frame_exec.specs.Idling.{HsPasses, IsIdle, IsNoneDue};
    ghost use Rattle.frame_exec.specs.Stages.{time_of};

    /// Adds a frame beside no crowd, as `add_frame` does.
    #[inline(always)]
    pub(crate) fn add_alone<R: Threads + Sync, G: Gate, O: Sink>(
        &mut self,
        rt: &R,
        input: &FrameInput,
        gate: &G,
        sink: &mut O,
    ) -> Result<(), Cut>
        requires started { (setup : Setup) × (earlier : List Frame) × (later : List Frame)
            × Follows self.old setup earlier later × CanRun setup (earlier ++ later) input.now }
        ensures adds { (setup : Setup) (earlier later : List Frame)
            → Follows self.old setup earlier later
            → AddsFrame result setup earlier later input.now self.old self.new
            (O.held sink.old) (O.held sink.new) }
        ensures cause { HasCause (O.held sink.new) (O.faults sink.old) (O.faults sink.new) result }
        ensures failed { has_failed self.new ≡ is_err result }
    {
        if self.passes(input) {
            return self.count(sink);
        }
        self.add_whole(rt, input, gate, sink)
    }

    /// Whether nothing happens in a frame but that it is counted: it has no items, the bench is idle, no command of SC is due, and HS has at
    /// most a check to count.
    #[inline(always)]
    fn passes(&self, input: &FrameInput) -> bool
        requires time { self.now.epoch + self.now.number < 4294967296 }
        ensures none { result ≡ true → input.now ≡ no_items }
        ensures idle { result ≡ true → self.now.idle ≡ true }
        ensures due { result ≡ true → IsNoneDue (time_of self.now) self.now.apps }
        ensures hs { result ≡ true → self.now.counts ≡ true
            → OnlyCounts self.now.apps.hs.state.value.duty }
    {
        if !self.idle {
            return false;
        }
        if !has_no_items(input) {
            return false;
        }
        if !self.apps.owes_nothing(self.epoch + self.number as u32) {
            return false;
        }
        self.apps.hs_only_counts(self.counts)
    }

    /// Adds a frame of no items to a bench that is idle, where no command of SC is due: only its end is noted, a check of HS is counted where it
    /// has one, and the frame is counted.
    #[inline(always)]
    fn count<O: Sink>(&mut self, sink: &mut O) -> Result<(), Cut>
        requires started { (setup : Setup) × (earlier : List Frame) × (later : List Frame)
            × Follows self.old setup earlier later × CanRun setup (earlier ++ later) no_items }
        requires idle { IsIdle self.old.wires.bus self.old.counts self.old.apps }
        requires due { IsNoneDue (time_of self.old) self.old.apps }
        requires hs { self.old.counts ≡ true → OnlyCounts self.old.apps.hs.state.value.duty }
        ensures adds { (setup : Setup) (earlier later : List Frame)
            → Follows self.old setup earlier later
            → AddsFrame result setup earlier later no_items self.old self.new
            (O.held sink.old) (O.held sink.new) }
        ensures cause { HasCause (O.held sink.new) (O.faults sink.old) (O.faults sink.new) result }
        ensures failed { has_failed self.new ≡ is_err result }
    {
        self.apps.pass_hs(self.counts);
        match self.lines.block.mark_end(sink) {
            Ok(()) => {
                self.number += 1;
                Ok(())
            }
            Err(_) => Err(self.cut()),
        }
    }

    /// Adds a frame beside no crowd, and notes whether the bench is idle behind it.
    #[inline(always)]
    fn add_whole<R: Threads + Sync, G: Gate, O: Sink>(
        &mut self,
        rt: &R,
        input: &FrameInput,
        gate: &G,
        sink: &mut O,
    ) -> Result<(), Cut>
        requires started { (setup : Setup) × (earlier : List Frame) × (later : List Frame)
            × Follows self.old setup earlier later × CanRun setup (earlier ++ later) input.now }
        ensures adds { (setup : Setup) (earlier later : List Frame)
            → Follows self.old setup earlier later
            → AddsFrame result setup earlier later input.now self.old self.new
            (O.held sink.old) (O.held sink.new) }
        ensures cause { HasCause (O.held sink.new) (O.faults sink.old) (O.faults sink.new) result }
        ensures failed { has_failed self.new ≡ is_err result }
    {
        match self.add_on(rt, input, input.counters(), gate, sink) {
            Ok(()) => {
                self.counts = self.apps.hs_may_count();
                self.idle = self.is_idle_behind(input);
                Ok(())
            }
            Err(cut) => Err(cut),
        }
    }

    /// Whether the bench is known to be idle behind a frame. It is asked no further where the frame had items, or where SC gave some: then
    /// something most likely happens in the next frame too.
    #[inline(always)]
    fn is_idle_behind(&self, input: &FrameInput) -> bool
        requires { self.now.counts ≡ false
            → HsPasses self.now.apps.hs.state.value self.now.apps.hs.state.value }
        ensures { result ≡ true → IsIdle self.now.wires.bus self.now.counts self.now.apps }
    {
        if !has_no_items(input) {
            return false;
        }
        if !self.apps.sc.out.is_empty() {
            return false;
        }
        if !self.apps.are_idle() {
            return false;
        }
        self.wires.hold_nothing()
    }
}

/// Whether a frame has no items.
#[inline(always)]
fn has_no_items(input: &FrameInput) -> bool
    ensures { result ≡ true → input.now ≡ no_items }
{
    input.has_only_sends() && input.sends().is_empty()
}
