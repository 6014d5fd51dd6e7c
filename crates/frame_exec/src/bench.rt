//! The bench: one frame after another.

ghost use Rattle.std.specs.Prelude.{◌≡◌};
ghost use Rattle.frame_exec.specs.declared.applications.TheConstants.{EVENTS_ROOM};
ghost use Rattle.app_suite.specs.Jobs.{jobs_of};

use crate::applications::Applications;
use crate::cut::Cut;
use crate::kind::FrameKind;
use crate::lines::Lines;
use crate::memory::Memory;
use crate::wires::Wires;
use crate::yielded::Yield;
use active_tables::Tables;
use app_suite::{Holds, Naming, hand_over, naming_of};
use frame_runs::obey_frame;
use fsw_outside::{Failed, Gate, Sink};
use packet_forms::Counter;
use scenario::{FrameInput, Upset};
use std::thread::Threads;
use subjects::{Crowd, Subject};

/// The bench, after some frames. It takes all its memory as it is opened, and borrows the files, from which MM loads.
#[derive(Drop)]
pub struct Bench<'f> {
    pub(crate) epoch: u32,
    // one more than the last frame's number, which may be the largest of four bytes
    pub(crate) number: u64,
    pub(crate) failed: bool,
    // whether a processor reset was asked for in the frame that was run
    pub(crate) resets: bool,
    // whether it is noted that the bench is idle: a frame of no items does nothing but count, as long as no command of SC is due and HS has at
    // most a check to count
    pub(crate) idle: bool,
    // whether HS is asked then: it may have checks to count
    pub(crate) counts: bool,
    // how many threads may land operations, or cycle a crowd, at once
    pub(crate) workers: u32,
    pub(crate) tables: Tables<'f>,
    pub(crate) apps: Applications,
    pub(crate) wires: Wires,
    pub(crate) memory: Memory,
    pub(crate) lines: Lines,
    ghost manned: { apps.crew.jobs ≡ jobs_of wires.bus.watched },
    ghost there: { apps.lc.there ≡ wires.bus.watched },
    ghost activations_room: { apps.activations.room ≡ EVENTS_ROOM },
}

impl<'f> Bench<'f> {
    ghost use Rattle.std.specs.Prelude.{ℕ, ◌+◌, ◌-◌, ◌<◌, ◌≤◌, List, [], ◌∷◌, ◌++◌, map, length, true, false, ◌||◌, IfErr, OnOk, OnErr, is_err};
    ghost use Rattle.fsw_outside.specs.Told.{WhereTold};
    ghost use Rattle.fsw_outside.specs.Causes.{HasCause};
    ghost use Rattle.fsw_outside.specs.Written.{WritesAll};
    ghost use Rattle.packet_log.specs.Blocks.{Notes, Puts, empty_block, late_in, tells};
    ghost use Rattle.scenario.specs.declared.frame.App.{App};
    ghost use Rattle.scenario.specs.FrameLists.{Frame};
    ghost use Rattle.frame_runs.specs.Runs.{Setup, State, activated_at, naming_at, frame_lines, log_of, run_of};
    ghost use Rattle.frame_runs.specs.Crowds.{with_counters, beside, behind_items, crowd_after, frame_beside};
    ghost use Rattle.subjects.specs.Crowds.{counter_of, all_cycled};
    ghost use Rattle.frame_exec.specs.Standing.{Has, has_failed, waiting_in, AreMapped, IsReady, Stands, IsInterrupted, CanRun};
    ghost use Rattle.frame_exec.specs.Beside.{crowd_in, crowd_then};
    ghost use Rattle.frame_exec.specs.Following.{Follows, IsCutAt, Adds};
    ghost use Rattle.app_suite.specs.Landable.{CanLand};
    ghost use Rattle.std.specs.List.{AllPass};
    ghost use Rattle.bus_pipes.specs.Counted.{is_item_counted};
    ghost use Rattle.table_files.specs.Files.{kind_at};
    ghost use Rattle.frame_exec.specs.Stages.{GoesOn, NamesFile, Activates, IsUpset, Takes, Enters, Arrives, CanSend, Sends, RunsIn, IsSameFrame, Lands, StartsAnew, HasGiven, loads_in, lines_in};
    ghost use Rattle.frame_exec.specs.Parts.{items_in, given_in};
    ghost use Rattle.app_suite.specs.Holding.{AreHeld};
    ghost use Rattle.app_suite.specs.Wakes.{joined};
    ghost use Rattle.frame_exec.specs.declared.yielded.Yield.TheVariants as yields;

    /// Whether a frame of this bench failed.
    pub fn failed(&self) -> bool
        ensures { result ≡ has_failed self.now }
    {
        self.failed
    }

    /// Runs a frame, writes its lines, lands its operations once all of them were written, and then lets a processor reset take effect that was
    /// asked for in it.
    pub fn frame<R: Threads + Sync, G: Gate, O: Sink>(
        &mut self,
        rt: &R,
        input: &FrameInput,
        gate: &G,
        sink: &mut O,
    ) -> Result<(), Failed>
        requires started { (setup : Setup) × (frames : List Frame) × Stands self.old setup frames
            × CanRun setup frames input.now }
        ensures lines { (setup : Setup) (frames : List Frame) → Stands self.old setup frames
            → WhereTold (O.held sink.old) (O.held sink.new)
            (WritesAll result (frame_lines setup frames input.now)) }
        ensures stands { (setup : Setup) (frames : List Frame) → Stands self.old setup frames
            → OnOk result (Stands self.new setup (frames ++ input.now ∷ [])) }
        ensures interrupted { (setup : Setup) (frames : List Frame) → Stands self.old setup frames
            → OnErr result (IsInterrupted self.new setup frames input.now) }
        ensures cause { HasCause (O.held sink.new) (O.faults sink.old) (O.faults sink.new) result }
        ensures failed { has_failed self.new ≡ is_err result }
    {
        self.frame_on(rt, input, input.counters(), gate, sink)
    }

    /// Cycles a crowd, and runs a frame on its readings in place of the frame's own execution counters, as `frame` does. Once its lines were
    /// written the crowd obeys its items in their order, and a processor reset restarts each subject that is left.
    pub fn frame_with<R: Threads + Sync, S: Subject + Send, G: Gate, O: Sink>(
        &mut self,
        rt: &R,
        input: &FrameInput,
        crowd: &mut Crowd<S>,
        gate: &G,
        sink: &mut O,
    ) -> Result<(), Failed>
        requires started { (setup : Setup) × (frames : List Frame) × Stands self.old setup frames
            × CanRun setup frames input.now }
        ensures lines { (setup : Setup) (frames : List Frame) → Stands self.old setup frames
            → WhereTold (O.held sink.old) (O.held sink.new) (WritesAll result
            (frame_lines setup frames (beside (map S.seen crowd.old.subjects) input.now))) }
        ensures stands { (setup : Setup) (frames : List Frame) → Stands self.old setup frames
            → OnOk result (Stands self.new setup (frames
            ++ beside (map S.seen crowd.old.subjects) input.now ∷ [])) }
        ensures interrupted { (setup : Setup) (frames : List Frame) → Stands self.old setup frames
            → OnErr result (IsInterrupted self.new setup frames
            (beside (map S.seen crowd.old.subjects) input.now)) }
        ensures crowd { (setup : Setup) (frames : List Frame) → Stands self.old setup frames
            → OnOk result (map S.seen crowd.new.subjects
            ≡ crowd_after setup (run_of setup frames)
            (beside (map S.seen crowd.old.subjects) input.now) (map S.seen crowd.old.subjects)) }
        ensures cycled { OnErr result (map S.seen crowd.new.subjects
            ≡ all_cycled (map S.seen crowd.old.subjects)) }
        ensures readings { crowd.new.readings ≡ map counter_of (map S.seen crowd.old.subjects) }
        ensures cause { HasCause (O.held sink.new) (O.faults sink.old) (O.faults sink.new) result }
        ensures failed { has_failed self.new ≡ is_err result }
    {
        crowd.cycle_on(rt, self.workers.max(1));
        match self.frame_on(rt, input, crowd.readings(), gate, sink) {
            Ok(()) => {
                self.tell(crowd);
                Ok(())
            }
            Err(failed) => Err(failed),
        }
    }

    /// Runs a frame on these execution counters as `frame` does.
    #[inline(always)]
    fn frame_on<R: Threads + Sync, G: Gate, O: Sink>(
        &mut self,
        rt: &R,
        input: &FrameInput,
        counters: &[Counter],
        gate: &G,
        sink: &mut O,
    ) -> Result<(), Failed>
        requires started { (setup : Setup) × (frames : List Frame) × Stands self.old setup frames
            × CanRun setup frames input.now }
        ensures lines { (setup : Setup) (frames : List Frame) → Stands self.old setup frames
            → WhereTold (O.held sink.old) (O.held sink.new) (WritesAll result
            (frame_lines setup frames (with_counters counters.now input.now))) }
        ensures stands { (setup : Setup) (frames : List Frame) → Stands self.old setup frames
            → OnOk result (Stands self.new setup
            (frames ++ with_counters counters.now input.now ∷ [])) }
        ensures interrupted { (setup : Setup) (frames : List Frame) → Stands self.old setup frames
            → OnErr result (IsInterrupted self.new setup frames
            (with_counters counters.now input.now)) }
        ensures given { (setup : Setup) (frames : List Frame) → Stands self.old setup frames
            → OnOk result (HasGiven self.new setup frames (with_counters counters.now input.now)) }
        ensures cause { HasCause (O.held sink.new) (O.faults sink.old) (O.faults sink.new) result }
        ensures failed { has_failed self.new ≡ is_err result }
    {
        let lines = self.run(rt, gate, input, counters);
        match self.write(sink, lines) {
            Ok(()) => {
                self.land(rt, gate);
                self.reset_if_asked();
                Ok(())
            }
            Err(failed) => {
                self.failed = true;
                Err(failed)
            }
        }
    }

    /// Runs a frame, beside a crowd where there is one, puts its lines behind those that wait, and lands its operations once all of them were
    /// put. A crowd is cycled, gives the frame its execution counters, and obeys its items, as `frame_with` tells. Where the lines don't fit,
    /// what waits is handed on first. Where that fails, the error says how many earlier frames weren't handed on whole.
    pub fn add_frame<R: Threads + Sync, S: Subject + Send, G: Gate, O: Sink>(
        &mut self,
        rt: &R,
        input: &FrameInput,
        crowd: &mut Option<Crowd<S>>,
        gate: &G,
        sink: &mut O,
    ) -> Result<(), Cut>
        requires started { (setup : Setup) × (earlier : List Frame) × (later : List Frame)
            × Follows self.old setup earlier later × CanRun setup (earlier ++ later) input.now }
        ensures follows { (setup : Setup) (earlier later : List Frame)
            → Follows self.old setup earlier later
            → OnOk result (Follows self.new setup earlier
            (later ++ frame_beside (crowd_in S.seen crowd.old) input.now ∷ [])) }
        ensures told { (setup : Setup) (earlier later : List Frame)
            → Follows self.old setup earlier later
            → OnOk result (WhereTold (tells (O.held sink.old) (waiting_in self.old))
            (tells (O.held sink.new) (waiting_in self.new)) (λ before after.
            after ≡ before ++ frame_lines setup (earlier ++ later)
            (frame_beside (crowd_in S.seen crowd.old) input.now))) }
        ensures cut { (setup : Setup) (earlier later : List Frame)
            → Follows self.old setup earlier later
            → IfErr result (λ cut. (cut.late ≤ length later)
            × WhereTold (tells (O.held sink.old) (waiting_in self.old)) (O.held sink.new)
            (λ before after. (start : List ℕ)
            → before ≡ start ++ log_of setup (earlier ++ later)
            → IsCutAt setup ((earlier ++ later)
            ++ frame_beside (crowd_in S.seen crowd.old) input.now
            ∷ []) (length (earlier ++ later) - cut.late) start after)) }
        ensures crowd { (setup : Setup) (earlier later : List Frame)
            → Follows self.old setup earlier later
            → OnOk result (crowd_in S.seen crowd.new
            ≡ crowd_then setup (earlier ++ later)
            (frame_beside (crowd_in S.seen crowd.old) input.now)
            (crowd_in S.seen crowd.old)) }
        ensures cause { HasCause (O.held sink.new) (O.faults sink.old) (O.faults sink.new) result }
        ensures failed { has_failed self.new ≡ is_err result }
    {
        match crowd {
            None => self.add_alone(rt, input, gate, sink),
            Some(crowd) => self.add_beside(rt, input, crowd, gate, sink),
        }
    }

    /// Adds a frame as `add_frame` does beside this crowd.
    #[inline(always)]
    fn add_beside<R: Threads + Sync, S: Subject + Send, G: Gate, O: Sink>(
        &mut self,
        rt: &R,
        input: &FrameInput,
        crowd: &mut Crowd<S>,
        gate: &G,
        sink: &mut O,
    ) -> Result<(), Cut>
        requires started { (setup : Setup) × (earlier : List Frame) × (later : List Frame)
            × Follows self.old setup earlier later × CanRun setup (earlier ++ later) input.now }
        ensures follows { (setup : Setup) (earlier later : List Frame)
            → Follows self.old setup earlier later
            → OnOk result (Follows self.new setup earlier
            (later ++ beside (map S.seen crowd.old.subjects) input.now ∷ [])) }
        ensures told { (setup : Setup) (earlier later : List Frame)
            → Follows self.old setup earlier later
            → OnOk result (WhereTold (tells (O.held sink.old) (waiting_in self.old))
            (tells (O.held sink.new) (waiting_in self.new)) (λ before after. after ≡ before
            ++ frame_lines setup (earlier ++ later)
            (beside (map S.seen crowd.old.subjects) input.now))) }
        ensures cut { (setup : Setup) (earlier later : List Frame)
            → Follows self.old setup earlier later
            → IfErr result (λ cut. (cut.late ≤ length later)
            × WhereTold (tells (O.held sink.old) (waiting_in self.old)) (O.held sink.new)
            (λ before after. (start : List ℕ)
            → before ≡ start ++ log_of setup (earlier ++ later)
            → IsCutAt setup ((earlier ++ later) ++ beside (map S.seen crowd.old.subjects) input.now
            ∷ []) (length (earlier ++ later) - cut.late) start after)) }
        ensures crowd { (setup : Setup) (earlier later : List Frame)
            → Follows self.old setup earlier later
            → OnOk result (map S.seen crowd.new.subjects
            ≡ crowd_after setup (run_of setup (earlier ++ later))
            (beside (map S.seen crowd.old.subjects) input.now) (map S.seen crowd.old.subjects)) }
        ensures cause { HasCause (O.held sink.new) (O.faults sink.old) (O.faults sink.new) result }
        ensures failed { has_failed self.new ≡ is_err result }
    {
        crowd.cycle_on(rt, self.workers.max(1));
        match self.add_on(rt, input, crowd.readings(), gate, sink) {
            Ok(()) => {
                self.tell(crowd);
                Ok(())
            }
            Err(cut) => Err(cut),
        }
    }

    /// Runs a frame on these execution counters as `add_frame` does.
    #[inline(always)]
    pub(crate) fn add_on<R: Threads + Sync, G: Gate, O: Sink>(
        &mut self,
        rt: &R,
        input: &FrameInput,
        counters: &[Counter],
        gate: &G,
        sink: &mut O,
    ) -> Result<(), Cut>
        requires started { (setup : Setup) × (earlier : List Frame) × (later : List Frame)
            × Follows self.old setup earlier later × CanRun setup (earlier ++ later) input.now }
        ensures follows { (setup : Setup) (earlier later : List Frame)
            → Follows self.old setup earlier later
            → OnOk result (Follows self.new setup earlier
            (later ++ with_counters counters.now input.now ∷ [])) }
        ensures told { (setup : Setup) (earlier later : List Frame)
            → Follows self.old setup earlier later
            → OnOk result (WhereTold (tells (O.held sink.old) (waiting_in self.old))
            (tells (O.held sink.new) (waiting_in self.new)) (λ before after. after ≡ before
            ++ frame_lines setup (earlier ++ later) (with_counters counters.now input.now))) }
        ensures cut { (setup : Setup) (earlier later : List Frame)
            → Follows self.old setup earlier later
            → IfErr result (λ cut. (cut.late ≤ length later)
            × WhereTold (tells (O.held sink.old) (waiting_in self.old)) (O.held sink.new)
            (λ before after. (start : List ℕ)
            → before ≡ start ++ log_of setup (earlier ++ later)
            → IsCutAt setup ((earlier ++ later) ++ with_counters counters.now input.now
            ∷ []) (length (earlier ++ later) - cut.late) start after)) }
        ensures given { (setup : Setup) (earlier later : List Frame)
            → Follows self.old setup earlier later
            → OnOk result (HasGiven self.new setup
            (earlier ++ later) (with_counters counters.now input.now)) }
        ensures cause { HasCause (O.held sink.new) (O.faults sink.old) (O.faults sink.new) result }
        ensures failed { has_failed self.new ≡ is_err result }
    {
        let lines = self.run(rt, gate, input, counters);
        match self.add_lines(sink, lines) {
            Ok(()) => {
                self.land(rt, gate);
                self.reset_if_asked();
                Ok(())
            }
            Err(_) => Err(self.cut()),
        }
    }

    /// Hands on all lines that wait. Where that fails, the error says how many frames weren't handed on whole.
    pub fn flush<O: Sink>(&mut self, sink: &mut O) -> Result<(), Cut>
        ensures follows { (setup : Setup) (earlier later : List Frame)
            → Follows self.old setup earlier later
            → OnOk result (Follows self.new setup (earlier ++ later) []) }
        ensures told { WhereTold (tells (O.held sink.old) (waiting_in self.old))
            (tells (O.held sink.new) (waiting_in self.new)) (λ before after. after ≡ before) }
        ensures handed { OnOk result (waiting_in self.new ≡ empty_block) }
        ensures cut { (setup : Setup) (earlier later : List Frame)
            → Follows self.old setup earlier later
            → IfErr result (λ cut. (0 < cut.late) × (cut.late ≤ length later)
            × WhereTold (tells (O.held sink.old) (waiting_in self.old)) (O.held sink.new)
            (λ before after. (start : List ℕ)
            → before ≡ start ++ log_of setup (earlier ++ later)
            → IsCutAt setup (earlier ++ later)
            (length (earlier ++ later) - cut.late) start after)) }
        ensures cause { HasCause (O.held sink.new) (O.faults sink.old) (O.faults sink.new) result }
        ensures failed { has_failed self.new ≡ has_failed self.old || is_err result }
    {
        match self.lines.block.flush(sink) {
            Ok(()) => Ok(()),
            Err(_) => Err(self.cut()),
        }
    }

    /// Marks the bench as failed, and says how many frames weren't handed on whole.
    pub(crate) fn cut(&mut self) -> Cut
        ensures late { (ends : List ℕ) (given : ℕ) → Notes ends given self.old.lines.block
            → result.late ≡ late_in ends (given - length self.old.lines.block.bytes) }
        ensures cut { self.new ≡ record self.old { failed = true } }
    {
        self.failed = true;
        Cut {
            late: self.lines.block.late_frames(),
        }
    }

    /// Lands the frame's operations, if there are any, and goes on to the next frame, before which nothing is noted of the bench.
    #[inline(always)]
    fn land<R: Threads + Sync, G: Gate>(&mut self, rt: &R, gate: &G)
        requires number { self.old.number < 4294967296 }
        requires can_land { CanLand (loads_in self.old) self.old.memory.ram
            self.old.memory.ops.value }
        ensures { Lands self.old self.new }
    {
        if self.memory.stays() {
            self.number += 1;
            self.idle = false;
            return;
        }
        self.land_all(rt, gate);
    }

    /// Lands the frame's operations bank by bank on the workers, and goes on to the next frame.
    #[inline(never)]
    fn land_all<R: Threads + Sync, G: Gate>(&mut self, rt: &R, gate: &G)
        requires number { self.old.number < 4294967296 }
        requires can_land { CanLand (loads_in self.old) self.old.memory.ram
            self.old.memory.ops.value }
        ensures { Lands self.old self.new }
    {
        let workers = self.workers.max(1);
        self.memory.land(rt, workers, self.tables.files(), gate);
        self.number += 1;
        self.idle = false;
    }

    /// Lets a processor reset take effect, where one was asked for in the frame.
    #[inline(always)]
    fn reset_if_asked(&mut self)
        requires time { self.old.epoch + self.old.number < 4294967296 }
        requires ready { IsReady self.old }
        ensures anew { StartsAnew self.old self.new }
        ensures ready { IsReady self.new }
    {
        if !self.resets {
            return;
        }
        self.start_anew();
    }

    /// Starts the applications anew on the first file of each kind, with empty pipes. HS keeps the resets made and their maximum.
    #[inline(never)]
    fn start_anew(&mut self)
        requires time { self.old.epoch + self.old.number < 4294967296 }
        requires ready { IsReady self.old }
        requires resets { self.old.resets ≡ true }
        ensures anew { StartsAnew self.old self.new }
        ensures ready { IsReady self.new }
    {
        let time = self.epoch + self.number as u32;
        self.tables.load_again();
        self.apps.start_anew(&self.tables, time);
        self.wires.empty();
    }

    /// Forgets what an earlier frame told of activations.
    #[inline(always)]
    fn forget_told(&mut self)
        ensures forgets { Activates [] [] self.old self.new }
        ensures none { self.new.apps.activations.items ≡ [] }
        ensures ready { IsReady self.old → IsReady self.new }
    {
        self.apps.forget_told();
    }

    /// Makes the tables of these files active, in order, and tells of each whether it is. Nothing was told before.
    #[cold]
    fn activate_all(&mut self, files: &[u32])
        requires time { self.old.epoch + self.old.number < 4294967296 }
        requires few { length files.now ≤ 64 }
        requires none { self.old.apps.activations.items ≡ [] }
        requires ready { IsReady self.old }
        ensures activates { Activates files.now [] self.old self.new }
        ensures ready { IsReady self.new }
    {
        'files: for file in files {
            self.name_file(*file);
        }
    }

    /// Makes the table of this file active, if it can be, and tells whether it is.
    fn name_file(&mut self, file: u32)
        requires time { self.old.epoch + self.old.number < 4294967296 }
        requires room { length self.old.apps.activations.items < 64 }
        requires ready { IsReady self.old }
        ensures activates { Activates (file ∷ []) self.old.apps.activations.items
            self.old self.new }
        ensures ready { IsReady self.new }
    {
        let time = self.epoch + self.number as u32;
        let naming = self.make_active(file);
        self.apps.tell(naming, time);
    }

    /// Makes the table of this file active, if it can be, and answers what became of it.
    fn make_active(&mut self, file: u32) -> Naming
        requires ready { IsReady self.old }
        ensures naming { (setup : Setup) (s : State) → self.old.tables.files ≡ setup.files
            → Has self.old s → result ≡ naming_at s (kind_at setup.files file) }
        ensures names { NamesFile file self.old self.new }
        ensures ready { IsReady self.new }
    {
        let Some(kind) = self.tables.kind(file) else {
            return Naming::Refused;
        };
        let naming = naming_of(kind, self.apps.sc.state.runs(kind));
        match naming {
            Naming::Refused => return Naming::Refused,
            Naming::Running => return Naming::Running,
            Naming::Accepted => {}
        }
        self.tables.activate_checked(file);
        hand_over(
            &self.tables,
            kind,
            &mut self.apps.hs,
            &mut self.apps.cs,
            &mut self.apps.md,
        );
        Naming::Accepted
    }

    /// Writes the frame's upsets.
    fn upset(&mut self, upsets: &[Upset])
        requires { AreMapped upsets.now self.old.memory.ram }
        ensures { IsUpset upsets.now self.old self.new }
    {
        self.memory.upset(upsets);
    }

    /// Each application but those that are held takes what its pipes hold.
    #[inline(always)]
    fn take_all_but(&mut self, holds: Holds)
        ensures takes { (held : List App) → AreHeld held holds → Takes held self.old self.new }
        ensures ready { IsReady self.old → IsReady self.new }
    {
        self.apps.take_all_but(&mut self.wires, holds);
        self.memory.ops.clear();
    }

    /// Sends the items, unless nothing is to be sent, and answers whether there is a line of what was sent or dropped.
    #[inline(always)]
    fn send(&mut self, input: &FrameInput, items: Yield) -> Yield
        requires can { CanSend self.old }
        requires told { AllPass is_item_counted self.old.apps.activations.items }
        requires few { length input.now.sends + length self.old.apps.activations.items ≤ 64 }
        requires none { items ≡ yields.Nothing → joined (given_in self.old.apps) ≡ [] }
        ensures sends { Sends input.now.sends self.old self.new }
        ensures silent { result ≡ yields.Nothing → lines_in self.new ≡ [] }
    {
        self.wires.drops.clear();
        self.resets = false;
        if items.is_nothing() && self.apps.activations.is_empty() && input.sends().is_empty() {
            return Yield::Nothing;
        }
        self.send_all(input);
        Yield::unless(self.is_silent())
    }

    /// Gives the items their counts, and offers the frame's packets and theirs to the pipes, unless a processor reset is asked for.
    #[inline(never)]
    fn send_all(&mut self, input: &FrameInput)
        requires can { CanSend self.old }
        requires told { AllPass is_item_counted self.old.apps.activations.items }
        requires few { length input.now.sends + length self.old.apps.activations.items ≤ 64 }
        requires none { self.old.wires.drops.items ≡ [] }
        ensures { Sends input.now.sends self.old self.new }
    {
        self.resets = self.apps.asks_for_reset();
        self.apps.stamp(&mut self.wires);
        if self.resets {
            return;
        }
        self.wires.deliver(input.sends());
        let lists = self.apps.in_order();
        self.wires.deliver_lists(&lists);
    }

    /// Does what comes before the wakeups of a frame: makes the tables active that it names, writes its upsets, and lets each application
    /// that it doesn't hold take what its pipes hold.
    #[inline(always)]
    fn arrive(&mut self, input: &FrameInput)
        requires time { self.old.epoch + self.old.number < 4294967296 }
        requires upsets { AreMapped input.now.upsets self.old.memory.ram }
        requires ready { IsReady self.old }
        ensures arrives { Arrives input.now self.old self.new }
        ensures few { length input.now.sends + length input.now.activations ≤ 64 }
        ensures ready { IsReady self.new }
    {
        self.forget_told();
        match FrameKind::of(input) {
            FrameKind::OnlySends => self.take_all_but(Holds::none()),
            FrameKind::Plain => self.enter(input, Holds::none()),
            FrameKind::Holds => self.enter(input, Holds::of(input.held())),
            FrameKind::NamesTables => {
                self.activate_all(input.activations());
                self.enter(input, Holds::of(input.held()));
            }
        }
    }

    /// Writes a frame's upsets, and lets each application take what its pipes hold but those that are held.
    #[inline(always)]
    fn enter(&mut self, input: &FrameInput, holds: Holds)
        requires upsets { AreMapped input.now.upsets self.old.memory.ram }
        requires ready { IsReady self.old }
        ensures enters { (held : List App) → AreHeld held holds
            → Enters input.now.upsets held self.old self.new }
        ensures ready { IsReady self.new }
    {
        self.upset(input.upsets());
        self.take_all_but(holds);
    }

    /// Runs a frame up to its lines, on these execution counters: lets it arrive, wakes the applications on its image, sends what is told and
    /// what they gave, and answers whether there is a line.
    #[inline(always)]
    fn run<R: Threads + Sync, G: Gate>(
        &mut self,
        rt: &R,
        gate: &G,
        input: &FrameInput,
        counters: &[Counter],
    ) -> Yield
        requires time { self.old.epoch + self.old.number < 4294967296 }
        requires upsets { AreMapped input.now.upsets self.old.memory.ram }
        requires ready { IsReady self.old }
        ensures runs { (setup : Setup) (s : State) → self.old.epoch ≡ setup.epoch
            → self.old.tables.files ≡ setup.files → Has self.old s
            → RunsIn setup (activated_at setup s (with_counters counters.now input.now))
            (with_counters counters.now input.now) self.new }
        ensures run { GoesOn self.old self.new }
        ensures can_land { CanLand (loads_in self.new) self.new.memory.ram
            self.new.memory.ops.value }
        ensures ready { IsReady self.new }
        ensures silent { result ≡ yields.Nothing → lines_in self.new ≡ [] }
    {
        self.arrive(input);
        let items = self.step(rt, gate, counters);
        self.send(input, items)
    }

    /// Writes the lines of the frame that was run, all at once.
    fn write<O: Sink>(&mut self, sink: &mut O, lines: Yield) -> Result<(), Failed>
        requires number { self.old.number < 4294967296 }
        requires none { self.old.lines.block ≡ empty_block }
        requires silent { lines ≡ yields.Nothing → lines_in self.old ≡ [] }
        ensures content { WhereTold (O.held sink.old) (O.held sink.new)
            (WritesAll result (lines_in self.old)) }
        ensures cause { HasCause (O.held sink.new) (O.faults sink.old) (O.faults sink.new) result }
        ensures same { IsSameFrame self.old self.new }
        ensures handed { OnOk result (self.new.lines.block ≡ empty_block) }
    {
        let Ok(()) = self.put_lines(sink, lines) else {
            return Err(Failed);
        };
        self.lines.block.flush(sink)
    }

    /// Puts the lines of the frame that was run behind those that wait, and notes where they end.
    fn add_lines<O: Sink>(&mut self, sink: &mut O, lines: Yield) -> Result<(), Failed>
        requires number { self.old.number < 4294967296 }
        requires silent { lines ≡ yields.Nothing → lines_in self.old ≡ [] }
        ensures adds { Adds result (lines_in self.old) self.old.lines.block self.new.lines.block
            (O.held sink.old) (O.held sink.new) }
        ensures cause { HasCause (O.held sink.new) (O.faults sink.old) (O.faults sink.new) result }
        ensures same { IsSameFrame self.old self.new }
    {
        let Ok(()) = self.put_lines(sink, lines) else {
            return Err(Failed);
        };
        self.lines.block.mark_end(sink)
    }

    /// Puts the lines of the frame that was run behind those that wait.
    fn put_lines<O: Sink>(&mut self, sink: &mut O, lines: Yield) -> Result<(), Failed>
        requires number { self.old.number < 4294967296 }
        requires silent { lines ≡ yields.Nothing → lines_in self.old ≡ [] }
        ensures puts { Puts result (lines_in self.old) self.old.lines.block self.new.lines.block
            (O.held sink.old) (O.held sink.new) }
        ensures left { OnErr result (0 < length self.new.lines.block.bytes) }
        ensures cause { HasCause (O.held sink.new) (O.faults sink.old) (O.faults sink.new) result }
        ensures same { IsSameFrame self.old self.new }
    {
        if lines.is_nothing() {
            return Ok(());
        }
        let lists = self.apps.in_order();
        self.lines
            .put(sink, self.number as u32, &lists, self.wires.dropped())
    }

    /// Lets a crowd obey the items of the frame that was run, in their order, and restart where a processor reset was asked for.
    #[inline(always)]
    fn tell<S: Subject + Send>(&self, crowd: &mut Crowd<S>)
        ensures subjects { map S.seen crowd.new.subjects ≡ behind_items self.now.resets
            (joined (items_in self.now.apps)) (map S.seen crowd.old.subjects) }
        ensures readings { crowd.new.readings ≡ crowd.old.readings }
    {
        if !self.resets && self.apps.gave_nothing() {
            return;
        }
        let lists = self.apps.in_order();
        obey_frame(crowd, self.resets, &lists);
    }

    /// Whether nothing was sent nor dropped in the frame that was run.
    #[inline(always)]
    fn is_silent(&self) -> bool
        ensures { result ≡ true → lines_in self.now ≡ [] }
    {
        self.apps.gave_nothing() && self.wires.dropped_nothing()
    }
}
