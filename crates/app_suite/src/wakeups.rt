//! The wakeups of a frame, as jobs of a crew.

use crate::cs_slot::CsSlot;
use crate::hs_slot::HsSlot;
use crate::lc_slot::LcSlot;
use crate::left::Left;
use crate::md_slot::MdSlot;
use crate::mm_slot::MmSlot;
use crate::reads::Reads;
use crate::sc_slot::ScSlot;
use crew_board::Task;
use std::marker::Model;

/// The applications with what they took, and what all of them read.
#[derive(Drop)]
pub struct Scene<'a, 'r, 'n, 'f> {
    pub hs: &'a HsSlot,
    pub cs: &'a CsSlot,
    pub sc: &'a ScSlot,
    pub mm: &'a MmSlot,
    pub md: &'a MdSlot,
    pub lc: &'a LcSlot,
    pub reads: Reads<'r, 'n, 'f>,
}

impl<'a, 'r, 'n, 'f> Model for Scene<'a, 'r, 'n, 'f> {
    ghost use Rattle.memory_window.specs.Window.{seen};
    ghost use Rattle.app_suite.specs.Turns.{Seen, CanWake};

    ghost Value = { Seen };

    ghost view = { λ s. record {
      hs = s.hs.now;
      events = s.reads.events.now;
      cs = s.cs.now;
      sc = s.sc.now;
      mm = s.mm.now;
      md = s.md.now;
      lc = s.lc.now.slot;
      telemetry = s.reads.telemetry.now.items;
      tables = s.reads.tables.now.set;
      files = s.reads.tables.now.files;
      memory = seen s.reads.window;
      counters = s.reads.counters.now;
      time = s.reads.time;
    } };

    ghost invariant = { λ s. CanWake (record {
      hs = s.hs.now;
      events = s.reads.events.now;
      cs = s.cs.now;
      sc = s.sc.now;
      mm = s.mm.now;
      md = s.md.now;
      lc = s.lc.now.slot;
      telemetry = s.reads.telemetry.now.items;
      tables = s.reads.tables.now.set;
      files = s.reads.tables.now.files;
      memory = seen s.reads.window;
      counters = s.reads.counters.now;
      time = s.reads.time;
    }) };
}

/// The application that a job wakes.
#[derive(Clone, Copy, Debug, PartialEq, Eq)]
pub enum Job {
    Hs,
    Cs,
    Sc,
    Mm,
    Md,
    Lc,
}

/// The wakeup of an application, as a job.
#[derive(Drop)]
pub struct Wakeup<'s, 'a, 'r, 'n, 'f>(pub &'s Scene<'a, 'r, 'n, 'f>, pub Job);

impl Task for Wakeup<'_, '_, '_, '_, '_> {
    ghost use Rattle.app_suite.specs.Jobs.{Leaves};

    type Work = Left;

    ghost leaves = { λ w left. Leaves w.1 w.0.now left };

    #[inline(always)]
    fn perform(&self, scratch: &mut Left) {
        scratch.out.clear();
        match self.1 {
            Job::Hs => self.0.wake_hs(scratch),
            Job::Cs => self.0.wake_cs(scratch),
            Job::Sc => self.0.wake_sc(scratch),
            Job::Mm => self.0.wake_mm(scratch),
            Job::Md => self.0.wake_md(scratch),
            Job::Lc => self.0.wake_lc(scratch),
        }
    }
}

impl Wakeup<'_, '_, '_, '_, '_> {
    /// Whether the application rests: its wakeup leaves that it stays as it is, and no item.
    #[inline(always)]
    pub(crate) fn rests(&self) -> bool {
        let scene = self.0;
        match self.1 {
            Job::Hs => scene.hs.rests(&scene.reads),
            Job::Cs => scene.cs.rests(&scene.reads),
            Job::Sc => scene.sc.rests(&scene.reads),
            Job::Mm => scene.mm.rests(&scene.reads),
            Job::Md => scene.md.rests(&scene.reads),
            Job::Lc => scene.lc.slot.rests(&scene.reads),
        }
    }
}

impl<'a, 'r, 'n, 'f> Scene<'a, 'r, 'n, 'f> {
    ghost use Rattle.std.specs.Prelude.{◌≡◌, []};
    ghost use Rattle.app_suite.specs.declared.wakeups.Job.TheVariants as names;
    ghost use Rattle.app_suite.specs.Jobs.{Leaves};

    /// Wakes HS. The scratch is clear.
    #[inline(always)]
    fn wake_hs(&self, scratch: &mut Left)
        requires { scratch.old.out.items ≡ [] }
        ensures { Leaves names.Hs self.now scratch.new }
    {
        self.hs.wake(
            &self.reads,
            &mut scratch.stays,
            &mut scratch.hs,
            &mut scratch.out,
            &mut (),
        );
    }

    /// Wakes CS. The scratch is clear.
    #[inline(always)]
    fn wake_cs(&self, scratch: &mut Left)
        requires { scratch.old.out.items ≡ [] }
        ensures { Leaves names.Cs self.now scratch.new }
    {
        self.cs.wake(
            &self.reads,
            &mut scratch.stays,
            &mut scratch.cs,
            &mut scratch.out,
            &mut (),
        );
    }

    /// Wakes SC. The scratch is clear.
    #[inline(always)]
    fn wake_sc(&self, scratch: &mut Left)
        requires { scratch.old.out.items ≡ [] }
        ensures { Leaves names.Sc self.now scratch.new }
    {
        self.sc.wake(
            &self.reads,
            &mut scratch.stays,
            &mut scratch.sc,
            &mut scratch.out,
            &mut (),
        );
    }

    /// Wakes MM. The scratch is clear but for operations.
    #[inline(always)]
    fn wake_mm(&self, scratch: &mut Left)
        requires { scratch.old.out.items ≡ [] }
        ensures { Leaves names.Mm self.now scratch.new }
    {
        scratch.ops.clear();
        self.mm.wake(
            &self.reads,
            &mut scratch.stays,
            &mut scratch.mm,
            &mut scratch.out,
            &mut *scratch.ops,
        );
    }

    /// Wakes MD. The scratch is clear.
    #[inline(always)]
    fn wake_md(&self, scratch: &mut Left)
        requires { scratch.old.out.items ≡ [] }
        ensures { Leaves names.Md self.now scratch.new }
    {
        self.md.wake(
            &self.reads,
            &mut scratch.stays,
            &mut scratch.md,
            &mut scratch.out,
            &mut (),
        );
    }

    /// Wakes LC. The scratch is clear.
    #[inline(always)]
    fn wake_lc(&self, scratch: &mut Left)
        requires { scratch.old.out.items ≡ [] }
        ensures { Leaves names.Lc self.now scratch.new }
    {
        self.lc.slot.wake(
            &self.reads,
            &mut scratch.stays,
            &mut scratch.lc,
            &mut scratch.out,
            &mut (),
        );
    }
}
