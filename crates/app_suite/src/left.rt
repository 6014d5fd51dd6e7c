//! What waking an application leaves, until the bench takes it over.

ghost use Rattle.std.specs.Prelude.{◌≡◌, []};
ghost use Rattle.app_suite.specs.declared.slot.TheConstants.{LIST_ROOM};

use crate::slot::LIST_ROOM;
use bus_pipes::Outbox;
use crew_board::Scratch;
use cs_slices::{Cs, Segments};
use fsw_outside::NoMemory;
use hs_monitors::Hs;
use hs_tables::HsTables;
use lc_watch::{Adt, Lc};
use md_dwell::{Dwell, Md};
use memory_window::Ops;
use mm_core::Mm;
use sc_sequences::Sc;
use sc_tables::{RtsSet, ScTables};
use std::alloc::Global;
use std::mem;

/// What a wakeup left: the next state of the application that was woken, unless it stays as it was, the items that it gave, and
/// MM's operations. No application gives more items than HS. A state lies in a box that the bench exchanges for its own.
#[derive(Drop)]
pub struct Left {
    pub stays: bool,
    pub hs: Box<Hs>,
    pub cs: Box<Cs>,
    pub sc: Box<Sc>,
    pub mm: Box<Mm>,
    pub md: Box<Md>,
    pub lc: Box<Lc>,
    pub out: Outbox,
    pub ops: Box<Ops>,
    ghost roomy: { out.room ≡ LIST_ROOM },
}

/// A state of an application, as what a wakeup left has it.
pub trait Next: Sized {
    ghost use Rattle.app_suite.specs.declared.left.Left.{Left};

    ghost next: { Left → Self };

    /// Exchanges the next state that was left, which holds unless the state stays as it was, for another.
    fn exchange(left: &mut Left, state: &mut Box<Self>)
        ensures state { state.new.value ≡ next left.old }
        ensures items { left.new.out ≡ left.old.out };
}

impl Next for Hs {
    ghost next = { λ left. left.hs.value };

    fn exchange(left: &mut Left, state: &mut Box<Hs>) {
        mem::swap(&mut left.hs, state);
    }
}

impl Next for Cs {
    ghost next = { λ left. left.cs.value };

    fn exchange(left: &mut Left, state: &mut Box<Cs>) {
        mem::swap(&mut left.cs, state);
    }
}

impl Next for Sc {
    ghost next = { λ left. left.sc.value };

    fn exchange(left: &mut Left, state: &mut Box<Sc>) {
        mem::swap(&mut left.sc, state);
    }
}

impl Next for Mm {
    ghost next = { λ left. left.mm.value };

    fn exchange(left: &mut Left, state: &mut Box<Mm>) {
        mem::swap(&mut left.mm, state);
    }
}

impl Next for Md {
    ghost next = { λ left. left.md.value };

    fn exchange(left: &mut Left, state: &mut Box<Md>) {
        mem::swap(&mut left.md, state);
    }
}

impl Next for Lc {
    ghost next = { λ left. left.lc.value };

    fn exchange(left: &mut Left, state: &mut Box<Lc>) {
        mem::swap(&mut left.lc, state);
    }
}

impl Scratch for Left {
    /// The states are those before the first wakeup on blank tables, until a wakeup writes over them.
    fn fresh(alloc: Global) -> Result<Left, NoMemory> {
        let segments = Segments::blank();
        let sequences = ScTables::new([None; 2], RtsSet::empty());
        Ok(Left {
            stays: true,
            hs: Box::new(alloc, Hs::start(&HsTables::blank(), 0, 0))?,
            cs: Box::new(alloc, Cs::start(&segments, &segments))?,
            sc: Box::new(alloc, Sc::start(&sequences, 0))?,
            mm: Box::new(alloc, Mm::start())?,
            md: Box::new(alloc, Md::start(&[Dwell::blank(); 4]))?,
            lc: Box::new(alloc, Lc::start(&Adt::blank()))?,
            out: Outbox::open(alloc, LIST_ROOM)?,
            ops: Box::new(alloc, Ops::new())?,
        })
    }
}

impl Left {
    ghost use Rattle.app_suite.specs.Wakes.{next_of};

    /// Gives the next state of an application for the one before it, unless the state stays as it is.
    #[inline(always)]
    pub fn give_state<S: Next>(&mut self, state: &mut Box<S>)
        ensures state { state.new.value ≡ next_of self.old.stays (S.next self.old) state.old.value }
        ensures items { self.new.out ≡ self.old.out }
    {
        if self.stays {
            return;
        }
        S::exchange(self, state);
    }

    /// Gives MM's operations to who has none yet.
    pub fn give_operations(&mut self, ops: &mut Box<Ops>)
        requires { ops.old.value ≡ [] }
        ensures operations { ops.new.value ≡ self.old.ops.value }
        ensures next { (self.new.mm ≡ self.old.mm) × (self.new.stays ≡ self.old.stays) }
        ensures items { self.new.out ≡ self.old.out }
    {
        if self.ops.items().is_empty() {
            return;
        }
        mem::swap(ops, &mut self.ops);
    }
}
