//! An application in the bench: its state, the packets that it took, and what it gives in a frame.

ghost use Rattle.std.specs.Prelude.{◌≡◌, ◌≤◌, ℕ, ◌<◌, ◌≢◌, true, false, List, [], ◌∷◌, ◌++◌, length, slice_index_or, IfOk};
ghost use Rattle.app_suite.specs.declared.slot.TheConstants.{LIST_ROOM};
ghost use Rattle.bus_pipes.specs.Pipes.{packets_in, depth_of};
ghost use Rattle.frame_wires.specs.Sending.{taken};
ghost use Rattle.app_suite.specs.Wakes.{next_of};

use crate::application::Application;
use crate::left::{Left, Next};
use crate::reads::Reads;
use bus_pipes::{Batch, Bus, Outbox, PipeName};
use crew_board::Crew;
use fsw_outside::NoMemory;
use std::alloc::Global;
use std::mem;

/// How many items a list has room for: as many as HS gives, which are the most, behind what is told of 64 activations.
pub const LIST_ROOM: u32 = 1168;

/// An application's state, what it took from its pipe in the last frame, and the items that it gave then.
#[derive(Drop)]
pub struct Slot<S> {
    pub state: Box<S>,
    pub held: bool,
    pub commands: Box<Batch>,
    pub out: Outbox,
    ghost roomy: { out.room ≡ LIST_ROOM },
    ghost few: { length commands.value ≤ 16 },
}

impl<S> Slot<S> {
    ghost use Rattle.app_suite.specs.Wakes.{HasTaken, IsWoken, AreSendable};
    ghost use Rattle.app_suite.specs.declared.left.Left.{Left};

    /// An application in this state before the first frame, in which it gave nothing; and whether it is held.
    pub fn open(alloc: Global, state: S, held: bool) -> Result<Slot<S>, NoMemory>
    where
        S: Drop,
        ensures state { IfOk result (λ slot. slot.state.value ≡ state) }
        ensures held { IfOk result (λ slot. slot.held ≡ held) }
        ensures none { IfOk result (λ slot. slot.out.items ≡ []) }
    {
        Ok(Slot {
            state: Box::new(alloc, state)?,
            held,
            commands: Box::new(alloc, Batch::new())?,
            out: Outbox::open(alloc, LIST_ROOM)?,
        })
    }

    /// Goes on from this state.
    pub fn begin(&mut self, state: S)
    where
        S: Drop,
        ensures state { self.new.state.value ≡ state }
        ensures held { self.new.held ≡ self.old.held }
        ensures out { self.new.out ≡ self.old.out }
    {
        *self.state = state;
    }

    /// Takes what its pipe holds, unless the application is held. What it gave in the frame before is gone.
    pub fn take(&mut self, bus: &mut Bus, pipe: PipeName, held: bool)
        requires { depth_of pipe ≤ 16 }
        ensures state { self.new.state ≡ self.old.state }
        ensures takes { HasTaken held (packets_in pipe bus.old) self.new.held
            self.new.commands.value self.new.out.items }
        ensures pipes { bus.new ≡ taken pipe held bus.old }
    {
        self.held = held;
        self.out.clear();
        if held {
            return;
        }
        bus.take_all(pipe, &mut self.commands);
    }

    /// Wakes the application on the packets that it took, unless it is held. Its next state is left in `next`, unless it `stays` as it
    /// is.
    #[inline(always)]
    pub fn wake<X>(
        &self,
        reads: &Reads<'_, '_, '_>,
        stays: &mut bool,
        next: &mut Box<S>,
        out: &mut Outbox,
        beside: &mut X,
    )
    where
        S: Application<X> + Copy + Drop,
        requires room { S.most ≤ out.old.room }
        requires empty { out.old.items ≡ [] }
        requires can { S.can_step reads.now self.now.state.value }
        requires clear { S.is_clear beside.old }
        ensures wakes { (setup : S.Setup) → S.belongs setup reads.now
            → IsWoken (S.stands setup) (S.items setup) self.now.held
            (S.input reads.now self.now.commands.value) self.now.state.value
            (next_of stays.new next.new.value self.now.state.value) out.new.items }
        ensures can { S.can_step reads.now (next_of stays.new next.new.value self.now.state.value) }
        ensures sendable { AreSendable S.most out.new.items }
        ensures held { self.now.held ≡ true → S.is_clear beside.new }
        ensures fills { self.now.held ≡ false
            → S.fills reads.now self.now.commands.value beside.new }
        ensures room { out.new.room ≡ out.old.room }
    {
        *stays = true;
        if self.rests(reads) {
            return;
        }
        *stays = false;
        self.step_aside(reads, next, out, beside);
    }

    /// Whether a wakeup would leave the state as it is and give nothing: the application is held, or has nothing to do.
    #[inline(always)]
    pub fn rests<X>(&self, reads: &Reads<'_, '_, '_>) -> bool
    where
        S: Application<X>,
        ensures woken { (setup : S.Setup) → result ≡ true → S.belongs setup reads.now
            → IsWoken (S.stands setup) (S.items setup) self.now.held
            (S.input reads.now self.now.commands.value) self.now.state.value
            self.now.state.value [] }
        ensures fills { (beside : X) → result ≡ true → self.now.held ≡ false → S.is_clear beside
            → S.fills reads.now self.now.commands.value beside }
        ensures here { result ≡ false → self.now.held ≡ false }
    {
        if self.held {
            return true;
        }
        self.state.is_idle(reads, self.commands.packets())
    }

    /// Leaves the state behind a wakeup in `next`.
    #[inline(never)]
    fn step_aside<X>(
        &self,
        reads: &Reads<'_, '_, '_>,
        next: &mut Box<S>,
        out: &mut Outbox,
        beside: &mut X,
    )
    where
        S: Application<X> + Copy + Drop,
        requires room { S.most ≤ out.old.room }
        requires empty { out.old.items ≡ [] }
        requires can { S.can_step reads.now self.now.state.value }
        requires clear { S.is_clear beside.old }
        ensures state { (setup : S.Setup) (history : List S.Input) → S.belongs setup reads.now
            → S.stands setup history self.now.state.value
            → S.stands setup (history ++ S.input reads.now self.now.commands.value ∷ [])
            next.new.value }
        ensures items { (setup : S.Setup) (history : List S.Input) → S.belongs setup reads.now
            → S.stands setup history self.now.state.value
            → out.new.items ≡ S.items setup history (S.input reads.now self.now.commands.value) }
        ensures can { S.can_step reads.now next.new.value }
        ensures sendable { AreSendable S.most out.new.items }
        ensures fills { S.fills reads.now self.now.commands.value beside.new }
        ensures room { out.new.room ≡ out.old.room }
    {
        **next = *self.state;
        next.advance(reads, self.commands.packets(), out, beside);
    }

    /// Takes over what waking left, as the result of this job, and tells whether no item was given. The application gave nothing yet.
    #[inline(always)]
    pub fn take_over(&mut self, crew: &mut Crew<Left>, job: u32) -> bool
    where
        S: Next,
        requires job { job < length crew.old.results }
        requires empty { self.old.out.items ≡ [] }
        ensures from { (left : Left) × (slice_index_or crew.old.results job left ≡ left)
            × (self.new.state.value ≡ next_of left.stays (S.next left) self.old.state.value)
            × (self.new.out.items ≡ left.out.items) }
        ensures others { (k : ℕ) (d : Left) → k ≢ job
            → slice_index_or crew.new.results k d ≡ slice_index_or crew.old.results k d }
        ensures count { length crew.new.results ≡ length crew.old.results }
        ensures jobs { crew.new.jobs ≡ crew.old.jobs }
        ensures none { result ≡ true → self.new.out.items ≡ [] }
    {
        let left = crew.result_mut(job);
        left.give_state(&mut self.state);
        if left.out.is_empty() {
            return true;
        }
        mem::swap(&mut self.out, &mut left.out);
        false
    }
}
