//! What one frame is given.
ghost use Rattle.std.specs.Prelude.{◌≡◌, ◌≤◌, ◌<◌, ◌+◌, ◌++◌, ◌∷◌, ◌==◌, [], length, true, false, Ok};
ghost use Rattle.scenario.specs.Sentences.{packet_of};
ghost use Rattle.scenario.specs.FrameLists.{no_items, items_in};

use crate::send_list::SendList;
use arrayvec::ArrayVec;
use packet_forms::{Counter, Packet};
use std::marker::Model;

/// An application that can be held in a frame.
#[derive(Clone, Copy, Debug, Default, PartialEq, Eq)]
pub enum App {
    /// Health and Safety.
    #[default]
    Hs,
    /// Checksum.
    Cs,
    /// Stored Command.
    Sc,
    /// Memory Manager.
    Mm,
    /// Memory Dwell.
    Md,
}

/// A byte of memory that is set.
#[derive(Clone, Copy, Debug, Default, PartialEq, Eq)]
pub struct Upset {
    /// The address.
    pub at: u32,
    /// The byte's new value.
    pub value: u8,
}

/// What one frame is given, as five lists in the order of their lines: at most 64 items together.
#[derive(Drop)]
pub struct FrameInput {
    // how many items there are, so that a frame without any is known by one number
    count: usize,
    sends: SendList,
    counters: ArrayVec<Counter, 64>,
    upsets: ArrayVec<Upset, 64>,
    // how many items hold an application or name a table, so that a frame that does neither is asked for both at once
    special: usize,
    held: ArrayVec<App, 64>,
    activations: ArrayVec<u32, 64>,
}

impl Model for FrameInput {
    ghost use Rattle.std.specs.Prelude.{◌≡◌, ◌≤◌, ◌+◌, length};
    ghost use Rattle.scenario.specs.FrameLists.{Frame};

    ghost Value = { Frame };

    ghost view = { λ f. record {
      sends = f.sends;
      counters = f.counters.items;
      upsets = f.upsets.items;
      held = f.held.items;
      activations = f.activations.items;
    } };

    ghost invariant = { λ f. (f.count
        ≡ length f.sends + length f.counters.items + length f.upsets.items + f.special)
        × (f.special ≡ length f.held.items + length f.activations.items) × (f.count ≤ 64) };
}

impl FrameInput {
    pub(crate) fn new() -> Self
        ensures { result ≡ no_items }
    {
        FrameInput {
            count: 0,
            sends: SendList::new(),
            counters: ArrayVec::new(),
            upsets: ArrayVec::new(),
            special: 0,
            held: ArrayVec::new(),
            activations: ArrayVec::new(),
        }
    }

    pub(crate) fn clear(&mut self)
        ensures { self.new ≡ no_items }
    {
        if self.count == 0 {
            return;
        }
        self.count = 0;
        self.sends.clear();
        self.counters.clear();
        self.upsets.clear();
        if self.special == 0 {
            return;
        }
        self.special = 0;
        // A new list of 64 bytes is written in fewer instructions than the used part of this one is wiped.
        self.held = ArrayVec::new();
        self.activations.clear();
    }

    pub(crate) fn len(&self) -> usize
        ensures value { result ≡ items_in self.now }
        ensures limit { result ≤ 64 }
    {
        self.count
    }

    /// Whether the frame has no items but packets that are sent: one that only names a packet asks none of its other lists.
    #[inline(always)]
    pub fn has_only_sends(&self) -> bool
        ensures exact { result ≡ (items_in self.now == length self.now.sends) }
        ensures only { result ≡ true → self.now ≡ record no_items { sends = self.now.sends } }
        ensures limit { items_in self.now ≤ 64 }
    {
        self.count == self.sends.len()
    }

    /// Whether the frame neither holds an application nor names a table: most frames do neither, and aren't asked for each.
    #[inline(always)]
    pub fn is_plain(&self) -> bool
        ensures exact { result ≡ (length self.now.held + length self.now.activations == 0) }
        ensures only { result ≡ true → (self.now.held ≡ []) × (self.now.activations ≡ []) }
    {
        self.special == 0
    }

    /// The packets that are sent.
    pub fn sends(&self) -> &[Packet]
        ensures value { result.now ≡ self.now.sends }
        ensures limit { items_in self.now ≤ 64 }
    {
        self.sends.as_slice()
    }

    /// The execution counters.
    pub fn counters(&self) -> &[Counter]
        ensures value { result.now ≡ self.now.counters }
        ensures limit { items_in self.now ≤ 64 }
    {
        self.counters.as_slice()
    }

    /// The bytes of memory that are set.
    pub fn upsets(&self) -> &[Upset]
        ensures value { result.now ≡ self.now.upsets }
        ensures limit { items_in self.now ≤ 64 }
    {
        self.upsets.as_slice()
    }

    /// The applications that aren't woken.
    pub fn held(&self) -> &[App]
        ensures value { result.now ≡ self.now.held }
        ensures limit { items_in self.now ≤ 64 }
    {
        self.held.as_slice()
    }

    /// The numbers of the files whose tables become active, counted from 1. No file needs to have one of them.
    pub fn activations(&self) -> &[u32]
        ensures value { result.now ≡ self.now.activations }
        ensures limit { items_in self.now ≤ 64 }
    {
        self.activations.as_slice()
    }

    pub(crate) fn send(&mut self, packet: &Packet)
        requires { items_in self.old < 64 }
        ensures { self.new ≡ record self.old { sends = self.old.sends ++ packet.now ∷ [] } }
    {
        self.count += 1;
        self.sends.push(packet);
    }

    /// Sends the packet of these bytes, and answers whether they are one. Where they aren't nothing changes.
    pub(crate) fn send_bytes(&mut self, bytes: &[u8]) -> bool
        requires { items_in self.old < 64 }
        ensures sent { result ≡ true → (packet_of bytes.now ≡ Ok bytes.now)
            × (self.new ≡ record self.old { sends = self.old.sends ++ bytes.now ∷ [] }) }
        ensures kept { result ≡ false → self.new ≡ self.old }
    {
        if !self.sends.push_bytes(bytes) {
            return false;
        }
        self.count += 1;
        true
    }

    pub(crate) fn count(&mut self, counter: Counter)
        requires { items_in self.old < 64 }
        ensures { self.new ≡ record self.old { counters = self.old.counters ++ counter ∷ [] } }
    {
        self.count += 1;
        self.counters.push(counter);
    }

    pub(crate) fn upset(&mut self, upset: Upset)
        requires { items_in self.old < 64 }
        ensures { self.new ≡ record self.old { upsets = self.old.upsets ++ upset ∷ [] } }
    {
        self.count += 1;
        self.upsets.push(upset);
    }

    pub(crate) fn hold(&mut self, app: App)
        requires { items_in self.old < 64 }
        ensures { self.new ≡ record self.old { held = self.old.held ++ app ∷ [] } }
    {
        self.count += 1;
        self.special += 1;
        self.held.push(app);
    }

    pub(crate) fn activate(&mut self, file: u32)
        requires { items_in self.old < 64 }
        ensures { self.new ≡ record self.old { activations = self.old.activations ++ file ∷ [] } }
    {
        self.count += 1;
        self.special += 1;
        self.activations.push(file);
    }
}
