//! The stream of one dwell table.
ghost use Rattle.std.specs.Prelude.{◌≡◌, ◌+◌, ◌*◌, ◌<◌, ◌≤◌, ◌-◌, ◌==◌, ℕ, Bool, true, ◌&&◌, nat_lt, List, [], ◌∷◌, ◌++◌, length, if◌then◌else◌};
ghost use Rattle.std.specs.List.{AllPass};
ghost use Rattle.bus_pipes.specs.Held.{adding};
ghost use Rattle.bus_pipes.specs.Counted.{is_item_counted};
ghost use Rattle.memory_window.specs.Memory.{Memory};
ghost use Rattle.memory_window.specs.declared.regions.Region.{Region};
ghost use Rattle.md_dwell.specs.Lists.{list_of, delays, delays_to_last};
ghost use Rattle.memory_window.specs.Window.{seen};
ghost use Rattle.md_dwell.specs.Given.{is_given, OrderGiven};
ghost use Rattle.md_dwell.specs.Instructions.{NamesEntry};
ghost use Rattle.md_dwell.specs.Orders.{names, jammed, switched, starts};
ghost use Rattle.md_dwell.specs.Rounds.{round_at, dwell_at};
ghost use Rattle.md_dwell.specs.Answers.{dwell_items};
ghost use Rattle.md_dwell.specs.Readings.{IsReadTo, IsInRound};

use crate::answers::dwell_packet;
use crate::instructions::Instruction;
use crate::payload::Payload;
use crate::reading::read;
use crate::tables::{Dwell, DwellEntry, Plan};
use bus_pipes::{Out, Outbox};
use memory_window::Window;

/// A table's entries, whether it is enabled, the place in its list of the entry that is read next, the wakeups from the
/// last one to that reading, and the bytes of the round so far.
#[derive(Clone, Copy)]
pub(crate) struct Stream {
    plan: Plan,
    enabled: bool,
    next: usize,
    wait: u32,
    bytes: Payload,
    ghost held: { length bytes ≤ 4 * next },
    ghost within: { next ≤ length (list_of plan) },
}

/// Where the reading of a list stops: before the entry in place `next`, which is read `wait` wakeups later.
#[derive(Clone, Copy)]
struct Pause {
    next: usize,
    wait: u32,
}

impl Stream {
    ghost use Rattle.md_dwell.specs.Streams.{Runs, StreamStands};

    /// The stream of a table before the first wakeup.
    pub(crate) fn start(table: &Dwell) -> Stream
        ensures stands { StreamStands table.now.entries table.now.enabled 0 [] result }
        ensures plan { result.plan ≡ table.now.entries }
    {
        Stream {
            plan: table.plan(),
            enabled: table.enabled(),
            next: 0,
            wait: 1,
            bytes: Payload::new(),
        }
    }

    pub(crate) fn enabled(&self) -> bool
        ensures { result ≡ self.now.enabled }
    {
        self.enabled
    }

    /// Takes another table, with whose first entry it begins in the next wakeup.
    pub(crate) fn activate(&mut self, table: &Dwell)
        ensures stands { (images : List Memory)
            → StreamStands table.now.entries table.now.enabled (length images) images self.new }
        ensures plan { self.new.plan ≡ table.now.entries }
    {
        let enabled = table.enabled();
        self.restart();
        self.plan = table.plan();
        self.enabled = enabled;
    }

    /// Begins with the first entry of the list in the next wakeup.
    fn restart(&mut self)
        ensures plan { self.new.plan ≡ self.old.plan }
        ensures enabled { self.new.enabled ≡ self.old.enabled }
        ensures next { self.new.next ≡ 0 }
        ensures wait { self.new.wait ≡ 1 }
        ensures bytes { self.new.bytes ≡ [] }
    {
        self.next = 0;
        self.wait = 1;
        self.bytes = Payload::new();
    }

    /// Does for a table, 1 to 4, what an order asks.
    pub(crate) fn obey(&mut self, table: u16, order: &Instruction)
        requires table { (1 ≤ table) × (table ≤ 4) }
        requires entry { NamesEntry order.now }
        ensures stands { (entries : List DwellEntry) (on : Bool) (since : ℕ) (images : List Memory)
            → StreamStands entries on since images self.old
            → StreamStands (jammed table entries order.now) (switched table on order.now)
            (if starts table order.now then length images else since) images self.new }
        ensures given { (regions : List Region) → AllPass (is_given regions) self.old.plan
            → OrderGiven regions order.now → AllPass (is_given regions) self.new.plan }
    {
        match order {
            Instruction::Plain => {}
            Instruction::Start { mask } => {
                if names(*mask, table) {
                    self.enabled = true;
                    self.restart();
                }
            }
            Instruction::Stop { mask } => {
                if names(*mask, table) {
                    self.enabled = false;
                }
            }
            Instruction::Jam {
                table: jammed,
                number,
                entry,
            } => {
                if *jammed == table {
                    self.restart();
                    self.plan.write(*number, *entry);
                }
            }
        }
    }

    /// Whether the table is enabled and its list has a delay.
    pub(crate) fn dwells(&self) -> bool
        ensures { result ≡ (self.now.enabled && nat_lt 0 (delays (list_of self.now.plan))) }
    {
        self.enabled && self.plan.period() > 0
    }

    /// Reads the entries of the table, 1 to 4, that are due in this wakeup, and puts the packet of a round that ends behind the items.
    #[inline(always)]
    pub(crate) fn serve(&mut self, table: u16, window: &Window<'_>, now: u32, out: &mut Outbox)
        requires table { (1 ≤ table) × (table ≤ 4) }
        requires room { length out.old.items < out.old.room }
        ensures stands { (entries : List DwellEntry) (on : Bool) (since : ℕ) (images : List Memory)
            → StreamStands entries on since images self.old
            → StreamStands entries on since (images ++ seen window.now ∷ []) self.new }
        ensures items { (entries : List DwellEntry) (on : Bool) (since : ℕ) (images : List Memory)
            → StreamStands entries on since images self.old
            → out.new ≡ adding out.old (dwell_items now table (dwell_at on entries since (images
            ++ seen window.now ∷ []))) }
        ensures counted { AllPass is_item_counted out.old.items
            → AllPass is_item_counted out.new.items }
        ensures plan { self.new.plan ≡ self.old.plan }
        ensures few { length out.new.items ≤ length out.old.items + 1 }
        ensures room { out.new.room ≡ out.old.room }
    {
        if !self.enabled {
            return;
        }
        if self.plan.period() == 0 {
            return;
        }
        self.wait = self.wait.saturating_sub(1);
        if self.wait == 0 {
            self.read_on(table, window, now, out);
        }
    }

    /// Reads the entries that are due, where the next one is.
    #[inline(never)]
    fn read_on(&mut self, table: u16, window: &Window<'_>, now: u32, out: &mut Outbox)
        requires table { (1 ≤ table) × (table ≤ 4) }
        requires due { self.old.wait ≡ 0 }
        requires room { length out.old.items < out.old.room }
        ensures stands { (since r : ℕ) (past : List Memory) → 0 < delays (list_of self.old.plan)
            → IsInRound (list_of self.old.plan) since past (past ++ seen window.now
            ∷ []) r self.old.next 0 self.old.bytes
            → Runs (list_of self.old.plan) since (past ++ seen window.now ∷ []) self.new }
        ensures items { (since r : ℕ) (past : List Memory) → 0 < delays (list_of self.old.plan)
            → IsInRound (list_of self.old.plan) since past (past ++ seen window.now
            ∷ []) r self.old.next 0 self.old.bytes
            → out.new ≡ adding out.old (dwell_items now table
            (round_at (list_of self.old.plan) since (past ++ seen window.now ∷ []))) }
        ensures plan { self.new.plan ≡ self.old.plan }
        ensures counted { AllPass is_item_counted out.old.items
            → AllPass is_item_counted out.new.items }
        ensures enabled { self.new.enabled ≡ self.old.enabled }
        ensures few { length out.new.items ≤ length out.old.items + 1 }
        ensures room { out.new.room ≡ out.old.room }
    {
        self.gather(window);
        if self.next < self.plan.list().len() {
            return;
        }
        out.push(Out::Made(dwell_packet(table, self.bytes.bytes(), now)));
        self.next = 0;
        self.bytes = Payload::new();
        if self.wait == 0 {
            self.gather(window);
        }
    }

    /// Reads entries from the next one on, up to one with a delay or the last.
    fn gather(&mut self, window: &Window<'_>)
        ensures read { (list : List DwellEntry) (from : ℕ) (past : List Memory)
            → list ≡ list_of self.old.plan
            → IsReadTo list from (past ++ seen window.now ∷ []) self.old.next 0 self.old.bytes
            → IsReadTo list from (past ++ seen window.now
            ∷ []) self.new.next self.new.wait self.new.bytes }
        ensures last { (list : List DwellEntry) (from : ℕ) (past : List Memory)
            → list ≡ list_of self.old.plan → self.old.next < length list
            → IsReadTo list from (past ++ seen window.now ∷ []) self.old.next 0 self.old.bytes
            → self.new.next ≡ length list → from + delays_to_last list ≡ length past }
        ensures waits { self.new.next < length (list_of self.old.plan) → 0 < self.new.wait }
        ensures plan { self.new.plan ≡ self.old.plan }
        ensures enabled { self.new.enabled ≡ self.old.enabled }
    {
        let pause = gather(self.plan.list(), self.next, window, &mut self.bytes);
        self.next = pause.next;
        self.wait = pause.wait;
    }
}

/// Reads entries of a list from a place on, up to one with a delay or the last.
fn gather(list: &[DwellEntry], next: usize, window: &Window<'_>, bytes: &mut Payload) -> Pause
    requires few { length list.now ≤ 25 }
    requires within { next ≤ length list.now }
    requires held { length bytes.old ≤ 4 * next }
    ensures read { (from : ℕ) (past : List Memory)
        → IsReadTo list.now from (past ++ seen window.now ∷ []) next 0 bytes.old
        → IsReadTo list.now from (past ++ seen window.now ∷ []) result.next result.wait bytes.new }
    ensures last { (from : ℕ) (past : List Memory) → next < length list.now
        → IsReadTo list.now from (past ++ seen window.now ∷ []) next 0 bytes.old
        → result.next ≡ length list.now → from + delays_to_last list.now ≡ length past }
    ensures waits { result.next < length list.now → 0 < result.wait }
    ensures within { result.next ≤ length list.now }
    ensures held { length bytes.new ≤ 4 * result.next }
{
    for i in next..list.len() {
        let entry = list[i];
        read(window, entry, bytes);
        if entry.delay != 0 {
            return Pause {
                next: i + 1,
                wait: u32::from(entry.delay),
            };
        }
    }
    Pause {
        next: list.len(),
        wait: 0,
    }
}

/// Whether a mask names a table, 1 to 4.
fn names(mask: u16, table: u16) -> bool
    requires { (1 ≤ table) × (table ≤ 4) }
    ensures { result ≡ names mask table }
{
    mask >> (table - 1) & 1 == 1
}
