//! Memory itself: one block of bytes, the map of its regions and their flags.
ghost use Rattle.std.specs.Prelude.{◌≡◌, ◌<◌, ◌≤◌, false, None, length, take, map, All, IfOk, IsTrue};
ghost use Rattle.std.specs.List.{list_any};
ghost use Rattle.memory_window.specs.Regions.{is_eeprom, is_mapped, ends_late, total_of, map_fault_of};
ghost use Rattle.table_files.specs.Files.{loads_of};
ghost use Rattle.memory_window.specs.Operations.{IsBacked, IsSound, protect, protected_by};
ghost use Rattle.memory_window.specs.Landing.{land, landed};
ghost use Rattle.memory_window.specs.Memory.{cut, changed, regions_of, start_memory, upset_at};
ghost use Rattle.memory_window.specs.Access.{Admitted};
ghost use Rattle.memory_window.specs.Reading.{IsWhole};

use crate::banks::land_regions;
use crate::change::{Change, Upset, change_all};
use crate::landing::Landing;
use crate::regions::{MOST_REGIONS, Region};
use crate::{Map, MemOp, Window};
use fsw_outside::{Gate, NoMemory};
use memory_block::Store;
use std::alloc::Global;
use std::marker::Model;
use std::thread::Threads;
use table_files::Files;

// More than a region has banks.
const MOST_BANKS: u32 = 72;

/// The memory of the regions of a map.
#[derive(Drop)]
pub struct Ram {
    map: Map,
    // One flag for each region; those behind the last one say nothing.
    guarded: [bool; MOST_REGIONS],
    store: Store,
}

impl Model for Ram {
    ghost use Rattle.std.specs.Prelude.{◌≡◌, None, length, take};
    ghost use Rattle.memory_window.specs.Regions.{map_fault_of, total_of};
    ghost use Rattle.memory_window.specs.Memory.{Memory, cut};

    ghost Value = { Memory };

    ghost view = { λ r. record {
      areas = cut r.map r.store;
      guarded = take (length r.map) r.guarded;
    } };

    ghost invariant = { λ r. (map_fault_of r.map ≡ None) × (length r.guarded ≡ 8)
        × (total_of r.map ≡ length r.store) };
}

impl Ram {
    ghost use Rattle.memory_window.specs.Window.{seen};

    /// Memory at its start: all bytes are 0, and every EEPROM region is protected.
    pub fn new(alloc: Global, map: Map) -> Result<Ram, NoMemory>
        ensures start { IfOk result (λ ram. ram ≡ start_memory map) }
        ensures map { IfOk result (λ ram. regions_of ram.areas ≡ map) }
    {
        let store = Store::zeroed(alloc, map.total() as usize)?;
        Ok(Ram {
            guarded: start_flags(map.regions()),
            map,
            store,
        })
    }

    /// What memory shows now. The window lends the block: nothing is copied.
    pub fn window(&self) -> Window<'_>
        ensures window { seen result ≡ self.now }
        ensures map { map_fault_of (regions_of self.now.areas) ≡ None }
        ensures whole { IsWhole self.now }
    {
        let block = self.store.part(0, self.store.len());
        Window::over(self.map.regions(), &self.guarded, block)
    }

    /// Makes the operations, in their order; those from files load from these.
    pub fn land(&mut self, ops: &[MemOp], files: &Files)
        requires admitted { All (Admitted self.old) ops.now }
        requires backed { All (IsBacked (loads_of files.now)) ops.now }
        ensures land { self.new ≡ land (loads_of files.now) ops.now self.old }
        ensures map { regions_of self.new.areas ≡ regions_of self.old.areas }
    {
        let regions = self.map.regions();
        change_store(&mut self.store, regions, &Landing { ops, files });
        protect_first(&mut self.guarded, regions.len(), ops);
    }

    /// Makes the operations as `land` does, bank by bank, each bank at the same time as the others where threads can be had. A
    /// bank is a part of 65,536 bytes of a region, from its start on; before a bank is landed, the gate is entered on its thread
    /// with 64 plus the bank's place in its region. Without operations no gate is entered.
    pub fn land_banks<R: Threads + Sync, G: Gate>(
        &mut self,
        rt: &R,
        ops: &[MemOp],
        files: &Files,
        gate: &G,
    )
        requires admitted { All (Admitted self.old) ops.now }
        requires backed { All (IsBacked (loads_of files.now)) ops.now }
        ensures land { self.new ≡ land (loads_of files.now) ops.now self.old }
        ensures map { regions_of self.new.areas ≡ regions_of self.old.areas }
    {
        self.land_banks_on(rt, MOST_BANKS, ops, files, gate);
    }

    /// Lands operations bank by bank as `land_banks` does, with at most so many workers, each of which lands banks that lie side by side.
    /// One worker starts no thread.
    pub fn land_banks_on<R: Threads + Sync, G: Gate>(
        &mut self,
        rt: &R,
        workers: u32,
        ops: &[MemOp],
        files: &Files,
        gate: &G,
    )
        requires workers { 0 < workers }
        requires admitted { All (Admitted self.old) ops.now }
        requires backed { All (IsBacked (loads_of files.now)) ops.now }
        ensures land { self.new ≡ land (loads_of files.now) ops.now self.old }
        ensures map { regions_of self.new.areas ≡ regions_of self.old.areas }
    {
        if ops.is_empty() {
            return;
        }
        let regions = self.map.regions();
        protect_first(&mut self.guarded, regions.len(), ops);
        land_store(
            rt,
            workers,
            gate,
            &Landing { ops, files },
            regions,
            &mut self.store,
        );
    }

    /// Writes one byte, whatever protects it.
    pub fn upset(&mut self, at: u32, value: u8)
        requires { IsTrue (is_mapped (regions_of self.old.areas) at) }
        ensures upset { self.new ≡ upset_at self.old at value }
        ensures map { regions_of self.new.areas ≡ regions_of self.old.areas }
    {
        change_store(&mut self.store, self.map.regions(), &Upset { at, value });
    }
}

/// Changes the bytes of each region.
fn change_store<C: Change>(store: &mut Store, regions: &[Region], change: &C)
    requires whole { total_of regions.now ≡ length store.old }
    requires within { list_any ends_late regions.now ≡ false }
    requires possible { C.is_possible change.now }
    ensures areas { cut regions.now store.new
        ≡ changed (C.byte change.now) (cut regions.now store.old) }
    ensures len { length store.new ≡ length store.old }
{
    let size = store.len();
    change_all(store.part_mut(0, size), regions, change);
}

/// Lands operations on each region, bank by bank.
fn land_store<R: Threads + Sync, G: Gate>(
    rt: &R,
    workers: u32,
    gate: &G,
    landing: &Landing<'_, '_>,
    regions: &[Region],
    store: &mut Store,
)
    requires workers { 0 < workers }
    requires whole { total_of regions.now ≡ length store.old }
    requires within { list_any ends_late regions.now ≡ false }
    requires sound { All IsSound landing.now.ops.now }
    requires backed { All (IsBacked (loads_of landing.now.files.now)) landing.now.ops.now }
    ensures areas { cut regions.now store.new
        ≡ changed (landed (loads_of landing.now.files.now) landing.now.ops.now)
        (cut regions.now store.old) }
    ensures len { length store.new ≡ length store.old }
{
    let size = store.len();
    land_regions(rt, workers, gate, landing, regions, store.part_mut(0, size));
}

/// The flags at the start: EEPROM regions are protected.
fn start_flags(regions: &[Region]) -> [bool; MOST_REGIONS]
    requires { length regions.now ≤ 8 }
    ensures flags { take (length regions.now) result ≡ map (λ r. is_eeprom r.kind) regions.now }
    ensures eight { length result ≡ 8 }
{
    let mut flags = [false; MOST_REGIONS];
    for (i, region) in regions.iter().enumerate() {
        flags[i] = region.kind.is_eeprom();
    }
    flags
}

/// Sets and takes away those of the first flags that the operations name.
fn protect_first(flags: &mut [bool; MOST_REGIONS], count: usize, ops: &[MemOp])
    requires count { count ≤ 8 }
    requires eight { length flags.old ≡ 8 }
    ensures flags { take count flags.new ≡ protected_by ops.now (take count flags.old) }
    ensures eight { length flags.new ≡ 8 }
{
    protect_all(&mut flags[..count], ops);
}

/// Sets and takes away the flags that the operations name, in their order.
fn protect_all(flags: &mut [bool], ops: &[MemOp])
    ensures { flags.new ≡ protected_by ops.now flags.old }
{
    for op in ops {
        protect_one(flags, op);
    }
}

fn protect_one(flags: &mut [bool], op: &MemOp)
    ensures { flags.new ≡ protect op.now flags.old }
{
    if let MemOp::Protect { region, on } = op {
        let i = (*region as usize).saturating_sub(1);
        if i < flags.len() {
            flags[i] = *on;
        }
    }
}
