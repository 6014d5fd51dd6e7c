//! The memory of the bench, and the operations that are to land on it.

use frame_wires::upset_all;
use fsw_outside::{Gate, NoMemory};
use memory_window::{Map, Ops, Ram};
use scenario::Upset;
use std::alloc::Global;
use std::thread::Threads;
use table_files::Files;

/// Memory, and the operations on it that a frame's wakeups left.
#[derive(Drop)]
pub(crate) struct Memory {
    pub(crate) ram: Ram,
    pub(crate) ops: Box<Ops>,
}

impl Memory {
    ghost use Rattle.std.specs.Prelude.{◌≡◌, ◌<◌, ◌==◌, length, IfOk};
    ghost use Rattle.std.specs.List.{fold};
    ghost use Rattle.table_files.specs.Files.{loads_of};
    ghost use Rattle.memory_window.specs.Landing.{land};
    ghost use Rattle.memory_window.specs.Memory.{start_memory};
    ghost use Rattle.frame_wires.specs.Sending.{upset_by};
    ghost use Rattle.app_suite.specs.Landable.{CanLand};
    ghost use Rattle.frame_exec.specs.Standing.{AreMapped};

    /// The memory of a map before the first frame.
    pub(crate) fn open(alloc: Global, map: Map) -> Result<Memory, NoMemory>
        ensures { IfOk result (λ memory. memory.ram ≡ start_memory map) }
    {
        Ok(Memory {
            ram: Ram::new(alloc, map)?,
            ops: Box::new(alloc, Ops::new())?,
        })
    }

    /// Writes these upsets.
    #[inline(always)]
    pub(crate) fn upset(&mut self, upsets: &[Upset])
        requires { AreMapped upsets.now self.old.ram }
        ensures ram { self.new.ram ≡ fold upset_by self.old.ram upsets.now }
        ensures operations { self.new.ops ≡ self.old.ops }
    {
        upset_all(&mut self.ram, upsets);
    }

    /// Whether no operation is to land.
    #[inline(always)]
    pub(crate) fn stays(&self) -> bool
        ensures { result ≡ (length self.now.ops.value == 0) }
    {
        self.ops.items().is_empty()
    }

    /// Lands the operations bank by bank on so many workers; those from files load from these.
    #[inline(always)]
    pub(crate) fn land<R: Threads + Sync, G: Gate>(
        &mut self,
        rt: &R,
        workers: u32,
        files: &Files,
        gate: &G,
    )
        requires workers { 0 < workers }
        requires can_land { CanLand (loads_of files.now) self.old.ram self.old.ops.value }
        ensures ram { self.new.ram
            ≡ land (loads_of files.now) self.old.ops.value self.old.ram }
        ensures operations { self.new.ops ≡ self.old.ops }
    {
        self.ram
            .land_banks_on(rt, workers, self.ops.items(), files, gate);
    }
}
