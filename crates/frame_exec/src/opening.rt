//! The opening of a bench.

ghost use Rattle.std.specs.Prelude.{IfOk};

use crate::applications::Applications;
use crate::bench::Bench;
use crate::lines::Lines;
use crate::memory::Memory;
use crate::wires::Wires;
use active_tables::{OpenFault, Tables, names_limit_checker, refused_place};
use fsw_outside::NoMemory;
use scenario::Header;
use std::alloc::Global;
use table_files::Files;

impl<'f> Bench<'f> {
    ghost use Rattle.std.specs.Prelude.{ℕ, ◌≤◌, List, []};
    ghost use Rattle.frame_exec.specs.Standing.{Stands, setup_in};
    ghost use Rattle.frame_exec.specs.Following.{Follows};
    ghost use Rattle.active_tables.specs.Tables.{AreGiven, AreLoaded, Opens, region_fault};

    /// A bench with the tables that were loaded from these files and the memory of the header's map, which stands for no frames; the number of
    /// workers is from 1 to 16. `Region` comes exactly where that memory refuses the read of a dwell entry of another length than 0, or the bytes
    /// of a checksum entry whose state isn't 0, with the first such file and its first such entry; it is asked before memory is.
    pub fn open(
        alloc: Global,
        tables: Tables<'f>,
        files: &'f Files,
        header: &Header,
        workers: u32,
    ) -> Result<Bench<'f>, OpenFault>
        requires workers { (1 ≤ workers) × (workers ≤ 16) }
        requires loaded { AreLoaded files.now tables }
        ensures stands { IfOk result (λ bench. Stands bench (setup_in header.now files.now) []) }
        ensures follows { IfOk result (λ bench. Follows bench (setup_in header.now files.now)
            [] []) }
        ensures refused { Opens (region_fault header.now.map files.now) result }
    {
        if let Some(place) = refused_place(&header.map, files) {
            return Err(OpenFault::Region {
                file: place.file,
                entry: place.entry,
            });
        }
        match Bench::begin(alloc, tables, header, workers) {
            Ok(bench) => Ok(bench),
            Err(NoMemory) => Err(OpenFault::NoMemory),
        }
    }

    /// A bench that stands for no frames, on tables whose reads the header's map gives.
    fn begin(
        alloc: Global,
        tables: Tables<'f>,
        header: &Header,
        workers: u32,
    ) -> Result<Bench<'f>, NoMemory>
        requires workers { (1 ≤ workers) × (workers ≤ 16) }
        requires given { AreGiven header.now.map tables }
        ensures { (files : List (List ℕ)) → AreLoaded files tables.entry
            → IfOk result (λ bench. Stands bench (setup_in header.now files) []) }
    {
        let lc = names_limit_checker(tables.files());
        let apps = Applications::open(alloc, &tables, header.epoch, workers, lc)?;
        let wires = Wires::open(alloc, lc)?;
        let memory = Memory::open(alloc, header.map)?;
        let lines = Lines::open(alloc)?;
        Ok(Bench {
            epoch: header.epoch,
            number: 0,
            failed: false,
            resets: false,
            idle: false,
            counts: false,
            workers,
            tables,
            apps,
            wires,
            memory,
            lines,
        })
    }
}
