//! The applications before the first frame.

ghost use Rattle.std.specs.Prelude.{IfOk};
ghost use Rattle.app_suite.specs.Beginnings.{HaveBegun};

use crate::cs_slot::CsSlot;
use crate::hs_slot::HsSlot;
use crate::lc_slot::LcSlot;
use crate::md_slot::MdSlot;
use crate::mm_slot::MmSlot;
use crate::sc_slot::ScSlot;
use crate::slot::Slot;
use active_tables::Tables;
use cs_slices::Cs;
use fsw_outside::NoMemory;
use hs_monitors::Hs;
use lc_watch::Lc;
use md_dwell::Md;
use mm_core::Mm;
use sc_sequences::Sc;
use std::alloc::Global;

/// A slot for each application.
#[derive(Drop)]
pub struct Slots {
    pub hs: HsSlot,
    pub cs: CsSlot,
    pub sc: ScSlot,
    pub mm: MmSlot,
    pub md: MdSlot,
    pub lc: LcSlot,
}

impl Slots {
    /// The applications on these tables before the first frame, whose time is `time`; and whether LC is there.
    pub fn open(alloc: Global, tables: &Tables<'_>, time: u32, lc: bool) -> Result<Slots, NoMemory>
        ensures { IfOk result (HaveBegun tables.now.set time lc) }
    {
        Ok(Slots {
            hs: Slot::open(alloc, Hs::start(tables.hs(), 0, 3), false)?,
            cs: Slot::open(alloc, Cs::start(tables.eeprom(), tables.memory()), false)?,
            sc: Slot::open(alloc, Sc::start(tables.sc(), time), false)?,
            mm: Slot::open(alloc, Mm::start(), false)?,
            md: Slot::open(alloc, Md::start(tables.dwells()), false)?,
            lc: LcSlot::open(alloc, Lc::start(tables.adt()), lc)?,
        })
    }
}
