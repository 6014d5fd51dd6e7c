//! One wakeup of each application: a no-op, and the event that answers it.

use bus_pipes::{Out, Outbox};
use cs_slices::{Cs, Segments};
use hs_monitors::{Hs, HsInput};
use hs_tables::HsTables;
use lc_watch::{Lc, load_adt, load_wdt};
use md_dwell::{Dwell, Md};
use memory_window::{Kind, Map, Ops, Ram, Region};
use mm_core::Mm;
use packet_forms::{Name, Packet, event};
use sc_sequences::Sc;
use sc_tables::{RtsSet, ScTables};
use std::alloc::Global;
use std::process::Abort;
use std::test::Fail;
use table_files::Files;

/// The time of the wakeup.
const NOW: u32 = 1001;

/// Memory of one region.
fn memory(alloc: Global) -> Result<Ram, Fail> {
    let region = Region {
        kind: Kind::Ram,
        start: 0x1000,
        len: 256,
    };
    let map = Map::new(&[region]).ok().ok_or("the map is refused")?;
    Ok(Ram::new(alloc, map)?)
}

/// The no-op of the application whose command id has this last byte.
fn noop(last: u8) -> Result<[Packet; 1], Fail> {
    let bytes = [0x18, last, 0xC0, 0, 0, 1, 0, 0x26 ^ last];
    Ok([Packet::from_bytes(&bytes).ok().ok_or("no packet")?])
}

/// Asserts that what was given is the event of an accepted no-op alone.
fn assert_answered<R: Abort>(rt: &R, out: &Outbox, name: &str) -> Result<(), Fail> {
    let name = Name::from_text(name).ok_or("no name")?;
    assert_eq!(rt;
        out.items(),
        [Out::Made(event(name, 16, 2, NOW))].as_slice()
    );
    Ok(())
}

#[test]
fn memory_manager_steps(rt: HostRuntime) -> Result<(), Fail> {
    let ram = memory(rt.alloc())?;
    let files = Files::open(rt.alloc())?;
    let mut out = Outbox::open(rt.alloc(), mm_core::MOST_ITEMS)?;
    let mut ops = Ops::new();
    let mut next = Mm::start();
    Mm::start().step(
        &files,
        &noop(0x88)?,
        ram.window(),
        NOW,
        &mut next,
        &mut out,
        &mut ops,
    );
    assert!(rt; ops.items().is_empty());
    assert_answered(&rt, &out, "MM")
}

#[test]
fn memory_dwell_steps(rt: HostRuntime) -> Result<(), Fail> {
    let ram = memory(rt.alloc())?;
    let tables = [
        Dwell::blank(),
        Dwell::blank(),
        Dwell::blank(),
        Dwell::blank(),
    ];
    let mut out = Outbox::open(rt.alloc(), md_dwell::MOST_ITEMS)?;
    let begun = Md::start(&tables);
    let mut next = begun;
    begun.step(&noop(0x90)?, ram.window(), NOW, &mut next, &mut out);
    assert_answered(&rt, &out, "MD")
}

#[test]
fn checksum_steps(rt: HostRuntime) -> Result<(), Fail> {
    let ram = memory(rt.alloc())?;
    let (eeprom, memory) = (Segments::blank(), Segments::blank());
    let mut out = Outbox::open(rt.alloc(), cs_slices::MOST_ITEMS)?;
    let begun = Cs::start(&eeprom, &memory);
    let mut next = begun;
    begun.step(
        &eeprom,
        &memory,
        &noop(0x9F)?,
        ram.window(),
        NOW,
        &mut next,
        &mut out,
    );
    assert_answered(&rt, &out, "CS")
}

#[test]
fn stored_command_steps(rt: HostRuntime) -> Result<(), Fail> {
    let tables = ScTables::new([None; 2], RtsSet::empty());
    let mut out = Outbox::open(rt.alloc(), sc_sequences::MOST_ITEMS)?;
    let begun = Sc::start(&tables, NOW);
    let mut next = begun;
    begun.step(&tables, &noop(0xA9)?, NOW, &mut next, &mut out);
    assert_answered(&rt, &out, "SC")
}

#[test]
fn health_and_safety_steps(rt: HostRuntime) -> Result<(), Fail> {
    let tables = HsTables::blank();
    let commands = noop(0xAE)?;
    let input = HsInput {
        commands: &commands,
        events: &[],
        counters: &[],
    };
    let mut out = Outbox::open(rt.alloc(), hs_monitors::MOST_ITEMS)?;
    let begun = Hs::start(&tables, 0, 1);
    let mut next = begun;
    begun.step(&tables, &input, NOW, &mut next, &mut out);
    assert_answered(&rt, &out, "HS")
}

/// Its tables are read from payloads of zeros.
#[test]
fn limit_checker_steps(rt: HostRuntime) -> Result<(), Fail> {
    let watch = load_wdt(&[0; 512]).ok().ok_or("refused")?;
    let actions = load_adt(&[0; 640]).ok().ok_or("refused")?;
    let mut out = Outbox::open(rt.alloc(), lc_watch::MOST_ITEMS)?;
    let begun = Lc::start(&actions);
    let mut next = begun;
    begun.step(
        &watch,
        &actions,
        &noop(0xA6)?,
        &[],
        NOW,
        &mut next,
        &mut out,
    );
    assert_answered(&rt, &out, "LC")
}
