//! Banks that land beside one another, and the gate that each enters.

ghost use Rattle.std.specs.Prelude.{◌<◌};

use super::threads::{Counting, Meeting};
use memory_window::{Kind, Map, MemOp, Ram, Region};
use std::alloc::Global;
use std::process::Abort;
use std::test::Fail;
use std::thread::Threads;
use table_files::Files;

/// Sixteen bytes on each side of the first edge between two banks.
const FILL: MemOp = MemOp::Fill {
    at: 0xFFF0,
    len: 32,
    byte: 0x5A,
};

const BANKS: [Region; 1] = [Region {
    kind: Kind::Ram,
    start: 0,
    len: 200_000,
}];

/// Whether memory has what the fill left at both its ends, and zeros before and behind it.
fn is_filled(ram: &Ram) -> bool {
    let window = ram.window();
    window.read8(0xFFEF) == Ok(0)
        && window.read8(0xFFF0) == Ok(0x5A)
        && window.read8(0x1_000F) == Ok(0x5A)
        && window.read8(0x1_0010) == Ok(0)
}

#[test]
fn two_banks_at_once(rt: HostRuntime) -> Result<(), Fail> {
    let none = Files::open(rt.alloc())?;
    let mut ram = Ram::new(rt.alloc(), Map::new(&BANKS)?)?;
    assert!(rt; ram.window().admits(&FILL).is_ok());
    let gate = Meeting::new(3, 3);
    ram.land_banks(&rt, &[FILL], &none, &gate);
    assert_eq!(rt; gate.met(), 3);
    assert!(rt; is_filled(&ram));
    Ok(())
}

/// Fills over two banks of four, with so many workers. Each bank enters the gate once; without operations none does.
fn fill_across<R: Threads + Abort + Sync>(rt: &R, alloc: Global, workers: u32) -> Result<(), Fail>
    requires { 0 < workers }
{
    let none = Files::open(alloc)?;
    let mut ram = Ram::new(alloc, Map::new(&BANKS)?)?;
    let gate = Counting::new();
    ram.land_banks_on(rt, workers, &[], &none, &gate);
    assert_eq!(rt; gate.entered(), 0);
    assert!(rt; ram.window().admits(&FILL).is_ok());
    ram.land_banks_on(rt, workers, &[FILL], &none, &gate);
    assert_eq!(rt; gate.entered(), 0x01_01_01_01);
    assert!(rt; is_filled(&ram));
    Ok(())
}

#[test]
fn each_bank_enters_the_gate_once(rt: HostRuntime) -> Result<(), Fail> {
    fill_across(&rt, rt.alloc(), 1)?;
    fill_across(&rt, rt.alloc(), 2)?;
    fill_across(&rt, rt.alloc(), 16)
}
