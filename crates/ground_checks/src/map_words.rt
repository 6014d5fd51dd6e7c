//! The regions of a map, in words.

ghost use Rattle.std.specs.Prelude.{OnOk};
ghost use Rattle.ground_checks.specs.Checked.{StaysTold};

use memory_window::{Kind, Map, Region};
use std::io::{self, Write};

/// A region's kind, as a scenario has it.
fn kind_word(kind: Kind) -> &'static str {
    match kind {
        Kind::Ram => "RAM",
        Kind::Eeprom => "EEPROM",
        Kind::Mem8 => "MEM8",
        Kind::Mem16 => "MEM16",
        Kind::Mem32 => "MEM32",
    }
}

/// Tells the regions of a map, each as its line of the scenario has it.
pub(crate) fn tell_regions<O: Write>(out: &mut O, name: &str, map: &Map) -> io::Result<()>
    ensures { OnOk result (StaysTold (O.contents out.old) (O.contents out.new)) }
{
    for region in map.regions() {
        let Region { kind, start, len } = *region;
        let kind = kind_word(kind);
        writeln!(out, "map {name} {kind} 0x{start:08X} {len}")?;
    }
    Ok(())
}
