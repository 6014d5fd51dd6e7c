//! The map of memory that a scenario's header says.

ghost use Rattle.std.specs.Prelude.{◌≡◌, ◌≢◌, [], false, Some, None, IfOk, IfErr, OnOk, OnErr};
ghost use Rattle.scenario.specs.Standing.{Stands, is_finished};
ghost use Rattle.ground_faults.specs.HeaderMaps.{HasGiven, map_said};

use memory_window::Map;
use packet_forms::behind;
use scenario::{Item, Reader};
use std::alloc::Global;

/// The number of the reason for which a text is refused that ends too early (docs/SCENARIO.md).
pub const UNENDED: u8 = 7;

/// Why a text gives no map.
#[derive(Clone, Copy, Debug, PartialEq, Eq)]
pub enum MapFault {
    /// A line of its header is refused, by its number and that of the reason (docs/SCENARIO.md).
    Line { line: u32, reason: u8 },
    Memory,
}

/// Reads a text up to its header.
fn read_header(reader: &mut Reader, text: &[u8]) -> Result<(), MapFault>
    requires { Stands reader.old (record { bytes = []; closed = false }) []
        × (is_finished reader.old ≡ false) }
    ensures given { OnOk result (HasGiven reader.new text.now) }
    ensures none { OnErr result (map_said text.now ≡ None) }
{
    let mut rest = text;
    'items: loop {
        match reader.next() {
            Item::Header => return Ok(()),
            Item::Frame => {}
            Item::More => {
                if rest.is_empty() {
                    reader.finish();
                } else {
                    let taken = reader.feed(rest);
                    rest = behind(rest, taken);
                }
            }
            Item::End => return Err(MapFault::Line {
                line: 0,
                reason: UNENDED,
            }),
            Item::Bad { line, reason } => return Err(MapFault::Line { line, reason }),
        }
    }
}

/// The map of memory that a scenario's header says. What stands behind the header isn't read.
pub fn scenario_map(alloc: Global, text: &[u8]) -> Result<Map, MapFault>
    ensures said { IfOk result (λ map. map_said text.now ≡ Some map) }
    ensures none { IfErr result (λ fault. fault ≢ MapFault.Memory → map_said text.now ≡ None) }
{
    let Ok(mut reader) = Reader::open(alloc) else {
        return Err(MapFault::Memory);
    };
    match read_header(&mut reader, text) {
        Ok(()) => Ok(reader.header().map),
        Err(fault) => Err(fault),
    }
}
