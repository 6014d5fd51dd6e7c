//! The reading of a table's payload.
ghost use Rattle.std.specs.Prelude.{◌≡◌, ◌≤◌, length, IfOk, IfErr, MatchResult, Some, None};
ghost use Rattle.md_dwell.specs.Tables.{entry_at, entry_reason, dwell_fault_of, dwell_of};

use crate::tables::{Dwell, DwellEntry};
use packet_forms::{be16, be32};
use table_files::{Entry, EntryFault};

/// The table of a payload of 204 bytes: the enabled flag u16, a reserved u16, and 25 entries of length u16, delay u16 and address u32.
/// Its faults are reason 2 with entry 0, an enabled flag over 1, and then the least reason of the first faulty entry, counted from 1:
/// 1 a length that isn't 0, 1, 2 or 4, and 3 an address that isn't a multiple of the length. All 25 entries are looked at.
pub fn load_dwell(payload: &[u8]) -> Result<Dwell, EntryFault>
    requires { length payload.now ≡ 204 }
    ensures table { IfOk result (λ table. table ≡ dwell_of payload.now) }
    ensures fault { MatchResult result (λ _. dwell_fault_of payload.now
        ≡ None) (λ fault. dwell_fault_of payload.now ≡ Some fault) }
    ensures small { IfErr result (λ fault. fault.reason ≤ 3) }
{
    let mut table = Dwell::blank();
    match table.read(payload) {
        Some(fault) => Err(fault),
        None => Ok(table),
    }
}

impl Entry for DwellEntry {
    ghost entry_at = { entry_at };

    ghost reason_of = { entry_reason };

    ghost PAYLOAD = { 204 };

    ghost ENTRIES = { 25 };

    ghost REASONS = { 3 };

    const PAYLOAD: usize = 204;

    const ENTRIES: u32 = 25;

    const REASONS: u8 = 3;

    const BLANK: DwellEntry = DwellEntry::BLANK;

    fn read(payload: &[u8], place: u32) -> DwellEntry {
        let from = 4 + 8 * place as usize;
        DwellEntry {
            len: be16(payload, from),
            delay: be16(payload, from + 2),
            at: be32(payload, from + 4),
        }
    }

    #[tactic(auto, unfolding(crate::specs::Tables::entry_reason))]
    fn reason(&self) -> Option<u8> {
        if !self.has_length() {
            return Some(1);
        }
        if self.is_aligned() { None } else { Some(3) }
    }
}
