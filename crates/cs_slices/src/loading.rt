//! The reading of a table's payload.
ghost use Rattle.std.specs.Prelude.{◌≡◌, ◌≤◌, length, IfOk, IfErr, MatchResult, Some, None};
ghost use Rattle.cs_slices.specs.Tables.{segment_at, segment_reason, segments_fault_of, segments_of};

use crate::segments::{Segment, Segments};
use packet_forms::{be16, be32};
use table_files::{Entry, EntryFault};

/// The table of a payload of 192 bytes: 16 entries of state u16, a reserved u16, start u32 and length u32.
/// A fault is the least reason of the first faulty entry, counted from 1: 1 a state over 2, and 2 a state that isn't 0 with length 0.
pub fn load_segments(payload: &[u8]) -> Result<Segments, EntryFault>
    requires { length payload.now ≡ 192 }
    ensures table { IfOk result (λ table. table ≡ segments_of payload.now) }
    ensures fault { MatchResult result (λ _. segments_fault_of payload.now
        ≡ None) (λ fault. segments_fault_of payload.now ≡ Some fault) }
    ensures small { IfErr result (λ fault. fault.reason ≤ 2) }
{
    let mut table = Segments::blank();
    match table.read(payload) {
        Some(fault) => Err(fault),
        None => Ok(table),
    }
}

impl Entry for Segment {
    ghost entry_at = { segment_at };

    ghost reason_of = { segment_reason };

    ghost PAYLOAD = { 192 };

    ghost ENTRIES = { 16 };

    ghost REASONS = { 2 };

    const PAYLOAD: usize = 192;

    const ENTRIES: u32 = 16;

    const REASONS: u8 = 2;

    const BLANK: Segment = Segment::BLANK;

    fn read(payload: &[u8], place: u32) -> Segment {
        let from = 12 * place as usize;
        Segment {
            state: be16(payload, from),
            start: be32(payload, from + 4),
            len: be32(payload, from + 8),
        }
    }

    #[tactic(auto, unfolding(crate::specs::Tables::segment_reason))]
    fn reason(&self) -> Option<u8> {
        if self.state > 2 {
            return Some(1);
        }
        if self.state != 0 && self.len == 0 {
            return Some(2);
        }
        None
    }
}
