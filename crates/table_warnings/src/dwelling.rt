//! The list of a dwell table.
ghost use Rattle.std.specs.Prelude.{◌≡◌, ◌≤◌, ◌+◌, ◌*◌, length};
ghost use Rattle.table_warnings.specs.Dwelling.{delays_from, has_no_delay};

use packet_forms::be16;

/// The delays of the list from a place on together, where so many entries are left.
fn delays_from(payload: &[u8], place: usize, left: usize) -> u64
    requires payload { length payload.now ≡ 204 }
    requires places { place + left ≤ 25 }
    ensures value { result ≡ delays_from payload.now place left }
    ensures small { result ≤ 65535 * left }
{
    if left == 0 {
        return 0;
    }
    if be16(payload, 4 + 8 * place) == 0 {
        return 0;
    }
    u64::from(be16(payload, 6 + 8 * place)) + delays_from(payload, place + 1, left - 1)
}

/// Whether all delays of the list are 0.
#[tactic(auto, unfolding(crate::specs::Dwelling::has_no_delay))]
pub(crate) fn has_no_delay(payload: &[u8]) -> bool
    requires { length payload.now ≡ 204 }
    ensures { result ≡ has_no_delay payload.now }
{
    delays_from(payload, 0, 25) == 0
}
