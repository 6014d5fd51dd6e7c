//! Masks.
ghost use Rattle.std.specs.Prelude.{◌≡◌, ◌<◌, ◌≤◌, ◌^◌, length, if◌then◌else◌};
ghost use Rattle.histories.specs.Masks.{bits_of};

/// The number whose bits are these, the lowest first.
pub fn bits_of(bits: &[bool]) -> u64
    requires { length bits.now ≤ 64 }
    ensures bits { result ≡ bits_of bits.now }
    ensures small { result < 2 ^ length bits.now }
{
    let mut mask = 0;
    for done in 0..bits.len() {
        mask = 2 * mask + bit_of(bits[bits.len() - 1 - done]);
    }
    mask
}

fn bit_of(bit: bool) -> u64
    ensures bit { result ≡ (if bit then 1 else 0) }
    ensures small { result ≤ 1 }
{
    if bit { 1 } else { 0 }
}
