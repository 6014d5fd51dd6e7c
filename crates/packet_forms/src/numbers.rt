//! Big-endian numbers in a slice of bytes.

ghost use Rattle.std.specs.Prelude.{◌≡◌, ◌≤◌, ◌+◌, length};
ghost use Rattle.packet_forms.specs.Numbers.{be16_at, be32_at};

use byteorder::{BigEndian, ByteOrder};

/// The number of the two bytes from place `at` on, the most significant first.
#[tactic(auto, unfolding(crate::specs::Numbers::be16_at))]
pub fn be16(bytes: &[u8], at: usize) -> u16
    requires { at + 2 ≤ length bytes.now }
    ensures { result ≡ be16_at bytes.now at }
{
    BigEndian::read_u16(&bytes[at..])
}

/// The number of the four bytes from place `at` on, the most significant first.
#[tactic(auto, unfolding(crate::specs::Numbers::be32_at))]
pub fn be32(bytes: &[u8], at: usize) -> u32
    requires { at + 4 ≤ length bytes.now }
    ensures { result ≡ be32_at bytes.now at }
{
    BigEndian::read_u32(&bytes[at..])
}
