//! The count of LFs in a list of bytes, of 32 bytes at once.

ghost use Rattle.std.specs.Prelude.{◌≡◌, ◌≤◌, ◌*◌, ◌/◌, length, take};
ghost use Rattle.fsw_outside.specs.Tally.{line_ends};

use std::simd::prelude::*;

/// How many LFs there are.
pub(crate) fn lines_in(bytes: &[u8]) -> usize
    ensures { result ≡ line_ends bytes.now }
{
    let whole = bytes.len() / 32 * 32;
    lines_in_blocks(bytes) + lines_in_few(&bytes[whole..])
}

/// How many LFs there are in the blocks of 32 bytes.
fn lines_in_blocks(bytes: &[u8]) -> usize
    ensures value { result ≡ line_ends (take (length bytes.now / 32 * 32) bytes.now) }
    ensures few { result ≤ length bytes.now / 32 * 32 }
{
    let mut count = 0;
    for k in 0..bytes.len() / 32 {
        count += lines_in_block(&bytes[32 * k..32 * k + 32]);
    }
    count
}

/// How many LFs there are in a block.
#[inline(always)]
fn lines_in_block(block: &[u8]) -> usize
    requires { length block.now ≡ 32 }
    ensures value { result ≡ line_ends block.now }
    ensures few { result ≤ 32 }
{
    let are_ends = u8x32::from_slice(block).simd_eq(u8x32::splat(b'\n'));
    are_ends.to_bitmask().count_ones() as usize
}

/// How many LFs there are, one byte after another.
fn lines_in_few(bytes: &[u8]) -> usize
    ensures value { result ≡ line_ends bytes.now }
    ensures few { result ≤ length bytes.now }
{
    bytes.iter().filter(|byte| **byte == b'\n').count()
}
