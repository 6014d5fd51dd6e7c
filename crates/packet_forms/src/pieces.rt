//! Parts of slices.

ghost use Rattle.std.specs.Prelude.{◌≡◌, ◌≤◌, ◌<◌, ◌+◌, ◌-◌, ◌++◌, ◌==◌, length, take, drop, replicate};
ghost use Rattle.std.specs.List.{list_all};
ghost use Rattle.packet_forms.specs.Packets.{checksum_of};

use std::simd::prelude::*;

/// Writes the piece from place `at` on.
pub fn place(bytes: &mut [u8], at: usize, piece: &[u8])
    requires { at + length piece.now ≤ length bytes.old }
    ensures { bytes.new ≡ take at bytes.old ++ (piece.now
        ++ drop (at + length piece.now) bytes.old) }
{
    bytes[at..at + piece.len()].copy_from_slice(piece);
}

/// Writes the piece from the first place on, and zeros behind it as far as place `before`.
pub(crate) fn place_over(bytes: &mut [u8], before: usize, piece: &[u8])
    requires piece { length piece.now ≤ length bytes.old }
    requires before { before ≤ length bytes.old }
    ensures short { before ≤ length piece.now
        → bytes.new ≡ piece.now ++ drop (length piece.now) bytes.old }
    ensures long { length piece.now < before → bytes.new ≡ piece.now
        ++ (replicate (before - length piece.now) 0 ++ drop before bytes.old) }
{
    bytes[..piece.len()].copy_from_slice(piece);
    if piece.len() < before {
        bytes[piece.len()..before].fill(0);
    }
}

/// How many bytes most lists have at most that are copied from place to place.
pub(crate) const FEW: usize = 64;

/// Writes the first few bytes over those of other bytes. A copy of a slice would ask each time whether the two overlap.
#[inline(always)]
pub(crate) fn place_few(bytes: &mut [u8], others: &[u8])
    requires bytes { FEW ≤ length bytes.old }
    requires others { FEW ≤ length others.now }
    ensures { bytes.new ≡ take FEW others.now ++ drop FEW bytes.old }
{
    u8x64::from_slice(others).copy_to_slice(bytes);
}

/// Writes zeros from place `from` to before place `to`.
pub(crate) fn wipe(bytes: &mut [u8], from: usize, to: usize)
    requires order { from ≤ to }
    requires within { to ≤ length bytes.old }
    ensures { bytes.new ≡ take from bytes.old ++ (replicate (to - from) 0 ++ drop to bytes.old) }
{
    bytes[from..to].fill(0);
}

/// The bytes before place `at`, or all where there are fewer.
pub fn front(bytes: &[u8], at: usize) -> &[u8]
    ensures { result.now ≡ take at bytes.now }
{
    if at <= bytes.len() {
        &bytes[..at]
    } else {
        bytes
    }
}

/// The bytes from place `at` on, or none where there are fewer.
pub fn behind(bytes: &[u8], at: usize) -> &[u8]
    ensures { result.now ≡ drop at bytes.now }
{
    if at <= bytes.len() { &bytes[at..] } else { &[] }
}

/// Whether all bytes are zero.
pub fn are_zeros(bytes: &[u8]) -> bool
    ensures { result ≡ list_all (λ b. b == 0) bytes.now }
{
    bytes.iter().all(|byte| *byte == 0)
}

/// The exclusive or of all these bytes.
#[tactic(auto, unfolding(crate::specs::Packets::checksum_of))]
pub fn exclusive_or(bytes: &[u8]) -> u8
    ensures { result ≡ checksum_of bytes.now }
{
    bytes.iter().fold(0, |sum, byte| sum ^ *byte)
}
