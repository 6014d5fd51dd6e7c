//! Sixteen hexadecimal digits at once.
ghost use Rattle.std.specs.Prelude.{◌≡◌, ◌≤◌, ◌<◌, ◌+◌, ◌-◌, ◌*◌, ◌++◌, map, min, Some, None, if◌then◌else◌, length, take, drop, nat_lt};
ghost use Rattle.std.specs.List.{All, list_all};
ghost use Rattle.std.specs.Simd.Lanes.{zip2};
ghost use Rattle.scenario.specs.Words.{hex};
ghost use Rattle.scenario.specs.DigitPairs.{lane_value, joined_pairs};

use packet_forms::PACKET_BYTES;
use std::simd::prelude::*;

/// How many digits are read at once.
pub(crate) const LANES: usize = 16;

/// How many bytes they write.
pub(crate) const HALF_LANES: usize = 8;

/// Writes the bytes that the sixteen digits from the pair at place `at` on write to the same place, and answers whether all are
/// digits. The places before it stay as they are.
#[inline(always)]
pub(crate) fn place_pairs(word: &[u8], at: usize, places: &mut [u8; PACKET_BYTES]) -> bool
    requires digits { 2 * at + LANES ≤ length word.now }
    requires room { at + HALF_LANES ≤ PACKET_BYTES }
    ensures read { hex (take LANES (drop (2 * at) word.now))
        ≡ (if result then Some (take HALF_LANES (drop at places.new)) else None) }
    ensures kept { take at places.new ≡ take at places.old }
{
    let values = values_of(u8x16::from_slice(&word[2 * at..]));
    if !are_values(values) {
        return false;
    }
    place_lanes(places, at, joined_pairs(values));
    true
}

/// Writes eight bytes from place `at` on.
#[inline(always)]
fn place_lanes(places: &mut [u8], at: usize, bytes: u8x8)
    requires lanes { length bytes ≡ HALF_LANES }
    requires room { at + HALF_LANES ≤ length places.old }
    ensures { places.new ≡ take at places.old ++ (bytes ++ drop (at + HALF_LANES) places.old) }
{
    bytes.copy_to_slice(&mut places[at..]);
}

/// The value of each digit, and 16 or more where a byte is no digit.
#[inline(always)]
fn values_of(digits: u8x16) -> u8x16
    ensures value { result ≡ map lane_value digits }
    ensures lanes { length result ≡ LANES }
{
    let decimal = less(digits + u8x16::splat(0xFF - b'9'), u8x16::splat(6)) + u8x16::splat(16);
    let letter = (digits & u8x16::splat(0xDF)) - u8x16::splat(b'A');
    smaller(decimal, capped_sum(letter, u8x16::splat(10)))
}

#[inline(always)]
fn less(a: u8x16, b: u8x16) -> u8x16
    ensures { result ≡ zip2 (λ x y. x - y) a b }
{
    a.saturating_sub(b)
}

#[inline(always)]
fn capped_sum(a: u8x16, b: u8x16) -> u8x16
    ensures { result ≡ zip2 (λ x y. min (x + y) 255) a b }
{
    a.saturating_add(b)
}

#[inline(always)]
fn smaller(a: u8x16, b: u8x16) -> u8x16
    ensures { result ≡ zip2 min a b }
{
    a.simd_min(b)
}

/// Whether all are values of digits.
#[inline(always)]
fn are_values(values: u8x16) -> bool
    ensures { result ≡ list_all (λ value. nat_lt value 16) values }
{
    (values & u8x16::splat(0xF0))
        .simd_ne(u8x16::splat(0))
        .to_bitmask()
        == 0
}

/// The bytes that the values of digits write, two each.
#[inline(always)]
fn joined_pairs(values: u8x16) -> u8x8
    requires { All (λ value. value < 16) values }
    ensures value { result ≡ joined_pairs values }
    ensures lanes { length result ≡ HALF_LANES }
{
    let high: u8x8 = values.swizzle([0, 2, 4, 6, 8, 10, 12, 14]);
    let low: u8x8 = values.swizzle([1, 3, 5, 7, 9, 11, 13, 15]);
    high * u8x8::splat(16) + low
}
