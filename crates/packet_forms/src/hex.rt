//! Hexadecimal digits of bytes.

ghost use Rattle.std.specs.Prelude.{◌≡◌, ◌≤◌, ◌+◌, ◌*◌, ◌/◌, ◌<◌, ◌++◌, length, take, drop};
ghost use Rattle.std.specs.List.{All};
ghost use Rattle.packet_forms.specs.Hex.{halves, hex_digits, hex_pair, hex};

use crate::hex_pairs::PAIRS;
use crate::pieces::place;
use std::simd::prelude::*;

/// The digits in order.
const DIGITS: [u8; 16] = [
    b'0', b'1', b'2', b'3', b'4', b'5', b'6', b'7', b'8', b'9', b'A', b'B', b'C', b'D', b'E', b'F',
];

/// Writes the hexadecimal digits of the bytes from place `at` on, in upper case.
pub fn place_hex(places: &mut [u8], at: usize, bytes: &[u8])
    requires { at + 2 * length bytes.now ≤ length places.old }
    ensures { places.new ≡ take at places.old
        ++ (hex bytes.now ++ drop (at + 2 * length bytes.now) places.old) }
{
    let whole = bytes.len() / 8 * 8;
    place_eights(places, at, &bytes[..whole]);
    place_few(places, at + 2 * whole, &bytes[whole..]);
}

/// Writes the digits of bytes whose number is a multiple of eight.
fn place_eights(places: &mut [u8], at: usize, bytes: &[u8])
    requires eights { length bytes.now / 8 * 8 ≡ length bytes.now }
    requires room { at + 2 * length bytes.now ≤ length places.old }
    ensures value { places.new ≡ take at places.old
        ++ (hex bytes.now ++ drop (at + 2 * length bytes.now) places.old) }
    ensures size { length places.new ≡ length places.old }
{
    for k in 0..bytes.len() / 8 {
        place_lanes(
            places,
            at + 16 * k,
            digits_of_eight(&bytes[8 * k..8 * k + 8]),
        );
    }
}

/// Writes sixteen digits from place `at` on.
#[inline(always)]
fn place_lanes(places: &mut [u8], at: usize, digits: u8x16)
    requires lanes { length digits ≡ 16 }
    requires room { at + 16 ≤ length places.old }
    ensures { places.new ≡ take at places.old ++ (digits ++ drop (at + 16) places.old) }
{
    digits.copy_to_slice(&mut places[at..]);
}

/// The hexadecimal digits of eight bytes.
#[inline(always)]
fn digits_of_eight(bytes: &[u8]) -> u8x16
    requires { length bytes.now ≡ 8 }
    ensures digits { result ≡ hex bytes.now }
    ensures lanes { length result ≡ 16 }
{
    digits_of_lanes(halves_of(u8x8::from_slice(bytes)))
}

/// The halves of eight bytes, the higher one of each first.
#[inline(always)]
fn halves_of(bytes: u8x8) -> u8x16
    requires { length bytes ≡ 8 }
    ensures { result ≡ halves bytes }
{
    let high = bytes >> u8x8::splat(4);
    let low = bytes & u8x8::splat(15);
    high.shuffle(low, [0, 8, 1, 9, 2, 10, 3, 11, 4, 12, 5, 13, 6, 14, 7, 15])
}

#[inline(always)]
fn digits_of_lanes(halves: u8x16) -> u8x16
    requires lanes { length halves ≡ 16 }
    requires small { All (λ half. half < 16) halves }
    ensures { result ≡ hex_digits halves }
{
    u8x16::from_array(DIGITS).swizzle_dyn(halves)
}

/// Writes the digits of a few bytes: of four in a turn, and then of the rest.
fn place_few(places: &mut [u8], at: usize, bytes: &[u8])
    requires { at + 2 * length bytes.now ≤ length places.old }
    ensures { places.new ≡ take at places.old
        ++ (hex bytes.now ++ drop (at + 2 * length bytes.now) places.old) }
{
    let whole = bytes.len() / 4 * 4;
    place_fours(places, at, &bytes[..whole]);
    place_each(places, at + 2 * whole, &bytes[whole..]);
}

/// Writes the digits of bytes whose number is a multiple of four.
fn place_fours(places: &mut [u8], at: usize, bytes: &[u8])
    requires fours { length bytes.now / 4 * 4 ≡ length bytes.now }
    requires room { at + 2 * length bytes.now ≤ length places.old }
    ensures value { places.new ≡ take at places.old
        ++ (hex bytes.now ++ drop (at + 2 * length bytes.now) places.old) }
    ensures size { length places.new ≡ length places.old }
{
    for k in 0..bytes.len() / 4 {
        place_four(places, at + 8 * k, &bytes[4 * k..4 * k + 4]);
    }
}

/// Writes the digits of four bytes.
#[inline(always)]
fn place_four(places: &mut [u8], at: usize, bytes: &[u8])
    requires four { length bytes.now ≡ 4 }
    requires room { at + 8 ≤ length places.old }
    ensures { places.new ≡ take at places.old ++ (hex bytes.now ++ drop (at + 8) places.old) }
{
    place_pair(places, at, digits_of(bytes[0]));
    place_pair(places, at + 2, digits_of(bytes[1]));
    place_pair(places, at + 4, digits_of(bytes[2]));
    place_pair(places, at + 6, digits_of(bytes[3]));
}

/// Writes two digits from place `at` on. A copy of a slice would ask each time whether the two overlap.
#[inline(always)]
fn place_pair(places: &mut [u8], at: usize, pair: [u8; 2])
    requires two { length pair ≡ 2 }
    requires room { at + 2 ≤ length places.old }
    ensures { places.new ≡ take at places.old ++ (pair ++ drop (at + length pair) places.old) }
{
    places[at] = pair[0];
    places[at + 1] = pair[1];
}

/// Writes the digits of bytes one at a time.
fn place_each(places: &mut [u8], at: usize, bytes: &[u8])
    requires { at + 2 * length bytes.now ≤ length places.old }
    ensures { places.new ≡ take at places.old
        ++ (hex bytes.now ++ drop (at + 2 * length bytes.now) places.old) }
{
    for i in 0..bytes.len() {
        place(places, at + 2 * i, &digits_of(bytes[i]));
    }
}

/// The two hexadecimal digits of a byte, in upper case.
#[inline(always)]
fn digits_of(byte: u8) -> [u8; 2]
    ensures { result ≡ hex_pair byte }
{
    PAIRS[byte as usize]
}
