//! The check of words of two bytes, by folding.
//!
//! The check's polynomial is x + 1 times x^15 + x + 1. The power 16 of the second has the terms 240, 16 and 0, so by it alone
//! a word may be taken away where it is added to the words 14 and 15 behind it. By x + 1 the check then lacks what an odd
//! number of ones adds, and that is added at the end. Only the last 15 to 22 words are looked up.

ghost use Rattle.std.specs.Prelude.{◌≡◌, ◌<◌, ◌≤◌, ◌+◌, ◌-◌, ◌*◌, ◌/◌, ℕ, length, take, slice_index, bit_xor};
ghost use Rattle.std.specs.Simd.Lanes.{put_chunk};
ghost use Rattle.std.specs.Int.{w16, from_le_bytes};
ghost use Rattle.packet_forms.specs.Crc.{after_zeros, crc_of};
ghost use Rattle.packet_forms.specs.Folds.{word_in, folded_word, words_check, words_left, odd_bit, odd_part};
ghost use Rattle.packet_forms.specs.Packets.{checksum_of};

use crate::crc::entry;
use std::simd::prelude::*;

/// The fewest bytes that are folded.
pub(crate) const FEWEST_FOLDED: usize = 96;

/// The most bytes that are folded at once.
pub(crate) const MOST_FOLDED: usize = 1024;

/// How many sums there are: 15 before the first word, and one of each word.
const SUMS: usize = 527;

/// The check of the whole words in 30 to 1,024 bytes.
pub(crate) fn after_words(start: u16, bytes: &[u8]) -> u16
    requires many { 30 ≤ length bytes.now }
    requires few { length bytes.now ≤ 1024 }
    ensures { result ≡ crc_of start (take (length bytes.now / 2 * 2) bytes.now) }
{
    let mut sums = sums_of(start);
    let taken = fold_front(&mut sums, bytes);
    after_last(&sums, bytes) ^ odd_part(taken)
}

/// The sums before the first word. The start is added to that word alone.
#[inline(always)]
fn sums_of(start: u16) -> [u16; SUMS]
    ensures first { slice_index result 0 ≡ start }
    ensures zeros { (k : ℕ) → 1 ≤ k → slice_index result k ≡ 0 }
{
    let mut sums = [0; SUMS];
    sums[0] = start;
    sums
}

/// Takes words away, eight at a time, while more than 22 are left, and gives the exclusive or of what it took.
#[inline(always)]
fn fold_front(sums: &mut [u16; SUMS], bytes: &[u8]) -> u16
    requires many { 30 ≤ length bytes.now }
    requires few { length bytes.now ≤ 1024 }
    requires zeros { (k : ℕ) → 15 ≤ k → slice_index sums.old k ≡ 0 }
    ensures { words_left bytes.now sums.new result ((length bytes.now / 2 - 15) / 8 * 8)
        ≡ words_left bytes.now sums.old 0 0 }
{
    let mut taken = u16x8::splat(0);
    for k in 0..(bytes.len() / 2 - 15) / 8 {
        taken = fold_eight(sums, taken, bytes, 8 * k);
    }
    taken.reduce_xor()
}

/// Takes eight words away, from one on, and adds them to what was taken. Each is added to words behind all eight, so that none
/// has to wait for another.
#[inline(always)]
fn fold_eight(sums: &mut [u16; SUMS], taken: u16x8, bytes: &[u8], from: usize) -> u16x8
    requires lanes { length taken ≡ 8 }
    requires within { from + 23 ≤ length bytes.now / 2 }
    requires short { length bytes.now ≤ 1024 }
    requires zeros { (k : ℕ) → from + 15 ≤ k → slice_index sums.old k ≡ 0 }
    ensures check { words_left bytes.now sums.new (checksum_of result) (from + 8)
        ≡ words_left bytes.now sums.old (checksum_of taken) from }
    ensures zeros { (k : ℕ) → from + 23 ≤ k → slice_index sums.new k ≡ 0 }
    ensures sums { length sums.new ≡ SUMS }
    ensures lanes { length result ≡ 8 }
{
    let here = eight_at(bytes, sums, from);
    put_eight(sums, from + 15, here);
    taken ^ here
}

/// Writes eight sums from place `at` on.
#[inline(always)]
fn put_eight(sums: &mut [u16], at: usize, eight: u16x8)
    requires { at + 8 ≤ length sums.old }
    ensures { sums.new ≡ put_chunk at sums.old eight }
{
    eight.copy_to_slice(&mut sums[at..at + 8]);
}

/// Eight words from one on, and with each the sums that stand 14 and 15 before it.
#[inline(always)]
fn eight_at(bytes: &[u8], sums: &[u16; SUMS], from: usize) -> u16x8
    requires within { 2 * from + 16 ≤ length bytes.now }
    requires sums { from < 512 }
    ensures each { (k : ℕ) → k < 8 → slice_index result k
        ≡ folded_word bytes.now sums.now (from + k) }
    ensures small { (k : ℕ) → k < 8 → slice_index result k < 65536 }
    ensures lanes { length result ≡ 8 }
{
    words_at(bytes, from) ^ (sums_at(sums, from + 1) ^ sums_at(sums, from))
}

#[inline(always)]
fn sums_at(sums: &[u16], from: usize) -> u16x8
    requires { from + 8 ≤ length sums.now }
    ensures each { (k : ℕ) → k < 8 → slice_index result k ≡ slice_index sums.now (from + k) }
    ensures lanes { length result ≡ 8 }
{
    u16x8::from_slice(&sums[from..])
}

#[inline(always)]
fn words_at(bytes: &[u8], from: usize) -> u16x8
    requires { 2 * from + 16 ≤ length bytes.now }
    ensures each { (k : ℕ) → k < 8 → slice_index result k ≡ word_in bytes.now (from + k) }
    ensures lanes { length result ≡ 8 }
{
    u16x8::from_le_bytes(u8x16::from_slice(&bytes[2 * from..]))
}

/// The check of the words that are left.
#[inline(always)]
fn after_last(sums: &[u16; SUMS], bytes: &[u8]) -> u16
    requires many { 30 ≤ length bytes.now }
    requires few { length bytes.now ≤ 1024 }
    ensures { result ≡ words_check (folded_word bytes.now sums.now)
        ((length bytes.now / 2 - 15) / 8 * 8)
        (length bytes.now / 2 - (length bytes.now / 2 - 15) / 8 * 8) }
{
    let mut crc = 0;
    for i in (bytes.len() / 2 - 15) / 8 * 8..bytes.len() / 2 {
        crc = after_word(crc, word_at(bytes, sums, i));
    }
    crc
}

/// Word i, and with it the sums that stand 14 and 15 before it.
#[inline(always)]
fn word_at(bytes: &[u8], sums: &[u16; SUMS], i: usize) -> u16
    requires word { 2 * i + 2 ≤ length bytes.now }
    requires sums { i < 512 }
    ensures { result ≡ folded_word bytes.now sums.now i }
{
    le_word(&bytes[2 * i..2 * i + 2]) ^ (sums[i + 1] ^ sums[i])
}

#[inline(always)]
fn after_word(crc: u16, word: u16) -> u16
    ensures { result ≡ after_zeros 16 (bit_xor crc word) }
{
    let both = crc ^ word;
    entry(1, (both % 256) as u8) ^ entry(0, (both / 256) as u8)
}

/// What the ones of a word add to the check.
#[inline(always)]
fn odd_part(word: u16) -> u16
    ensures { result ≡ odd_part 16 word }
{
    let eight = word ^ word / 256;
    let four = eight ^ eight / 16;
    let two = four ^ four / 4;
    let one = two ^ two / 2;
    odd_bit(one % 2)
}

#[inline(always)]
#[tactic(auto, unfolding(crate::specs::Folds::odd_bit))]
fn odd_bit(bit: u16) -> u16
    ensures { result ≡ odd_bit bit }
{
    if bit == 1 { 0xC001 } else { 0 }
}

#[inline(always)]
fn le_word(bytes: &[u8]) -> u16
    requires { length bytes.now ≡ 2 }
    ensures { result ≡ from_le_bytes w16 bytes.now }
{
    u16::from_le_bytes([bytes[0], bytes[1]])
}
