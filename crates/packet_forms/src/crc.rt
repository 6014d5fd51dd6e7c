//! The check of a list of bytes, CRC-16/ARC.

ghost use Rattle.std.specs.Prelude.{◌≡◌, ◌≤◌, ◌+◌, ◌*◌, ◌/◌, ◌<◌, [], ◌∷◌, length, take};
ghost use Rattle.packet_forms.specs.Crc.{after_zeros, crc_of};

use crate::crc_rows::ROWS;
use crate::fold::{FEWEST_FOLDED, MOST_FOLDED, after_words};

/// The check of these bytes that goes on from `start`: polynomial 0xA001, each byte's lowest bit first, no final change.
pub fn crc16(start: u16, bytes: &[u8]) -> u16
    ensures { result ≡ crc_of start bytes.now }
{
    let whole = bytes.len() / MOST_FOLDED * MOST_FOLDED;
    after_few(after_pieces(start, bytes), &bytes[whole..])
}

/// The check of the bytes that come in whole pieces of 1,024.
fn after_pieces(start: u16, bytes: &[u8]) -> u16
    ensures { result ≡ crc_of start (take (length bytes.now / 1024 * 1024) bytes.now) }
{
    let mut crc = start;
    for k in 0..bytes.len() / MOST_FOLDED {
        crc = after_words(crc, &bytes[1024 * k..1024 * k + 1024]);
    }
    crc
}

/// The check of fewer than 1,024 bytes, folded where there are enough of them.
#[inline(always)]
fn after_few(start: u16, bytes: &[u8]) -> u16
    requires { length bytes.now < 1024 }
    ensures { result ≡ crc_of start bytes.now }
{
    if bytes.len() < FEWEST_FOLDED {
        after_looked_up(start, bytes)
    } else {
        after_folded(start, bytes)
    }
}

fn after_folded(start: u16, bytes: &[u8]) -> u16
    requires many { 30 ≤ length bytes.now }
    requires few { length bytes.now < 1024 }
    ensures { result ≡ crc_of start bytes.now }
{
    let whole = bytes.len() / 2 * 2;
    after_each(after_words(start, bytes), &bytes[whole..])
}

#[inline(always)]
fn after_looked_up(start: u16, bytes: &[u8]) -> u16
    ensures { result ≡ crc_of start bytes.now }
{
    let whole = bytes.len() / 8 * 8;
    after_each(after_blocks(start, bytes), &bytes[whole..])
}

/// The check of the bytes that come in whole blocks of eight, each looked up.
fn after_blocks(start: u16, bytes: &[u8]) -> u16
    ensures { result ≡ crc_of start (take (length bytes.now / 8 * 8) bytes.now) }
{
    let mut crc = start;
    for k in 0..bytes.len() / 8 {
        crc = after_eight(crc, &bytes[8 * k..8 * k + 8]);
    }
    crc
}

/// The check of all bytes, one at a time.
fn after_each(start: u16, bytes: &[u8]) -> u16
    ensures { result ≡ crc_of start bytes.now }
{
    let mut crc = start;
    for byte in bytes {
        crc = after_one(crc, *byte);
    }
    crc
}

#[inline(always)]
fn after_one(crc: u16, byte: u8) -> u16
    ensures { result ≡ crc_of crc (byte ∷ []) }
{
    let low = (crc % 256) as u8;
    entry(0, low ^ byte) ^ crc / 256
}

#[inline(always)]
fn after_eight(crc: u16, bytes: &[u8]) -> u16
    requires { length bytes.now ≡ 8 }
    ensures { result ≡ crc_of crc bytes.now }
{
    let low = (crc % 256) as u8;
    let high = (crc / 256) as u8;
    entry(7, low ^ bytes[0])
        ^ (entry(6, high ^ bytes[1])
            ^ (entry(5, bytes[2])
                ^ (entry(4, bytes[3])
                    ^ (entry(3, bytes[4])
                        ^ (entry(2, bytes[5]) ^ (entry(1, bytes[6]) ^ entry(0, bytes[7])))))))
}

/// The check that began with 0, after a byte and k zero bytes.
#[inline(always)]
pub(crate) fn entry(k: usize, byte: u8) -> u16
    requires { k < 8 }
    ensures { result ≡ after_zeros (8 * (k + 1)) byte }
{
    ROWS[k][byte as usize]
}
