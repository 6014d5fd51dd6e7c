//! Bounded lists of bytes, which lie in the value itself.

ghost use Rattle.std.specs.Prelude.{◌≡◌, ◌≤◌, ◌+◌, [], ◌++◌, length, take, drop};
ghost use Rattle.packet_forms.specs.Packets.{checksum_of};

use crate::pieces::{FEW, exclusive_or, place, place_few, place_over, wipe};
use std::marker::Model;

/// A list of at most `N` bytes.
#[derive(Clone, Copy, Debug, PartialEq, Eq)]
pub struct ByteList<const N: usize> {
    len: usize,
    // Zeros stand behind the bytes.
    places: [u8; N],
}

impl<const N: usize> Model for ByteList<N> {
    ghost use Rattle.std.specs.Prelude.{◌≡◌, ◌≤◌, ◌-◌, ◌++◌, List, ℕ, length, take, replicate};

    ghost Value = { List ℕ };

    ghost view = { λ a. take a.len a.places };

    ghost invariant = { λ a. (a.len ≤ N) × (length a.places ≡ N)
        × (a.places ≡ take a.len a.places ++ replicate (N - a.len) 0) };

    ghost inverse = { λ xs. record {
      len = length xs;
      places = xs
          ++ replicate (N - length xs) 0;
    } };
}

impl<const N: usize> ByteList<N> {
    /// No bytes.
    pub fn new() -> Self
        ensures { result ≡ [] }
    {
        ByteList {
            len: 0,
            places: [0; N],
        }
    }

    /// A copy of these bytes.
    pub fn copy_of(bytes: &[u8]) -> Self
        requires { length bytes.now ≤ N }
        ensures { result ≡ bytes.now }
    {
        let mut list = Self::new();
        list.append(bytes);
        list
    }

    /// Puts the piece behind the bytes so far.
    pub fn append(&mut self, piece: &[u8])
        requires { length self.old + length piece.now ≤ N }
        ensures { self.new ≡ self.old ++ piece.now }
    {
        place(&mut self.places, self.len, piece);
        self.len += piece.len();
    }

    /// Becomes a copy of these bytes. Zeros are written over the bytes so far alone, since behind them there are some.
    pub fn set(&mut self, bytes: &[u8])
        requires { length bytes.now ≤ N }
        ensures { self.new ≡ bytes.now }
    {
        place_over(&mut self.places, self.len, bytes);
        self.len = bytes.len();
    }

    /// Becomes a list of so many bytes: those so far, and zeros behind them.
    pub(crate) fn resize(&mut self, len: usize)
        requires { len ≤ N }
        ensures { length self.new ≡ len }
    {
        if len < self.len {
            wipe(&mut self.places, len, self.len);
        }
        self.len = len;
    }

    /// Writes the piece over the bytes from place `at` on. Those before it stay as they are.
    pub(crate) fn put(&mut self, at: usize, piece: &[u8])
        requires { at + length piece.now ≤ length self.old }
        ensures front { take (at + length piece.now) self.new ≡ take at self.old ++ piece.now }
        ensures size { length self.new ≡ length self.old }
    {
        self.overwrite(at, piece);
    }

    /// Becomes a copy of another list. Where both have few bytes no more than those places are copied, since zeros stand behind.
    #[inline(always)]
    pub fn copy_from(&mut self, other: &Self)
        ensures { self.new ≡ other.now }
    {
        if N < FEW || self.len > FEW || other.len > FEW {
            *self = *other;
            return;
        }
        place_few(&mut self.places, &other.places);
        self.len = other.len;
    }

    /// The exclusive or of the bytes. The zeros behind them are taken in too, so that all can be taken many at once.
    pub fn exclusive_or(&self) -> u8
        ensures { result ≡ checksum_of self.now }
    {
        exclusive_or(&self.places)
    }

    /// Writes the piece over the bytes from place `at` on.
    pub fn overwrite(&mut self, at: usize, piece: &[u8])
        requires { at + length piece.now ≤ length self.old }
        ensures { self.new ≡ take at self.old
            ++ (piece.now ++ drop (at + length piece.now) self.old) }
    {
        place(&mut self.places, at, piece);
    }

    /// The bytes.
    pub fn bytes(&self) -> &[u8]
        ensures value { result.now ≡ self.now }
        ensures few { length self.now ≤ N }
    {
        &self.places[..self.len]
    }

    /// How many bytes there are.
    pub fn len(&self) -> usize
        ensures value { result ≡ length self.now }
        ensures few { result ≤ N }
    {
        self.len
    }
}
