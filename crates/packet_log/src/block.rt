//! A block in which bytes wait until a sink takes them.

ghost use Rattle.std.specs.Prelude.{◌≡◌, ◌<◌, ◌≤◌, ◌+◌, ◌-◌, ◌++◌, ℕ, List, [], ◌∷◌, length, IfOk, OnOk, OnErr, MatchResult};
ghost use Rattle.fsw_outside.specs.Told.{WhereTold};
ghost use Rattle.fsw_outside.specs.Causes.{HasCause};
ghost use Rattle.packet_log.specs.Blocks.{Notes, Puts, empty_block, late_in, tells};

use crate::writing::put_part;
use fsw_outside::{Failed, NoMemory, Sink};
use packet_forms::behind;
use std::alloc::Global;
use std::marker::Model;

/// How many bytes wait at most.
pub const BLOCK_BYTES: usize = 65_536;

/// How many ends of frames a block has at most.
pub const BLOCK_ENDS: usize = 1_024;

/// A block stands beside the sink that takes its bytes. What the sink holds and what waits, together, are all bytes that
/// were written; a failed call takes none of them back, and none is handed on twice.
#[derive(Drop)]
pub struct Block {
    bytes: Vec<u8>,
    from: usize,
    ends: Vec<usize>,
}

impl Model for Block {
    ghost use Rattle.std.specs.Prelude.{drop, vec_len, vec_capacity};
    ghost use Rattle.packet_log.specs.Blocks.{Waiting};
    ghost use Rattle.packet_log.specs.Standing.{IsRoomy};

    ghost Value = { Waiting };

    ghost view = { λ a. record {
      bytes = drop a.from a.bytes.items;
      taken = a.from;
      ends = a.ends.items;
    } };

    ghost invariant = { λ a. IsRoomy (vec_len a.bytes) (vec_capacity a.bytes) a.from
        (vec_len a.ends) (vec_capacity a.ends) };
}

impl Block {
    /// An empty block, whose room is reserved.
    pub fn open(alloc: Global) -> Result<Block, NoMemory>
        ensures empty { IfOk result (λ block. block ≡ empty_block) }
        ensures notes { IfOk result (λ block. Notes [] 0 block) }
    {
        let bytes = Vec::with_capacity(alloc, BLOCK_BYTES)?;
        let ends = Vec::with_capacity(alloc, BLOCK_ENDS)?;
        Ok(Block {
            bytes,
            from: 0,
            ends,
        })
    }

    /// Puts the bytes behind those that wait. Where they don't fit, what waits is handed on first, and where that fails the
    /// bytes are left out.
    pub fn write<O: Sink>(&mut self, sink: &mut O, bytes: &[u8]) -> Result<(), Failed>
        requires { length bytes.now ≤ BLOCK_BYTES }
        ensures puts { Puts result bytes.now self.old self.new (O.held sink.old) (O.held sink.new) }
        ensures left { OnErr result (0 < length self.new.bytes) }
        ensures cause { HasCause (O.held sink.new) (O.faults sink.old) (O.faults sink.new) result }
    {
        if bytes.len() <= BLOCK_BYTES - self.bytes.len() {
            self.append(bytes);
            return Ok(());
        }
        let Ok(()) = self.flush(sink) else {
            return Err(Failed);
        };
        self.append(bytes);
        Ok(())
    }

    /// Hands on all that waits. Where the sink fails, what it didn't take still waits.
    pub fn flush<O: Sink>(&mut self, sink: &mut O) -> Result<(), Failed>
        ensures told { WhereTold (tells (O.held sink.old) self.old)
            (tells (O.held sink.new) self.new) (λ before after. after ≡ before) }
        ensures notes { (ends : List ℕ) (given : ℕ) → Notes ends given self.old
            → Notes ends given self.new }
        ensures handed { OnOk result (self.new ≡ empty_block) }
        ensures left { OnErr result (0 < length self.new.bytes) }
        ensures cause { HasCause (O.held sink.new) (O.faults sink.old) (O.faults sink.new) result }
    {
        let mut taken = 0;
        match put_part(sink, behind(&self.bytes, self.from), &mut taken) {
            Ok(()) => {
                self.bytes.clear();
                self.from = 0;
                self.ends.clear();
                Ok(())
            }
            Err(_) => {
                self.from += taken;
                Err(Failed)
            }
        }
    }

    /// Notes that a frame ends behind the bytes so far. Where no more ends can be noted, what waits is handed on first, and
    /// where that fails the end isn't noted.
    pub fn mark_end<O: Sink>(&mut self, sink: &mut O) -> Result<(), Failed>
        ensures told { WhereTold (tells (O.held sink.old) self.old)
            (tells (O.held sink.new) self.new) (λ before after. after ≡ before) }
        ensures notes { (ends : List ℕ) (given : ℕ) → Notes ends given self.old
            → MatchResult result (λ _. Notes (ends ++ given
            ∷ []) given self.new) (λ _. Notes ends given self.new) }
        ensures left { OnErr result (0 < length self.new.bytes) }
        ensures cause { HasCause (O.held sink.new) (O.faults sink.old) (O.faults sink.new) result }
    {
        if self.ends.len() < BLOCK_ENDS {
            self.note();
            return Ok(());
        }
        self.flush(sink)?;
        self.note();
        Ok(())
    }

    fn append(&mut self, bytes: &[u8])
        requires { self.old.taken + length self.old.bytes + length bytes.now ≤ BLOCK_BYTES }
        ensures { self.new ≡ record self.old { bytes = self.old.bytes ++ bytes.now } }
    {
        self.bytes.extend_from_slice(bytes).unwrap();
    }

    fn note(&mut self)
        requires { length self.old.ends < BLOCK_ENDS }
        ensures { self.new ≡ record self.old {
          ends = self.old.ends
              ++ (self.old.taken + length self.old.bytes) ∷ [];
        } }
    {
        self.ends.push_reserved(self.bytes.len());
    }

    /// How many of the frames whose ends were noted have bytes that the sink didn't take.
    pub fn late_frames(&self) -> u32
        ensures value { (ends : List ℕ) (given : ℕ) → Notes ends given self.now
            → result ≡ late_in ends (given - length self.now.bytes) }
        ensures few { result ≤ BLOCK_ENDS }
    {
        late_among(&self.ends, self.from) as u32
    }
}

/// How many of these ends are behind the bytes that a sink took.
#[tactic(auto, unfolding(crate::specs::Blocks::late_in))]
fn late_among(ends: &[usize], taken: usize) -> usize
    ensures value { result ≡ late_in ends.now taken }
    ensures few { result ≤ length ends.now }
{
    ends.iter().filter(|end| **end > taken).count()
}
