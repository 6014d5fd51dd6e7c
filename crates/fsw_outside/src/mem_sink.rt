//! A sink over memory.

ghost use Rattle.std.specs.Prelude.{◌≡◌, ◌+◌, ◌-◌, ◌^◌, ◌<◌, ◌≤◌, min, [], length, is_ok, not, ◌&&◌, nat_lt, IfOk, vec_len, vec_capacity};
ghost use Rattle.fsw_outside.specs.Memory.{is_listed};

use crate::mem_shelf::is_listed_call;
use crate::traits::{Failed, NoMemory, Sink};
use std::alloc::Global;

/// A sink over memory, some calls of which fail.
#[derive(Drop)]
pub struct MemSink {
    bytes: Vec<u8>,
    room: usize,
    most: usize,
    fails: Vec<u32>,
    calls: u64,
    faults: u64,
    ghost within: { vec_len bytes ≤ room },
    ghost reserved: { room ≤ vec_capacity bytes },
    ghost some_most: { 0 < most },
}

impl MemSink {
    ghost use Rattle.fsw_outside.specs.MemSink.{held_bytes, byte_room, failing_calls, call_count, fault_count, most_bytes};

    /// An empty sink for `room` bytes. The calls of `write` with the numbers in `fails` fail, counted from 0.
    pub fn new(alloc: Global, fails: &[u32], room: u32) -> Result<MemSink, NoMemory>
        ensures bytes { IfOk result (λ sink. held_bytes sink ≡ []) }
        ensures room { IfOk result (λ sink. byte_room sink ≡ room) }
        ensures fails { IfOk result (λ sink. failing_calls sink ≡ fails.now) }
        ensures counts { IfOk result (λ sink. (call_count sink ≡ 0) × (fault_count sink ≡ 0)) }
        ensures most { IfOk result (λ sink. most_bytes sink ≡ 2 ^ 64 - 1) }
    {
        let fails = Vec::from_slice(alloc, fails)?;
        let bytes = Vec::with_capacity(alloc, room as usize)?;
        Ok(MemSink {
            bytes,
            room: room as usize,
            most: usize::MAX,
            fails,
            calls: 0,
            faults: 0,
        })
    }

    /// As `new`, but a call takes at most `most` bytes.
    pub fn short(alloc: Global, fails: &[u32], room: u32, most: u32) -> Result<MemSink, NoMemory>
        requires { 0 < most }
        ensures bytes { IfOk result (λ sink. held_bytes sink ≡ []) }
        ensures room { IfOk result (λ sink. byte_room sink ≡ room) }
        ensures fails { IfOk result (λ sink. failing_calls sink ≡ fails.now) }
        ensures counts { IfOk result (λ sink. (call_count sink ≡ 0) × (fault_count sink ≡ 0)) }
        ensures most { IfOk result (λ sink. most_bytes sink ≡ most) }
    {
        let mut sink = MemSink::new(alloc, fails, room)?;
        sink.most = most as usize;
        Ok(sink)
    }

    /// The bytes that it holds.
    pub fn bytes(&self) -> &[u8]
        ensures { result.now ≡ held_bytes self.now }
    {
        &self.bytes
    }

    /// How often it has failed.
    pub fn faults(&self) -> u64
        ensures { result ≡ fault_count self.now }
    {
        self.faults
    }
}

impl Sink for MemSink {
    ghost use Rattle.fsw_outside.specs.Told.{WhereTold};
    ghost use Rattle.fsw_outside.specs.Causes.{HasCause};
    ghost use Rattle.fsw_outside.specs.Bytes.{Writes};
    ghost use Rattle.fsw_outside.specs.Tally.{Adds};
    ghost use Rattle.fsw_outside.specs.TallyLaws.{tallied_of};
    ghost use Rattle.fsw_outside.specs.MemSink.{held_bytes, told_bytes, told_tally, byte_room, failing_calls, call_count, fault_count, most_bytes};

    ghost held = { λ sink. told_bytes sink };

    ghost tally = { λ sink. told_tally sink };

    ghost faults = { λ sink. fault_count sink };

    ghost tallied = { λ sink t tells. tallied_of (told_bytes sink) t tells };

    fn write(&mut self, piece: &[u8]) -> Result<usize, Failed>
        requires { 0 < length piece.now }
        ensures count { IfOk result (λ n. (0 < n) × (n ≤ length piece.now)) }
        ensures content { WhereTold (told_bytes self.old) (told_bytes self.new)
            (Writes result piece.now) }
        ensures tally { WhereTold (told_tally self.old) (told_tally self.new)
            (Adds result piece.now) }
        ensures cause { HasCause (told_bytes self.new) (fault_count self.old)
            (fault_count self.new) result }
        // It fails exactly where nothing fits or the call is listed, and takes as much as may be.
        ensures exact { is_ok result ≡ (nat_lt (length (held_bytes self.old)) (byte_room self.old)
            && not (is_listed (failing_calls self.old) (call_count self.old))) }
        ensures many { IfOk result (λ n. n ≡ min (most_bytes self.old)
            (min (length piece.now) (byte_room self.old - length (held_bytes self.old)))) }
        ensures room { byte_room self.new ≡ byte_room self.old }
        ensures fails { failing_calls self.new ≡ failing_calls self.old }
        ensures calls { call_count self.new ≡ min (call_count self.old + 1) (2 ^ 64 - 1) }
        ensures most { most_bytes self.new ≡ most_bytes self.old }
    {
        let fails = is_listed_call(&self.fails, self.calls);
        self.calls = self.calls.saturating_add(1);
        let count = self.most.min(piece.len().min(self.room - self.bytes.len()));
        if fails || count == 0 {
            self.faults = self.faults.saturating_add(1);
            return Err(Failed);
        }
        self.bytes.extend_from_slice(&piece[..count]).unwrap();
        Ok(count)
    }
}
