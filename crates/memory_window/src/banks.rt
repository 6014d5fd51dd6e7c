//! Landing operations bank by bank, on one thread or on several.
ghost use Rattle.std.specs.Prelude.{◌≡◌, ℕ, ◌+◌, ◌*◌, ◌<◌, ◌≤◌, ◌^◌, false, length, slice_index, All};
ghost use Rattle.std.specs.List.{list_any};
ghost use Rattle.table_files.specs.Files.{loads_of};
ghost use Rattle.memory_window.specs.Regions.{ends_late, total_of};
ghost use Rattle.memory_window.specs.Operations.{op_at, op_len, IsSound, IsBacked};
ghost use Rattle.memory_window.specs.Landing.{landed};
ghost use Rattle.memory_window.specs.Memory.{cut, changed};
ghost use Rattle.memory_window.specs.Banks.{bank_size, WriteWithin};

use crate::MemOp;
use crate::landing::{Landing, bank_land};
use crate::regions::Region;
use fsw_outside::Gate;
use std::thread;
use std::thread::Threads;

/// How many bytes a bank has, but for the last one of a region.
const BANK_SIZE: usize = 65_536;

/// What the first bank of a region is called at a gate; the others follow.
const FIRST_BANK: u32 = 64;

/// Of a region, operations write nothing before `first`, and nothing from `end` on.
#[derive(Clone, Copy)]
struct Span {
    first: u64,
    end: u64,
}

impl Span {
    /// The span with what one operation more writes from one address to before another.
    fn with(self, op: &MemOp, low: u64, high: u64) -> Span
        ensures wider { (result.first ≤ self.first) × (self.end ≤ result.end) }
        ensures holds { 0 < op_len op.now → op_at op.now < high → low < op_at op.now + op_len op.now
            → (result.first ≤ op_at op.now) × (op_at op.now + op_len op.now ≤ result.end) }
    {
        if !op.writes_in(low, high) {
            return self;
        }
        let at = u64::from(op.at());
        Span {
            first: self.first.min(at),
            end: self.end.max(at + u64::from(op.len())),
        }
    }
}

/// Where operations write from one address to before another.
fn span_of(ops: &[MemOp], low: u64, high: u64) -> Span
    ensures { WriteWithin low high result.first result.end ops.now }
{
    let mut span = Span {
        first: u64::MAX,
        end: 0,
    };
    for op in ops {
        span = span.with(op, low, high);
    }
    span
}

/// The banks of a region in which operations with this span may write: from one to before another.
fn busy_banks(at: u32, len: usize, span: Span) -> (usize, usize)
    ensures order { result.0 ≤ result.1 }
    ensures inside { result.1 * bank_size < len + bank_size }
    ensures before { (k : ℕ) → k < result.0 * bank_size → at + k < span.first }
    ensures behind { (k : ℕ) → k < len → result.1 * bank_size ≤ k → span.end ≤ at + k }
{
    let banks = len.div_ceil(BANK_SIZE);
    let low = u64::from(at);
    let from = banks.min(span.first.saturating_sub(low) as usize / BANK_SIZE);
    let to = banks.min((span.end.saturating_sub(low) as usize).div_ceil(BANK_SIZE));
    (from, to.max(from))
}

/// Enters the gate for banks of a region on which nothing is to land.
fn pass_banks<G: Gate>(gate: &G, from: usize, to: usize)
    requires { to ≤ 65536 }
{
    for place in from..to {
        gate.enter(FIRST_BANK + place as u32);
    }
}

/// How many of so many banks operations write. The first bank begins at the address `at`.
fn written_banks(at: u32, banks: usize, ops: &[MemOp]) -> u32
    requires { banks ≤ 65536 }
    ensures { result ≤ banks }
{
    let mut written = 0;
    for bank in 0..banks {
        let low = u64::from(at) + (bank * BANK_SIZE) as u64;
        let high = low + BANK_SIZE as u64;
        if ops.iter().any(|op| op.writes_in(low, high)) {
            written += 1;
        }
    }
    written
}

/// Lands operations on banks that lie side by side, one after another. The first byte has the address `at`, and the first bank
/// is the one of number `place` in its region.
fn land_in_turn<G: Gate>(gate: &G, at: u32, place: u32, landing: &Landing<'_, '_>, bytes: &mut [u8])
    requires place { place * bank_size ≤ at }
    requires fits { at + length bytes.old ≤ 2 ^ 32 }
    requires sound { All IsSound landing.now.ops.now }
    requires backed { All (IsBacked (loads_of landing.now.files.now)) landing.now.ops.now }
    ensures { (k : ℕ) → k < length bytes.old → slice_index bytes.new k
        ≡ landed (loads_of landing.now.files.now) landing.now.ops.now (at
        + k) (slice_index bytes.old k) }
{
    for bank in 0..bytes.len().div_ceil(BANK_SIZE) {
        let from = bank * BANK_SIZE;
        let to = bytes.len().min(from + BANK_SIZE);
        gate.enter(FIRST_BANK + place + bank as u32);
        bank_land(
            at + from as u32,
            &mut bytes[from..to],
            landing.ops,
            landing.files,
        );
    }
}

/// Lands the banks in as many threads as there are workers, but no more than there are banks that change; each thread lands a run of
/// banks.
/// One worker, and one bank, start no thread.
fn land_beside<R: Threads + Sync, G: Gate>(
    rt: &R,
    workers: u32,
    gate: &G,
    at: u32,
    place: u32,
    landing: &Landing<'_, '_>,
    bytes: &mut [u8],
)
    requires workers { 0 < workers }
    requires place { place * bank_size ≤ at }
    requires some { 0 < length bytes.old }
    requires fits { at + length bytes.old ≤ 2 ^ 32 }
    requires sound { All IsSound landing.now.ops.now }
    requires backed { All (IsBacked (loads_of landing.now.files.now)) landing.now.ops.now }
    ensures { (k : ℕ) → k < length bytes.old → slice_index bytes.new k
        ≡ landed (loads_of landing.now.files.now) landing.now.ops.now (at
        + k) (slice_index bytes.old k) }
{
    let banks = bytes.len().div_ceil(BANK_SIZE);
    if workers == 1 || banks == 1 {
        land_in_turn(gate, at, place, landing, bytes);
        return;
    }
    let threads = workers.min(written_banks(at, banks, landing.ops)).max(1);
    let share = banks.div_ceil(threads as usize) * BANK_SIZE;
    let land = |start: usize, part: &mut [u8]|
        requires { (place * bank_size ≤ at) × (0 < length part.old)
            × (at + start + length part.old ≤ 2 ^ 32) × All IsSound landing.now.ops.now
            × All (IsBacked (loads_of landing.now.files.now)) landing.now.ops.now }
        ensures { (k : ℕ) → k < length part.old
            → slice_index part.new k ≡ landed
            (loads_of landing.entry.now.files.now) landing.entry.now.ops.now (at + start
            + k) (slice_index part.old k) }
    {
        let bank = (start / BANK_SIZE) as u32;
        land_in_turn(gate, at + start as u32, place + bank, landing, part);
    };
    thread::for_each_chunk_mut(rt, bytes, share, &land);
}

/// Lands operations on a region whose first byte has the address `at`: those banks in which they may write by the workers, each
/// other one is entered alone.
fn land_region<R: Threads + Sync, G: Gate>(
    rt: &R,
    workers: u32,
    gate: &G,
    at: u32,
    landing: &Landing<'_, '_>,
    bytes: &mut [u8],
)
    requires workers { 0 < workers }
    requires fits { at + length bytes.old ≤ 2 ^ 32 }
    requires sound { All IsSound landing.now.ops.now }
    requires backed { All (IsBacked (loads_of landing.now.files.now)) landing.now.ops.now }
    ensures { (k : ℕ) → k < length bytes.old → slice_index bytes.new k
        ≡ landed (loads_of landing.now.files.now) landing.now.ops.now (at
        + k) (slice_index bytes.old k) }
{
    let start = u64::from(at);
    let span = span_of(landing.ops, start, start + bytes.len() as u64);
    let (from, to) = busy_banks(at, bytes.len(), span);
    pass_banks(gate, 0, from);
    pass_banks(gate, to, bytes.len().div_ceil(BANK_SIZE));
    if from == to {
        return;
    }
    let low = from * BANK_SIZE;
    let high = bytes.len().min(to * BANK_SIZE);
    let busy = &mut bytes[low..high];
    land_beside(
        rt,
        workers,
        gate,
        at + low as u32,
        from as u32,
        landing,
        busy,
    );
}

/// Lands operations on each region of a block in which the regions lie side by side, bank by bank, with so many workers.
pub(crate) fn land_regions<R: Threads + Sync, G: Gate>(
    rt: &R,
    workers: u32,
    gate: &G,
    landing: &Landing<'_, '_>,
    regions: &[Region],
    block: &mut [u8],
)
    requires workers { 0 < workers }
    requires whole { total_of regions.now ≡ length block.old }
    requires within { list_any ends_late regions.now ≡ false }
    requires sound { All IsSound landing.now.ops.now }
    requires backed { All (IsBacked (loads_of landing.now.files.now)) landing.now.ops.now }
    ensures { cut regions.now block.new ≡ changed
        (landed (loads_of landing.now.files.now) landing.now.ops.now) (cut regions.now block.old) }
{
    let mut from = 0;
    for region in regions {
        let to = from + region.len as usize;
        land_region(
            rt,
            workers,
            gate,
            region.start,
            landing,
            &mut block[from..to],
        );
        from = to;
    }
}
