//! What watchpoints make of packets.
ghost use Rattle.std.specs.Prelude.{◌≡◌, ◌≤◌, ◌+◌, ◌++◌, [], List, ℕ, length, drop, filter_map, true, false, nat_le, slice_index, if◌then◌else◌, Some, None};
ghost use Rattle.packet_forms.specs.Numbers.{be16_at, be32_at};
ghost use Rattle.lc_watch.specs.Watchpoints.{is_used};
ghost use Rattle.lc_watch.specs.Housekeeping.{code_of, codes_of};
ghost use Rattle.lc_watch.specs.Outcomes.{size_of, value_at, compares, holds, reading, reading_in, outcome_of, OutcomesStand};
ghost use Rattle.lc_watch.specs.Newest.{IsNewest};

use crate::newest::Newest;
use crate::watchpoints::{Operator, WATCHPOINTS, WatchRow};
use packet_forms::{Packet, be16, be32};

/// What a watchpoint made of the last packet of its id.
#[derive(Clone, Copy, Debug, PartialEq, Eq)]
pub(crate) enum Outcome {
    /// There was none, or the watchpoint isn't used.
    Unseen,
    /// The comparison didn't hold.
    Clear,
    /// The comparison held.
    Tripped,
    /// The value's bytes didn't all lie in the packet.
    Outside,
}

/// Takes these packets in order: of each watchpoint the last of its id counts. Answers whether an outcome isn't what it was.
pub(crate) fn take_telemetry(
    outcomes: &mut [Outcome; WATCHPOINTS],
    rows: &[WatchRow; WATCHPOINTS],
    telemetry: &[Packet],
) -> bool
    ensures outcomes { (before : List (List ℕ)) → OutcomesStand rows.now before outcomes.old
        → OutcomesStand rows.now (before ++ telemetry.now) outcomes.new }
    ensures unchanged { result ≡ false → outcomes.new ≡ outcomes.old }
{
    let mut changed = false;
    if telemetry.is_empty() {
        return changed;
    }
    let newest = Newest::of(telemetry);
    for place in 0..WATCHPOINTS {
        let next = outcome_after(&rows[place], telemetry, &newest, outcomes[place]);
        if !differs(next, outcomes[place]) {
            continue;
        }
        outcomes[place] = next;
        changed = true;
    }
    changed
}

/// Whether two outcomes aren't the same.
#[inline(always)]
fn differs(one: Outcome, other: Outcome) -> bool
    ensures { result ≡ false → one ≡ other }
{
    one != other
}

/// The outcome of a watchpoint after these packets.
#[inline(always)]
fn outcome_after(row: &WatchRow, telemetry: &[Packet], newest: &Newest, before: Outcome) -> Outcome
    requires { IsNewest telemetry.now newest.now }
    ensures { (seen : List (List ℕ)) → before ≡ outcome_of row.now seen
        → result ≡ outcome_of row.now (seen ++ telemetry.now) }
{
    if !row.is_used() {
        return before;
    }
    last_outcome(row, telemetry, newest, before)
}

/// The outcome of a watchpoint that is used after these packets. The newest packet in the slot of its id mostly has the id itself; where
/// another id shares the slot the packets are searched.
#[inline(always)]
fn last_outcome(row: &WatchRow, telemetry: &[Packet], newest: &Newest, before: Outcome) -> Outcome
    requires used { is_used row.now ≡ true }
    requires newest { IsNewest telemetry.now newest.now }
    ensures { (seen : List (List ℕ)) → before ≡ outcome_of row.now seen
        → result ≡ outcome_of row.now (seen ++ telemetry.now) }
{
    let count = newest.up_to(row.id, telemetry);
    if count == 0 {
        return before;
    }
    let packet = &telemetry[count - 1];
    if packet.mid() == row.id {
        return reading(row, packet.bytes());
    }
    searched_outcome(row, telemetry, count, before)
}

/// The outcome of a watchpoint that is used after these packets, where only the first `count` of them can have its id. They are looked at
/// from the last one back, until one has it.
#[inline(never)]
fn searched_outcome(row: &WatchRow, telemetry: &[Packet], count: usize, before: Outcome) -> Outcome
    requires used { is_used row.now ≡ true }
    requires within { count ≤ length telemetry.now }
    requires others { filter_map (reading_in row.now) (drop count telemetry.now) ≡ [] }
    ensures { (seen : List (List ℕ)) → before ≡ outcome_of row.now seen
        → result ≡ outcome_of row.now (seen ++ telemetry.now) }
{
    for back in 0..count {
        let packet = &telemetry[count - 1 - back];
        if packet.mid() == row.id {
            return reading(row, packet.bytes());
        }
    }
    before
}

/// The outcome of a watchpoint on a packet of its id.
#[inline(always)]
#[tactic(auto, unfolding(crate::specs::Outcomes::reading))]
fn reading(row: &WatchRow, bytes: &[u8]) -> Outcome
    ensures { result ≡ reading row.now bytes.now }
{
    let Some(value) = value_in(row.kind, bytes, row.offset) else {
        return Outcome::Outside;
    };
    let compared = value & row.mask;
    if holds(row.operator, compared, row.limit) {
        Outcome::Tripped
    } else {
        Outcome::Clear
    }
}

/// The number that the bytes of a value are; none where they don't all lie in the packet.
#[inline(always)]
fn value_in(kind: u16, bytes: &[u8], at: u16) -> Option<u32>
    ensures { result ≡ (if nat_le (at + size_of kind) (length bytes.now)
        then Some (value_at kind bytes.now at) else None) }
{
    if kind == 1 {
        return byte_in(bytes, at);
    }
    if kind == 2 {
        return half_in(bytes, at);
    }
    word_in(bytes, at)
}

/// The byte in a place of a packet.
#[inline(always)]
fn byte_in(bytes: &[u8], at: u16) -> Option<u32>
    ensures { result ≡ (if nat_le (at + 1) (length bytes.now) then Some (slice_index bytes.now at)
        else None) }
{
    let from = at as usize;
    if from + 1 > bytes.len() {
        return None;
    }
    Some(u32::from(bytes[from]))
}

/// The number of two bytes from a place of a packet on.
#[inline(always)]
fn half_in(bytes: &[u8], at: u16) -> Option<u32>
    ensures { result ≡ (if nat_le (at + 2) (length bytes.now) then Some (be16_at bytes.now at)
        else None) }
{
    let from = at as usize;
    if from + 2 > bytes.len() {
        return None;
    }
    Some(u32::from(be16(bytes, from)))
}

/// The number of four bytes from a place of a packet on.
#[inline(always)]
fn word_in(bytes: &[u8], at: u16) -> Option<u32>
    ensures { result ≡ (if nat_le (at + 4) (length bytes.now) then Some (be32_at bytes.now at)
        else None) }
{
    let from = at as usize;
    if from + 4 > bytes.len() {
        return None;
    }
    Some(be32(bytes, from))
}

/// Whether a value stands in this relation to a limit.
fn holds(operator: Option<Operator>, value: u32, limit: u32) -> bool
    ensures { result ≡ holds operator value limit }
{
    match operator {
        None => false,
        Some(operator) => compares(operator, value, limit),
    }
}

fn compares(operator: Operator, value: u32, limit: u32) -> bool
    ensures { result ≡ compares operator value limit }
{
    match operator {
        Operator::Less => value < limit,
        Operator::LessOrEqual => value <= limit,
        Operator::NotEqual => value != limit,
        Operator::Equal => value == limit,
        Operator::GreaterOrEqual => value >= limit,
        Operator::Greater => value > limit,
    }
}

/// Outcomes as one number, two bits each, the first lowest.
pub(crate) fn codes_of(outcomes: &[Outcome; WATCHPOINTS]) -> u64
    ensures { result ≡ codes_of outcomes.now }
{
    let mut codes = 0;
    for done in 0..WATCHPOINTS {
        codes = 4 * codes + code_of(outcomes[WATCHPOINTS - 1 - done]);
    }
    codes
}

/// The two bits of an outcome.
fn code_of(outcome: Outcome) -> u64
    ensures code { result ≡ code_of outcome }
    ensures small { result ≤ 3 }
{
    match outcome {
        Outcome::Unseen => 0,
        Outcome::Clear => 1,
        Outcome::Tripped => 2,
        Outcome::Outside => 3,
    }
}
