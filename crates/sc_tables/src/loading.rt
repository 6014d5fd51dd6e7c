//! The reading of sequences from their payloads.
ghost use Rattle.std.specs.Prelude.{◌≡◌, ◌≤◌, ◌+◌, length, take, IfOk, IfErr, MatchResult, Some, None, Ok, Err};
ghost use Rattle.std.specs.List.Sorted.{IsPermutation, IsSortedBy};
ghost use Rattle.sc_tables.specs.Reasons.{reason_number};
ghost use Rattle.sc_tables.specs.Absolute.{stored_ats, ats_of, ats_fault_of};
ghost use Rattle.sc_tables.specs.Relative.{stored_rts, rts_of, rts_fault_of};
ghost use Rattle.sc_tables.specs.Places.{AreStored, AreOrdered, place_before, relatives_in, AreWhole};
ghost use Rattle.sc_tables.specs.Sequences.{timed_commands, relative_commands};

use crate::absolute::{Place, timed_reason, timed_size};
use crate::ats::{Ats, COMMANDS};
use crate::reasons::EntryReason;
use crate::relative::{relative_reason, relative_size};
use crate::rts::{COMMANDS as RELATIVE_COMMANDS, Rts};
use packet_forms::{are_zeros, be16, be32};
use table_files::EntryFault;

/// The absolute time sequence of a payload: entries of a command's number u16 (1 to 1,000), its time u32 and its packet, one after
/// another up to the end or to zero bytes alone. Its fault is the first faulty entry, counted from 1, with the first of these reasons:
/// 4 fewer than 14 bytes remain, 1 the number is 0 or over 1,000, 2 an earlier entry has it, 3 no command packet of 8 to 256 bytes
/// begins behind it, 4 the packet is longer than what remains. It takes no memory.
pub fn load_ats(payload: &[u8]) -> Result<Ats<'_>, EntryFault>
    ensures table { IfOk result (λ ats. timed_commands ats ≡ ats_of payload.now) }
    ensures fault { MatchResult result (λ _. ats_fault_of payload.now
        ≡ None) (λ fault. ats_fault_of payload.now ≡ Some fault) }
    ensures small { IfErr result (λ fault. fault.reason ≤ 4) }
{
    let mut places = [Place::BLANK; COMMANDS];
    match read_in_order(payload, &mut places) {
        Err(fault) => Err(fault),
        Ok(count) => Ok(Ats::of(payload, places, count)),
    }
}

/// Writes where the entries of a payload stand, by time and then by number, and answers how many there are.
pub(crate) fn read_in_order(
    payload: &[u8],
    places: &mut [Place; COMMANDS],
) -> Result<usize, EntryFault>
    ensures ordered { IfOk result (λ count. AreOrdered payload.now (take count places.new)) }
    ensures few { IfOk result (λ count. count ≤ 1000) }
    ensures fault { MatchResult result (λ _. ats_fault_of payload.now
        ≡ None) (λ fault. ats_fault_of payload.now ≡ Some fault) }
    ensures small { IfErr result (λ fault. fault.reason ≤ 4) }
{
    match read_places(payload, places) {
        Err(fault) => Err(fault),
        Ok(count) => {
            put_in_order(&mut places[..count]);
            Ok(count)
        }
    }
}

/// Writes where the entries of a payload stand, as they are stored, and answers how many there are.
fn read_places(payload: &[u8], places: &mut [Place]) -> Result<usize, EntryFault>
    requires { length places.old ≡ 1000 }
    ensures stored { IfOk result (λ count. AreStored payload.now (take count places.new)) }
    ensures few { IfOk result (λ count. count ≤ 1000) }
    ensures fault { IfErr result (λ fault. stored_ats payload.now ≡ Err fault) }
    ensures small { IfErr result (λ fault. fault.reason ≤ 4) }
{
    let mut used = [false; COMMANDS + 1];
    let mut count = 0;
    let mut at = 0;
    'entries: while !are_zeros(&payload[at..]) {
        let rest = &payload[at..];
        if let Some(reason) = timed_reason(rest, &used) {
            return Err(fault_behind(count, reason));
        }
        let number = be16(rest, 0);
        places[count] = Place {
            tag: be32(rest, 2),
            number,
            at: at as u32,
        };
        used[number as usize] = true;
        count += 1;
        at += timed_size(rest);
    }
    Ok(count)
}

/// Writes where the entries of a payload without a fault stand, by time and then by number, and answers how many there are.
pub(crate) fn store_in_order(payload: &[u8], places: &mut [Place; COMMANDS]) -> usize
    requires { ats_fault_of payload.now ≡ None }
    ensures ordered { AreOrdered payload.now (take result places.new) }
    ensures few { result ≤ 1000 }
{
    let count = store_places(payload, places);
    put_in_order(&mut places[..count]);
    count
}

/// Writes where the entries of a payload without a fault stand, as they are stored, and answers how many there are. It asks none of them
/// for a fault.
fn store_places(payload: &[u8], places: &mut [Place]) -> usize
    requires places { length places.old ≡ 1000 }
    requires well { ats_fault_of payload.now ≡ None }
    ensures stored { AreStored payload.now (take result places.new) }
    ensures few { result ≤ 1000 }
{
    let mut count = 0;
    let mut at = 0;
    'entries: while !are_zeros(&payload[at..]) {
        let rest = &payload[at..];
        places[count] = Place {
            tag: be32(rest, 2),
            number: be16(rest, 0),
            at: at as u32,
        };
        count += 1;
        at += timed_size(rest);
    }
    count
}

/// The fault of the entry behind so many others.
fn fault_behind(count: usize, reason: EntryReason) -> EntryFault
    requires { count ≤ 1000 }
    ensures fault { result ≡ record { entry = count + 1; reason = reason_number reason } }
    ensures small { result.reason ≤ 4 }
{
    EntryFault {
        entry: count as u32 + 1,
        reason: reason.number(),
    }
}

/// Puts places in the order of their commands.
fn put_in_order(places: &mut [Place])
    ensures moved { IsPermutation places.old places.new }
    ensures sorted { IsSortedBy place_before places.new }
{
    places.sort_unstable_by_key(|place| (place.tag, place.number));
}

/// The relative time sequence of a payload of at most 2,048 bytes: entries of the seconds u16 that pass before a command leaves and
/// its packet, one after another up to the end or to zero bytes alone. Its fault is the first faulty entry, counted from 1, with the
/// first of these reasons: 4 fewer than 10 bytes remain, 3 no command packet of 8 to 256 bytes begins behind the seconds, 4 the
/// packet is longer than what remains. It takes no memory.
pub fn load_rts(payload: &[u8]) -> Result<Rts<'_>, EntryFault>
    requires { length payload.now ≤ 2048 }
    ensures table { IfOk result (λ rts. relative_commands rts ≡ rts_of payload.now) }
    ensures fault { MatchResult result (λ _. rts_fault_of payload.now
        ≡ None) (λ fault. rts_fault_of payload.now ≡ Some fault) }
    ensures small { IfErr result (λ fault. fault.reason ≤ 4) }
{
    let mut places = [0; RELATIVE_COMMANDS];
    match read_relative_places(payload, &mut places) {
        Err(fault) => Err(fault),
        Ok(count) => Ok(Rts::of(payload, places, count)),
    }
}

/// Writes where the entries of a payload stand, and answers how many there are.
pub(crate) fn read_relative_places(payload: &[u8], places: &mut [u16]) -> Result<usize, EntryFault>
    requires payload { length payload.now ≤ 2048 }
    requires places { length places.old ≡ 204 }
    ensures stored { IfOk result (λ count. stored_rts payload.now
        ≡ Ok (relatives_in payload.now (take count places.new))) }
    ensures whole { IfOk result (λ count. AreWhole payload.now (take count places.new)) }
    ensures few { IfOk result (λ count. count ≤ 204) }
    ensures fault { IfErr result (λ fault. stored_rts payload.now ≡ Err fault) }
    ensures small { IfErr result (λ fault. fault.reason ≤ 4) }
{
    let mut count = 0;
    let mut at = 0;
    'entries: while !are_zeros(&payload[at..]) {
        let rest = &payload[at..];
        if let Some(reason) = relative_reason(rest) {
            return Err(fault_behind(count, reason));
        }
        places[count] = at as u16;
        count += 1;
        at += relative_size(rest);
    }
    Ok(count)
}

/// Writes where the entries of a payload without a fault stand, and answers how many there are. It asks none of them for a fault.
pub(crate) fn store_relative_places(payload: &[u8], places: &mut [u16]) -> usize
    requires payload { length payload.now ≤ 2048 }
    requires places { length places.old ≡ 204 }
    requires well { rts_fault_of payload.now ≡ None }
    ensures stored { stored_rts payload.now
        ≡ Ok (relatives_in payload.now (take result places.new)) }
    ensures whole { AreWhole payload.now (take result places.new) }
    ensures few { result ≤ 204 }
{
    let mut count = 0;
    let mut at = 0;
    'entries: while !are_zeros(&payload[at..]) {
        let rest = &payload[at..];
        places[count] = at as u16;
        count += 1;
        at += relative_size(rest);
    }
    count
}
