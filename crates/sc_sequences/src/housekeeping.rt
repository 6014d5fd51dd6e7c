//! The housekeeping packet.
ghost use Rattle.std.specs.Prelude.{◌≡◌, ◌≤◌, ◌+◌, ◌++◌, true, List, length};
ghost use Rattle.bus_pipes.specs.Counted.{is_item_counted};
ghost use Rattle.bus_pipes.specs.declared.names.Out.TheVariants as outs;
ghost use Rattle.sc_tables.specs.Commands.{TimedCommand};
ghost use Rattle.sc_sequences.specs.Sequences.{Sequence, running_ats};
ghost use Rattle.sc_sequences.specs.Turns.{Sequences};
ghost use Rattle.sc_sequences.specs.Housekeeping.{shown_ats, left_in, running_mask, enabled_mask, report_of, numbers_bytes, be64_bytes, housekeeping_of};
ghost use Rattle.sc_sequences.specs.State.{CursorsStand, DutyStands};

use crate::cursors::Cursors;
use crate::duty::Duty;
use crate::places::running_ats;
use bus_pipes::Counts;
use histories::bits_of;
use packet_forms::message_ids::SC_HOUSEKEEPING;
use packet_forms::{ByteList, Packet, telemetry};
use sc_tables::ScTables;

/// How many relative sequences there are.
const RELATIVE: usize = 64;

/// The payload: both counts, a number and a zero, four numbers of two bytes, and two masks of eight.
type Payload = ByteList<28>;

/// What housekeeping shows of the sequences.
#[derive(Clone, Copy, Debug, PartialEq, Eq)]
pub(crate) struct Report {
    /// The absolute sequence that runs, 0 where none does.
    pub(crate) ats: u8,
    /// How many of its commands are left.
    pub(crate) left: u16,
    /// The commands sent, modulo 65,536.
    pub(crate) sent: u16,
    /// The commands that had a wrong checksum, modulo 65,536.
    pub(crate) wrong: u16,
    pub(crate) masks: Masks,
}

/// Masks of the relative sequences: bit n - 1 is sequence n.
#[derive(Clone, Copy, Debug, PartialEq, Eq)]
pub(crate) struct Masks {
    /// Those that run.
    pub(crate) running: u64,
    /// Those that are enabled.
    pub(crate) enabled: u64,
}

/// The report on where all sequences stand.
#[tactic(auto, unfolding(crate::specs::Housekeeping::report_of))]
pub(crate) fn report_on(duty: &Duty, tables: &ScTables<'_>) -> Report
    ensures { (s : Sequences) → DutyStands tables.now s duty.now → result ≡ report_of s }
{
    Report {
        ats: shown_ats(&duty.cursors),
        left: left_in(&duty.cursors, tables),
        sent: duty.sent,
        wrong: duty.wrong,
        masks: masks_of(&duty.cursors),
    }
}

/// The number of the absolute sequence that runs, 0 where none does.
fn shown_ats(cursors: &Cursors) -> u8
    ensures { (tables : List (List TimedCommand)) (all : List Sequence)
        → CursorsStand tables all cursors.now → result ≡ shown_ats (running_ats all) }
{
    match running_ats(cursors) {
        None => 0,
        Some(place) => place as u8 + 1,
    }
}

/// How many of its commands are left.
fn left_in(cursors: &Cursors, tables: &ScTables<'_>) -> u16
    ensures { (all : List Sequence) → CursorsStand tables.now all cursors.now
        → result ≡ left_in all (running_ats all) }
{
    match running_ats(cursors) {
        None => 0,
        Some(place) => tables.len(place).saturating_sub(cursors.get(place).at) as u16,
    }
}

/// The relative sequences that run, and those that are enabled.
fn masks_of(cursors: &Cursors) -> Masks
    ensures running { (tables : List (List TimedCommand)) (all : List Sequence)
        → CursorsStand tables all cursors.now → result.running ≡ running_mask all }
    ensures enabled { (tables : List (List TimedCommand)) (all : List Sequence)
        → CursorsStand tables all cursors.now → result.enabled ≡ enabled_mask all }
{
    let mut running = [false; RELATIVE];
    let mut enabled = [false; RELATIVE];
    for k in 0..RELATIVE {
        let cursor = cursors.get(k + 2);
        running[k] = cursor.next.is_some();
        enabled[k] = cursor.enabled;
    }
    Masks {
        running: bits_of(&running),
        enabled: bits_of(&enabled),
    }
}

/// The packet with both counts and a report.
#[tactic(auto, unfolding(crate::specs::Housekeeping::housekeeping_of, packet_forms::specs::Numbers::be16_bytes, bus_pipes::specs::Counted::is_counted))]
pub(crate) fn housekeeping(counts: Counts, report: &Report, now: u32) -> Packet
    ensures packet { result ≡ housekeeping_of now counts report.now }
    ensures counted { is_item_counted (outs.Made result) ≡ true }
{
    let mut payload = Payload::new();
    payload.append(&[counts.accepted, counts.errors, report.ats, 0]);
    append_numbers(&mut payload, report);
    append_wide(&mut payload, report.masks.running);
    append_wide(&mut payload, report.masks.enabled);
    telemetry(SC_HOUSEKEEPING, now, payload.bytes())
}

/// Puts the commands that are left, those sent, those with a wrong checksum and 0 behind the bytes.
#[tactic(auto, unfolding(packet_forms::specs::Numbers::be16_bytes))]
fn append_numbers(payload: &mut Payload, report: &Report)
    requires { length payload.old ≡ 4 }
    ensures bytes { payload.new ≡ payload.old
        ++ numbers_bytes report.now.left report.now.sent report.now.wrong }
    ensures size { length payload.new ≡ 12 }
{
    let [a, b] = report.left.to_be_bytes();
    let [c, d] = report.sent.to_be_bytes();
    let [e, f] = report.wrong.to_be_bytes();
    payload.append(&[a, b, c, d, e, f, 0, 0]);
}

/// Puts the eight bytes of a number behind the others.
#[tactic(auto, unfolding(crate::specs::Housekeeping::be64_bytes, packet_forms::specs::Numbers::be32_bytes))]
fn append_wide(payload: &mut Payload, number: u64)
    requires { length payload.old ≤ 20 }
    ensures bytes { payload.new ≡ payload.old ++ be64_bytes number }
    ensures size { length payload.new ≡ length payload.old + 8 }
{
    payload.append(&((number / 4294967296) as u32).to_be_bytes());
    payload.append(&((number % 4294967296) as u32).to_be_bytes());
}
