//! The warnings of a table.
ghost use Rattle.std.specs.Prelude.{◌≡◌, ◌<◌, ◌≤◌, ◌++◌, length, IfOk, OnOk};
ghost use Rattle.table_files.specs.Kinds.{IsTable};
ghost use Rattle.table_warnings.specs.Used.{count_of};
ghost use Rattle.table_warnings.specs.Warned.{gap_of, gap_at, gaps_in, told_gaps, unwatched_at, unwatched_in, others_in, warnings_in, absolute_in, relative_in};
ghost use Rattle.sc_tables.specs.Absolute.{ats_of};
ghost use Rattle.sc_tables.specs.Relative.{rts_of};

use crate::adding::{add_warning, warn_if};
use crate::dwelling::has_no_delay;
use crate::sequences::{warn_absolute, warn_relative};
use crate::used::{count_of, is_gap, is_used};
use crate::warning::Warning;
use crate::watched::is_watched;
use packet_forms::be16;
use sc_tables::{load_ats, load_rts};
use std::alloc::{AllocError, Global};
use table_files::TableKind;

/// The warnings of a table's payload, in the order of its entries: its unused entries, and behind them what is odd in the others. A sequence
/// that its loader refuses has none.
#[tactic(auto, unfolding(crate::specs::Warned::warnings_in))]
pub fn find_warnings(
    alloc: Global,
    kind: TableKind,
    payload: &[u8],
) -> Result<Vec<Warning>, AllocError>
    requires { IsTable kind (length payload.now) }
    ensures { IfOk result (λ warnings. warnings.items ≡ warnings_in kind payload.now) }
{
    let mut warnings = find_gaps(alloc, kind, payload)?;
    warn_others(alloc, kind, payload, &mut warnings)?;
    Ok(warnings)
}

/// Warns of what is odd in a table but for unused entries.
fn warn_others(
    alloc: Global,
    kind: TableKind,
    payload: &[u8],
    warnings: &mut Vec<Warning>,
) -> Result<(), AllocError>
    requires { IsTable kind (length payload.now) }
    ensures { OnOk result (warnings.new.items ≡ warnings.old.items ++ others_in kind payload.now) }
{
    match kind {
        TableKind::Dwell(_) => {
            let is_still = is_used(kind, payload, 0) && has_no_delay(payload);
            warn_if(is_still, Warning::NoDelay, warnings)
        }
        TableKind::Wdt => warn_unwatched(payload, warnings),
        TableKind::Ats(_) => warn_of_absolute(alloc, payload, warnings),
        TableKind::Rts(n) => warn_of_relative(alloc, n, payload, warnings),
        TableKind::AppMon
        | TableKind::EventMon
        | TableKind::ExeCount
        | TableKind::MsgActs
        | TableKind::Eeprom
        | TableKind::Memory
        | TableKind::Adt => Ok(()),
    }
}

/// The warning of an unused entry between used ones: those behind the first of length 0 are never read in a dwell table.
fn gap_of(kind: TableKind, entry: u32) -> Warning
    ensures { result ≡ gap_of kind entry }
{
    match kind {
        TableKind::Dwell(_) => Warning::Unread(entry),
        TableKind::AppMon
        | TableKind::EventMon
        | TableKind::ExeCount
        | TableKind::MsgActs
        | TableKind::Ats(_)
        | TableKind::Rts(_)
        | TableKind::Eeprom
        | TableKind::Memory
        | TableKind::Wdt
        | TableKind::Adt => Warning::Gap(entry),
    }
}

/// The warning of the entry in a place, where it is unused and stands between used ones.
#[tactic(auto, unfolding(crate::specs::Warned::gap_at))]
fn gap_at(kind: TableKind, payload: &[u8], place: usize) -> Option<Warning>
    requires table { IsTable kind (length payload.now) }
    requires place { place < count_of kind }
    ensures { result ≡ gap_at kind payload.now place }
{
    if is_gap(kind, payload, place) {
        return Some(gap_of(kind, place as u32 + 1));
    }
    None
}

/// The warnings of all unused entries between used ones.
#[tactic(auto, unfolding(crate::specs::Warned::gaps_in))]
fn find_all_gaps(alloc: Global, kind: TableKind, payload: &[u8]) -> Result<Vec<Warning>, AllocError>
    requires { IsTable kind (length payload.now) }
    ensures { IfOk result (λ warnings. warnings.items ≡ gaps_in kind payload.now) }
{
    let mut warnings = Vec::new(alloc);
    for place in 0..count_of(kind) {
        add_warning(gap_at(kind, payload, place), &mut warnings)?;
    }
    Ok(warnings)
}

/// The warnings of unused entries between used ones; in a dwell table of the first alone.
fn find_gaps(alloc: Global, kind: TableKind, payload: &[u8]) -> Result<Vec<Warning>, AllocError>
    requires { IsTable kind (length payload.now) }
    ensures { IfOk result (λ warnings. warnings.items ≡ told_gaps kind (gaps_in kind payload.now)) }
{
    let mut warnings = find_all_gaps(alloc, kind, payload)?;
    match kind {
        TableKind::Dwell(_) => {
            warnings.truncate(1);
            Ok(warnings)
        }
        TableKind::AppMon
        | TableKind::EventMon
        | TableKind::ExeCount
        | TableKind::MsgActs
        | TableKind::Ats(_)
        | TableKind::Rts(_)
        | TableKind::Eeprom
        | TableKind::Memory
        | TableKind::Wdt
        | TableKind::Adt => Ok(warnings),
    }
}

/// The warning of the watchpoint in a place, where the limit checker never gets its packets.
#[tactic(auto, unfolding(crate::specs::Warned::unwatched_at))]
fn unwatched_at(payload: &[u8], place: usize) -> Option<Warning>
    requires table { length payload.now ≡ 512 }
    requires place { place < 32 }
    ensures { result ≡ unwatched_at payload.now place }
{
    let id = be16(payload, 16 * place + 2);
    if be16(payload, 16 * place) != 0 && !is_watched(id) {
        return Some(Warning::Unwatched(place as u32 + 1, id));
    }
    None
}

/// Warns of watchpoints whose packets the limit checker never gets.
#[tactic(auto, unfolding(crate::specs::Warned::unwatched_in))]
fn warn_unwatched(payload: &[u8], warnings: &mut Vec<Warning>) -> Result<(), AllocError>
    requires { length payload.now ≡ 512 }
    ensures { OnOk result (warnings.new.items ≡ warnings.old.items ++ unwatched_in payload.now) }
{
    for place in 0..32usize {
        add_warning(unwatched_at(payload, place), warnings)?;
    }
    Ok(())
}

/// Warns of what is odd in an absolute sequence, unless its loader refuses it.
fn warn_of_absolute(
    alloc: Global,
    payload: &[u8],
    warnings: &mut Vec<Warning>,
) -> Result<(), AllocError>
    ensures { OnOk result (warnings.new.items ≡ warnings.old.items
        ++ absolute_in (ats_of payload.now)) }
{
    match load_ats(payload) {
        Ok(ats) => warn_absolute(alloc, &ats, warnings),
        Err(_) => Ok(()),
    }
}

/// Warns of what is odd in relative sequence n, unless its loader refuses it.
fn warn_of_relative(
    alloc: Global,
    n: u8,
    payload: &[u8],
    warnings: &mut Vec<Warning>,
) -> Result<(), AllocError>
    requires { length payload.now ≤ 2048 }
    ensures { OnOk result (warnings.new.items ≡ warnings.old.items
        ++ relative_in n (rts_of payload.now)) }
{
    match load_rts(payload) {
        Ok(rts) => warn_relative(alloc, n, &rts, warnings),
        Err(_) => Ok(()),
    }
}
