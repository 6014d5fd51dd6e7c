//! What is odd in sequences.
ghost use Rattle.std.specs.Prelude.{◌≡◌, ◌+◌, ◌++◌, ◌∷◌, [], OnOk};
ghost use Rattle.sc_tables.specs.Sequences.{timed_commands, relative_commands};
ghost use Rattle.table_warnings.specs.Warned.{crowded_last, is_later, end_behind, timed_warnings, absolute_in, relative_warnings, relative_in};

use crate::adding::warn_if;
use crate::commands::{ends_absolute, is_ninth, starts_relative};
use crate::warning::{Place, Warning};
use sc_tables::{Ats, Relative, Rts, Timed};
use std::alloc::{AllocError, Global};

/// Whether an end is earlier than a time.
fn is_later(end: Option<u32>, time: u32) -> bool
    ensures { result ≡ is_later end time }
{
    match end {
        Some(end) => end < time,
        None => false,
    }
}

/// The time of the first command that ends its sequence, with one more command.
fn end_behind(end: Option<u32>, command: &Timed) -> Option<u32>
    ensures { result ≡ end_behind end command.now }
{
    if end.is_some() {
        return end;
    }
    if ends_absolute(&command.packet) {
        return Some(command.tag);
    }
    None
}

/// Appends the time of a command, and warns where it is the ninth of its second.
#[tactic(auto, unfolding(crate::specs::Warned::crowded_last))]
fn push_time(
    place: Place,
    time: u32,
    times: &mut Vec<u32>,
    warnings: &mut Vec<Warning>,
) -> Result<(), AllocError>
    ensures times { OnOk result (times.new.items ≡ times.old.items ++ time ∷ []) }
    ensures told { OnOk result (warnings.new.items ≡ warnings.old.items
        ++ crowded_last place (times.old.items ++ time ∷ [])) }
{
    let before = times.len();
    times.push(time)?;
    let is_crowded = is_ninth(times, before);
    warn_if(is_crowded, Warning::Crowded(place), warnings)
}

/// Warns of a command of an absolute sequence, and appends its time.
fn warn_timed(
    command: &Timed,
    end: Option<u32>,
    times: &mut Vec<u32>,
    warnings: &mut Vec<Warning>,
) -> Result<(), AllocError>
    ensures times { OnOk result (times.new.items ≡ times.old.items ++ command.now.tag ∷ []) }
    ensures told { OnOk result (warnings.new.items ≡ warnings.old.items
        ++ timed_warnings command.now end (times.old.items ++ command.now.tag ∷ [])) }
{
    let place = Place::Number(command.number);
    warn_if(
        !command.packet.checksum_ok(),
        Warning::WrongChecksum(place),
        warnings,
    )?;
    let is_behind = is_later(end, command.tag);
    warn_if(is_behind, Warning::BehindEnd(place), warnings)?;
    push_time(place, command.tag, times, warnings)
}

/// Warns of what is odd in an absolute sequence, by time and then by number.
pub(crate) fn warn_absolute(
    alloc: Global,
    ats: &Ats<'_>,
    warnings: &mut Vec<Warning>,
) -> Result<(), AllocError>
    ensures { OnOk result (warnings.new.items ≡ warnings.old.items
        ++ absolute_in (timed_commands ats.now)) }
{
    let mut times = Vec::new(alloc);
    let mut end: Option<u32> = None;
    for k in 0..ats.len() {
        let command = ats.command(k);
        warn_timed(&command, end, &mut times, warnings)?;
        end = end_behind(end, &command);
    }
    Ok(())
}

/// Warns of a command of relative sequence n, and appends its time.
fn warn_delayed(
    n: u8,
    command: &Relative,
    entry: u32,
    time: u32,
    times: &mut Vec<u32>,
    warnings: &mut Vec<Warning>,
) -> Result<(), AllocError>
    ensures times { OnOk result (times.new.items ≡ times.old.items ++ time ∷ []) }
    ensures told { OnOk result (warnings.new.items ≡ warnings.old.items
        ++ relative_warnings n command.now entry (times.old.items ++ time ∷ [])) }
{
    let place = Place::Entry(entry);
    warn_if(
        !command.packet.checksum_ok(),
        Warning::WrongChecksum(place),
        warnings,
    )?;
    let is_own = starts_relative(n, &command.packet);
    warn_if(is_own, Warning::StartsItself(entry), warnings)?;
    push_time(place, time, times, warnings)
}

/// Warns of what is odd in a relative sequence, as its commands are stored.
pub(crate) fn warn_relative(
    alloc: Global,
    n: u8,
    rts: &Rts<'_>,
    warnings: &mut Vec<Warning>,
) -> Result<(), AllocError>
    ensures { OnOk result (warnings.new.items ≡ warnings.old.items
        ++ relative_in n (relative_commands rts.now)) }
{
    let mut times = Vec::new(alloc);
    let mut time: u32 = 0;
    for k in 0..rts.len() {
        let command = rts.command(k);
        time = time.saturating_add(u32::from(command.tag));
        warn_delayed(n, &command, k + 1, time, &mut times, warnings)?;
    }
    Ok(())
}
