//! The second of a clock that is bound to a date.
ghost use Rattle.std.specs.Prelude.{◌≡◌, ◌<◌, ◌≤◌, ◌^◌, IfOk, IfSome};
ghost use Rattle.calendar_dates.specs.Instants.{second_behind, gap_to, second_at, second_of_time, second_said};

use crate::date::{TimeOfDay, day_seconds, is_time_of_day};
use crate::fault::DateFault;
use crate::reading::{DAY_SECONDS, read_instant, read_time_of_day};

/// The second of a processor's clock, and the instant that is bound to it: seconds behind 1970-01-01T00:00:00Z.
#[derive(Clone, Copy, Debug, PartialEq, Eq)]
pub struct Epoch {
    pub second: u32,
    pub instant: Option<u64>,
}

/// The second so many behind another one.
#[tactic(auto, unfolding(crate::specs::Instants::second_behind))]
fn second_behind(second: u32, gap: u64) -> Result<u32, DateFault>
    requires { gap < 2 ^ 40 }
    ensures value { result ≡ second_behind second gap }
    ensures from { IfOk result (λ n. second ≤ n) }
{
    let later = u64::from(second) + gap;
    if later <= 4_294_967_295 {
        return Ok(later as u32);
    }
    Err(DateFault::Late)
}

/// How long behind an instant its clock has a time of day first, so many seconds behind midnight.
#[tactic(auto, unfolding(crate::specs::Instants::gap_to))]
fn gap_to(instant: u64, time: u64) -> u64
    requires { time < 86400 }
    ensures value { result ≡ gap_to instant time }
    ensures bound { result < 86400 }
{
    let passed = instant % DAY_SECONDS;
    if passed <= time {
        return time - passed;
    }
    time + DAY_SECONDS - passed
}

/// The second of an instant.
fn second_at(epoch: &Epoch, instant: u64) -> Result<u32, DateFault>
    requires { instant < 2 ^ 40 }
    ensures value { result ≡ second_at epoch.now.second epoch.now.instant instant }
    ensures from { IfOk result (λ n. epoch.now.second ≤ n) }
{
    let Some(first) = epoch.instant else {
        return Err(DateFault::Unbound);
    };
    if instant < first {
        return Err(DateFault::Early);
    }
    second_behind(epoch.second, instant - first)
}

/// The second at which a time of day comes first.
fn second_of_time(epoch: &Epoch, time: &TimeOfDay) -> Result<u32, DateFault>
    ensures value { result ≡ second_of_time epoch.now time.now }
    ensures from { IfOk result (λ n. epoch.now.second ≤ n) }
{
    if !is_time_of_day(time) {
        return Err(DateFault::Clock);
    }
    let Some(first) = epoch.instant else {
        return Err(DateFault::Unbound);
    };
    second_behind(epoch.second, gap_to(first, day_seconds(time)))
}

/// The second that a text says: `YYYY-MM-DDTHH:MM:SSZ`, or `HH:MM:SS` for the first such time of day that isn't before the epoch. None where
/// the text has another form.
#[tactic(auto, unfolding(crate::specs::Instants::second_said))]
pub fn second_said(epoch: &Epoch, text: &[u8]) -> Option<Result<u32, DateFault>>
    ensures value { result ≡ second_said epoch.now text.now }
    ensures from { IfSome result (λ r. IfOk r (λ n. epoch.now.second ≤ n)) }
{
    match read_instant(text) {
        Some(Ok(instant)) => Some(second_at(epoch, instant)),
        Some(Err(fault)) => Some(Err(fault)),
        None => match read_time_of_day(text) {
            Some(time) => Some(second_of_time(epoch, &time)),
            None => None,
        },
    }
}
