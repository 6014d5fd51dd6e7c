//! Dates and times of day of a text.
ghost use Rattle.std.specs.Prelude.{◌≡◌, ◌<◌, ◌^◌, IfSome, IfOk};
ghost use Rattle.calendar_dates.specs.Instants.{date_of, date_said, time_of, time_of_day_said, instant_at, instant_said};

use crate::date::{Date, TimeOfDay, day_seconds, is_date, is_time_of_day};
use crate::day::day_number;
use crate::fault::DateFault;
use packet_forms::{behind, front};
use row_forms::number;

/// How many seconds a day has.
pub(crate) const DAY_SECONDS: u64 = 86_400;

/// A date of these numbers.
fn date_of(year: Option<u32>, month: Option<u32>, day: Option<u32>) -> Option<Date>
    ensures { result ≡ date_of year month day }
{
    match (year, month, day) {
        (Some(year), Some(month), Some(day)) => Some(Date { year, month, day }),
        _ => None,
    }
}

/// The numbers that `YYYY-MM-DD` says.
#[tactic(auto, unfolding(crate::specs::Instants::date_said))]
fn read_date(text: &[u8]) -> Option<Date>
    ensures { result ≡ date_said text.now }
{
    if text.len() != 10 || text[4] != b'-' || text[7] != b'-' {
        return None;
    }
    let year = number(9999, front(text, 4));
    let month = number(99, front(behind(text, 5), 2));
    let day = number(99, behind(text, 8));
    date_of(year, month, day)
}

/// A time of day of these numbers.
fn time_of(hours: Option<u32>, minutes: Option<u32>, seconds: Option<u32>) -> Option<TimeOfDay>
    ensures { result ≡ time_of hours minutes seconds }
{
    match (hours, minutes, seconds) {
        (Some(hours), Some(minutes), Some(seconds)) => Some(TimeOfDay {
            hours,
            minutes,
            seconds,
        }),
        _ => None,
    }
}

/// The numbers that `HH:MM:SS` says.
#[tactic(auto, unfolding(crate::specs::Instants::time_of_day_said))]
pub(crate) fn read_time_of_day(text: &[u8]) -> Option<TimeOfDay>
    ensures { result ≡ time_of_day_said text.now }
{
    if text.len() != 8 || text[2] != b':' || text[5] != b':' {
        return None;
    }
    let hours = number(99, front(text, 2));
    let minutes = number(99, front(behind(text, 3), 2));
    let seconds = number(99, behind(text, 6));
    time_of(hours, minutes, seconds)
}

/// The instant of a date and a time of day.
#[tactic(auto, unfolding(crate::specs::Instants::instant_at))]
fn instant_at(date: &Date, time: &TimeOfDay) -> Result<u64, DateFault>
    ensures value { result ≡ instant_at date.now time.now }
    ensures bound { IfOk result (λ n. n < 2 ^ 40) }
{
    if !is_date(date) {
        return Err(DateFault::Day);
    }
    if !is_time_of_day(time) {
        return Err(DateFault::Clock);
    }
    Ok(DAY_SECONDS * day_number(date) + day_seconds(time))
}

/// The instant that `YYYY-MM-DDTHH:MM:SSZ` says: how many seconds behind 1970-01-01T00:00:00Z, in the Gregorian calendar, without leap
/// seconds. None where the text has another form.
#[tactic(auto, unfolding(crate::specs::Instants::instant_said))]
pub fn read_instant(text: &[u8]) -> Option<Result<u64, DateFault>>
    ensures value { result ≡ instant_said text.now }
    ensures bound { IfSome result (λ r. IfOk r (λ n. n < 2 ^ 40)) }
{
    if text.len() != 20 || text[10] != b'T' || text[19] != b'Z' {
        return None;
    }
    let date = read_date(front(text, 10));
    let time = read_time_of_day(front(behind(text, 11), 8));
    match (date, time) {
        (Some(date), Some(time)) => Some(instant_at(&date, &time)),
        _ => None,
    }
}
