//! Dates and times of day.
ghost use Rattle.std.specs.Prelude.{◌≡◌};
ghost use Rattle.calendar_dates.specs.Calendar.{is_leap, year_days, month_days, is_date, is_time_of_day, day_seconds};

/// A date, by its numbers: of which each counts from 1.
#[derive(Clone, Copy, Debug, PartialEq, Eq)]
pub struct Date {
    pub year: u32,
    pub month: u32,
    pub day: u32,
}

/// A time of day, by its numbers: of which each counts from 0.
#[derive(Clone, Copy, Debug, PartialEq, Eq)]
pub struct TimeOfDay {
    pub hours: u32,
    pub minutes: u32,
    pub seconds: u32,
}

/// Whether a year has a 29th of February.
fn is_leap(year: u32) -> bool
    ensures { result ≡ is_leap year }
{
    (year % 4 == 0 && year % 100 != 0) || year % 400 == 0
}

/// How many days a year has.
#[tactic(auto, unfolding(crate::specs::Calendar::year_days))]
pub(crate) fn year_days(year: u32) -> u64
    ensures { result ≡ year_days year }
{
    if is_leap(year) { 366 } else { 365 }
}

/// How many days a month has.
#[tactic(auto, unfolding(crate::specs::Calendar::month_days))]
pub(crate) fn month_days(year: u32, month: u32) -> u64
    ensures { result ≡ month_days year month }
{
    match month {
        2 => { if is_leap(year) { 29 } else { 28 } }
        4 | 6 | 9 | 11 => 30,
        _ => 31,
    }
}

/// Whether there is this date, in the years 1970 to 2199.
pub(crate) fn is_date(date: &Date) -> bool
    ensures { result ≡ is_date date.now }
{
    1970 <= date.year
        && date.year <= 2199
        && 1 <= date.month
        && date.month <= 12
        && 1 <= date.day
        && u64::from(date.day) <= month_days(date.year, date.month)
}

/// Whether there is this time of day.
pub(crate) fn is_time_of_day(time: &TimeOfDay) -> bool
    ensures { result ≡ is_time_of_day time.now }
{
    time.hours < 24 && time.minutes < 60 && time.seconds < 60
}

/// The seconds of a time of day behind midnight.
pub(crate) fn day_seconds(time: &TimeOfDay) -> u64
    ensures { result ≡ day_seconds time.now }
{
    3600 * u64::from(time.hours) + 60 * u64::from(time.minutes) + u64::from(time.seconds)
}
