//! The number of a day.
ghost use Rattle.std.specs.Prelude.{◌≡◌, ◌≤◌, ◌<◌, ◌-◌, ◌*◌, true};
ghost use Rattle.calendar_dates.specs.Calendar.{days_of_years, days_of_months, day_number, is_date};

use crate::date::{Date, month_days, year_days};

/// The first year.
const FIRST_YEAR: u32 = 1970;

/// The days of so many years from 1970 on.
fn days_of_years(count: u32) -> u64
    requires { count < 230 }
    ensures value { result ≡ days_of_years count }
    ensures bound { result ≤ 366 * count }
{
    let mut days = 0;
    for passed in 0..count {
        days += year_days(FIRST_YEAR + passed);
    }
    days
}

/// The days of the first so many months of a year.
fn days_of_months(year: u32, count: u32) -> u64
    requires { count < 12 }
    ensures value { result ≡ days_of_months year count }
    ensures bound { result ≤ 31 * count }
{
    let mut days = 0;
    for passed in 0..count {
        days += month_days(year, passed + 1);
    }
    days
}

/// How many days lie before a date, from 1970-01-01 on.
#[tactic(auto, unfolding(crate::specs::Calendar::day_number))]
pub(crate) fn day_number(date: &Date) -> u64
    requires { is_date date.now ≡ true }
    ensures value { result ≡ day_number date.now }
    ensures bound { result < 100000 }
{
    days_of_years(date.year - FIRST_YEAR)
        + days_of_months(date.year, date.month - 1)
        + u64::from(date.day - 1)
}
