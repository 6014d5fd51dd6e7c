//! Laws of dates, as contracts of functions that do nothing.
ghost use Rattle.std.specs.Prelude.{◌≡◌, ◌≤◌, ◌<◌, ◌+◌, ◌%◌, ℕ, true, false, codes, Some, None, Ok, Err};
ghost use Rattle.calendar_dates.specs.declared.date.Date.{Date};
ghost use Rattle.calendar_dates.specs.declared.fault.DateFault.TheVariants as faults;
ghost use Rattle.calendar_dates.specs.Calendar.{date, is_date, day_number, next_day};
ghost use Rattle.calendar_dates.specs.Instants.{gap_to, instant_said, second_said, bound, unbound};

/// The day behind a date is a date, up to 2199-12-31, and its number is one more.
pub fn days_follow()
    ensures dates { (d : Date) → is_date d ≡ true → (next_day d).year ≤ 2199
        → is_date (next_day d) ≡ true }
    ensures numbers { (d : Date) → is_date d ≡ true → day_number (next_day d) ≡ day_number d + 1 }
{}

/// No two dates have one number.
pub fn dates_have_their_numbers()
    ensures { (d e : Date) → is_date d ≡ true → is_date e ≡ true → day_number d ≡ day_number e
        → d ≡ e }
{}

/// A time of day comes first at most a day behind an instant, and no second of a day later.
pub fn times_come_first()
    ensures { (instant time : ℕ) → time < 86400 → ((instant + gap_to instant time) % 86400 ≡ time)
        × (gap_to instant time < 86400) }
{}

/// Days by their dates, and dates that there aren't.
pub fn worked_days()
    ensures first { day_number (date 1970 1 1) ≡ 0 }
    ensures leap { day_number (date 2000 2 29) ≡ 11016 }
    ensures first_of_march { day_number (date 2000 3 1) ≡ 11017 }
    ensures no_leap { day_number (date 2026 3 1) ≡ 20513 }
    ensures today { day_number (date 2026 11 29) ≡ 20786 }
    ensures century { day_number (date 2100 3 1) ≡ 47541 }
    ensures last { day_number (date 2199 12 31) ≡ 84005 }
    ensures behind { next_day (date 2028 2 28) ≡ date 2028 2 29 }
    ensures year { next_day (date 2026 12 31) ≡ date 2027 1 1 }
    ensures february { is_date (date 2026 2 30) ≡ false }
    ensures no_leap_day { is_date (date 2100 2 29) ≡ false }
    ensures month { is_date (date 2026 13 1) ≡ false }
    ensures early { is_date (date 1969 12 31) ≡ false }
{}

/// What texts say where second 1000 is 2026-11-29T18:00:00Z.
pub fn worked_seconds()
    ensures instant { instant_said (codes "2026-11-29T18:00:00Z") ≡ Some (Ok 1795975200) }
    ensures date { second_said bound (codes "2026-11-29T18:03:05Z") ≡ Some (Ok 1185) }
    ensures time { second_said bound (codes "18:03:05") ≡ Some (Ok 1185) }
    ensures epoch { second_said bound (codes "18:00:00") ≡ Some (Ok 1000) }
    ensures tomorrow { second_said bound (codes "17:59:59") ≡ Some (Ok 87399) }
    ensures day { second_said bound (codes "2026-02-30T00:00:00Z") ≡ Some (Err faults.Day) }
    ensures clock { second_said bound (codes "2026-11-29T24:00:00Z") ≡ Some (Err faults.Clock) }
    ensures minute { second_said bound (codes "23:60:00") ≡ Some (Err faults.Clock) }
    ensures early { second_said bound (codes "2026-11-29T17:59:59Z") ≡ Some (Err faults.Early) }
    ensures late { second_said bound (codes "2199-01-01T00:00:00Z") ≡ Some (Err faults.Late) }
    ensures unbound { second_said unbound (codes "18:03:05") ≡ Some (Err faults.Unbound) }
    ensures span { second_said bound (codes "+1:02:03") ≡ None }
    ensures number { second_said bound (codes "1000") ≡ None }
    ensures form { second_said bound (codes "2026-11-29") ≡ None }
{}
