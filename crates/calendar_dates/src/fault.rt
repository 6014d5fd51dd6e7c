//! Why a text says no second.

use thiserror::Error;

/// What is wrong with a date or with a time of day.
#[derive(Clone, Copy, Debug, PartialEq, Eq, Error)]
pub enum DateFault {
    /// The text has another form.
    #[error("a date has the form 2026-11-29T18:00:00Z")]
    Form,
    /// The month or the day doesn't exist, or the year is out of range.
    #[error("the years 1970 to 2199 have no such day")]
    Day,
    /// The time of day doesn't exist.
    #[error("a time of day lies from 00:00:00 to 23:59:59")]
    Clock,
    /// No date is bound to the epoch.
    #[error("a date or a time of day stands only where the header has `epoch N is DATE`")]
    Unbound,
    /// The date lies before the epoch's.
    #[error("the date is before the epoch's")]
    Early,
    /// The processor's clock has no second for the date.
    #[error("the date is behind the last second that the clock can have, 4294967295")]
    Late,
}
