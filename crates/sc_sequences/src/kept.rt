//! A cursor in eight bytes.
ghost use Rattle.std.specs.Prelude.{◌≡◌, ◌<◌, Some, None, false, IfSome};
ghost use Rattle.sc_sequences.specs.Cursors.{key_of};
ghost use Rattle.sc_sequences.specs.Kept.{span_of};

use crate::cursors::Cursor;
use std::marker::Model;

/// How many keys a second has: one for each place of a sequence, and some over.
pub(crate) const KEYS_A_SECOND: u64 = 128;

/// The key of a sequence that doesn't run: over all others.
pub(crate) const NO_KEY: u64 = u64::MAX;

/// In which of the spans of 2^32 seconds a time lies, where there is one.
#[derive(Clone, Copy, Debug, PartialEq, Eq)]
enum Span {
    Never,
    First,
    Second,
}

/// A cursor as the state keeps it. Cursors are most of the state, which is copied in each wakeup that does something.
#[derive(Clone, Copy, Debug, PartialEq, Eq)]
pub(crate) struct KeptCursor {
    low: u32,
    at: u16,
    span: Span,
    enabled: bool,
}

impl Model for KeptCursor {
    ghost use Rattle.sc_sequences.specs.declared.cursors.Cursor.{Cursor};

    ghost Value = { Cursor };

    ghost use Rattle.sc_sequences.specs.Kept.{time_of, span_of, low_of, IsKept};
    ghost use Rattle.sc_sequences.specs.KeptLaws.{kept_back};

    ghost view = { λ k. record { next = time_of k.span k.low; at = k.at; enabled = k.enabled } };

    ghost invariant = { λ k. IsKept k.span k.low };

    ghost inverse = { λ c. record {
      low = low_of c.next;
      at = c.at;
      span = span_of c.next;
      enabled = c.enabled;
    } };

    ghost inverse_ok = { λ k kept. kept_back k.span k.low k.at k.enabled kept };
}

impl KeptCursor {
    /// The cursor of a sequence that doesn't run and may not be started.
    pub(crate) fn waiting() -> KeptCursor
        ensures { result ≡ record { next = None; at = 0; enabled = false } }
    {
        KeptCursor {
            low: 0,
            at: 0,
            span: Span::Never,
            enabled: false,
        }
    }

    /// A cursor as it is kept: its command is below 65,536, and its time below 2^33.
    pub(crate) fn of(cursor: Cursor) -> KeptCursor
        requires at { cursor.at < 65536 }
        requires time { IfSome cursor.next (λ time. time < 8589934592) }
        ensures { result ≡ cursor }
    {
        match cursor.next {
            None => KeptCursor {
                low: 0,
                at: cursor.at as u16,
                span: Span::Never,
                enabled: cursor.enabled,
            },
            Some(time) => KeptCursor {
                low: (time % 4294967296) as u32,
                at: cursor.at as u16,
                span: span_of(time),
                enabled: cursor.enabled,
            },
        }
    }

    /// The cursor.
    #[inline(always)]
    pub(crate) fn cursor(&self) -> Cursor
        ensures cursor { result ≡ self.now }
        ensures at { result.at < 65536 }
        ensures time { IfSome result.next (λ time. time < 8589934592) }
    {
        Cursor {
            next: self.next(),
            at: u32::from(self.at),
            enabled: self.enabled,
        }
    }

    /// The time of the next command and the place of the sequence in one number: the earlier time has the lower one, and of equal times the
    /// earlier place.
    #[inline(always)]
    pub(crate) fn key(&self, place: usize) -> u64
        requires { place < 66 }
        ensures { result ≡ key_of place self.now.next }
    {
        match self.span {
            Span::Never => NO_KEY,
            Span::First => KEYS_A_SECOND * u64::from(self.low) + place as u64,
            Span::Second => KEYS_A_SECOND * (u64::from(self.low) + 4294967296) + place as u64,
        }
    }

    /// The time of the next command.
    #[inline(always)]
    fn next(&self) -> Option<u64>
        ensures next { result ≡ self.now.next }
        ensures small { IfSome result (λ time. time < 8589934592) }
    {
        match self.span {
            Span::Never => None,
            Span::First => Some(u64::from(self.low)),
            Span::Second => Some(u64::from(self.low) + 4294967296),
        }
    }
}

/// The span in which a time lies.
fn span_of(time: u64) -> Span
    requires { time < 8589934592 }
    ensures { result ≡ span_of (Some time) }
{
    if time < 4294967296 {
        Span::First
    } else {
        Span::Second
    }
}
