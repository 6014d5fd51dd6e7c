//! The time from which a scenario counts.

ghost use Rattle.std.specs.Prelude.{◌≡◌};
ghost use Rattle.load_books.specs.Scenarios.{epoch_said};
ghost use Rattle.book_rehearsals.specs.Beginnings.{IsShort};

use ground_making::MOST_BYTES;
use load_books::text_epoch;

/// The epoch of a scenario of any length: one that is longer than an input may be has none.
pub(crate) fn epoch_of(text: &[u8]) -> Option<u32>
    ensures { IsShort text.now → result ≡ epoch_said text.now }
{
    if text.len() > MOST_BYTES {
        return None;
    }
    text_epoch(text)
}
