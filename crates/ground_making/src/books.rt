//! Books among the texts that are read.

ghost use Rattle.std.specs.Prelude.{◌≡◌, ◌≢◌, ◌<◌, ◌+◌, ◌^◌, true, length, IfOk, IfErr, Option, ℕ};
ghost use Rattle.load_books.specs.Books.{is_book_text};
ghost use Rattle.ground_making.specs.declared.making.Making.TheVariants as makings;
ghost use Rattle.ground_making.specs.declared.making.Refusal.TheVariants as refusals;
ghost use Rattle.ground_making.specs.Made.{IsScenarioOfBook};
ghost use Rattle.ground_making.specs.Refused.{book_error_refusal, IsRefusedFor};

use crate::making::{MOST_BYTES, Refusal};
use load_books::{BookError, book_forms, is_book_text, read_book};
use std::alloc::Global;

impl From<BookError> for Refusal {
    ghost from_gives = { λ error refusal. refusal ≡ book_error_refusal error };

    fn from(error: BookError) -> Refusal {
        match error {
            BookError::Memory(_) => Refusal::Memory,
            BookError::Book(fault) => Refusal::Book(fault),
        }
    }
}

/// Whether bytes are the text of a book, and no more than one has.
pub fn is_book(bytes: &[u8]) -> bool
    ensures short { result ≡ true → 1 + length bytes.now < 2 ^ 32 }
    ensures exact { 1 + length bytes.now < 2 ^ 32 → result ≡ is_book_text bytes.now }
{
    bytes.len() <= MOST_BYTES && is_book_text(bytes)
}

/// The scenario of a book.
pub(crate) fn book_scenario(alloc: Global, text: &[u8]) -> Result<Vec<u8>, Refusal>
    requires short { 1 + length text.now < 2 ^ 32 }
    requires book { is_book_text text.now ≡ true }
    ensures made { IfOk result (λ scenario. IsScenarioOfBook text.now scenario.items) }
    ensures refused { IfErr result (λ refusal. (epoch : Option ℕ) → refusal ≢ refusals.Memory
        → IsRefusedFor makings.Scenario epoch text.now refusal) }
{
    match read_book(alloc, &book_forms(), text) {
        Ok(book) => Ok(book.scenario),
        Err(error) => Err(Refusal::from(error)),
    }
}
