//! Telecommands with dates in words.
ghost use Rattle.std.specs.Prelude.{◌≡◌, ◌∷◌, ◌++◌, [], Ok, codes, decimal};
ghost use Rattle.row_forms.specs.Words.{words};
ghost use Rattle.timed_plans.specs.Times.{dated_second, dated_word, dated_words, GivesWord, GivesWords};

use calendar_dates::{DateFault, Epoch, second_said};
use plan_text::{LineError, PlanReason};
use row_forms::{behind_key, push_decimal, split_word};

/// The second that a word says as `time=` and a date or a time of day.
#[tactic(auto, unfolding(crate::specs::Times::dated_second))]
fn dated_second(epoch: &Epoch, word: &[u8]) -> Option<Result<u32, DateFault>>
    ensures { result ≡ dated_second epoch.now word.now }
{
    match behind_key("time", word) {
        Some(text) => second_said(epoch, text),
        None => None,
    }
}

/// Appends a word, with a space in front.
fn put_word(word: &[u8], out: &mut Vec<u8>) -> Result<(), LineError>
    requires { words word.now ≡ word.now ∷ [] }
    ensures { GivesWord (Ok word.now) out.old.items out.new.items result }
{
    if let Err(error) = out.extend_from_slice(b" ") {
        return Err(LineError::Memory(error));
    }
    match out.extend_from_slice(word) {
        Ok(()) => Ok(()),
        Err(error) => Err(LineError::Memory(error)),
    }
}

/// Appends `time=` and a second, with a space in front.
fn put_second(second: u32, out: &mut Vec<u8>) -> Result<(), LineError>
    ensures { GivesWord (Ok (codes "time=" ++ decimal second)) out.old.items out.new.items result }
{
    if let Err(error) = out.extend_from_slice(b" time=") {
        return Err(LineError::Memory(error));
    }
    match push_decimal(second, out) {
        Ok(()) => Ok(()),
        Err(error) => Err(LineError::Memory(error)),
    }
}

/// Appends a word of a telecommand, with a space in front: `time=` and a date as `time=` and its second.
#[tactic(auto, unfolding(crate::specs::Times::dated_word))]
fn put_dated_word(
    epoch: &Epoch,
    number: usize,
    word: &[u8],
    out: &mut Vec<u8>,
) -> Result<(), LineError>
    requires { words word.now ≡ word.now ∷ [] }
    ensures { GivesWord (dated_word epoch.now number word.now) out.old.items out.new.items result }
{
    match dated_second(epoch, word) {
        Some(Ok(second)) => put_second(second, out),
        Some(Err(fault)) => Err(LineError::Because(PlanReason::Date(number, fault))),
        None => put_word(word, out),
    }
}

/// Puts the words of a telecommand, the first being the line's second, into a text, with seconds for dates. The bytes of `out` are lost.
pub(crate) fn put_dated(epoch: &Epoch, line: &[u8], out: &mut Vec<u8>) -> Result<(), LineError>
    ensures { GivesWords (dated_words epoch.now 2 (words line.now)) out.new.items result }
{
    out.clear();
    let mut rest = line;
    let mut number = 2;
    'words: while let Some((word, more)) = split_word(rest) {
        match put_dated_word(epoch, number, word, out) {
            Ok(()) => {
                rest = more;
                number += 1;
            }
            Err(error) => return Err(error),
        }
    }
    Ok(())
}
